// The register file: tables of steps, and what is read after each (RISC-V IOMMU Architecture Specification, chapter 5).
mod accesses;
mod queues;
mod statuses;
mod steps;
