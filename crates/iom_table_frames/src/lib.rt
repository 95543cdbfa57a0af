//! The frames of memory that are reserved for tables and queues, each for its owner, and the choice of
//! a free frame for one more table.
//!
//! A frame that a page table of the IOMMU lies in must be written by nobody but the driver (RISC-V
//! IOMMU Architecture Specification, section 2, "Data Structures"): so a table takes a frame that is
//! neither reserved nor held, nor still reached, by any device. Whether a frame is reserved is said here
//! and nowhere else. The layer above may rely on the highest such frame being the one that is found,
//! whatever ledger is lent, and on a frame that is taken or given back changing its own owner and bytes
//! alone; the ledger is only read.
#![tactic(auto)]

mod fours;
mod table_frames;

pub use table_frames::TableFrames;
