//! The ways that devices have in hardware that caches pointers to tables, and that no call of hardware adds one.
//!
//! Hardware may cache entries that aren't leaves (RISC-V IOMMU Architecture Specification 1.0, section 2.8, "Caching
//! in-memory data structures"): a walk of their address space may then begin at the table that they name, whatever memory
//! has above it by now. `specs/Scenes.antt` adds such walks to the scene of the hardware itself, `specs/Calls.antt` says
//! what such hardware does beside its calls: a translation that is found from a pointer is cached, pointers that a walk
//! passes are. Walks may know leaves of 64 KiB too (RISC-V Privileged Architecture, "Svnapot"): all is said of both. The
//! layers above may rely on [`laws`]: what pointers add to the ways of devices, and to what hardware reads; that pointers
//! which are followed are passed; and that no list of calls adds a way.
#![tactic(auto)]

pub mod laws;
