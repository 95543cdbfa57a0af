//! A walk of the device directory or of page tables, cut at each of its loads, and what it has in common with a whole one.
//!
//! A whole walk, [`walk_first`](iom_stage_walk::walk_first) and the like, makes all its loads of one memory. Hardware
//! that walks beside a running processor makes them one by one, each from memory as it is at that moment (RISC-V IOMMU
//! Architecture Specification, section 2.3; RISC-V Privileged Architecture, section 12.3.2). `specs/Loads.antt` says
//! what one load makes of such a walk, `specs/Tables.antt` and `specs/Directory.antt` which loads walks make. Nothing
//! here has code: each public function has an empty body, and its contract is a law.
#![tactic(auto)]

mod laws;

pub use laws::{bound_law, whole_law};
