//! The facts that hold of every walk that takes several events, between any two of them.
//!
//! Steps 3 to 9 of "Process to locate the Device-context" and the "Virtual Address Translation Process" say what a walk
//! loads (RISC-V IOMMU Architecture Specification 1.0, section 2.3.1; Privileged Architecture, "Sv39"), and neither that
//! it does so at once. A walk that is under way stands in tables that the driver may meanwhile give back, or in a table
//! of the guest's own, which may be released. What keeps it from loading there too late is that every IOTINVAL and every
//! IODIR has each walk begin anew, and that a ticket's fence stands behind such a command.
//!
//! This crate is layered upon `iom_coherence`, which has the same of all copies of a grant: a scene of that crate, and
//! the walks beside it. It has no code: `specs/Walks.antt` has the values, `specs/Faithful.antt` what is claimed of each
//! walk, `specs/Transitions.antt` what hardware and driver do. [`walk_law`] keeps the facts, [`standing_law`] says what
//! follows. `iom_world_effects` has these facts in the invariant of a world, in which no walk is under way yet.
#![tactic(auto)]

mod laws;

pub use laws::{scene_law, standing_law, walk_law, worked_law};
