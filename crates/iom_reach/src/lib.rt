//! What a device can still reach, whatever hardware and devices do by themselves.
//!
//! Software that withdraws a page, or gives a frame to somebody else, wants to know that no copy is left by which a device
//! could still reach it: no entry of a table, no cached context or translation, no entry of a device's own cache, no answer
//! on its way there, no access that was accepted. This crate says what such *ways* are (RISC-V IOMMU Architecture
//! Specification 1.0, chapters 2 and 3; PCI Express Base Specification, chapter 10), and proves that hardware and devices
//! add none by themselves, where none of them can write what hardware reads.
//!
//! It has no code, and knows no byte and no register: memory is read by any formats. `specs/Scene.antt` has the values,
//! `specs/Ways.antt` the ways, `specs/Safe.antt` what must hold beside them, `specs/Transitions.antt` what hardware and
//! devices do, `specs/Laws.antt` what is proved.
#![tactic(auto)]

mod laws;

pub use laws::{reach_law, shared_law, taken_law, wider_law};
