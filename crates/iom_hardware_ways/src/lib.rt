//! Hardware as the facts on ways see it, and what follows of its calls.
//!
//! `iom_reach` says by which ways a device can still reach a frame, over plain values. Here are these values of a hardware:
//! its *scene*, read off memory, registers, caches, devices and messages (RISC-V IOMMU Architecture Specification 1.0,
//! chapters 2, 3 and 5; PCI Express Base Specification, chapter 10). Each call of `iom_board` is proved to be a list of
//! the transitions of which `iom_reach` speaks. So no list of calls adds a way, whatever devices ask and send, and in
//! whatever order the IOMMU works.
//!
//! Entries of page tables can be read by another format, that of walks which know leaves of 64 KiB too (RISC-V Privileged
//! Architecture, "Svnapot"): it finds all that theirs does, for the layers above that have such walks.
//!
//! It has no code. `specs/Formats.antt` says how memory is read, `specs/Scenes.antt` what the scene is,
//! `specs/Calls.antt` what is called in turn, `specs/Laws.antt` what is proved.
#![tactic(auto)]

mod laws;

pub use laws::{call_law, napot_law, walk_law, ways_law};
