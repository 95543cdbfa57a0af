//! The facts that hold of every copy of a grant, between any two events.
//!
//! What a device may reach is in the ledger. What it does reach is in copies: cached device contexts and
//! translations, entries of devices' own caches and answers on their way to them, accesses that were
//! accepted. A page that was released may still stand in any of these. They are kept true to the ledger by
//! the commands of the RISC-V IOMMU Architecture Specification 1.0, section 3.1 (IOTINVAL, IODIR.INVAL_DDT,
//! ATS.INVAL, IOFENCE.C), and by address translation services, PCI Express Base Specification, chapter 10.
//!
//! This crate has no code, and knows no byte, table or register: `specs/Scene.antt` has what the facts speak
//! of, as plain values; `specs/Faithful.antt` has the facts, one for each kind of copy;
//! `specs/Transitions.antt` says what hardware and driver do to these values. The layers above show that each
//! event is such transitions, and rely on the laws: [`reclaim_law`] keeps the facts, the others say what
//! follows from them.
#![tactic(auto)]

mod laws;

pub use laws::{current_law, fence_law, forgotten_law, reachable_law, reclaim_law, worked_law};
