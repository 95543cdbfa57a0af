//! The parts of a world together: what each event does to memory, IOMMU, driver, devices and messages, what a world
//! of such parts shows of the ledger machine's state, and what stays true between them.
//!
//! It is definitions and lemmas on them, over values alone. The layers above may rely on the definitions: on what
//! `Effect` says of each event, and on which facts are invariants, so that no copy of a translation outlives its ticket
//! (RISC-V IOMMU Architecture Specification, section 3.1 and chapter 5). `iom_world_invariant` proves that each event keeps
//! these facts, and `iom_world_refinement` that it is a lawful step of the ledger machine. Of code there is
//! [`laws_below`] alone, which brings the laws of the layers below.
#![tactic(auto)]

mod below;

pub use below::laws_below;
