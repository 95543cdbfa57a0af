//! The register file of the IOMMU: which register stands where, what a read of it gives and what a write
//! leaves, and what the hardware itself changes.
//!
//! The registers are those of the RISC-V IOMMU Architecture Specification 1.0, chapter 5
//! ("Memory-mapped register interface"): `specs/Table.antt` is its table, register by register, to
//! be read beside it; the bits of each register, and which of them a write clears, are
//! `specs/Fields.antt`. A driver reaches them through [`Mmio`], and may be proved over any value
//! that meets it; the queues reach [`Registers`] by its methods, each of which says the whole value
//! that it leaves. The layers above speak of the registers by the words of `specs/Queues.antt`, and
//! never by fields.
//!
//! Where the specification leaves a choice: a register is accessed at its own offset and with its own
//! width; writes take effect at once, so that `busy` reads 0 and `cqon` and `fqon` are `cqen` and `fqen`; a
//! write of `ddtp` with a mode that doesn't exist, of `cqb` while `cqon` is 1, and of `fqb` while `fqon` is
//! 1, is ignored; `fctl` can't be written. A write of an index keeps it modulo the queue's size, and
//! whatever is kept is read modulo the size that the queue has then, also where `cqb` or `fqb` was written
//! in between.
#![tactic(auto)]

mod commands;
mod directory;
mod faults;
mod fields;
mod flags;
mod indices;
pub mod laws;
mod mmio;
mod queue_base;
mod register;
mod registers;
mod status;

pub use directory::{DirectoryMode, DirectoryPointer};
pub use flags::{Cqcsr, Fqcsr, Ipsr};
pub use indices::index_after;
pub use mmio::Mmio;
pub use queue_base::QueueBase;
pub use register::{RegFault, Register};
pub use registers::Registers;
