//! The command queue of the IOMMU: commands of 16 bytes, the ring that they stand in, and the slots of
//! invalidation requests that devices have still to complete.
//!
//! RISC-V IOMMU Architecture Specification, section 3.1, "Command-Queue (CQ)". The layers above may
//! rely on three things. [`Command::decode`] and [`Command::encode`] are exact to the grammar of
//! commands, `specs/Formats.antt`; which bytes are an illegal command, and for which reason, is
//! `specs/Legal.antt`. The commands that wait are a list that is read off memory and registers
//! (`specs/Waiting.antt`): an append puts one at its end, an advance drops its first. [`Slots`] is
//! the list of the open requests.
#![tactic(auto)]

mod bytes;
mod command;
mod decode;
mod encode;
mod entry;
mod field;
mod illegal;
pub mod laws;
mod layout;
mod operation;
mod ring;
mod slot;
mod slots;
mod values;

pub use bytes::COMMAND_SIZE;
pub use command::{AtsRange, Command, FenceStore};
pub use entry::QueueEntry;
pub use illegal::Illegal;
pub use operation::Operation;
pub use ring::CommandRing;
pub use slot::Slot;
pub use slots::{MAX_SLOTS, Slots};
pub use values::{DeviceNumber, FenceAddress, PageNumber, Pscid};
