//! The driver of the IOMMU: devices, page tables, grants, commands and tickets.
//!
//! It writes the device directory and page tables into memory (RISC-V IOMMU Architecture Specification,
//! section 2.1; RISC-V Privileged Architecture), commands of 16 bytes into the ring of the command queue, and
//! registers (section 3.1 and chapter 5); and it takes fault records out of the fault queue (section 3.2). Of
//! the IOMMU it knows that it has registers, as [`iom_registers::Mmio`] says, and that a fence stores its
//! number: nothing else. It keeps no list of the commands that wait.
//!
//! A device is attached in a [`Mode`], with ATS or without. Where the first stage translates alone the tables
//! are those of Sv39 or Sv48, by the size of the mode; else those of a second stage, Sv39x4 or Sv48x4, whose root
//! fills four frames: what is granted then are guest physical pages. In both stages the first one's tables are
//! the guest's own business, of the same size, with their root in its page 0.
//!
//! The layers above may rely on this. The whole effect of each call is one relation, over the
//! driver, memory and whatever has registers, by the answer (`specs/Calls.antt`, and `Attaching`,
//! `Leaving`, `Quarantines`, `Revivals`, `Restarts`, `Polling` and `Reports` beside it); a refusal
//! is the first that applies, in the order of `specs/Reasons.antt`, and changes nothing. What ties
//! a driver to memory and registers between its calls is `IsReady` (`specs/Ready.antt`): each call
//! asks it and gives it back, and [`laws`] says what others may change meanwhile. The directory has
//! a context for each attached device and for no other. A poll confirms the tickets that wait and
//! whose fence isn't above the completion word, from the oldest on (`ConfirmsDone` in
//! `specs/Polling.antt`). A device that was detached keeps its frames and its number until a poll
//! confirms its ticket. Each table of a device that has tables before and after a call, and each page of the
//! directory, is where it was (`specs/Standing.antt`): so a walk that stands in one between two loads stands there still.
//!
//! [`Mode`]: iom_base::Mode
#![tactic(auto)]

mod access;
mod admission;
mod answers;
mod appending;
mod attaching;
mod attachments;
mod building;
mod choosing;
mod comparing;
mod contexts;
mod device;
mod driver;
mod fences;
mod granting;
pub mod laws;
mod layout;
mod leaving;
mod looks;
mod lookups;
mod mapping;
mod plugging;
mod polling;
mod quarantining;
mod releasing;
mod reporting;
mod restarting;
mod room;
mod starting;

pub use answers::{Polled, Ticket};
pub use device::{Attachment, Device, Stages};
pub use driver::Driver;
pub use mapping::Mapping;
