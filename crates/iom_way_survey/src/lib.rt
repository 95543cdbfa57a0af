//! A survey of hardware: by which frames each device can still be reached, which of them hardware reads, and into which the
//! IOMMU stores.
//!
//! `iom_reach` says by which ways a device can reach a frame (RISC-V IOMMU Architecture Specification 1.0, chapters 2 and 3;
//! PCI Express Base Specification, chapter 10), `iom_hardware_ways` reads the values off a hardware. `iom_stepped_ways` adds
//! what requests may still come to that are under way beside it, where walks make one load an event. `specs/Found.antt` says
//! what of them is looked for: tables level by level, contexts, what is cached, accesses in flight. `specs/Walking.antt` says
//! it of a request that is under way: the one path from its table in hand, the whole second stage while the guest's tables
//! may name any page, the context at the end of its way through the directory, the access that its answer lets through. The
//! layers above may rely on [`Survey::look`] to miss no way and no frame that hardware reads or stores into, on
//! [`Survey::look_along`] to miss none of the ways that cached pointers and leaves of 64 KiB add, and on
//! [`Survey::is_safe`] to be true only where nobody but software can write what hardware reads; and on [`laws`]: what is
//! looked for is each way of a device, and nothing else.
#![tactic(auto)]

mod along;
mod context_tables;
mod contexts;
mod devices;
mod directory;
mod findings;
mod kept;
pub mod laws;
mod looking;
mod queues;
mod same;
mod spaces;
mod survey;
mod walking;

pub use contexts::{cached_in, stored_in};
pub use findings::{Conflict, Survey};
