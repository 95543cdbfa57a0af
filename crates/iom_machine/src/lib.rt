//! The ledger machine: what an IOMMU with its driver may answer to each event, whatever it caches.
//!
//! It has no tables, directory, caches, commands or messages: a state is a history of grants, the
//! frames with their owners and bytes, and the devices with their accesses in flight. `specs/` says
//! which steps are lawful: `Machine.antt` has one relation for each event, and so says when the
//! frames of a device that leaves come back; `Refusals.antt` has the reasons of each refusal, in
//! their order; `Requests.antt` what a request may be answered, of a page that lingers too;
//! `Questions.antt` what a device may be told that asks for a translation, and `ThroughCache.antt`
//! what may come of an access through its cache (address translation services: PCI Express Base
//! Specification, chapter 10); `Quarantining.antt` how a device that doesn't answer is quarantined, and
//! attached again; `BlockDevices.antt` what a block device may do, of whose requests the machine
//! knows nothing (virtio 1.2). The layers above are proved to take lawful steps alone, and the laws of this
//! crate say what every run of lawful steps has. The plain, slow program that decides these definitions is
//! `iom_machine_judge`, on which none of those layers stands: so none waits for its proof.
#![tactic(auto)]

mod choice;
mod event;
mod frames;
mod headline;
mod laws;
mod outcome;
mod sink;
mod start;
mod state;

pub use choice::Choice;
pub use event::Event;
pub use frames::reserve;
pub use headline::reclaim_theorem;
pub use laws::{grants_are_at_pages, limits_unchanged};
pub use outcome::{BlockStep, CommandName, FaultRecord, Fetched, Outcome, Trace};
pub use sink::Sink;
pub use start::{new_frame, power_on};
pub use state::{Attachment, Device, Frame, Limits, State};
