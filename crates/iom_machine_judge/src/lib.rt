//! The judge of the ledger machine: decides which steps and which runs are lawful, over states as they are kept.
//!
//! [`judge`] decides one step, and [`judge_run`] a list of lines; their contracts are the definitions of
//! `iom_machine`, said of each past of what is kept (`iom_kept_state`): `decide.rt` goes by the event, and has the calls that
//! others make. Each further module decides what events of one sort ask: `calls.rt`, `polls.rt` the driver's,
//! `acts.rt` a device's, by `requests.rt`, `translated.rt`, `through_cache.rt`, `commits.rt` its accesses, `block_devices.rt`
//! the rest of a block device, `questions.rt` what address translation services add, `processor.rt` the processor's. They look
//! things up in `devices.rt` and `reasons.rt`. Each is lent what is kept, and answers whether the event may come so: then the
//! next state is kept, and else nothing changed (`Decides`).
//!
//! It is no part of `iom_machine`, since the world and all that is above it stand on the definitions and never
//! call the judge. The judge of traces and tests call it.
#![tactic(auto)]

pub mod accesses;
pub mod acts;
mod block_devices;
pub mod calls;
mod commits;
mod decide;
mod devices;
mod disks;
mod line;
pub mod polls;
mod processor;
pub mod questions;
pub mod reasons;
pub mod requests;
pub mod through_cache;
pub mod translated;
mod under_ticket;

pub use decide::{judge, judge_run, lawful_runs_have_choices};
pub use line::Line;
