//! Why an answer is as it is, read off the state behind it.
//!
//! Some answers make people ask: a frame that isn't free, a fence that waits, a refused call, a fault. [`explain`] gives the
//! lines that a person would be told then. What stands in them is looked up in the world as it is after the event, by calls
//! that say what is true of it: what the command at the head of the queue waits for ([`head_wait`]), what a ticket waits for
//! ([`ticket_wait`]), at which pages a frame is reached ([`iom_ledger::Ledger::reach_from`]), and where a walk stops
//! ([`iom_fault_reasons`]). RISC-V IOMMU Architecture Specification, sections 2.3 ("Process to translate an IOVA"), 3.1
//! ("Command-Queue (CQ)") and 3.1.2 ("IOMMU Command-queue Fence commands").
//!
//! The layer above may rely on [`append_notes`] appending nothing but whole lines that begin with `# `.
#![tactic(auto)]

mod explaining;
mod faults;
mod frames;
mod head;
mod notes;
mod pages;
mod refusals;
mod tickets;

pub use explaining::explain;
pub use head::{HeadWait, head_wait};
pub use notes::{NOTES_ROOM, Note, Notes, append_notes};
pub use tickets::{TicketWait, ticket_wait};
