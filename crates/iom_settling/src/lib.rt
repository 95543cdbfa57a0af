//! Settling: commits and deliveries until nothing is in flight and no message is under way, and, where a ticket is
//! unconfirmed, a restart, fetches until the queue is empty, with deliveries where the fence waits for devices, and a
//! poll. Then no ticket is unconfirmed.
//!
//! [`settle`] does so to whatever takes events as a world does ([`TakesEvents`]). The layer above may rely on its
//! contract, and on the definition of settling for the ledger machine (`specs/Settles.antt`): at most 400 events,
//! after which nothing is in flight, no ticket is unconfirmed, and each device holds what it did. A restart asks
//! again for what a timeout or a lost message left undone (RISC-V IOMMU Architecture Specification, section 3.1).
#![tactic(auto)]

pub mod holds;
pub mod laws;
mod reply;
mod settling;
mod takes_events;

pub use reply::FetchReply;
pub use settling::settle;
pub use takes_events::TakesEvents;
