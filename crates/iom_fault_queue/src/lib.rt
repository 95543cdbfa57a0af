//! Fault records, and the queue in which the IOMMU reports them to software.
//!
//! Both are those of the RISC-V IOMMU Architecture Specification 1.0, section 3.2 ("Fault/Event-Queue
//! (FQ)"), for requests without a process id. A record has 32 bytes, and [`Record`] is such that each value
//! has its bytes; which bytes are which record is `specs/Grammar.antt`. The layers above may rely on the
//! list of what stands between head and tail, `records_in` in `specs/Ring.antt`, and needn't know how a ring
//! is walked: [`FaultRing::put`] appends, or drops the record and marks the queue, [`FaultRing::take`] gives
//! the first, and nothing else changes the list as long as it leaves the ring's frames and the registers of
//! the queue ([`laws::stays`]). So records come out in the order in which they went in
//! ([`laws::in_order`]).
//!
//! Where the specification leaves a choice: while `fqof` or `fqmf` is 1 no record is written. What stands at
//! the head and is no record is handed out as that, and the head moves on.
#![tactic(auto)]

mod bytes;
mod entry;
pub mod laws;
mod record;
mod ring;
mod transaction;

pub use bytes::RECORD_SIZE;
pub use entry::Entry;
pub use record::{Fault, FaultedRequest, Record};
pub use ring::{FaultRing, Put};
pub use transaction::Transaction;
