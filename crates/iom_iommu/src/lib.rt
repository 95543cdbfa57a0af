//! The IOMMU: its register file, the commands that it takes from the queue in memory, its caches of contexts
//! and translations, the invalidation requests that devices have still to complete, and what devices ask.
//!
//! RISC-V IOMMU Architecture Specification 1.0: section 2.3, "Process to translate an IOVA", section 2.8,
//! "Caching in-memory data structures", section 3.1, "Command-Queue (CQ)", section 3.2, "Fault/Event-Queue
//! (FQ)", and chapter 5. The IOMMU knows memory, its registers, the bytes of commands, records, contexts and
//! tables, and which devices were added; nothing of who writes memory: no driver, no owner of a frame. The layers
//! above may rely on one relation for each call: `AnswersRequest` and `CommitsOldest`
//! in `specs/Requests.antt`, `AnswersTranslated` in `specs/Translated.antt`, `AnswersQuestion` in
//! `specs/Questions.antt`, `FetchesCommand` in `specs/Fetches.antt`, `CompletesRequest` in
//! `specs/Invalidations.antt`, `TimesFenceOut` in `specs/Timeouts.antt`. [`laws`] says more of fetches: what
//! they do to the list of the commands that wait. Software reaches the registers by
//! [`Mmio`](iom_registers::Mmio), which [`Iommu`] meets.
//!
//! A request is translated by the device's context, which is cached when it was found in memory, and goes
//! when IODIR.INVAL_DDT names it; and by the translation that is cached for its page, or else by a walk of the
//! context's stages, a first, a second or both, whose translation is cached and goes when IOTINVAL covers it. The
//! cache of translations may be any that is lawful ([`TransCache`](iom_tlb::TransCache)). A request that faults
//! puts a record into the fault queue. A device whose context has EN_ATS may also ask for the translation of a
//! page, and make requests by addresses of memory; ATS.INVAL opens a request to it to drop what it was told, and a
//! fence waits until none is open, or until a timeout gives it up ([`Iommu::timeout`]).
#![tactic(auto)]

mod begun;
mod building;
mod commands;
mod contexts;
mod fetch;
mod fetched;
mod foreseen;
mod front;
mod invalidations;
mod iommu;
mod kept;
pub mod laws;
mod questions;
mod reply;
mod reports;
mod requests;
mod same;
mod service;
mod software;
mod stepped;
mod timeouts;
mod translated;
mod translations;

pub use begun::{Begun, Load};
pub use fetched::Fetched;
pub use front::Front;
pub use iommu::Iommu;
pub use reply::Reply;
