//! The board: memory, the IOMMU, the devices with their caches of translations, and the messages between them, as one
//! value (RISC-V IOMMU Architecture Specification, chapters 2 and 3; PCI Express Base Specification, chapter 10).
//!
//! It knows neither driver nor ledger nor ticket: whatever software there is writes registers and memory. The layers
//! above may rely on each call doing what its relation in `specs/` says, and on what stays true of the parts
//! (`specs/Invariant.antt`), which each call asks for and gives back.
#![tactic(auto)]

mod answers;
mod board;
mod commits;
mod deliveries;
mod devices;
mod disks;
mod fetching;
pub mod laws;
mod messages;
mod permits;
mod plugging;
mod processor;
mod recovery;
mod requests;
mod same;
mod sender;
mod start;
mod through_cache;

pub use answers::{CacheReply, Delivered, NoPlace};
pub use board::Board;
pub use sender::Sender;
