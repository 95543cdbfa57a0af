//! The chronicle of a driver under test: *why*, and *since when*. It is told line by line what happens, keeps line numbers beside
//! the hardware's value, and finds the words for what others have judged: by which way a device can reach a frame, how the
//! hardware uses one, what let an access through (RISC-V IOMMU Architecture Specification 1.0, chapters 2 and 3; PCI Express Base
//! Specification, chapter 10).
//!
//! The layers above may rely on its calls being safe and coming to an end, whatever tables say, and on no allocation but in
//! [`Chronicle::new`], [`Chronicle::granted`] and [`Chronicle::released`]. Nothing may be decided by what it says: what is right
//! or wrong is proved elsewhere, and the words here are tested alone.
#![tactic(auto)]

mod accepting;
mod caches;
mod chronicle;
mod claim_lines;
mod contexts;
mod directory;
mod flights;
mod found;
mod levels;
mod messages;
mod origin;
mod pointers;
mod queues;
mod reply;
mod sent;
mod since;
mod translations;
mod uses;
mod ways;
mod words;

pub use chronicle::Chronicle;
pub use origin::{Entrance, Origin, Through};
pub use reply::{ContextPlace, ReadAs, Use, WayFound};
