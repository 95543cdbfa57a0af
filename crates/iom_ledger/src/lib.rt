//! The ledger of grants: which device holds which frame at which page with which right, and what it
//! has released and may still reach until the release's ticket is confirmed: until then it
//! *lingers*.
//!
//! The RISC-V IOMMU Architecture Specification 1.0 has no such table: an IOMMU follows the bytes that
//! software puts into memory, and which device is to reach what is for software to know.
//!
//! What the ledger answers is read off a *history* of entries (`specs/History.antt`), which no code
//! stores. The layers above may rely on each call carrying agreement with a history on to the history
//! with the call's entry, and on each look-up answering what every such history says
//! (`specs/Shown.antt`). It also lists the pages of a device at which something is held or lingers
//! (`Ledger::page_count`, `Ledger::page_at`).
//!
//! Beside what each page holds it keeps a row of each frame (`Ledger::row`), with the count of the grants
//! that name it and of the releases that aren't confirmed yet: `specs/FrameRows.antt` says both by a
//! history. So whether a frame is free is one look at its row. Of the frames whose rows are free it keeps a
//! set (`Ledger::free_frames`), in which whoever knows what else is taken looks for one. That the counts and
//! the set are right are facts that each ledger carries.
#![tactic(auto)]

mod device_list;
mod devices;
mod entry;
mod frame_rows;
mod ledger;
mod lookups;
mod page_row;
mod pages;
mod pending;
mod reaching;
mod ring;
mod row;

pub use entry::HistoryEntry;
pub use ledger::{Ledger, MAX_PENDING};
pub use reaching::Reach;
pub use row::Row;
