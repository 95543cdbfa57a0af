//! The cache of translations inside a device: the address translation cache (ATC) of a device with address
//! translation services (ATS), as the PCI Express Base Specification has them, chapter 10.
//!
//! A device asks for the translation of a page (Translation Request, section 10.2), keeps the answer (Translation
//! Completion), and uses it until the IOMMU asks it to drop what it knows of the page (Invalidate Request, section
//! 10.3). Answers and invalidations may overtake one another on the link. So a device has an epoch, the number of its
//! invalidations and resets: each question carries it, the answer repeats it, and an answer of another epoch is
//! dropped. The standard leaves open how a device tells such answers; the epoch, and room for 32 pages from which the
//! oldest goes, are the model's own.
//!
//! The layers above may rely on [`Atc`] being its epoch and the list of its entries, of which no two are of one page.
//! A look finds the page's entry where its right allows the access. Whatever calls were made, that entry was answered
//! in the epoch of then, and no invalidation since covers its page ([`laws::finds_only_what_was_answered`]). No call
//! takes memory.
#![tactic(auto)]

mod atc;
mod entry;
pub mod laws;
mod taken;

pub use atc::{Atc, MAX_ENTRIES};
pub use entry::Entry;
pub use taken::Taken;
