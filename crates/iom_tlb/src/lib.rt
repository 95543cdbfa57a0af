//! The cache of translations of the IOMMU (IOATC), and what invalidation commands take out of it.
//!
//! RISC-V IOMMU Architecture Specification 1.0, sections 2.1.3 (GSCID and PSCID, which name address spaces),
//! 2.8, "Caching in-memory data structures", and 3.1.1 (IOTINVAL.VMA and IOTINVAL.GVMA). Each translation is
//! that of one page of 4 KiB: each page of a superpage has one of its own, which keeps the order of the leaf. A
//! command that names a page takes out all that came from the leaf of that page.
//!
//! The layers above may rely on [`TransCache`], whichever cache stands behind it: a cache is seen as its
//! content, which has a translation or none for each page of each address space. A look answers the content,
//! a keep changes it at its page and takes out at most one other translation, a drop takes out exactly what a
//! [`Cover`] covers. So a cache answers only what was kept there last and not taken out since
//! ([`laws::answers_only_what_was_kept`]). [`invalidate`] does what a command asks.
//!
//! Two are such caches. [`WayCache`] has 64 sets of eight ways, compares the ways of a set at once ([`find_way`])
//! and takes all its memory when it is made. It is the one in use, which the layers above name by [`Ioatc`].
//! [`PlainCache`] has the 64 translations that were used last, and takes memory for each new one.
#![tactic(auto)]

mod cached_page;
mod chosen;
mod cover;
mod entries;
mod invalidation;
mod lanes;
mod large_leaves;
pub mod laws;
mod plain;
mod space;
mod trans_cache;
mod way_cache;
mod way_set;
mod words;

pub use cached_page::CachedPage;
pub use chosen::Ioatc;
pub use cover::Cover;
pub use invalidation::invalidate;
pub use lanes::find_way;
pub use plain::{MAX_TRANSLATIONS, PlainCache};
pub use space::Space;
pub use trans_cache::{TransCache, Translation};
pub use way_cache::{PLACES, WayCache};
