//! Why a request of a device is refused: where its way through the directory and the tables stops now, at which entry of
//! which table, or which register or context stops it.
//!
//! [`why_fault`] says so of an untranslated request, [`why_translated`] of one that says that it is translated. Both look at
//! registers, cached contexts and memory as they are now, and change nothing. What is cached of translations they don't look
//! at: it can only let a request through (RISC-V IOMMU Architecture Specification, sections 2.3 and 2.8).
#![tactic(auto)]

mod found;
pub mod laws;
mod translated;
mod untranslated;

pub use found::{ContextSource, WhyFault};
pub use translated::{WhyTranslated, why_translated};
pub use untranslated::why_fault;
