//! The device directory of the IOMMU: device contexts of 32 bytes, the entries above them, the path from `ddtp`
//! to the context of a device, and a cache of contexts.
//!
//! RISC-V IOMMU Architecture Specification, sections 2.1, "Data structures" (contexts of the base format), and
//! 2.3.1, "Process to locate the Device-context". The layers above may rely on three things.
//! [`Context::decode`] and [`Context::encode`], and the same of [`NonLeafEntry`], are exact to the grammars
//! in `specs/Formats.antt`. [`locate`] answers exactly where the path of `specs/Paths.antt` ends: with its
//! context, or with the cause with which it stops. [`DirCache`] is a sound cache, by `specs/Contents.antt`: it
//! answers nothing but the context that it was last handed for the id, where that wasn't dropped since.
#![tactic(auto)]

mod cache;
mod context;
mod directory;
mod entry;
mod fields;
pub mod laws;
mod stages;
mod values;
mod words;

pub use cache::DirCache;
pub use context::{CONTEXT_SIZE, Context};
pub use directory::{fits_directory, locate};
pub use entry::NonLeafEntry;
pub use stages::{FirstStage, SecondStage};
pub use values::{GuestRoot, Pscid};
