//! The device directory as it is written.
//!
//! RISC-V IOMMU Architecture Specification, sections 2.1, "Data structures", and 2.3.1, "Process to locate the
//! Device-context". `iom_device_dir` reads a directory; this crate writes one, and says in the words of
//! [`iom_device_dir::locate`] what an id finds afterwards. `specs/Pages.antt` says what the pages of a directory
//! are, and when they are one: no two places in it have the same page, and no path ends but at a context or
//! at something that isn't valid.
//!
//! The layers above may rely on this: [`put_context`] and [`clear_context`] keep a directory a directory, with each of
//! its pages where it was, change what their id finds and what no other id finds, and no frame outside the directory;
//! on each path that leads to a page of contexts doing so still, which lacks no page then; and on the laws in
//! [`laws`]: a directory stays what it is while its own pages do. Where pages come from is not this crate's business.
#![tactic(auto)]

mod entries;
pub mod laws;
mod write;

pub use write::{clear_context, missing, put_context};
