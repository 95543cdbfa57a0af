//! Non-leaf entries of page tables, as hardware caches them: pointers to tables, at which a walk may begin that would
//! else begin at the root.
//!
//! An IOMMU may cache non-leaf entries too (RISC-V IOMMU Architecture Specification 1.0, section 2.8, "Caching in-memory
//! data structures", and section 3.1.1: an IOTINVAL that names a page takes out leaf entries alone; one that names none
//! takes out all). A [`Pointer`] is kept by address space, level, and the pages that its table translates; [`Pointers`] is
//! the cache. [`Pointers::deepest`] is where a walk begins, [`Pointers::follow`] keeps what a walk passes, [`lead`] is the
//! walk from there to its leaf, and [`Pointers::forget`] is for a command. `specs/Pointers.antt` says what each does to the
//! list, `specs/Walks.antt` what a walk finds, in the words of `iom_reach` and by the formats of `iom_hardware_ways`.
//!
//! Tables of a first stage alone and of a second alone are meant, which one table at a time leads to the page, and none of
//! both stages. [`lead`] knows leaves of 64 KiB (Svnapot) where it is told so; [`Features`] is what hardware has of these.
#![tactic(auto)]

mod features;
mod pointer;
mod pointers;
mod walk;

pub use features::Features;
pub use pointer::Pointer;
pub use pointers::{MAX_POINTERS, Pointers};
pub use walk::lead;
