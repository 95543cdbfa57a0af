//! The ledger of claims: what a driver says that its devices may reach, what it withdrew and hasn't said
//! to be done, and which frames it handed on.
//!
//! The RISC-V IOMMU Architecture Specification 1.0 has no such table: an IOMMU follows the bytes that
//! software puts into memory, and what it was meant to allow is for software to say. What is claimed is a
//! *history*, by the words of `iom_ledger` (`specs/History.antt` there), which no code stores; with it
//! go the number of the last claim and the frames that are handed on (`specs/Claimed.antt`).
//!
//! The layers above may rely on each call carrying what is shown (`specs/Shown.antt`) on to what was
//! claimed and the call's own entry, and on each look-up answering what every such history says. The
//! `Ledger` of `iom_ledger` is for one driver that waits until a page is vacant, and has few tickets. Here
//! any number of claims may be open, they are done in any order, and a page may be granted again while
//! something lingers there: the device may have gone to another domain.
#![tactic(auto)]

mod claims;
mod grant;
mod rows;

pub use claims::{Claims, NoSuchClaim};
pub use grant::{Grant, OpenClaim};
