//! A session of a driver under test: hardware, and what its driver claims of it, line by line.
//!
//! The hardware is that of `iom_hardware`, a board and its block devices (RISC-V IOMMU Architecture Specification 1.0; PCI
//! Express Base Specification, chapter 10; OASIS Virtual I/O Device (VIRTIO) Version 1.2, sections 2.7 and 5.2). Software
//! writes its registers and memory, devices and hardware do what they do, and the driver claims who may reach which frame.
//! What is claimed is a history (`iom_claims`). Each claim is judged by what could still happen (`iom_way_survey`), and
//! each access that is made by what was claimed.
//!
//! The layer above may rely on this: each line does to hardware what the relation of its call says
//! (`specs/Events.antt`), and to what is claimed what its answer says (`specs/Claiming.antt`); an access is told as a
//! violation exactly where nothing that was claimed allows it; and a claim that is answered well is true
//! (`specs/Good.antt`). What follows of that is [`laws::good_law`].
#![tactic(auto)]

mod answer;
mod beside;
mod claiming;
mod events;
mod judging;
pub mod laws;
mod pointed_events;
mod ready;
mod same;
mod session;
mod software;
mod state;
mod stepped_events;
mod watched;
mod watching;
mod whole_events;

pub use answer::{Answer, ClaimAnswer, Found, Wrong};
pub use beside::Beside;
pub use session::Stepped;
pub use state::Session;
pub use watched::{GoodClaim, Watched};
