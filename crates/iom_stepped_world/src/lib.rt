//! A world whose walks make one load an event: a world (`iom_world`), and beside it the requests of its devices that are
//! under way (RISC-V IOMMU Architecture Specification, section 2.3, "Process to translate an IOVA", which doesn't order
//! the loads of a walk with what others do meanwhile).
//!
//! A request that needs a load is under way from then on ([`SteppedOutcome::Walking`]), and each load is an event of its
//! own ([`SteppedWorld::load`]); whatever else happens between two loads happens as in a world without walks. The layers
//! above may rely on each event being a lawful step of the ledger machine with walks (`iom_stepped_machine`), from every
//! state that the world shows to one that it shows then, whatever is under way, and on what it does to memory, IOMMU,
//! driver, devices, block devices and to what is under way (`specs/Happens.antt`).
#![tactic(auto)]

mod answering;
mod begins;
mod beside;
mod event;
mod fetching;
mod loads;
mod others;
mod outcome;
mod plugging;
mod recovery;
mod run;
mod settling;
mod sink;
mod stepping;
mod steps;
mod world;

pub use event::SteppedEvent;
pub use outcome::SteppedOutcome;
pub use sink::SteppedSink;
pub use world::SteppedWorld;
