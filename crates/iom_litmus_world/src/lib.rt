//! A world, hardware with the driver, as the system of a litmus test: a test's lines are those of a script, and hardware acts by
//! itself between them.
//!
//! The layer above may rely on [`UnderTest`] being a `System` of `iom_litmus` by these relations: its opening is a world from
//! power-on (`specs/Openings.antt`), a line does what `World::step` says that its event does (`specs/Lines.antt`), and so does a
//! step of hardware (`specs/Systems.antt`). So each schedule's events are lawful steps of the ledger machine. The text of a reply
//! is the line that `iommu-run` writes, up to its first `;` or `:`; no clause says which. Block devices aren't for tests: worlds
//! are compared without them.
#![tactic(auto)]

mod events;
mod opening;
mod under_test;

pub use events::event_for_tests;
pub use opening::Opening;
pub use under_test::UnderTest;
