//! Hardware under a driver as the system of a litmus test: a test's lines are those of a script for a driver under test, and
//! hardware acts by itself between them.
//!
//! The layer above may rely on [`UnderTest`] being a `System` of `iom_litmus` by these relations: its opening is a session from
//! power-on (`specs/Openings.antt`), a line does what a session says that it does (`specs/Lines.antt`), and so does a step of
//! hardware (`specs/Systems.antt`). What is read off it is the hardware's own (`iom_litmus_looks`). The text of a reply is that
//! which `iommu-hw` writes, up to its first `;` or `:`; no clause says which. Lines of block devices aren't for tests, nor those that
//! ask hardware to act by itself, nor loads of walks: a walk is one event here.
#![tactic(auto)]

mod lines;
mod opening;
mod under_test;

pub use lines::line_for_tests;
pub use opening::Opening;
pub use under_test::UnderTest;
