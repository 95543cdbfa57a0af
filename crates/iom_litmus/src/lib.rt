//! Goes through all interleavings of a litmus test, and counts how many have each outcome.
//!
//! The system under test is any that implements [`System`]. A schedule is a list of steps from the opening place
//! that can't go on: `specs/Steps.antt` says which steps can be taken at a place and where they lead, apart from the
//! search, and `specs/Seen.antt` what the outcome of a schedule is.
//!
//! Places that are equal are gone on from once, and schedules are counted by adding up over the steps between them.
//!
//! The layer above may rely on this: [`Search::explore`] gives the histogram of all schedules by a behaviour that the
//! system may have, in which each row's count is the number of schedules with its outcome;
//! [`Search::is_validated`] tells by it whether the test's question is answered as the test says;
//! [`Search::replay`] runs a schedule once more.
#![tactic(auto)]

mod alike;
mod candidates;
mod fault;
mod fingerprint;
mod graph;
mod happenings;
mod histogram;
mod listed;
mod node;
mod place;
mod places;
mod question;
mod reply;
mod search;
mod seen;
mod step;
mod system;
mod taking;
mod tally;
mod tries;
mod watch;

pub use fault::SearchFault;
pub use graph::Graph;
pub use histogram::{Histogram, Row};
pub use node::Edge;
pub use place::{Deed, Happened, Place};
pub use reply::Reply;
pub use search::{Explored, Search};
pub use step::{HardwareStep, Step};
pub use system::System;
pub use watch::Watch;
