//! What a litmus test reads off hardware: what it can do next, its memory, and its devices. Whoever puts hardware under test,
//! alone or with a driver, stands on this.
//!
//! The layer above may rely on each function being exact (`specs/Looks.antt`, `specs/Acts.antt`, `specs/Touches.antt`), but
//! for [`front_of`] and [`fingerprint_of`], of which no clause says what they give.
#![tactic(auto)]

mod acts;
mod fingerprint;
mod looks;
mod replies;

pub use acts::event_of;
pub use fingerprint::{fingerprint_of, mixed};
pub use looks::{ids_of, memory_text};
pub use replies::{front_of, touches_of};
