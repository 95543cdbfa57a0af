//! Sets of frames, a bit for each frame in words of 64, and above them a bit for each word that isn't 0,
//! so that words without a frame are passed over. A set begins with no frame or with all.
//!
//! The RISC-V Privileged Architecture numbers frames from 0 on, and its base page makes each 4,096
//! bytes (section 12.4, "Sv39"). The layers above may rely on `has` (`specs/Sets.antt`): a call changes
//! one frame's membership and no other's, and `highest_in_both` finds the highest frame that is in two
//! sets, below a limit, and isn't a named one.
#![tactic(auto)]

mod bits;
mod frame_set;
mod number_set;

pub use frame_set::FrameSet;
