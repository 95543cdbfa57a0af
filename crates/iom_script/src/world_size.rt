//! The size of the world that a script begins with.
ghost use Rattle.std.specs.Prelude.{◌≤◌, ◌↔◌, IsTrue};
ghost use Rattle.iom_script.specs.Reading.{Reads};
ghost use Rattle.iom_script.specs.Grammar.{IsWorldLine};

use crate::script::WorldSize;
use crate::words::{after, number_and, number_of};

/// The frames of the smallest world.
const FEWEST_FRAMES: u64 = 64;

/// The frames of the largest world.
const MOST_FRAMES: u64 = 4096;

/// Whether a world can have so many frames.
fn is_frame_count(frames: u64) -> bool
    ensures { IsTrue result ↔ ((64 ≤ frames) × (frames ≤ 4096)) }
{
    (FEWEST_FRAMES..=MOST_FRAMES).contains(&frames)
}

/// The levels of the largest device directory.
const MOST_LEVELS: u64 = 3;

/// Whether a device directory can have so many levels.
fn is_level_count(levels: u64) -> bool
    ensures { IsTrue result ↔ ((1 ≤ levels) × (levels ≤ 3)) }
{
    (1..=MOST_LEVELS).contains(&levels)
}

/// The size of the world that a line says.
pub fn world_of(line: &[u8]) -> Option<WorldSize>
    ensures { Reads result (IsWorldLine line.now) }
{
    let arguments = after(line, b"world ")?;
    let (frames, rest) = number_and(arguments)?;
    let levels = number_of(rest)?;
    if !is_frame_count(frames) || !is_level_count(levels) {
        return None;
    }
    Some(WorldSize { frames, levels })
}
