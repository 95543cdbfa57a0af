// The size of the world with which a trace begins.
ghost use Rattle.std.specs.Prelude.{◌≡◌, ◌++◌, List, ℕ, IfSome, IsTrue, MatchOption, codes};
ghost use Rattle.iom_trace_lines.specs.TraceLines.{said_of, SaysLine};
ghost use Rattle.iom_trace_lines.specs.WorldLimits.{limits_text, IsLargeSize, IsLargeWorldLine, SaysSize};

use crate::trace::{TraceLine, WorldLimits};
use crate::words::cut;
use iom_script::words::{after, number_and, number_of};
use iom_script::{WorldSize, world_of};
use memchr::memchr;

/// Whether a world without limits may be so large. Its device directory has up to three levels.
fn is_large(size: WorldSize) -> bool
    ensures { IsTrue result → IsLargeSize size }
{
    (64..=1 << 40).contains(&size.frames) && (1..=3).contains(&size.levels)
}

/// The size of a world without limits that a line says.
fn large_world_of(line: &[u8]) -> Option<WorldSize>
    ensures { IfSome result (IsLargeWorldLine line.now) }
{
    let arguments = after(line, b"world ")?;
    let (frames, rest) = number_and(arguments)?;
    let levels = number_of(rest)?;
    let size = WorldSize { frames, levels };
    if is_large(size) { Some(size) } else { None }
}

/// The size of the world that a line says, and the limits that a word behind that says.
fn size_and_limits(said: &[u8]) -> Option<(WorldSize, WorldLimits)>
    ensures { IfSome result (λ read. (sized : List ℕ) × SaysSize read.1 sized read.0 × (said.now ≡ sized ++ limits_text read.1)) }
{
    let place = memchr(b'u', said).and_then(|place| place.checked_sub(1));
    match cut(said, b" unlimited", place) {
        (sized, None) => Some((world_of(sized)?, WorldLimits::OfModel)),
        (sized, Some([])) => Some((large_world_of(sized)?, WorldLimits::Unlimited)),
        _ => None,
    }
}

/// What a line says that should be that of the world.
pub(crate) fn read_world(said: &[u8], answered: Option<&[u8]>) -> TraceLine<'static>
    ensures { (line tables : List ℕ) → MatchOption answered.entry (line ≡ said.now) (λ behind. line ≡ said.now ++ codes " => " ++ behind.now)
        → SaysLine line (said_of result) tables }
{
    match (size_and_limits(said), answered) {
        (Some((size, limits)), Some(b"ok")) => TraceLine::World(size, limits),
        _ => TraceLine::Bad,
    }
}
