// Words of a line of a trace, beside those of scripts, and what they say.
ghost use Rattle.std.specs.Prelude.{◌≡◌, ◌≢◌, ◌++◌, [], IfOk, IfSome, IsTrue, MatchOption};
ghost use Rattle.std.specs.Fmt.{decimal};
ghost use Rattle.iom_script.specs.Words.{IsNumber};
ghost use Rattle.iom_trace_lines.specs.TraceLines.{frames_text};

use iom_script::words::{after, leading_number, number_and, number_of};
use std::alloc::AllocError;

/// What stands before the separator and behind it, if it stands at this place; else all, and nothing.
// Written into its caller, where the separator is known.
#[inline(always)]
pub(crate) fn cut<'a>(
    text: &'a [u8],
    separator: &[u8],
    place: Option<usize>,
) -> (&'a [u8], Option<&'a [u8]>)
    ensures { MatchOption result.1 (text.now ≡ result.0.now) (λ behind. text.now ≡ result.0.now ++ separator.now ++ behind.now) }
{
    let (before, rest) = text.split_at(place.unwrap_or(text.len()).min(text.len()));
    match behind(rest, separator) {
        None => (text, None),
        found => (before, found),
    }
}

/// What follows, where the text begins so.
// Of a known start more than eight bytes together would be compared by a call.
#[inline(always)]
pub(crate) fn behind<'a>(text: &'a [u8], start: &[u8]) -> Option<&'a [u8]>
    ensures { IfSome result (λ rest. text.now ≡ start.now ++ rest.now) }
{
    if start.len() <= 8 {
        return after(text, start);
    }
    let (first, others) = start.split_at(8);
    after(after(text, first)?, others)
}

/// The number of 64 bits with which the text begins, and what stands behind it.
// Written into its few readers: what it answers would go through memory.
#[inline(always)]
pub(crate) fn number_before(text: &[u8]) -> Option<(u64, &[u8])>
    ensures { IfSome result (λ read. text.now ≡ decimal read.0 ++ read.1.now) }
{
    let (number, count) = leading_number(text)?;
    let (_, rest) = text.split_at(count);
    Some((number, rest))
}

/// The same, of 32 bits.
pub(crate) fn short_number_before(text: &[u8]) -> Option<(u32, &[u8])>
    ensures { IfSome result (λ read. text.now ≡ decimal read.0 ++ read.1.now) }
{
    let (number, rest) = number_before(text)?;
    let short = u32::try_from(number).ok()?;
    Some((short, rest))
}

/// The number of 64 bits that the word says.
pub(crate) fn long_number_of(word: &[u8]) -> Option<u64>
    ensures { IfSome result (IsNumber word.now) }
{
    number_of(word)
}

/// The number of 32 bits that the word says.
pub(crate) fn short_number_of(word: &[u8]) -> Option<u32>
    ensures { IfSome result (IsNumber word.now) }
{
    u32::try_from(number_of(word)?).ok()
}

/// The frames that the text names, with a space before each. False where it names none.
pub(crate) fn read_frames(text: &[u8], frames: &mut Vec<u64>) -> Result<bool, AllocError>
    requires { frames.old.items ≡ [] }
    ensures { IfOk result (λ read. IsTrue read → (text.now ≡ frames_text frames.new.items) × (frames.new.items ≢ [])) }
{
    let Some(mut rest) = behind(text, b" ") else {
        return Ok(false);
    };
    while let Some((frame, more)) = number_and(rest) {
        frames.push(frame)?;
        rest = more;
    }
    let Some(last) = long_number_of(rest) else {
        return Ok(false);
    };
    frames.push(last)?;
    Ok(true)
}
