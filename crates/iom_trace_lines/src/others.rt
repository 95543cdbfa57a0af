// Lines that a script hasn't: of pages side by side, of an attach to another's domain, and of frames and tables that are
// given away.
ghost use Rattle.std.specs.Prelude.{◌≡◌, ◌++◌, ◌<◌, ◌+◌, ◌^◌, ℕ, List, [], IfOk, IfSome, IsTrue, MatchOption, codes, ⊤};
ghost use Rattle.iom_trace_lines.specs.TraceLines.{ats_text, said_of, tables_text, IsPages, SaysLine};

use crate::trace::{GrantedPages, ReleasedPages, TraceLine};
use crate::words::{behind, cut, long_number_of, read_frames, short_number_of};
use iom_script::words::{cut as cut_at, device_and, device_of, is_word, number_and, right_of};
use memchr::memchr;
use std::alloc::AllocError;

/// Whether so many from the first on are some, and none of them is beyond what 64 bits say.
fn are_some(first: u64, count: u64) -> bool
    ensures { IsTrue result → (0 < count) × (first + count < 2 ^ 64) }
{
    count > 0 && first <= u64::MAX - count
}

/// The first of some pages and how many there are, as `P+N` says.
fn pages_of(text: &[u8]) -> Option<(u64, u64)>
    ensures { IfSome result (λ pages. IsPages text.now pages.0 pages.1) }
{
    let (first, count) = cut_at(text, b'+')?;
    let page = long_number_of(first)?;
    let count = long_number_of(count)?;
    if !are_some(page, count) {
        return None;
    }
    Some((page, count))
}

/// What stands before ` ats`, and whether that stands at the end.
fn cut_ats(text: &[u8]) -> Option<(&[u8], bool)>
    ensures { IfSome result (λ parts. text.now ≡ parts.0.now ++ ats_text parts.1) }
{
    let (word, behind) = cut(text, b" ats", memchr(b' ', text));
    match behind {
        None => Some((word, false)),
        Some([]) => Some((word, true)),
        Some(_) => None,
    }
}

/// What the line says of grants of pages side by side, which are done, where it tells of some.
fn read_grants(said: &[u8], has_tables: bool) -> Option<TraceLine<'static>>
    ensures { (answered tables : List ℕ) → answered ≡ codes "ok" ++ tables_text has_tables tables
        → IfSome result (λ read. SaysLine (said.now ++ codes " => " ++ answered) (said_of read) tables) }
{
    let words = behind(said, b"grant ")?;
    let (device, words) = device_and(words)?;
    let (pages, words) = cut_at(words, b' ')?;
    let (page, count) = pages_of(pages)?;
    let (frame, right) = number_and(words)?;
    let rights = right_of(right)?;
    if !are_some(frame, count) {
        return None;
    }
    let granted = GrantedPages {
        device,
        page,
        count,
        frame,
        rights,
    };
    Some(TraceLine::Grants(granted, has_tables))
}

/// What it says of an attach to the domain of another device, which is done.
fn read_joins(said: &[u8], has_tables: bool) -> Option<TraceLine<'static>>
    ensures { (answered tables : List ℕ) → answered ≡ codes "ok" ++ tables_text has_tables tables
        → IfSome result (λ read. SaysLine (said.now ++ codes " => " ++ answered) (said_of read) tables) }
{
    let words = behind(said, b"attach ")?;
    let (device, how) = device_and(words)?;
    let other = behind(how, b"with ")?;
    let (word, ats) = cut_ats(other)?;
    let with = device_of(word)?;
    Some(TraceLine::Joins {
        device,
        with,
        ats,
        has_tables,
    })
}

/// What it says of releases of pages side by side, under the ticket that is answered.
fn read_releases(said: &[u8], answered: &[u8]) -> Option<TraceLine<'static>>
    ensures { (tables : List ℕ) → IfSome result (λ read. SaysLine (said.now ++ codes " => " ++ answered.now) (said_of read) tables) }
{
    let words = behind(said, b"release ")?;
    let (device, pages) = device_and(words)?;
    let (page, count) = pages_of(pages)?;
    let word = behind(answered, b"ticket ")?;
    let ticket = short_number_of(word)?;
    let released = ReleasedPages {
        device,
        page,
        count,
    };
    Some(TraceLine::Releases(released, ticket))
}

/// Whether the answer, which says that it is done, shows which frames became tables. None where it says something else.
fn read_done(answered: &[u8], tables: &mut Vec<u64>) -> Result<Option<bool>, AllocError>
    requires { tables.old.items ≡ [] }
    ensures { IfOk result (λ read. IfSome read (λ has_tables. answered.now ≡ codes "ok" ++ tables_text has_tables tables.new.items)) }
{
    if is_word(answered, b"ok") {
        return Ok(Some(false));
    }
    let Some(frames) = behind(answered, b"ok; tables") else {
        return Ok(None);
    };
    if read_frames(frames, tables)? {
        Ok(Some(true))
    } else {
        Ok(None)
    }
}

/// Whether `ok` is answered, or nothing.
fn is_granted(answered: Option<&[u8]>) -> bool
    ensures { IsTrue result → MatchOption answered.entry ⊤ (λ answer. answer.now ≡ codes "ok") }
{
    matches!(answered, None | Some(b"ok"))
}

/// What the line says, where it gives a frame away or takes one back.
fn read_handing(said: &[u8], answered: Option<&[u8]>) -> Option<TraceLine<'static>>
    ensures { (line tables : List ℕ)
        → MatchOption answered.entry (line ≡ said.now) (λ behind. line ≡ said.now ++ codes " => " ++ behind.now)
        → IfSome result (λ read. SaysLine line (said_of read) tables) }
{
    if !is_granted(answered) {
        return None;
    }
    if let Some(word) = behind(said, b"handoff ") {
        let frame = long_number_of(word)?;
        return Some(TraceLine::Handoff(frame));
    }
    let word = behind(said, b"take ")?;
    let frame = long_number_of(word)?;
    Some(TraceLine::Take(frame))
}

/// What a line says that tells of no event of a script.
pub(crate) fn read_other(
    said: &[u8],
    answered: Option<&[u8]>,
    tables: &mut Vec<u64>,
) -> Result<TraceLine<'static>, AllocError>
    requires { tables.old.items ≡ [] }
    ensures { (line : List ℕ) → MatchOption answered.entry (line ≡ said.now) (λ behind. line ≡ said.now ++ codes " => " ++ behind.now)
        → IfOk result (λ read. SaysLine line (said_of read) tables.new.items) }
{
    if let Some(read) = read_handing(said, answered) {
        return Ok(read);
    }
    if let Some(frames) = behind(said, b"tables-freed") {
        return if is_granted(answered) && read_frames(frames, tables)? {
            Ok(TraceLine::TablesFreed)
        } else {
            Ok(TraceLine::Bad)
        };
    }
    let Some(answer) = answered else {
        return Ok(TraceLine::Bad);
    };
    if let Some(read) = read_releases(said, answer) {
        return Ok(read);
    }
    let Some(has_tables) = read_done(answer, tables)? else {
        return Ok(TraceLine::Bad);
    };
    if let Some(read) = read_grants(said, has_tables) {
        return Ok(read);
    }
    match read_joins(said, has_tables) {
        None => Ok(TraceLine::Bad),
        Some(read) => Ok(read),
    }
}
