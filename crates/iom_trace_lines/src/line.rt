// How a line of a trace is read.
ghost use Rattle.std.specs.Prelude.{◌≡◌, ◌≢◌, ◌++◌, ◌∷◌, ℕ, List, [], IfSome, IfOk, IsTrue, MatchOption, None, codes, false, true};
ghost use Rattle.iom_machine.specs.declared.event.Event.TheVariants as events;
ghost use Rattle.iom_machine.specs.declared.outcome.Outcome.{Outcome};
ghost use Rattle.iom_script.specs.Grammar.{IsEventLine, is_spoken};
ghost use Rattle.iom_script.specs.Lines.{line_of};
ghost use Rattle.iom_trace_lines.specs.TraceLines.{access_text, EventAsksFor, is_accepted, takes_frames};
ghost use Rattle.iom_trace_lines.specs.TraceLines.{said_of, SaysLine, Nothing, Step};

use crate::kept::KeptOutcomes;
use crate::others::read_other;
use crate::sizes::read_world;
use crate::trace::TraceLine;
use crate::words::{behind, cut, long_number_of, number_before, read_frames};
use iom_base::{Access, AccessKind, DeviceId, Sequence};
use iom_machine::{Event, Outcome};
use iom_script::{event_of, is_spoken, request_of};
use memchr::{memchr, memrchr};
use std::alloc::{AllocError, Global};
use std::simd::prelude::*;

/// Whether the event takes frames for tables, where it is done.
fn takes_frames(event: &Event, outcome: &Outcome) -> bool
    ensures { result ≡ takes_frames event.now outcome.now }
{
    matches!(event, Event::Attach { .. } | Event::Grant { .. }) && matches!(outcome, Outcome::Done)
}

/// Whether an access is accepted.
fn is_accepted(outcome: &Outcome) -> bool
    ensures { result ≡ is_accepted outcome.now }
{
    matches!(outcome, Outcome::Accepted(_))
}

/// The access for which a device asks by the event, if that is a read or a write of it.
fn access_of(alloc: Global, event: Event) -> Option<(DeviceId, Access)>
    ensures { IfSome result (λ asked. EventAsksFor event asked.0 asked.1) }
{
    let (device, address, len, kind, bytes) = match event {
        Event::Read {
            device,
            address,
            len,
        } => (device, address, len, AccessKind::Read, Sequence::new(alloc)),
        Event::Write {
            device,
            address,
            bytes,
        } => {
            let len = bytes.as_slice().len() as u64;
            (device, address, len, AccessKind::Write, bytes)
        }
        _ => return None,
    };
    let access = Access {
        address,
        len,
        kind,
        bytes,
    };
    Some((device, access))
}

/// The text of an access, and the frame that is shown behind it. None where what stands there is no frame.
fn cut_on(behind: &[u8]) -> Option<(&[u8], Option<u64>)>
    ensures { IfSome result (λ parts. codes "; " ++ behind.now ≡ access_text parts.0.now parts.1) }
{
    let (asked, shown) = cut(behind, b"; on ", memrchr(b';', behind));
    match shown {
        None => Some((asked, None)),
        Some(word) => Some((asked, Some(long_number_of(word)?))),
    }
}

/// Reads the access that is shown behind `accepted N` of a step, by the line by which its device would ask for it, and `on F` behind that.
fn read_began<'a>(
    alloc: Global,
    event: Event,
    outcome: &'a Outcome,
    text: &[u8],
    began: &'a mut Option<Access>,
) -> Result<TraceLine<'a>, AllocError>
    ensures { (shown tables : List ℕ) → shown ≡ codes "; " ++ text.now → IsTrue (is_accepted outcome.now)
        → IfOk result (λ read. (said answered answer : List ℕ) → IsEventLine said event → line_of outcome.now ≡ answer ++ 10 ∷ []
        → answered ≡ answer ++ shown → SaysLine (said ++ codes " => " ++ answered) (said_of read) tables) }
{
    let (Event::Step { device }, Some((asked, on))) = (&event, cut_on(text)) else {
        return Ok(TraceLine::Bad);
    };
    let Some(asks) = request_of(alloc, asked)? else {
        return Ok(TraceLine::Bad);
    };
    match access_of(alloc, asks) {
        Some((id, access)) if id == *device => {
            *began = Some(access);
            Ok(TraceLine::Step {
                event,
                outcome,
                has_tables: false,
                on,
                began: began.as_ref(),
            })
        }
        _ => Ok(TraceLine::Bad),
    }
}

/// Reads what is shown behind an answer: `tables F F ..` behind the `ok` of an attach or a grant, `on F` behind
/// `accepted N`, and behind that of a step also the access that it began.
fn read_shown<'a>(
    alloc: Global,
    event: Event,
    outcome: &'a Outcome,
    shown: &[u8],
    tables: &mut Vec<u64>,
    began: &'a mut Option<Access>,
) -> Result<TraceLine<'a>, AllocError>
    requires { tables.old.items ≡ [] }
    ensures { IfOk result (λ read. (said answered answer : List ℕ)
        → IsEventLine said event → line_of outcome.now ≡ answer ++ 10 ∷ [] → answered ≡ answer ++ shown.now
        → SaysLine (said ++ codes " => " ++ answered) (said_of read) tables.new.items) }
{
    let Some(text) = behind(shown, b"; ") else {
        return Ok(TraceLine::Bad);
    };
    if let Some(frames) = behind(text, b"tables") {
        if !takes_frames(&event, outcome) || !read_frames(frames, tables)? {
            return Ok(TraceLine::Bad);
        }
        return Ok(TraceLine::Step {
            event,
            outcome,
            has_tables: true,
            on: None,
            began: None,
        });
    }
    if !is_accepted(outcome) {
        return Ok(TraceLine::Bad);
    }
    let Some(word) = behind(text, b"on ") else {
        return read_began(alloc, event, outcome, text, began);
    };
    let Some(frame) = long_number_of(word) else {
        return Ok(TraceLine::Bad);
    };
    Ok(TraceLine::Step {
        event,
        outcome,
        has_tables: false,
        on: Some(frame),
        began: None,
    })
}

/// What is answered to a commit, where that tells no more than that an access was made: a read, or whatever it is.
fn read_made(event: &Event, answered: &[u8]) -> TraceLine<'static>
    ensures { (said tables : List ℕ) → IsEventLine said event.now → SaysLine (said ++ codes " => " ++ answered.now) (said_of result) tables }
{
    let Event::Commit { device } = event else {
        return TraceLine::Bad;
    };
    let is_read = match answered {
        b"read ?" => true,
        b"made" => false,
        _ => return TraceLine::Bad,
    };
    TraceLine::Made {
        device: *device,
        is_read,
    }
}

/// The outcome that is answered, and what stands behind it: nothing but behind `ok` and `accepted N`.
#[inline(always)]
fn read_answer<'a, 't>(
    kept: &'a mut KeptOutcomes,
    event: &Event,
    answered: &'t [u8],
) -> Option<(&'a Outcome, &'t [u8])>
    ensures { IfSome result (λ read. (answer : List ℕ) × (line_of read.0.now ≡ answer ++ 10 ∷ []) × (answered.now ≡ answer ++ read.1.now)) }
{
    if let Some(word) = behind(answered, b"accepted ") {
        let (number, rest) = number_before(word)?;
        return Some((kept.accepted(number)?, rest));
    }
    if let Some(rest) = behind(answered, b"ok") {
        return Some((kept.done()?, rest));
    }
    Some((kept.tell(event, answered)?, &[]))
}

/// What the answer to the event says, with what is shown behind it.
fn read_step<'a>(
    alloc: Global,
    kept: &'a mut KeptOutcomes,
    event: Event,
    answered: &[u8],
    tables: &mut Vec<u64>,
    began: &'a mut Option<Access>,
) -> Result<TraceLine<'a>, AllocError>
    requires { tables.old.items ≡ [] }
    ensures { (said : List ℕ) → IsEventLine said event → IfOk result (λ read. SaysLine (said ++ codes " => " ++ answered.now) (said_of read) tables.new.items) }
{
    match read_answer(kept, &event, answered) {
        None => Ok(read_made(&event, answered)),
        Some((outcome, [])) => Ok(TraceLine::Step {
            event,
            outcome,
            has_tables: false,
            on: None,
            began: None,
        }),
        Some((outcome, text)) => read_shown(alloc, event, outcome, text, tables, began),
    }
}

/// What a line says that tells of no event of a script, or is the first.
fn read_seldom(
    said: &[u8],
    answered: Option<&[u8]>,
    has_world: bool,
    tables: &mut Vec<u64>,
) -> Result<TraceLine<'static>, AllocError>
    requires { tables.old.items ≡ [] }
    ensures { (line : List ℕ) → MatchOption answered.entry (line ≡ said.now) (λ behind. line ≡ said.now ++ codes " => " ++ behind.now)
        → IfOk result (λ read. SaysLine line (said_of read) tables.new.items) }
{
    if has_world {
        read_other(said, answered, tables)
    } else {
        Ok(read_world(said, answered))
    }
}

/// The place of the first `=` among sixteen bytes.
#[inline(always)]
fn first_equals(bytes: Option<&[u8]>) -> Option<usize> {
    let lanes = u8x16::from_slice(bytes.filter(|bytes| bytes.len() == 16)?);
    let found = lanes.simd_eq(u8x16::splat(b'=')).to_bitmask();
    (found != 0).then_some(found.trailing_zeros() as usize)
}

/// Where an arrow may stand: the first, near at hand; behind the bytes of a write or a poke the last. Who asks compares it.
#[inline(always)]
fn place_of_arrow(line: &[u8]) -> Option<usize> {
    if let [b'w', ..] | [b'p', b'o', b'k', ..] = line {
        return memrchr(b'=', line)?.checked_sub(1);
    }
    if let Some(place) = first_equals(line.get(..16)) {
        return place.checked_sub(1);
    }
    match first_equals(line.get(16..32)) {
        Some(place) => Some(place.saturating_add(15)),
        None => memchr(b'=', line)?.checked_sub(1),
    }
}

/// What the line says, of which the line feed is left out. The first that says something is that of the world. What is large
/// stands in the places that are lent.
pub fn read_line<'a>(
    alloc: Global,
    kept: &'a mut KeptOutcomes,
    tables: &mut Vec<u64>,
    began: &'a mut Option<Access>,
    has_world: bool,
    line: &[u8],
) -> Result<TraceLine<'a>, AllocError>
    ensures says { IfOk result (λ read. SaysLine line.now (said_of read) tables.new.items) }
    ensures spoken { IfOk result (λ read. said_of read ≢ Nothing → is_spoken line.now ≡ true) }
{
    if !is_spoken(line) {
        return Ok(TraceLine::Nothing);
    }
    tables.clear();
    let (said, answered) = cut(line, b" => ", place_of_arrow(line));
    if has_world {
        if let Some(answered) = answered {
            if let Some(event) = event_of(alloc, said)? {
                return read_step(alloc, kept, event, answered, tables, began);
            }
        }
    }
    read_seldom(said, answered, has_world, tables)
}
