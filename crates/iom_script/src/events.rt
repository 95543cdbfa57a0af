ghost use Rattle.std.specs.Prelude.{◌≡◌, codes, IfOk};
ghost use Rattle.iom_script.specs.Reading.{Reads};
ghost use Rattle.iom_script.specs.Cuts.{IsLineWith, IsLineOf, single_starts, starts_of_requests, starts_under_a, starts_under_d, starts_under_f, starts_under_p, starts_under_q, starts_under_r, starts_under_s, starts_under_t};
ghost use Rattle.iom_script.specs.Grammar.{IsEventLine};

use crate::words::{
    address_and, address_of, after, attaching_of, bytes_of, device_and, device_of, is_word,
    kind_of, number_and, number_of, page_of, right_of,
};
use iom_machine::Event;
use std::alloc::{AllocError, Global};

/// The event of the first of these that gives one; those behind it aren't tried.
macro_rules! first_of {
    ($only:expr) => {
        $only
    };
    ($first:expr, $($others:expr),+) => {
        match $first {
            Some(event) => Some(event),
            None => first_of!($($others),+),
        }
    };
}

/// `read ID ADDR LEN`
fn read(line: &[u8]) -> Option<Event>
    ensures { Reads result (IsLineWith (codes "read ") line.now) }
{
    let arguments = after(line, b"read ")?;
    let (device, rest) = device_and(arguments)?;
    let (address, rest) = address_and(rest)?;
    let len = number_of(rest)?;
    Some(Event::Read {
        device,
        address,
        len,
    })
}

/// `commit ID`
fn commit(line: &[u8]) -> Option<Event>
    ensures { Reads result (IsLineWith (codes "commit ") line.now) }
{
    let arguments = after(line, b"commit ")?;
    let device = device_of(arguments)?;
    Some(Event::Commit { device })
}

/// `write ID ADDR HEX`. The bytes take memory.
fn write(alloc: Global, line: &[u8]) -> Result<Option<Event>, AllocError>
    ensures { IfOk result (λ event. Reads event (IsLineWith (codes "write ") line.now)) }
{
    let Some(arguments) = after(line, b"write ") else {
        return Ok(None);
    };
    let Some((device, rest)) = device_and(arguments) else {
        return Ok(None);
    };
    let Some((address, rest)) = address_and(rest) else {
        return Ok(None);
    };
    let Some(bytes) = bytes_of(alloc, rest)? else {
        return Ok(None);
    };
    Ok(Some(Event::Write {
        device,
        address,
        bytes,
    }))
}

/// `grant ID PAGE FRAME RIGHT`
fn grant(line: &[u8]) -> Option<Event>
    ensures { Reads result (IsLineWith (codes "grant ") line.now) }
{
    let arguments = after(line, b"grant ")?;
    let (device, rest) = device_and(arguments)?;
    let (page, rest) = number_and(rest)?;
    let (frame, right) = number_and(rest)?;
    let rights = right_of(right)?;
    Some(Event::Grant {
        device,
        page,
        frame,
        rights,
    })
}

/// `release ID PAGE`
fn release(line: &[u8]) -> Option<Event>
    ensures { Reads result (IsLineWith (codes "release ") line.now) }
{
    let arguments = after(line, b"release ")?;
    let (device, rest) = device_and(arguments)?;
    let page = number_of(rest)?;
    Some(Event::Release { device, page })
}

/// `device ID KIND`, with the number of a disk where the kind is that of a block device
fn plug(line: &[u8]) -> Option<Event>
    ensures { Reads result (IsLineWith (codes "device ") line.now) }
{
    let arguments = after(line, b"device ")?;
    let (device, rest) = device_and(arguments)?;
    let new = kind_of(rest)?;
    Some(Event::Plug { device, new })
}

/// `medium ID K`
fn medium(line: &[u8]) -> Option<Event>
    ensures { Reads result (IsLineWith (codes "medium ") line.now) }
{
    let arguments = after(line, b"medium ")?;
    let (device, rest) = device_and(arguments)?;
    let disk = number_of(rest)?;
    Some(Event::Medium { device, disk })
}

/// `attach ID MODE`, with `ats` behind it or not
fn attach(line: &[u8]) -> Option<Event>
    ensures { Reads result (IsLineWith (codes "attach ") line.now) }
{
    let arguments = after(line, b"attach ")?;
    let (device, rest) = device_and(arguments)?;
    let (mode, ats) = attaching_of(rest)?;
    Some(Event::Attach { device, mode, ats })
}

/// `detach ID`
fn detach(line: &[u8]) -> Option<Event>
    ensures { Reads result (IsLineWith (codes "detach ") line.now) }
{
    let arguments = after(line, b"detach ")?;
    let device = device_of(arguments)?;
    Some(Event::Detach { device })
}

/// `quarantine ID`
fn quarantine(line: &[u8]) -> Option<Event>
    ensures { Reads result (IsLineWith (codes "quarantine ") line.now) }
{
    let arguments = after(line, b"quarantine ")?;
    let device = device_of(arguments)?;
    Some(Event::Quarantine { device })
}

/// `revive ID`
fn revive(line: &[u8]) -> Option<Event>
    ensures { Reads result (IsLineWith (codes "revive ") line.now) }
{
    let arguments = after(line, b"revive ")?;
    let device = device_of(arguments)?;
    Some(Event::Revive { device })
}

/// `reset ID`
fn reset(line: &[u8]) -> Option<Event>
    ensures { Reads result (IsLineWith (codes "reset ") line.now) }
{
    let arguments = after(line, b"reset ")?;
    let device = device_of(arguments)?;
    Some(Event::Reset { device })
}

/// `queue ID SIZE DESC AVAIL USED`
fn queue(line: &[u8]) -> Option<Event>
    ensures { Reads result (IsLineWith (codes "queue ") line.now) }
{
    let arguments = after(line, b"queue ")?;
    let (device, rest) = device_and(arguments)?;
    let (size, rest) = number_and(rest)?;
    let (descriptors, rest) = address_and(rest)?;
    let (available, rest) = address_and(rest)?;
    let used = address_of(rest)?;
    Some(Event::Queue {
        device,
        size,
        descriptors,
        available,
        used,
    })
}

/// `step ID`
fn step(line: &[u8]) -> Option<Event>
    ensures { Reads result (IsLineWith (codes "step ") line.now) }
{
    let arguments = after(line, b"step ")?;
    let device = device_of(arguments)?;
    Some(Event::Step { device })
}

/// `status ID`
fn status(line: &[u8]) -> Option<Event>
    ensures { Reads result (IsLineWith (codes "status ") line.now) }
{
    let arguments = after(line, b"status ")?;
    let device = device_of(arguments)?;
    Some(Event::Status { device })
}

/// `free FRAME`
fn free(line: &[u8]) -> Option<Event>
    ensures { Reads result (IsLineWith (codes "free ") line.now) }
{
    let arguments = after(line, b"free ")?;
    let frame = number_of(arguments)?;
    Some(Event::Free { frame })
}

/// `deliver K`
fn deliver(line: &[u8]) -> Option<Event>
    ensures { Reads result (IsLineWith (codes "deliver ") line.now) }
{
    let arguments = after(line, b"deliver ")?;
    let place = number_of(arguments)?;
    Some(Event::Deliver { place })
}

/// `ask ID PAGE`
fn ask(line: &[u8]) -> Option<Event>
    ensures { Reads result (IsLineWith (codes "ask ") line.now) }
{
    let arguments = after(line, b"ask ")?;
    let (device, rest) = device_and(arguments)?;
    let page = page_of(rest)?;
    Some(Event::Ask { device, page })
}

/// `drop K`
fn lose(line: &[u8]) -> Option<Event>
    ensures { Reads result (IsLineWith (codes "drop ") line.now) }
{
    let arguments = after(line, b"drop ")?;
    let place = number_of(arguments)?;
    Some(Event::Drop { place })
}

/// `repeat K`
fn repeat(line: &[u8]) -> Option<Event>
    ensures { Reads result (IsLineWith (codes "repeat ") line.now) }
{
    let arguments = after(line, b"repeat ")?;
    let place = number_of(arguments)?;
    Some(Event::Repeat { place })
}

/// `forge ID SERIAL`
fn forge(line: &[u8]) -> Option<Event>
    ensures { Reads result (IsLineWith (codes "forge ") line.now) }
{
    let arguments = after(line, b"forge ")?;
    let (device, rest) = device_and(arguments)?;
    let serial = number_of(rest)?;
    Some(Event::Forge { device, serial })
}

/// `aread ID ADDR LEN`
fn read_through_cache(line: &[u8]) -> Option<Event>
    ensures { Reads result (IsLineWith (codes "aread ") line.now) }
{
    let arguments = after(line, b"aread ")?;
    let (device, rest) = device_and(arguments)?;
    let (address, rest) = address_and(rest)?;
    let len = number_of(rest)?;
    Some(Event::ReadThroughCache {
        device,
        address,
        len,
    })
}

/// `tread ID ADDR LEN`
fn read_translated(line: &[u8]) -> Option<Event>
    ensures { Reads result (IsLineWith (codes "tread ") line.now) }
{
    let arguments = after(line, b"tread ")?;
    let (device, rest) = device_and(arguments)?;
    let (address, rest) = address_and(rest)?;
    let len = number_of(rest)?;
    Some(Event::ReadTranslated {
        device,
        address,
        len,
    })
}

/// `awrite ID ADDR HEX`. The bytes take memory.
fn write_through_cache(alloc: Global, line: &[u8]) -> Result<Option<Event>, AllocError>
    ensures { IfOk result (λ event. Reads event (IsLineWith (codes "awrite ") line.now)) }
{
    let Some(arguments) = after(line, b"awrite ") else {
        return Ok(None);
    };
    let Some((device, rest)) = device_and(arguments) else {
        return Ok(None);
    };
    let Some((address, rest)) = address_and(rest) else {
        return Ok(None);
    };
    let Some(bytes) = bytes_of(alloc, rest)? else {
        return Ok(None);
    };
    Ok(Some(Event::WriteThroughCache {
        device,
        address,
        bytes,
    }))
}

/// `twrite ID ADDR HEX`. The bytes take memory.
fn write_translated(alloc: Global, line: &[u8]) -> Result<Option<Event>, AllocError>
    ensures { IfOk result (λ event. Reads event (IsLineWith (codes "twrite ") line.now)) }
{
    let Some(arguments) = after(line, b"twrite ") else {
        return Ok(None);
    };
    let Some((device, rest)) = device_and(arguments) else {
        return Ok(None);
    };
    let Some((address, rest)) = address_and(rest) else {
        return Ok(None);
    };
    let Some(bytes) = bytes_of(alloc, rest)? else {
        return Ok(None);
    };
    Ok(Some(Event::WriteTranslated {
        device,
        address,
        bytes,
    }))
}

/// `peek ADDR LEN`
fn peek(line: &[u8]) -> Option<Event>
    ensures { Reads result (IsLineWith (codes "peek ") line.now) }
{
    let arguments = after(line, b"peek ")?;
    let (address, rest) = address_and(arguments)?;
    let len = number_of(rest)?;
    Some(Event::Peek { address, len })
}

/// `poke ADDR HEX`. The bytes take memory.
fn poke(alloc: Global, line: &[u8]) -> Result<Option<Event>, AllocError>
    ensures { IfOk result (λ event. Reads event (IsLineWith (codes "poke ") line.now)) }
{
    let Some(arguments) = after(line, b"poke ") else {
        return Ok(None);
    };
    let Some((address, rest)) = address_and(arguments) else {
        return Ok(None);
    };
    let Some(bytes) = bytes_of(alloc, rest)? else {
        return Ok(None);
    };
    Ok(Some(Event::Poke { address, bytes }))
}

/// `poll`, `fetch`, `faults`, `restart` or `timeout`
fn single(line: &[u8]) -> Option<Event>
    ensures { Reads result (IsLineOf single_starts line.now) }
{
    if is_word(line, b"poll") {
        Some(Event::Poll)
    } else if is_word(line, b"fetch") {
        Some(Event::Fetch)
    } else if is_word(line, b"faults") {
        Some(Event::Faults)
    } else if is_word(line, b"restart") {
        Some(Event::Restart)
    } else if is_word(line, b"timeout") {
        Some(Event::Timeout)
    } else {
        None
    }
}

/// A line under `r` that has more than a word, the commonest first, as those under other letters.
fn under_r(line: &[u8]) -> Option<Event>
    ensures { Reads result (IsLineOf starts_under_r line.now) }
{
    first_of!(
        read(line),
        release(line),
        repeat(line),
        reset(line),
        revive(line)
    )
}

/// The read or the write for which a line says that a device asks. Only the bytes of a write take memory.
pub fn request_of(alloc: Global, line: &[u8]) -> Result<Option<Event>, AllocError>
    ensures { IfOk result (λ event. Reads event (IsLineOf starts_of_requests line.now)) }
{
    match read(line) {
        Some(event) => Ok(Some(event)),
        None => write(alloc, line),
    }
}

/// A line under `p`.
fn under_p(alloc: Global, line: &[u8]) -> Result<Option<Event>, AllocError>
    ensures { IfOk result (λ event. Reads event (IsLineOf starts_under_p line.now)) }
{
    match peek(line) {
        Some(event) => Ok(Some(event)),
        None => poke(alloc, line),
    }
}

/// A line under `f`.
fn under_f(line: &[u8]) -> Option<Event>
    ensures { Reads result (IsLineOf starts_under_f line.now) }
{
    first_of!(free(line), forge(line))
}

/// A line under `a`.
fn under_a(alloc: Global, line: &[u8]) -> Result<Option<Event>, AllocError>
    ensures { IfOk result (λ event. Reads event (IsLineOf starts_under_a line.now)) }
{
    let first = first_of!(read_through_cache(line), ask(line), attach(line));
    match first {
        Some(event) => Ok(Some(event)),
        None => write_through_cache(alloc, line),
    }
}

/// A line under `d`.
fn under_d(line: &[u8]) -> Option<Event>
    ensures { Reads result (IsLineOf starts_under_d line.now) }
{
    first_of!(deliver(line), lose(line), plug(line), detach(line))
}

/// A line under `q`.
fn under_q(line: &[u8]) -> Option<Event>
    ensures { Reads result (IsLineOf starts_under_q line.now) }
{
    first_of!(queue(line), quarantine(line))
}

/// A line under `s`.
fn under_s(line: &[u8]) -> Option<Event>
    ensures { Reads result (IsLineOf starts_under_s line.now) }
{
    first_of!(step(line), status(line))
}

/// A line under `t`.
fn under_t(alloc: Global, line: &[u8]) -> Result<Option<Event>, AllocError>
    ensures { IfOk result (λ event. Reads event (IsLineOf starts_under_t line.now)) }
{
    match read_translated(line) {
        Some(event) => Ok(Some(event)),
        None => write_translated(alloc, line),
    }
}

/// The event that a line says. Lines of a single word are tried first, since a longer line is told from them by
/// its length; the others are looked up as in a dictionary, under their first letter. Only the bytes of a write
/// or a poke take memory.
pub fn event_of(alloc: Global, line: &[u8]) -> Result<Option<Event>, AllocError>
    ensures { IfOk result (λ event. Reads event (IsEventLine line.now)) }
{
    if let Some(event) = single(line) {
        return Ok(Some(event));
    }
    let Some(first) = line.first() else {
        return Ok(None);
    };
    let event = match *first {
        b'r' => under_r(line),
        b'c' => commit(line),
        b'g' => grant(line),
        b'd' => under_d(line),
        b'f' => under_f(line),
        b'q' => under_q(line),
        b's' => under_s(line),
        b'm' => medium(line),
        b'a' => return under_a(alloc, line),
        b'w' => return write(alloc, line),
        b'p' => return under_p(alloc, line),
        b't' => return under_t(alloc, line),
        _ => return Ok(None),
    };
    Ok(event)
}
