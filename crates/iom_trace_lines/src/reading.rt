// The lines of a reader, one at a time.
ghost use Rattle.std.specs.Prelude.{◌≡◌, ◌-◌, ◌≤◌, ◌<◌, ◌++◌, ◌∷◌, []};
ghost use Rattle.std.specs.Prelude.{ℕ, List, Option, None, drop, length, slice_range, take, IfOk, MatchOption, ⊤};
ghost use Rattle.std.specs.Io.{ReadsAtMost};
ghost use Rattle.std.specs.Io.KnownBytes.{IsAtEnd, ReadConsumes};
ghost use Rattle.iom_trace_lines.specs.Taken.{BufferHolds, HasTaken, TakesNext};

use crate::trace::NextLine;
use memchr::memchr;
use std::alloc::{AllocError, Global};
use std::io::{self, ErrorKind, Read};

/// The bytes that a line has at most, with its line feed.
pub(crate) const LONGEST_LINE: usize = 65536;

/// What was read of a reader, and isn't taken yet.
#[derive(Drop)]
pub struct Lines {
    pub buffer: Vec<u8>,
    /// Where the bytes begin that aren't taken yet, and where they end.
    pub start: usize,
    pub end: usize,
}

/// One read. A read that is interrupted is tried again, and no other.
fn read_once<R: Read>(reader: &mut R, buffer: &mut [u8]) -> io::Result<usize>
    ensures bound { ReadsAtMost result buffer.new }
    ensures bytes { ReadConsumes (R.remaining reader.old) (R.remaining reader.new) result buffer.new }
{
    for _ in 0..u64::MAX {
        match reader.read(buffer) {
            Ok(count) => return Ok(count),
            Err(error) => {
                if error.kind() != ErrorKind::Interrupted {
                    return Err(error);
                }
            }
        }
    }
    Err(io::Error::from(ErrorKind::Other))
}

/// One read, into the buffer from the place on.
fn read_behind<R: Read>(reader: &mut R, buffer: &mut [u8], end: usize) -> io::Result<usize>
    requires { end ≤ length buffer.old }
    ensures bound { ReadsAtMost result (drop end buffer.new) }
    ensures bytes { ReadConsumes (R.remaining reader.old) (R.remaining reader.new) result (drop end buffer.new) }
    ensures front { take end buffer.new ≡ take end buffer.old }
    ensures len { length buffer.new ≡ length buffer.old }
{
    read_once(reader, &mut buffer[end..])
}

impl Lines {
    pub fn new(alloc: Global) -> Result<Lines, AllocError>
        ensures { IfOk result (λ lines. BufferHolds lines.buffer.items lines.start lines.end []) }
    {
        Ok(Lines {
            buffer: vec![in alloc; 0u8; LONGEST_LINE]?,
            start: 0,
            end: 0,
        })
    }

    /// The bytes of the buffer between these places.
    pub fn between(&self, start: usize, end: usize) -> &[u8]
        ensures { start ≤ end → end ≤ length self.now.buffer.items → result.now ≡ slice_range self.now.buffer.items start end }
    {
        self.buffer.get(start..end).unwrap_or(&[])
    }

    /// Takes the line that ends in the buffer, if one does.
    fn take_line(&mut self) -> Option<NextLine>
        ensures { (lines : List (List ℕ)) (first now : Option (List ℕ))
            → HasTaken lines self.old.buffer.items self.old.start self.old.end first now
            → MatchOption result (HasTaken lines self.new.buffer.items self.new.start self.new.end first now)
            (TakesNext lines self.new.buffer.items self.new.start self.new.end first now) }
    {
        let rest = self.buffer.get(self.start..self.end)?;
        let length = memchr(b'\n', rest)?;
        let start = self.start;
        let end = start.saturating_add(length);
        self.start = end.saturating_add(1);
        if length >= LONGEST_LINE {
            return Some(NextLine::Broken);
        }
        Some(NextLine::Line(start, end))
    }

    /// Moves what isn't taken yet to the front.
    fn move_to_front(&mut self)
        ensures holds { (waiting : List ℕ) → BufferHolds self.old.buffer.items self.old.start self.old.end waiting
            → BufferHolds self.new.buffer.items self.new.start self.new.end waiting }
        ensures start { self.new.start ≡ 0 }
        ensures end { self.new.end ≡ self.old.end - self.old.start }
    {
        if self.start < self.end && self.end <= self.buffer.len() {
            self.buffer.copy_within(self.start..self.end, 0);
        }
        self.end = self.end.saturating_sub(self.start);
        self.start = 0;
    }

    /// Reads once, behind what isn't taken yet, and gives how many bytes came: none at the end alone.
    fn read_more<R: Read>(&mut self, reader: &mut R) -> io::Result<usize>
        ensures { (lines : List (List ℕ)) (first : Option (List ℕ))
            → HasTaken lines self.old.buffer.items self.old.start self.old.end first (R.remaining reader.old)
            → self.old.start ≡ 0 → self.old.end < 65536
            → IfOk result (λ count. HasTaken lines self.new.buffer.items self.new.start self.new.end first (R.remaining reader.new)
            × (count ≡ 0 → IsAtEnd (R.remaining reader.new))) }
    {
        if self.end > self.buffer.len() {
            return Err(io::Error::from(ErrorKind::Other));
        }
        let count = read_behind(reader, self.buffer.as_mut_slice(), self.end)?;
        self.end = self.end.saturating_add(count);
        Ok(count)
    }

    /// The next line.
    pub fn next_line<R: Read>(&mut self, reader: &mut R) -> io::Result<NextLine>
        ensures { (lines : List (List ℕ)) (first : Option (List ℕ))
            → HasTaken lines self.old.buffer.items self.old.start self.old.end first (R.remaining reader.old)
            → IfOk result (TakesNext lines self.new.buffer.items self.new.start self.new.end first (R.remaining reader.new)) }
    {
        for _ in 0..u64::MAX {
            if let Some(line) = self.take_line() {
                return Ok(line);
            }
            if self.end.saturating_sub(self.start) >= LONGEST_LINE {
                return Ok(NextLine::Broken);
            }
            self.move_to_front();
            if self.read_more(reader)? == 0 {
                return Ok(if self.end > 0 {
                    NextLine::Broken
                } else {
                    NextLine::End
                });
            }
        }
        Err(io::Error::from(ErrorKind::Other))
    }
}
