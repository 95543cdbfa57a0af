// How far a long trace is read, told on standard error, where that is a terminal.
ghost use Rattle.std.specs.Prelude.{◌≡◌};

use memchr::memchr_iter;
use std::io::{self, IsTerminal, Read};

/// So many lines are read from one word to the next.
const LINES_BETWEEN: u64 = 10_000_000;

/// A reader of a trace, which knows whether there was any. Where somebody watches, it says how many lines were read, every ten
/// million.
#[derive(Drop)]
pub(crate) struct Watched<'a, R> {
    inner: R,
    rt: &'a HostRuntime,
    name: &'a str,
    is_watched: bool,
    is_empty: bool,
    lines: u64,
}

impl<'a, R> Watched<'a, R> {
    pub(crate) fn new(rt: &'a HostRuntime, name: &'a str, inner: R) -> Watched<'a, R> {
        Watched {
            inner,
            rt,
            name,
            is_watched: rt.stderr().is_terminal(),
            is_empty: true,
            lines: 0,
        }
    }

    /// Whether no byte came.
    pub(crate) fn is_empty(&self) -> bool {
        self.is_empty
    }

    /// Counts the lines that end in these bytes. Where standard error can't be written nothing is said.
    fn note(&mut self, bytes: &[u8])
        ensures { self.new.inner ≡ self.old.inner }
    {
        let said = self.lines / LINES_BETWEEN;
        let ended = memchr_iter(b'\n', bytes).count() as u64;
        self.lines = self.lines.saturating_add(ended);
        if self.lines / LINES_BETWEEN > said {
            let _ = eprintln!(self.rt; "iommu-judge: {}: {} lines read", self.name, self.lines);
        }
    }
}

impl<R: Read> Read for Watched<'_, R> {
    ghost remaining = { λ watched. R.remaining watched.inner };

    fn read(&mut self, buffer: &mut [u8]) -> io::Result<usize> {
        let count = self.inner.read(buffer)?;
        self.is_empty &= count == 0;
        if self.is_watched {
            self.note(buffer.get(..count).unwrap_or(&[]));
        }
        Ok(count)
    }
}
