// The line that is judged, and why the judging stops at it.
use crate::missing::Missing;
use crate::verdict::{Finding, Verdict};
use iom_bad_lines::explain_trace_line;
use std::alloc::{AllocError, Global};
use std::{io, str};

/// So many bytes of a line stand in a reason at most.
const MOST_QUOTED: usize = 100;

/// Why the judging of a trace stops: for what is found of a line, or since memory failed. It is small, as each call hands it on.
#[derive(Drop)]
pub(crate) enum Stop {
    Found(Box<Finding>),
    Failed(AllocError),
}

/// What a line comes to: the judging goes on behind it, or stops.
pub(crate) type Judged = Result<(), Stop>;

impl Stop {
    ghost use Rattle.std.specs.Prelude.{IfOk};
    ghost use Rattle.iom_judge.specs.Certified.{Names};

    /// What is found of the trace, where the judging stops at this line.
    pub(crate) fn verdict(self, line: u64) -> io::Result<Verdict>
        ensures { IfOk result (Names line) }
    {
        match self {
            Stop::Failed(error) => Err(io::Error::from(error)),
            Stop::Found(finding) => Ok(Verdict::Stops {
                line,
                finding: Box::into_inner(finding),
            }),
        }
    }
}

impl From<AllocError> for Stop {
    fn from(error: AllocError) -> Stop {
        Stop::Failed(error)
    }
}

/// The text as a reason quotes it, or a part of it: whole, where it isn't long.
fn quoted(alloc: Global, text: &[u8]) -> Result<String, AllocError> {
    let front = text.get(..MOST_QUOTED).unwrap_or(text);
    let more = if front.len() < text.len() { ".." } else { "" };
    let text = str::from_utf8(front).unwrap_or("");
    format!(in alloc; "`{text}{more}`")
}

/// A line of a trace.
#[derive(Clone, Copy)]
pub(crate) struct Line<'a> {
    pub(crate) alloc: Global,
    /// Its number, from 1.
    pub(crate) number: u64,
    pub(crate) text: &'a [u8],
}

impl Line<'_> {
    /// The reason, behind the line.
    pub(crate) fn quoting(&self, reason: &str) -> Result<String, AllocError> {
        let quoted = quoted(self.alloc, self.text)?;
        if reason.is_empty() {
            return Ok(quoted);
        }
        format!(in self.alloc; "{quoted}: {reason}")
    }

    /// The judging stops at it, for what is found.
    pub(crate) fn stop(&self, finding: Finding) -> Result<Stop, AllocError> {
        Ok(Stop::Found(Box::new(self.alloc, finding)?))
    }

    /// What is found depends on this, which isn't shown.
    pub(crate) fn uncertified(&self, missing: Missing) -> Result<Stop, AllocError> {
        self.stop(Finding::Uncertified(missing))
    }

    /// It may not come, for this reason.
    #[inline(never)]
    pub(crate) fn unlawful(&self, reason: &str) -> Result<Stop, AllocError> {
        self.stop(Finding::Unlawful(self.quoting(reason)?))
    }

    /// It isn't in the grammar, for this that is wrong with it.
    #[inline(never)]
    pub(crate) fn bad(&self, wrong: &str) -> Result<Stop, AllocError> {
        let wrong = String::from_str(self.alloc, wrong)?;
        self.stop(Finding::Bad(wrong))
    }

    /// Its text isn't in the grammar: where, what stands there, and what was expected.
    #[inline(never)]
    pub(crate) fn bad_text(&self, is_first: bool) -> Result<Stop, AllocError> {
        let Ok(text) = str::from_utf8(self.text) else {
            return self.bad("it isn't text");
        };
        let place = explain_trace_line(text, is_first);
        if place.found.ends_with('\r') {
            return self.bad("it ends with a carriage return");
        }
        let found = quoted(self.alloc, place.found.as_bytes())?;
        let (column, expected, form) = (place.column, place.expected, place.form);
        let wrong = format!(in self.alloc;
            "column {column}: {found} stands where {expected} was expected ({form})"
        )?;
        self.stop(Finding::Bad(wrong))
    }
}
