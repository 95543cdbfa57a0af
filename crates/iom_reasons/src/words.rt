// The words of a reason, as they are put together, and what several of its sentences have in common.
ghost use Rattle.std.specs.Prelude.{IfOk, Contains, string_bytes};

use crate::past::{Release, Stay};
use iom_base::AccessKind;
use std::alloc::{AllocError, Global};
use std::fmt::{self, Display};

/// What comes of saying something: nothing, unless there is no memory.
pub(crate) type Said = Result<(), AllocError>;

/// So many things of one sort are said one by one.
pub(crate) const MOST_SAID: usize = 8;

/// So many bytes are shown.
const MOST_SHOWN: usize = 64;

/// The words of a reason: what is known, and the answers that could have come.
#[derive(Drop)]
pub(crate) struct Words {
    pub(crate) alloc: Global,
    facts: String,
    answers: String,
}

/// Puts the words behind the others, with this between them.
fn join<D: Display>(text: &mut String, between: &str, words: &D) -> Said {
    if !text.is_empty() {
        text.push_str(between)?;
    }
    write!(text, "{words}")
}

impl Words {
    pub(crate) fn new(alloc: Global) -> Words {
        Words {
            alloc,
            facts: String::new(alloc),
            answers: String::new(alloc),
        }
    }

    /// Adds a fact.
    pub(crate) fn say<D: Display + Drop>(&mut self, fact: D) -> Said {
        join(&mut self.facts, "; ", &fact)
    }

    /// Adds an answer that could have come.
    pub(crate) fn could<D: Display + Drop>(&mut self, answer: D) -> Said {
        join(&mut self.answers, ", ", &answer)
    }

    /// Says how many things more there are of a sort than are said.
    pub(crate) fn say_more(&mut self, count: usize) -> Said {
        match count.checked_sub(MOST_SAID) {
            None | Some(0) => Ok(()),
            Some(more) => self.say(format_args!("and {more} more")),
        }
    }

    /// All of them, in one line: were there a line feed among them, they would be left out.
    pub(crate) fn finish(self) -> Result<String, AllocError>
        ensures { IfOk result (λ text. ¬ Contains (string_bytes text) 10) }
    {
        let (mut text, answers) = (self.facts, self.answers);
        if !answers.is_empty() {
            join(&mut text, "; ", &format_args!("could have come: {answers}"))?;
        }
        if text.as_bytes().contains(&b'\n') {
            return Ok(String::new(self.alloc));
        }
        Ok(text)
    }
}

/// The kind of access, as a verb or as a noun.
pub(crate) fn name_of(kind: AccessKind) -> &'static str {
    match kind {
        AccessKind::Read => "read",
        AccessKind::Write => "write",
    }
}

/// What was done, and in which line, if that is known: it stands behind other words.
#[derive(Clone, Copy)]
pub(crate) struct InLine(pub &'static str, pub Option<u64>);

impl Display for InLine {
    fn fmt<W: fmt::Write>(&self, f: &mut fmt::Formatter<W>) -> fmt::Result {
        match self.1 {
            None => Ok(()),
            Some(line) => write!(f, ", {} in line {line}", self.0),
        }
    }
}

impl Display for Stay {
    fn fmt<W: fmt::Write>(&self, f: &mut fmt::Formatter<W>) -> fmt::Result {
        write!(f, "granted in line {}", self.granted)?;
        let Some(release) = self.release else {
            return Ok(());
        };
        let (line, ticket) = (release.line, release.ticket);
        write!(f, ", released in line {line} under ticket {ticket}")?;
        InLine("confirmed", release.confirmed).fmt(f)
    }
}

/// Under which ticket something was released, and by which release, if that is known: else under one that isn't confirmed.
#[derive(Clone, Copy)]
pub(crate) struct Under(pub Option<u32>, pub Option<Release>);

impl Display for Under {
    fn fmt<W: fmt::Write>(&self, f: &mut fmt::Formatter<W>) -> fmt::Result {
        let release = match *self {
            Under(None, None) => return f.write_str("under a ticket that isn't confirmed"),
            Under(Some(ticket), None) => return write!(f, "under ticket {ticket}"),
            Under(_, Some(release)) => release,
        };
        let (ticket, line) = (release.ticket, release.line);
        write!(f, "under ticket {ticket} of line {line}")?;
        match release.confirmed {
            None => f.write_str(", which isn't confirmed"),
            confirmed => InLine("confirmed", confirmed).fmt(f),
        }
    }
}

/// Bytes, each in two digits: the first of them, where they are many.
#[derive(Clone, Copy)]
pub(crate) struct Hex<'a>(pub &'a [u8]);

impl Display for Hex<'_> {
    fn fmt<W: fmt::Write>(&self, f: &mut fmt::Formatter<W>) -> fmt::Result {
        for byte in self.0.iter().take(MOST_SHOWN) {
            write!(f, "{byte:02x}")?;
        }
        let is_cut = self.0.len() > MOST_SHOWN;
        f.write_str(if is_cut { ".." } else { "" })
    }
}
