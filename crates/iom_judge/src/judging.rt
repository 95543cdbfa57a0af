// A trace, judged line by line.
ghost use Rattle.std.specs.Prelude.{◌≡◌, ◌+◌, ◌≤◌, ◌++◌, ◌∷◌, [], ℕ, List, Option, IfOk, IfSome, MatchOption, OnOk, length, slice_range};
ghost use Rattle.iom_script.specs.Grammar.{spoken};
ghost use Rattle.iom_trace_lines.specs.TraceLines.{said_of};
ghost use Rattle.iom_judge.specs.Certificates.{IsSoOf};
ghost use Rattle.iom_judge.specs.Certified.{Begins, Certify, HasJudged, HasTakenAll, IsReadOf, Names};

use crate::machine::TraceMachine;
use crate::stop::{Judged, Line};
use crate::verdict::{Finding, Verdict};
use iom_base::Access;
use iom_trace_lines::{KeptOutcomes, Lines, NextLine, TraceLine, read_line};
use std::alloc::Global;
use std::io::{self, ErrorKind, Read};

/// Its line feed doesn't come in time, or not at all.
const NO_END: &str = "it is longer than 65,535 bytes, or has no line feed";

/// The line says this, and no world has its size yet.
#[inline(never)]
fn begin<'x>(found: &mut Option<TraceMachine>, line: &Line<'_>, said: &'x TraceLine<'x>) -> Judged
    ensures { OnOk result (Begins (said_of said.now) found.old found.new) }
{
    match said {
        TraceLine::Nothing => Ok(()),
        TraceLine::Bad => Err(line.bad_text(true)?),
        TraceLine::World(size, limits) => {
            let Some(machine) = TraceMachine::power_on(line.alloc, *size, *limits)? else {
                return Err(line.bad("no world has this size")?);
            };
            found.insert(machine);
            Ok(())
        }
        _ => Err(line.bad("nothing says yet how large the world is")?),
    }
}

/// The line says this, with these frames of tables beside.
fn take_said<'x>(
    found: &mut Option<TraceMachine>,
    line: &Line<'_>,
    said: &'x TraceLine<'x>,
    tables: &'x [u64],
) -> Judged
    ensures { (text : List ℕ) (lines : List (List ℕ)) → IsReadOf text (said_of said.now) tables.now → Certify found.old (spoken lines)
        → OnOk result (Certify found.new (spoken (lines ++ text ∷ []))) }
{
    match found {
        None => begin(found, line, said),
        Some(machine) => machine.take_said(line, said, tables),
    }
}

/// What the reading of a line takes, for line after line.
#[derive(Drop)]
struct Reading {
    outcomes: KeptOutcomes,
    tables: Vec<u64>,
    began: Option<Access>,
}

impl Reading {
    fn new(alloc: Global) -> io::Result<Reading> {
        Ok(Reading {
            outcomes: KeptOutcomes::new(alloc)?,
            tables: Vec::new(alloc),
            began: None,
        })
    }

    /// The machine takes the line, if it may come.
    fn take(&mut self, found: &mut Option<TraceMachine>, line: &Line<'_>) -> Judged
        ensures { (lines : List (List ℕ)) → Certify found.old (spoken lines)
            → OnOk result (Certify found.new (spoken (lines ++ line.now.text.now ∷ []))) }
    {
        let said = read_line(
            line.alloc,
            &mut self.outcomes,
            &mut self.tables,
            &mut self.began,
            found.is_some(),
            line.text,
        )?;
        take_said(found, line, &said, self.tables.as_slice())
    }
}

/// The judge of a trace, after the lines so far.
#[derive(Drop)]
pub(crate) struct Judge {
    alloc: Global,
    /// How many they were.
    line: u64,
    /// The machine that they lead to, once one says how large the world is.
    machine: Option<TraceMachine>,
    /// What was read, and isn't taken yet.
    lines: Lines,
    reading: Reading,
}

impl Judge {
    /// It stands in a box, since it has room for an answer of each kind.
    pub(crate) fn new(alloc: Global) -> io::Result<Box<Judge>>
        ensures { (first : Option (List ℕ)) → IfOk result (λ judge. HasJudged judge.value first first) }
    {
        let lines = Lines::new(alloc)?;
        let reading = Reading::new(alloc)?;
        let judge = Judge {
            alloc,
            line: 0,
            machine: None,
            lines,
            reading,
        };
        Ok(Box::new(alloc, judge)?)
    }

    /// Counts a line more, and gives its number.
    fn count(&mut self) -> io::Result<u64>
        ensures machine { self.new.machine ≡ self.old.machine }
        ensures lines { self.new.lines ≡ self.old.lines }
        ensures counted { OnOk result (self.new.line ≡ self.old.line + 1) }
        ensures number { IfOk result (λ number. number ≡ self.old.line + 1) }
    {
        if self.line == u64::MAX {
            return Err(io::Error::from(ErrorKind::Other));
        }
        self.line += 1;
        Ok(self.line)
    }

    /// What is found of a line that doesn't end in time.
    fn take_broken(&mut self) -> io::Result<Verdict>
        ensures { IfOk result (Names (self.old.line + 1)) }
    {
        let line = self.count()?;
        let wrong = String::from_str(self.alloc, NO_END)?;
        Ok(Verdict::Stops {
            line,
            finding: Finding::Bad(wrong),
        })
    }

    /// What is found of the next line, if that ends the trace.
    fn judge_next<R: Read>(&mut self, reader: &mut R) -> io::Result<Option<Verdict>>
        ensures { (first : Option (List ℕ)) → HasJudged self.old first (R.remaining reader.old)
            → IfOk result (λ found. MatchOption found (HasJudged self.new first (R.remaining reader.new)) (λ verdict. IfSome first (IsSoOf verdict))) }
    {
        let (start, end) = match self.lines.next_line(reader)? {
            NextLine::End => return Ok(Some(Verdict::Lawful)),
            NextLine::Broken => return Ok(Some(self.take_broken()?)),
            NextLine::Line(start, end) => (start, end),
        };
        let number = self.count()?;
        let line = Line {
            alloc: self.alloc,
            number,
            text: self.lines.between(start, end),
        };
        match self.reading.take(&mut self.machine, &line) {
            Ok(()) => Ok(None),
            Err(stop) => Ok(Some(stop.verdict(number)?)),
        }
    }

    /// What is found of the lines.
    pub(crate) fn judge_lines<R: Read>(&mut self, reader: &mut R) -> io::Result<Verdict>
        ensures { (first : Option (List ℕ)) → HasJudged self.old first (R.remaining reader.old)
            → IfOk result (λ verdict. IfSome first (IsSoOf verdict)) }
    {
        for _ in 0..u64::MAX {
            if let Some(verdict) = self.judge_next(reader)? {
                return Ok(verdict);
            }
        }
        Err(io::Error::from(ErrorKind::Other))
    }
}

/// What the judge finds of the trace that the reader has. It is judged line by line, and the memory that this takes is what the trace names.
///
/// A trace that is found lawful is lines of a run of the ledger machine from power-on, with some choice of what they don't
/// show, and the sentences of the headline hold of that run. Of one of which the verdict names a line, the lines before it are such a trace.
pub fn judge_trace<R: Read>(alloc: Global, reader: &mut R) -> io::Result<Verdict>
    ensures { IfOk result (λ verdict. IfSome (R.remaining reader.old) (IsSoOf verdict)) }
{
    let mut judge = Judge::new(alloc)?;
    judge.judge_lines(reader)
}
