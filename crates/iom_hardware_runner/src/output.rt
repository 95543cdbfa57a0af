// What waits to be written out: answers, and the log.
ghost use Rattle.std.specs.Prelude.{◌≡◌, ◌++◌, IfErr, OnOk};
ghost use Rattle.iom_hardware_runner.specs.Parts.{NamesNone};

use crate::faults::RunFault;
use std::alloc::Global;
use std::io::Write;

/// So many bytes are written out before all lines that came are answered.
const MUCH: usize = 65536;

/// Answers, and the lines of a script that has them.
#[derive(Drop)]
pub(crate) struct Output {
    /// Answers that aren't written yet.
    answers: Vec<u8>,
    /// Lines of the log that aren't written yet.
    log: Vec<u8>,
    /// How many lines the log has so far, written or not.
    logged: u64,
}

/// Appends to what waits.
fn put(waiting: &mut Vec<u8>, bytes: &[u8]) -> Result<(), RunFault>
    ensures appended { OnOk result (waiting.new.items ≡ waiting.old.items ++ bytes.now) }
    ensures named { IfErr result NamesNone }
{
    waiting
        .extend_from_slice(bytes)
        .map_err(|_| RunFault::Memory)
}

/// Writes what waits. It waits no more, whatever comes of it.
fn write_out<W: Write>(writer: &mut W, waiting: &mut Vec<u8>) -> Result<(), RunFault>
    ensures named { IfErr result NamesNone }
{
    let written = writer.write_all(waiting);
    waiting.clear();
    written.map_err(|_| RunFault::Writing)?;
    writer.flush().map_err(|_| RunFault::Writing)
}

impl Output {
    pub(crate) fn new(alloc: Global) -> Output {
        Output {
            answers: Vec::new(alloc),
            log: Vec::new(alloc),
            logged: 0,
        }
    }

    /// The number that the next line of the log has, from 1.
    pub(crate) fn next_number(&self) -> Result<u64, RunFault>
        ensures named { IfErr result NamesNone }
    {
        match self.logged.checked_add(1) {
            Some(number) => Ok(number),
            None => Err(RunFault::TooManyEvents),
        }
    }

    /// A part of an answer.
    pub(crate) fn answer(&mut self, part: &[u8]) -> Result<(), RunFault>
        ensures appended { OnOk result (self.new.answers.items ≡ self.old.answers.items ++ part.now) }
        ensures named { IfErr result NamesNone }
    {
        put(&mut self.answers, part)
    }

    /// A line of the log: what comes before the text, and the text.
    pub(crate) fn log(&mut self, before: &[u8], text: &[u8]) -> Result<(), RunFault>
        ensures named { IfErr result NamesNone }
    {
        self.logged = self.next_number()?;
        put(&mut self.log, before)?;
        put(&mut self.log, text)?;
        put(&mut self.log, b"\n")
    }

    /// Writes out what waits: first the log, so that each line that is answered stands there.
    pub(crate) fn write<W: Write, L: Write>(
        &mut self,
        writer: &mut W,
        log: &mut L,
    ) -> Result<(), RunFault>
        ensures named { IfErr result NamesNone }
    {
        let logged = write_out(log, &mut self.log);
        write_out(writer, &mut self.answers)?;
        logged
    }

    /// Writes out what waits, where that is much.
    pub(crate) fn write_much<W: Write, L: Write>(
        &mut self,
        writer: &mut W,
        log: &mut L,
    ) -> Result<(), RunFault>
        ensures named { IfErr result NamesNone }
    {
        if self.answers.len() < MUCH && self.log.len() < MUCH {
            return Ok(());
        }
        self.write(writer, log)
    }
}
