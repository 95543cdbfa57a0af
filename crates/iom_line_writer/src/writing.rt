// Lines on their way out: gathered in a buffer, and written to a writer.
ghost use Rattle.std.specs.Prelude.{◌≡◌, ◌≢◌, [], OnOk, OnErr, IfErr};
ghost use Rattle.std.specs.Io.{WritesAtMost};
ghost use Rattle.std.specs.IoError.{error_kind};
ghost use Rattle.std.specs.Io.KnownBytes.{Appends, WriteAppends};
ghost use Rattle.iom_answers.specs.Answers.{outcome_of};
ghost use Rattle.iom_script.specs.Lines.{line_of, settled_line, trace_line};
ghost use Rattle.iom_line_writer.specs.AnswerLines.{settled_lines};
ghost use Rattle.iom_line_writer.specs.Writing.{AppendsPart, KeepsWriter, wants_counts, TakesText, FailsAt, TakesLine, FailsWriting};

use iom_answers::{Answer, AnswerSink};
use iom_base::Refusal;
use iom_machine::Trace;
use iom_script::LineBuffer;
use std::io::{self, ErrorKind, Write};

/// A writer failed, or took nothing.
#[derive(Debug, Drop)]
pub struct WriteFault;

impl From<io::Error> for WriteFault {
    fn from(_error: io::Error) -> WriteFault {
        WriteFault
    }
}

/// One write. A write that is interrupted is tried again, and no other.
fn write_once<W: Write>(writer: &mut W, bytes: &[u8]) -> io::Result<usize>
    ensures bound { WritesAtMost result bytes.now }
    ensures bytes { WriteAppends (W.contents writer.old) (W.contents writer.new) result bytes.now }
    ensures retried { IfErr result (λ error. error_kind error ≢ ErrorKind.Interrupted) }
{
    for _ in 0..u64::MAX {
        match writer.write(bytes) {
            Ok(count) => return Ok(count),
            Err(error) => {
                if error.kind() != ErrorKind::Interrupted {
                    return Err(error);
                }
            }
        }
    }
    Err(io::Error::from(ErrorKind::Other))
}

/// Writes all the bytes, in as many calls as that takes. A write of no bytes is a fault. At a fault a
/// beginning of the bytes was written, and not all of them.
fn write_all<W: Write>(writer: &mut W, bytes: &[u8]) -> io::Result<()>
    ensures all { OnOk result (Appends (W.contents writer.old) (W.contents writer.new) bytes.now) }
    ensures part { OnErr result (AppendsPart (W.contents writer.old) (W.contents writer.new) bytes.now) }
    ensures retried { IfErr result (λ error. error_kind error ≢ ErrorKind.Interrupted) }
{
    let mut rest = bytes;
    while !rest.is_empty() {
        let count = write_once(writer, rest)?;
        if count == 0 {
            return Err(io::Error::from(ErrorKind::WriteZero));
        }
        rest = &rest[count..];
    }
    Ok(())
}

/// A sink that puts the line of each answer into a buffer, and behind it the line of its counts where it wants
/// these, and writes the buffer out when it is nearly full. It takes no memory.
pub struct LineWriter<'a, W> {
    /// The lines that aren't written yet.
    pub buffer: LineBuffer,
    pub writer: &'a mut W,
    /// Whether it wants the counts.
    pub counts: bool,
}

impl<'a, W: Write> LineWriter<'a, W> {
    /// A sink that writes to the writer by way of this buffer, with the counts or without.
    pub fn new(buffer: LineBuffer, writer: &'a mut W, counts: bool) -> LineWriter<'a, W>
        ensures buffer { result.buffer ≡ buffer }
        ensures same_writer { result.writer.ghost_name ≡ writer.entry.ghost_name }
        ensures contents { result.writer.now ≡ writer.old }
        ensures counts { result.counts ≡ counts }
    {
        LineWriter {
            buffer,
            writer,
            counts,
        }
    }

    /// Writes out the lines in the buffer. At a fault a beginning of them was written, and not all.
    pub fn write_out(&mut self) -> Result<(), WriteFault>
        ensures same_writer { KeepsWriter self.old self.new }
        ensures empty { OnOk result (self.new.buffer ≡ []) }
        ensures all { OnOk result (Appends (W.contents self.old.writer.now) (W.contents self.new.writer.now) self.old.buffer) }
        ensures part { OnErr result (AppendsPart (W.contents self.old.writer.now) (W.contents self.new.writer.now) self.old.buffer) }
    {
        write_all(self.writer, self.buffer.as_slice())?;
        self.buffer.clear();
        Ok(())
    }

    /// Puts the line of the answer into the buffer.
    #[inline(always)]
    fn put_line(&mut self, answer: Answer<'_>) -> Result<(), WriteFault>
        ensures taken { OnOk result (TakesText W.contents self.old (line_of (outcome_of answer.entry)) self.new) }
        ensures failed { OnErr result (FailsAt W.contents self.old (line_of (outcome_of answer.entry)) self.new) }
    {
        if !self.buffer.has_room() {
            self.write_out()?;
        }
        self.buffer.append_answer(answer);
        Ok(())
    }

    /// Puts the line of what settling answers into the buffer.
    fn put_answer(&mut self, answer: Result<u32, Refusal>) -> Result<(), WriteFault>
        ensures taken { OnOk result (TakesText W.contents self.old (settled_line answer) self.new) }
        ensures failed { OnErr result (FailsAt W.contents self.old (settled_line answer) self.new) }
    {
        if !self.buffer.has_room() {
            self.write_out()?;
        }
        self.buffer.append_settled(answer);
        Ok(())
    }

    /// Puts the line of what settling answers into the buffer, and behind it that of its counts, where there are any.
    pub fn put_settled(
        &mut self,
        answer: Result<u32, Refusal>,
        trace: Option<Trace>,
    ) -> Result<(), WriteFault>
        ensures taken { OnOk result (TakesText W.contents self.old (settled_lines answer trace) self.new) }
        ensures failed { OnErr result (FailsAt W.contents self.old (settled_lines answer trace) self.new) }
    {
        self.put_answer(answer)?;
        match trace {
            None => Ok(()),
            Some(trace) => self.put_trace(&trace),
        }
    }

    /// Puts the line of the counts into the buffer.
    // Apart from what is written into the loop of a run, where counts are seldom wanted.
    #[inline(never)]
    fn put_trace(&mut self, trace: &Trace) -> Result<(), WriteFault>
        ensures taken { OnOk result (TakesText W.contents self.old (trace_line trace.now) self.new) }
        ensures failed { OnErr result (FailsAt W.contents self.old (trace_line trace.now) self.new) }
    {
        if !self.buffer.has_room() {
            self.write_out()?;
        }
        self.buffer.append_trace(trace);
        Ok(())
    }
}

impl<W: Write> AnswerSink for LineWriter<'_, W> {
    type Fault = WriteFault;

    ghost wants = { wants_counts };

    ghost takes = { TakesLine W.contents };

    ghost fails = { FailsWriting W.contents };

    #[inline(always)]
    fn wants_trace(&self) -> bool {
        self.counts
    }

    // Written into the loop of a run: a call would save and restore registers for each event.
    #[inline(always)]
    fn put(&mut self, answer: Answer<'_>, trace: Option<Trace>) -> Result<(), WriteFault> {
        self.put_line(answer)?;
        match trace {
            None => Ok(()),
            Some(trace) => self.put_trace(&trace),
        }
    }
}
