// A script, from its bytes to the bytes of its lines.
ghost use Rattle.std.specs.Prelude.{◌≡◌, ◌+◌, ◌*◌, ◌<◌, ◌≤◌, ◌^◌, List, [], ℕ, length, Option, OnOk, OnErr, IfOk, IfErr, IfSome, is_some};
ghost use Rattle.iom_machine.specs.declared.outcome.Trace.{Trace};
ghost use Rattle.iom_machine.specs.declared.state.State.{State};
ghost use Rattle.iom_world.specs.PowerOn.{BeginsAt};
ghost use Rattle.iom_block_devices.specs.Shown.{states_of};
ghost use Rattle.iom_world.specs.Shown.{shown_of};
ghost use Rattle.iom_script.specs.declared.script.ScriptLine.TheVariants as says;
ghost use Rattle.iom_script.specs.declared.script.WorldSize.{WorldSize};
ghost use Rattle.iom_script.specs.Grammar.{IsScript, IsWorldSize};
ghost use Rattle.iom_runner.specs.Bytes.{ExplainsUnparsed};
ghost use Rattle.iom_runner.specs.Disks.{setting_of};
ghost use Rattle.iom_runner.specs.Going.{LineHappens, RunsAlong, FailsAlong};
ghost use Rattle.iom_runner.specs.LineRuns.{Answer};
ghost use Rattle.iom_script_reading.specs.Reading.{ConsumesAtMost};
ghost use Rattle.iom_runner.specs.Reading.{FailsWithin};
ghost use Rattle.iom_runner.specs.Runs.{TellsScript, RunsBytes, AreLeft};
ghost use Rattle.iom_runner.specs.Text.{Setting, answer_line};
ghost use Rattle.iom_runner.specs.WorldText.{WritesRun, BeginsRun, BeginsRunSoFar};
ghost use Rattle.iom_line_writer.specs.Writing.{KeepsWriter, TakesText, FailsAt};
ghost use Rattle.iom_world.specs.Shows.{Shows};

use crate::faults::RunFault;
use crate::reading::read_bytes;
use iom_answers::AnswerSink;
use iom_line_writer::{LineWriter, WriteFault};
use iom_script::{LineBuffer, Script, ScriptLine, WorldSize, parse};
use iom_virtio_blk::Disk;
use iom_world::World;
use std::alloc::Global;
use std::io::{Read, Write};

/// The script that the bytes say.
pub(crate) fn script_of(alloc: Global, bytes: &[u8]) -> Result<Script, RunFault>
    ensures script { IfOk result (IsScript bytes.now) }
    ensures world { IfOk result (λ script. IfSome script.world IsWorldSize) }
    ensures few { IfOk result (λ script. length script.lines ≤ 1048576) }
    ensures fault { IfErr result (ExplainsUnparsed bytes.now) }
{
    Ok(parse(alloc, bytes)?)
}

/// The world at power-on, of that size, with these disks.
fn world_of<D: Disk>(alloc: Global, size: WorldSize, disks: Vec<D>) -> Result<World<D>, RunFault>
    requires { IsWorldSize size }
    ensures begins { IfOk result (λ world. BeginsAt size.frames size.levels (states_of D.shown disks.items) (shown_of D.shown world)) }
    ensures fault { IfErr result (λ fault. fault ≡ RunFault.Memory) }
{
    World::new(alloc, size.frames as u32, size.levels as u8, disks).map_err(|_| RunFault::Memory)
}

/// The world settles, and what it answers goes to the lines, with the counts behind it where these are wanted.
// Apart from the loop of a run, which seldom settles.
#[inline(never)]
fn tell_settling<W: Write, D: Disk>(
    world: &mut World<D>,
    lines: &mut LineWriter<'_, W>,
) -> Result<(), WriteFault>
    requires count { world.old.hardware.board.events + 400 < 2 ^ 64 }
    ensures reply { (answer : Answer) × (trace : Option Trace)
        × LineHappens (shown_of D.shown world.old) says.Settle answer trace (shown_of D.shown world.new)
        × (is_some trace ≡ lines.old.counts) × OnOk result (TakesText W.contents lines.old (answer_line answer trace) lines.new)
        × OnErr result (FailsAt W.contents lines.old (answer_line answer trace) lines.new) }
    ensures counted { world.new.hardware.board.events ≤ world.old.hardware.board.events + 400 }
{
    let answer = world.settle();
    let trace = world.trace_for(lines);
    lines.put_settled(answer, trace)
}

/// What the line says happens, and its answer goes to the lines, with the counts behind it where these are wanted.
#[inline(always)]
fn tell_line<W: Write, D: Disk>(
    world: &mut World<D>,
    line: &ScriptLine,
    lines: &mut LineWriter<'_, W>,
) -> Result<(), WriteFault>
    requires count { world.old.hardware.board.events + 400 < 2 ^ 64 }
    ensures reply { (answer : Answer) × (trace : Option Trace)
        × LineHappens (shown_of D.shown world.old) line.now answer trace (shown_of D.shown world.new)
        × (is_some trace ≡ lines.old.counts) × OnOk result (TakesText W.contents lines.old (answer_line answer trace) lines.new)
        × OnErr result (FailsAt W.contents lines.old (answer_line answer trace) lines.new) }
    ensures counted { world.new.hardware.board.events ≤ world.old.hardware.board.events + 400 }
{
    match line {
        ScriptLine::Event(event) => world.run_one(event, lines),
        ScriptLine::Settle => tell_settling(world, lines),
    }
}

/// The same of each line of a script, up to the first at which writing fails.
fn tell_lines<W: Write, D: Disk>(
    world: &mut World<D>,
    script: &[ScriptLine],
    lines: &mut LineWriter<'_, W>,
) -> Result<(), WriteFault>
    requires count { world.old.hardware.board.events + 400 * length script.now < 2 ^ 64 }
    ensures ran { (state : State) → Shows (shown_of D.shown world.old) state
        → OnOk result (RunsAlong W.contents state (shown_of D.shown world.old) script.now lines.old lines.new (shown_of D.shown world.new)) }
    ensures failed { (state : State) → Shows (shown_of D.shown world.old) state
        → OnErr result (FailsAlong W.contents state (shown_of D.shown world.old) script.now lines.old lines.new (shown_of D.shown world.new)) }
{
    for line in script {
        tell_line(world, line, lines)?;
    }
    Ok(())
}

/// Writes the line of the world, and those of the script, which happens in it.
fn tell_all<W: Write, D: Disk>(
    world: &mut World<D>,
    script: &[ScriptLine],
    lines: &mut LineWriter<'_, W>,
) -> Result<(), WriteFault>
    requires count { world.old.hardware.board.events + 400 * length script.now < 2 ^ 64 }
    requires empty { lines.old.buffer ≡ [] }
    ensures same_writer { (setting : Setting) (size : WorldSize) → BeginsAt size.frames size.levels setting.disks (shown_of D.shown world.old)
        → KeepsWriter lines.old lines.new }
    ensures reply { (setting : Setting) (size : WorldSize) → BeginsAt size.frames size.levels setting.disks (shown_of D.shown world.old)
        → lines.old.counts ≡ setting.counts
        → OnOk result (WritesRun setting size script.now (W.contents lines.old.writer.now) (W.contents lines.new.writer.now)) }
    ensures front { (setting : Setting) (size : WorldSize) → BeginsAt size.frames size.levels setting.disks (shown_of D.shown world.old)
        → lines.old.counts ≡ setting.counts
        → OnErr result (BeginsRun setting size script.now (W.contents lines.old.writer.now) (W.contents lines.new.writer.now)) }
    ensures so_far { (setting : Setting) (size : WorldSize) → BeginsAt size.frames size.levels setting.disks (shown_of D.shown world.old)
        → lines.old.counts ≡ setting.counts
        → OnErr result (BeginsRunSoFar setting size script.now (W.contents lines.old.writer.now) (W.contents lines.new.writer.now)) }
{
    let trace = world.trace_for(lines);
    lines.put(iom_answers::Answer::Done, trace)?;
    tell_lines(world, script, lines)?;
    lines.write_out()
}

/// The same, to the writer, by way of the buffer; with the counts or without.
fn tell_run<W: Write, D: Disk>(
    world: &mut World<D>,
    script: &[ScriptLine],
    counts: bool,
    buffer: LineBuffer,
    writer: &mut W,
) -> Result<(), RunFault>
    requires count { world.old.hardware.board.events + 400 * length script.now < 2 ^ 64 }
    requires empty { buffer ≡ [] }
    ensures reply { (setting : Setting) (size : WorldSize) → BeginsAt size.frames size.levels setting.disks (shown_of D.shown world.old)
        → counts ≡ setting.counts → OnOk result (WritesRun setting size script.now (W.contents writer.old) (W.contents writer.new)) }
    ensures front { (setting : Setting) (size : WorldSize) → BeginsAt size.frames size.levels setting.disks (shown_of D.shown world.old)
        → counts ≡ setting.counts → OnErr result (BeginsRun setting size script.now (W.contents writer.old) (W.contents writer.new)) }
    ensures so_far { (setting : Setting) (size : WorldSize) → BeginsAt size.frames size.levels setting.disks (shown_of D.shown world.old)
        → counts ≡ setting.counts → OnErr result (BeginsRunSoFar setting size script.now (W.contents writer.old) (W.contents writer.new)) }
    ensures fault { IfErr result (λ fault. fault ≡ RunFault.Writing) }
{
    let mut lines = LineWriter::new(buffer, writer, counts);
    let reply = tell_all(world, script, &mut lines);
    let LineWriter {
        buffer: _,
        writer,
        counts: _,
    } = lines;
    // No effect at run time: from this use the proof reads what the writer holds.
    let _ = &*writer;
    match reply {
        Ok(()) => Ok(()),
        Err(WriteFault) => Err(RunFault::Writing),
    }
}

/// A buffer for lines, with nothing in it.
fn empty_buffer(alloc: Global) -> Result<LineBuffer, RunFault>
    ensures empty { IfOk result (λ buffer. buffer ≡ []) }
    ensures fault { IfErr result (λ fault. fault ≡ RunFault.Memory) }
{
    LineBuffer::new(alloc).map_err(|_| RunFault::Memory)
}

/// Writes the lines of the script, which is run with these disks; with the counts or without.
pub(crate) fn tell<W: Write, D: Disk>(
    alloc: Global,
    script: &Script,
    disks: Vec<D>,
    counts: bool,
    writer: &mut W,
) -> Result<(), RunFault>
    requires world { IfSome script.now.world IsWorldSize }
    requires few { length script.now.lines ≤ 1048576 }
    ensures { TellsScript (setting_of D.shown disks.items counts) script.now result (W.contents writer.old) (W.contents writer.new) }
{
    let Some(size) = script.world else {
        return Ok(());
    };
    let buffer = empty_buffer(alloc)?;
    let mut world = world_of(alloc, size, disks)?;
    tell_run(&mut world, script.lines.as_slice(), counts, buffer, writer)
}

/// Reads a script, runs its lines in a world at power-on, with these disks, and writes a line for the world
/// and one for each of them; with `trace` each is followed by the line of the counts that stand there. Of bytes
/// that aren't a script it writes nothing, and names their first bad line. Where writing fails, what was written
/// is a beginning of the text; where reading fails, or memory, nothing is written.
pub fn run<R: Read, W: Write, D: Disk>(
    alloc: Global,
    reader: &mut R,
    writer: &mut W,
    disks: Vec<D>,
    trace: bool,
) -> Result<(), RunFault>
    // Of a reader whose bytes aren't known, it is so of some bytes.
    ensures ran { (input : List ℕ) × AreLeft input (R.remaining reader.old)
        × RunsBytes (setting_of D.shown disks.items trace) input result (W.contents writer.old) (W.contents writer.new) }

    // Of the reader at most one byte more is taken than a script may have, and where reading fails not that one.
    ensures consumed { ConsumesAtMost 1048577 (R.remaining reader.old) (R.remaining reader.new) }
    ensures within { FailsWithin 1048576 (R.remaining reader.old) (R.remaining reader.new) result }
{
    let bytes = read_bytes(alloc, reader)?;
    let script = script_of(alloc, &bytes)?;
    tell(alloc, &script, disks, trace, writer)
}
