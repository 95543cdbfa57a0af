// A script, told as a trace.
ghost use Rattle.std.specs.Prelude.{◌≡◌, ◌+◌, ◌*◌, ◌<◌, ◌≤◌, ◌^◌, ◌++◌, ℕ, [], length, None, Some, OnOk, OnErr, IfOk, IfErr, IfSome};
ghost use Rattle.iom_block_devices.specs.Shown.{states_of};
ghost use Rattle.iom_line_writer.specs.Writing.{KeepsWriter};
ghost use Rattle.iom_script.specs.Grammar.{IsWorldSize};
ghost use Rattle.iom_world.specs.PowerOn.{BeginsAt};
ghost use Rattle.iom_world.specs.Shown.{shown_of};
ghost use Rattle.iom_telling.specs.Scripts.{world_text, TellsScript};
ghost use Rattle.iom_telling.specs.Tellers.{GoesByLine, GoesByLines, GoesByFirst, WritesAll, BeginsAll, WritesRun, BeginsRun};

use crate::fault::TellingFault;
use crate::teller::Teller;
use iom_line_writer::LineWriter;
use iom_script::{BUFFER_SIZE, LineBuffer, Script, ScriptLine, WorldSize};
use iom_settling::settle;
use iom_tell::ReservedFrames;
use iom_virtio_blk::Disk;
use iom_world::World;
use std::alloc::Global;
use std::io::Write;

/// The world at power-on, of that size, with these disks.
fn world_of<D: Disk>(
    alloc: Global,
    size: WorldSize,
    disks: Vec<D>,
) -> Result<World<D>, TellingFault>
    requires { IsWorldSize size }
    ensures begins { IfOk result (λ world. BeginsAt size.frames size.levels (states_of D.shown disks.items) (shown_of D.shown world)) }
    ensures fault { IfErr result (λ fault. fault ≡ TellingFault.Memory) }
{
    World::new(alloc, size.frames as u32, size.levels as u8, disks).map_err(
        |_| TellingFault::Memory,
    )
}

/// Appends the line of the world.
fn append_world(out: &mut LineBuffer, size: WorldSize)
    requires { length out.old + 100 ≤ BUFFER_SIZE }
    ensures { out.new ≡ out.old ++ world_text size }
{
    out.append(b"world ");
    out.append_decimal(size.frames);
    out.append(b" ");
    out.append_decimal(size.levels);
    out.append(b" => ok\n");
}

/// A buffer with the line of the world.
fn buffer_of(alloc: Global, size: WorldSize) -> Result<LineBuffer, TellingFault>
    ensures text { IfOk result (λ buffer. buffer ≡ world_text size) }
    ensures fault { IfErr result (λ fault. fault ≡ TellingFault.Memory) }
{
    let Ok(mut buffer) = LineBuffer::new(alloc) else {
        return Err(TellingFault::Memory);
    };
    append_world(&mut buffer, size);
    Ok(buffer)
}

/// A place for which frames are reserved.
fn reserved_frames(alloc: Global) -> Result<ReservedFrames, TellingFault>
    ensures fault { IfErr result (λ fault. fault ≡ TellingFault.Memory) }
{
    ReservedFrames::new(alloc).map_err(|_| TellingFault::Memory)
}

/// What the line says happens, and is told.
fn tell_line<W: Write, D: Disk>(teller: &mut Teller<'_, W, D>, line: &ScriptLine)
    requires count { teller.old.world.hardware.board.events + 400 < 2 ^ 64 }
    ensures told { GoesByLine W.contents D.shown teller.old line.now teller.new }
    ensures counted { teller.new.world.hardware.board.events ≤ teller.old.world.hardware.board.events + 400 }
{
    match line {
        ScriptLine::Event(event) => {
            let _outcome = teller.tell(event);
        }
        ScriptLine::Settle => {
            let _answer = settle(teller);
        }
    }
}

/// The same of each line of a script, up to the first at which something fails.
fn tell_lines<W: Write, D: Disk>(
    teller: &mut Teller<'_, W, D>,
    script: &[ScriptLine],
) -> Result<(), TellingFault>
    requires count { teller.old.world.hardware.board.events + 400 * length script.now < 2 ^ 64 }
    requires fresh { teller.old.fault ≡ None }
    ensures ran { OnOk result (GoesByLines W.contents D.shown teller.old script.now teller.new) }
    ensures fresh { OnOk result (teller.new.fault ≡ None) }
    ensures failed { IfErr result (λ fault. (teller.new.fault ≡ Some fault) × GoesByFirst W.contents D.shown teller.old script.now teller.new) }
{
    for line in script {
        tell_line(teller, line);
        match teller.fault {
            None => {}
            Some(fault) => return Err(fault),
        }
    }
    Ok(())
}

/// Tells the lines, and writes out what was told.
fn tell_all<W: Write, D: Disk>(
    teller: &mut Teller<'_, W, D>,
    script: &[ScriptLine],
) -> Result<(), TellingFault>
    requires count { teller.old.world.hardware.board.events + 400 * length script.now < 2 ^ 64 }
    requires fresh { teller.old.fault ≡ None }
    ensures told { OnOk result (WritesAll W.contents D.shown teller.old script.now teller.new) }
    ensures failed { OnErr result (BeginsAll W.contents D.shown teller.old script.now teller.new) }
{
    tell_lines(teller, script)?;
    match teller.lines.write_out() {
        Ok(()) => Ok(()),
        Err(_) => Err(TellingFault::Writing),
    }
}

/// The lines that the teller has, and the rest of it goes.
fn lines_of<'a, W: Write, D: Disk>(teller: Teller<'a, W, D>) -> LineWriter<'a, W>
    ensures same_writer { result.writer.ghost_name ≡ teller.entry.lines.writer.ghost_name }
    ensures contents { result.writer.now ≡ teller.entry.lines.writer.now }
{
    let Teller {
        world: _,
        before: _,
        lines,
        fault: _,
        explains: _,
        alloc: _,
    } = teller;
    lines
}

/// The same to the writer, by way of the buffer.
fn tell_run<W: Write, D: Disk>(
    alloc: Global,
    world: World<D>,
    before: ReservedFrames,
    script: &[ScriptLine],
    explains: bool,
    buffer: LineBuffer,
    writer: &mut W,
) -> Result<(), TellingFault>
    requires count { world.hardware.board.events + 400 * length script.now < 2 ^ 64 }
    ensures told { OnOk result (WritesRun (shown_of D.shown world) explains buffer script.now (W.contents writer.old) (W.contents writer.new)) }
    ensures failed { OnErr result (BeginsRun (shown_of D.shown world) explains buffer script.now (W.contents writer.old) (W.contents writer.new)) }
{
    let lines = LineWriter::new(buffer, writer, false);
    let mut teller = Teller {
        world,
        before,
        lines,
        fault: None,
        explains,
        alloc,
    };
    let told = tell_all(&mut teller, script);
    let told_lines = lines_of(teller);
    let LineWriter {
        buffer: _,
        writer,
        counts: _,
    } = told_lines;
    // No effect at run time: from this use the proof reads what the writer holds.
    let _ = &*writer;
    match told {
        Ok(()) => Ok(()),
        Err(fault) => Err(fault),
    }
}

/// Tells the script, which is run with these disks, to the writer: the line of the world, and that of each event, with what came of
/// it. With `explains`, notes stand behind an answer of which people ask why, each a line that begins with `# `; the other lines are the
/// same as without. Where something fails, what was written is a beginning of that, and perhaps nothing.
pub fn tell<W: Write, D: Disk>(
    alloc: Global,
    script: &Script,
    explains: bool,
    disks: Vec<D>,
    writer: &mut W,
) -> Result<(), TellingFault>
    requires world { IfSome script.now.world IsWorldSize }
    requires few { length script.now.lines ≤ 1048576 }
    ensures { TellsScript (states_of D.shown disks.items) explains script.now result (W.contents writer.old) (W.contents writer.new) }
{
    let Some(size) = script.world else {
        return Ok(());
    };
    let buffer = buffer_of(alloc, size)?;
    let before = reserved_frames(alloc)?;
    let world = world_of(alloc, size, disks)?;
    tell_run(
        alloc,
        world,
        before,
        script.lines.as_slice(),
        explains,
        buffer,
        writer,
    )
}
