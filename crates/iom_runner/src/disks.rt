// A script that is run with the program's own disks.
ghost use Rattle.std.specs.Prelude.{◌≡◌, ◌≤◌, List, ℕ, length, IfSome};
ghost use Rattle.iom_script.specs.Grammar.{IsWorldSize};
ghost use Rattle.iom_runner.specs.Disks.{program_setting};
ghost use Rattle.iom_script_reading.specs.Reading.{ConsumesAtMost};
ghost use Rattle.iom_runner.specs.Reading.{FailsWithin};
ghost use Rattle.iom_runner.specs.Runs.{TellsScript, RunsBytes, AreLeft};

use crate::faults::RunFault;
use crate::reading::read_bytes;
use crate::runner::{script_of, tell};
use iom_program_disks::program_disks;
use iom_script::Script;
use std::alloc::Global;
use std::io::{Read, Write};
use std::mem;

/// Writes the lines of the script, which is run with the program's disks. These take memory only where the script
/// has a world.
fn tell_with_disks<W: Write>(
    alloc: Global,
    script: &Script,
    counts: bool,
    writer: &mut W,
) -> Result<(), RunFault>
    requires world { IfSome script.now.world IsWorldSize }
    requires few { length script.now.lines ≤ 1048576 }
    ensures { TellsScript (program_setting counts) script.now result (W.contents writer.old) (W.contents writer.new) }
{
    if script.world.is_none() {
        return Ok(());
    }
    let Ok(disks) = program_disks(alloc) else {
        return Err(RunFault::Memory);
    };
    tell(alloc, script, disks, counts, writer)
}

/// Reads a script and runs it with the program's disks, as [`run`](crate::run) does. Where memory for these is
/// refused, the script was read before.
pub(crate) fn run_with_disks<R: Read, W: Write>(
    alloc: Global,
    reader: &mut R,
    writer: &mut W,
    counts: bool,
) -> Result<(), RunFault>
    ensures ran { (input : List ℕ) × AreLeft input (R.remaining reader.old)
        × RunsBytes (program_setting counts) input result (W.contents writer.old) (W.contents writer.new) }
    ensures consumed { ConsumesAtMost 1048577 (R.remaining reader.old) (R.remaining reader.new) }
    ensures within { FailsWithin 1048576 (R.remaining reader.old) (R.remaining reader.new) result }
{
    let bytes = read_bytes(alloc, reader)?;
    let script = script_of(alloc, &bytes)?;
    let reply = tell_with_disks(alloc, &script, counts, writer);
    // It is the program's only run: the events go when the process ends, and not one by one.
    mem::forget(script);
    reply
}
