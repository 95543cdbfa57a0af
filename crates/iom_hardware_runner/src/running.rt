// A script, from its bytes to the bytes of its answers.
ghost use Rattle.std.specs.Prelude.{◌≡◌, ◌<◌, ◌≤◌, length, take, IfOk, IfErr, IfSome, OnOk};
ghost use Rattle.std.specs.Io.{ReadsAtMost};
ghost use Rattle.std.specs.Io.KnownBytes.{Consumes, IsAtEnd, Keeps};
ghost use Rattle.iom_script_reading.specs.Reading.{ConsumesAtMost};
ghost use Rattle.iom_hardware_runner.specs.Parts.{NamesNone};
ghost use Rattle.iom_hardware_runner.specs.Runs.{ScriptRuns, NamesLine, IsFirstBadSessionLine};
ghost use Rattle.iom_hardware_script.specs.Grammar.{IsFirstBadHardwareLine};

use crate::arriving::Arriving;
use crate::faults::RunFault;
use iom_hardware_script::parse;
use iom_script_reading::{READ_SIZE, read_once, read_script};
use std::alloc::Global;
use std::io::{Read, Write};

/// Runs the bytes of a script on hardware at power-on, and writes an answer for each of its lines; and the script as it was
/// run to the log. Whether anything was wrong.
///
/// Of bytes that aren't a script it writes nothing, and names their first bad line. Where something else fails, what was
/// answered before is written.
pub fn run_bytes<W: Write, L: Write>(
    alloc: Global,
    bytes: &[u8],
    writer: &mut W,
    log: &mut L,
) -> Result<bool, RunFault>
    ensures ran { IfOk result (ScriptRuns bytes.now) }
    ensures bad { IfErr result (NamesLine (IsFirstBadHardwareLine bytes.now)) }
    ensures unwritten { IfErr result (NamesLine (λ number. Keeps (W.contents writer.old) (W.contents writer.new) × Keeps (L.contents log.old) (L.contents log.new))) }
    ensures short { OnOk result (length bytes.now ≤ 1048576) }
{
    // What it says is asked again line by line, as in a live session: so both answer alike.
    parse(alloc, bytes)?;
    let mut arriving = Arriving::new(alloc)?;
    arriving.take(bytes, writer, log)?;
    arriving.end()
}

/// Reads a script whole, and runs it as [`run_bytes`] does.
pub fn run<R: Read, W: Write, L: Write>(
    alloc: Global,
    reader: &mut R,
    writer: &mut W,
    log: &mut L,
) -> Result<bool, RunFault>
    ensures ran { IfOk result (λ wrong. IfSome (R.remaining reader.old) (λ input. ScriptRuns input wrong)) }
    ensures bad { IfErr result (λ fault. IfSome (R.remaining reader.old) (λ input. NamesLine (IsFirstBadHardwareLine input) fault)) }
    ensures unwritten { IfErr result (NamesLine (λ number. Keeps (W.contents writer.old) (W.contents writer.new) × Keeps (L.contents log.old) (L.contents log.new))) }
    ensures consumed { ConsumesAtMost 1048577 (R.remaining reader.old) (R.remaining reader.new) }
{
    let bytes = read_script(alloc, reader)?;
    run_bytes(alloc, &bytes, writer, log)
}

/// One read: how many bytes came, which stand at the front of the chunk then; none at the end alone.
fn read_piece<R: Read>(reader: &mut R, chunk: &mut [u8]) -> Result<usize, RunFault>
    requires some { 0 < length chunk.old }
    requires small { length chunk.old ≤ 65536 }
    ensures bound { ReadsAtMost result chunk.new }
    ensures few { IfOk result (λ count. length (take count chunk.new) ≤ 65536) }
    ensures named { IfErr result NamesNone }
    ensures taken { IfOk result (λ count. Consumes (R.remaining reader.old) (R.remaining reader.new) (take count chunk.new)
        × (count ≡ 0 → IsAtEnd (R.remaining reader.new))) }
{
    let count = read_once(reader, chunk)?;
    Ok(count)
}

/// Answers each line as soon as it is there, and writes it to the log. Whether anything was wrong, once no more lines come.
///
/// The session ends at the first line that isn't in the grammar; what was answered before stays. It may have any number
/// of lines, each of at most 65,536 bytes.
pub fn run_live<R: Read, W: Write, L: Write>(
    alloc: Global,
    reader: &mut R,
    writer: &mut W,
    log: &mut L,
) -> Result<bool, RunFault>
    ensures ran { IfOk result (λ wrong. IfSome (R.remaining reader.old) (λ input. ScriptRuns input wrong)) }
    ensures bad { IfErr result (λ fault. IfSome (R.remaining reader.old) (λ input. NamesLine (IsFirstBadSessionLine input) fault)) }
{
    let mut chunk = [0u8; READ_SIZE];
    let mut arriving = Arriving::new(alloc)?;
    for _ in 0..u64::MAX {
        let count = read_piece(reader, &mut chunk)?;
        if count == 0 {
            return arriving.end();
        }
        arriving.take(&chunk[..count], writer, log)?;
    }
    Err(RunFault::TooManyEvents)
}
