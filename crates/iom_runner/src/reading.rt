// A script's bytes, read before anything is done with them.
ghost use Rattle.std.specs.Prelude.{◌≡◌, take, IfOk, IfErr, IfSome};
ghost use Rattle.iom_script_reading.specs.Reading.{ConsumesAtMost};
ghost use Rattle.iom_runner.specs.Reading.{IsReadFault, FailsWithin};

use crate::faults::RunFault;
use iom_script_reading::read_script;
use std::alloc::Global;
use std::io::Read;

/// The bytes of the reader, or the first 1,048,577 of them where there are more. Where it fails, fewer were taken: so a
/// script that is too long isn't told as one that can't be read.
pub(crate) fn read_bytes<R: Read>(alloc: Global, reader: &mut R) -> Result<Vec<u8>, RunFault>
    ensures bytes { IfOk result (λ bytes. IfSome (R.remaining reader.old) (λ input. bytes.items ≡ take 1048577 input)) }
    ensures consumed { ConsumesAtMost 1048577 (R.remaining reader.old) (R.remaining reader.new) }
    ensures within { FailsWithin 1048576 (R.remaining reader.old) (R.remaining reader.new) result }
    ensures fault { IfErr result IsReadFault }
{
    let bytes = read_script(alloc, reader)?;
    Ok(bytes)
}
