// Reads of a script's bytes.
ghost use Rattle.std.specs.Prelude.{◌≡◌, ◌≢◌, ◌<◌, length, take, vec_len, IfOk, IfErr, IfSome};
ghost use Rattle.std.specs.Io.{ReadsAtMost};
ghost use Rattle.std.specs.IoError.{error_kind};
ghost use Rattle.std.specs.Io.KnownBytes.{ReadConsumes};
ghost use Rattle.iom_script_reading.specs.Reading.{ConsumesAtMost, ReadsMore};

use iom_script::SCRIPT_LIMIT;
use std::alloc::Global;
use std::io::{self, ErrorKind, Read};

/// One byte more than a script has at most: enough to see that there are too many.
const READ_LIMIT: usize = SCRIPT_LIMIT + 1;

/// The bytes that one read gives at most. Copies of so many are made by vector instructions; longer ones by a
/// string instruction, which callgrind counts once for each byte. In time there is no difference.
pub const READ_SIZE: usize = 4080;

/// Why a script's bytes aren't there.
#[derive(Clone, Copy, PartialEq, Eq, Debug)]
pub enum ReadFault {
    /// The reader failed.
    Reading,
    /// There is no memory for them.
    Memory,
}

/// Why nothing was read: for want of memory, or since the reader failed.
fn fault_of(error: &io::Error) -> ReadFault
    ensures memory { error_kind error.now ≡ ErrorKind.OutOfMemory → result ≡ ReadFault.Memory }
    ensures others { error_kind error.now ≢ ErrorKind.OutOfMemory → result ≡ ReadFault.Reading }
{
    match error.kind() {
        ErrorKind::OutOfMemory => ReadFault::Memory,
        _ => ReadFault::Reading,
    }
}

/// One read: how many bytes came, which stand at the front of the buffer then; none at the end alone. A read that is
/// interrupted is tried again, and no other.
pub fn read_once<R: Read>(reader: &mut R, buffer: &mut [u8]) -> Result<usize, ReadFault>
    ensures bound { ReadsAtMost result buffer.new }
    ensures bytes { ReadConsumes (R.remaining reader.old) (R.remaining reader.new) result buffer.new }
{
    for _ in 0..u64::MAX {
        match reader.read(buffer) {
            Ok(count) => return Ok(count),
            Err(error) => {
                if error.kind() != ErrorKind::Interrupted {
                    return Err(fault_of(&error));
                }
            }
        }
    }
    Err(ReadFault::Reading)
}

/// Reads once, into the chunk, and appends what came. It gives how many bytes came: none at the end
/// alone.
fn read_more<R: Read>(
    reader: &mut R,
    chunk: &mut [u8],
    bytes: &mut Vec<u8>,
) -> Result<usize, ReadFault>
    requires chunk { 0 < length chunk.old }
    requires room { vec_len bytes.old < READ_LIMIT }
    ensures more { ReadsMore (R.remaining reader.old) (R.remaining reader.new) bytes.old.items bytes.new.items result READ_LIMIT }
{
    let room = chunk.len().min(READ_LIMIT - bytes.len());
    let count = read_once(reader, &mut chunk[..room])?;
    match bytes.extend_from_slice(&chunk[..count]) {
        Ok(()) => Ok(count),
        Err(_) => Err(ReadFault::Memory),
    }
}

/// The bytes of the reader, or the first 1,048,577 of them where there are more, one more than a script may have: no byte
/// behind those is taken from it. Where it fails, fewer were taken: so a script that is too long isn't told as one that can't
/// be read.
pub fn read_script<R: Read>(alloc: Global, reader: &mut R) -> Result<Vec<u8>, ReadFault>
    ensures bytes { IfOk result (λ bytes. IfSome (R.remaining reader.old) (λ input. bytes.items ≡ take 1048577 input)) }
    ensures consumed { ConsumesAtMost 1048577 (R.remaining reader.old) (R.remaining reader.new) }
    ensures within { IfErr result (λ fault. fault ≡ ReadFault.Reading → ConsumesAtMost 1048576 (R.remaining reader.old) (R.remaining reader.new)) }
{
    let mut chunk = [0u8; READ_SIZE];
    let mut bytes = Vec::new(alloc);
    while bytes.len() < READ_LIMIT {
        let count = read_more(reader, &mut chunk, &mut bytes)?;
        if count == 0 {
            return Ok(bytes);
        }
    }
    Ok(bytes)
}
