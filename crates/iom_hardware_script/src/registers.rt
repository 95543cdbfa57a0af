//! How software reads and writes registers.
ghost use Rattle.iom_script.specs.Reading.{Reads};
ghost use Rattle.iom_hardware_script.specs.Parts.{IsRegisterReadLine, IsRegisterWriteLine};

use crate::script::HardwareLine;
use iom_script::words::{address_of, after, number_and, number_of};

/// `mmio-read OFFSET WIDTH`
pub(crate) fn register_read(line: &[u8]) -> Option<HardwareLine>
    ensures { Reads result (IsRegisterReadLine line.now) }
{
    let arguments = after(line, b"mmio-read ")?;
    let (offset, rest) = number_and(arguments)?;
    let width = number_of(rest)?;
    Some(HardwareLine::RegisterRead { offset, width })
}

/// `mmio-write OFFSET WIDTH ADDR`
pub(crate) fn register_write(line: &[u8]) -> Option<HardwareLine>
    ensures { Reads result (IsRegisterWriteLine line.now) }
{
    let arguments = after(line, b"mmio-write ")?;
    let (offset, rest) = number_and(arguments)?;
    let (width, rest) = number_and(rest)?;
    let value = address_of(rest)?;
    Some(HardwareLine::RegisterWrite {
        offset,
        width,
        value,
    })
}
