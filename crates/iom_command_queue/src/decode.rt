// From the words of a command to its fields.
ghost use Rattle.std.specs.Prelude.{◌≡◌, ◌+◌, ◌*◌, ◌<◌, ◌≤◌, ◌==◌};
ghost use Rattle.iom_command_queue.specs.Bits.{bits_of, is_set, where_set};
ghost use Rattle.iom_command_queue.specs.Formats.{ats_device, ats_range};
ghost use Rattle.iom_command_queue.specs.Legal.{decoded, is_clear, is_forbidden, command_of};

use crate::command::{AtsRange, Command, FenceStore};
use crate::field::Field;
use crate::illegal::Illegal;
use crate::layout::{FUNC3, OPCODE, ats, iodir, iofence, iotinval};
use crate::operation::Operation;
use crate::values::{DeviceNumber, FenceAddress, PageNumber, Pscid};

/// The command that two words are.
#[tactic(auto, unfolding(crate::specs::Legal::decoded))]
pub(crate) fn decode_words(first: u64, second: u64) -> Result<Command, Illegal>
    ensures { result ≡ decoded first second }
{
    let operation = Operation::at(OPCODE.read(first), FUNC3.read(first))?;
    if !is_clear(operation, first, second) {
        Err(Illegal::Reserved)
    } else if is_forbidden(operation, first, second) {
        Err(Illegal::Combination)
    } else {
        Ok(command(operation, first, second))
    }
}

/// Whether all reserved bits are zero.
fn is_clear(operation: Operation, first: u64, second: u64) -> bool
    ensures { result ≡ is_clear operation first second }
{
    match operation {
        Operation::IotinvalVma | Operation::IotinvalGvma => {
            bits_are_zero(first, 11, 11)
                && bits_are_zero(first, 43, 34)
                && bits_are_zero(first, 63, 60)
                && bits_are_zero(second, 9, 0)
                && bits_are_zero(second, 63, 62)
        }
        Operation::IofenceC => bits_are_zero(first, 31, 14) && bits_are_zero(second, 63, 62),
        Operation::IodirInvalDdt => {
            bits_are_zero(first, 32, 10)
                && bits_are_zero(first, 39, 34)
                && bits_are_zero(second, 63, 0)
        }
        Operation::AtsInval => {
            bits_are_zero(first, 32, 10)
                && bits_are_zero(first, 39, 34)
                && bits_are_zero(second, 10, 1)
        }
    }
}

fn bits_are_zero(word: u64, high: u32, low: u32) -> bool
    requires within { high < 64 }
    requires some { low ≤ high }
    ensures { result ≡ (bits_of word high low == 0) }
{
    Field { high, low }.read(word) == 0
}

/// Whether a bit of a field is set that this command may not have set.
fn is_forbidden(operation: Operation, first: u64, second: u64) -> bool
    ensures { result ≡ is_forbidden operation first second }
{
    match operation {
        Operation::IotinvalGvma => iotinval::PSCV.is_set(first),
        Operation::AtsInval => ats::G.is_set(second),
        _ => false,
    }
}

/// The command by its fields.
fn command(operation: Operation, first: u64, second: u64) -> Command
    ensures { result ≡ command_of operation first second }
{
    match operation {
        Operation::IotinvalVma => Command::IotinvalVma {
            gscid: gscid(first),
            pscid: pscid(first),
            page: page(first, second),
        },
        Operation::IotinvalGvma => Command::IotinvalGvma {
            gscid: gscid(first),
            page: page(first, second),
        },
        Operation::IofenceC => Command::IofenceC {
            store: store(first, second),
            wsi: iofence::WSI.is_set(first),
            pr: iofence::PR.is_set(first),
            pw: iofence::PW.is_set(first),
        },
        Operation::IodirInvalDdt => Command::IodirInvalDdt {
            device: directory_device(first),
        },
        Operation::AtsInval => Command::AtsInval {
            device: ats_device(first),
            range: ats_range(second),
        },
    }
}

fn gscid(first: u64) -> Option<u16>
    ensures { result ≡ where_set (is_set first 33) (bits_of first 59 44) }
{
    if !iotinval::GV.is_set(first) {
        return None;
    }
    Some(iotinval::GSCID.read(first) as u16)
}

fn pscid(first: u64) -> Option<Pscid>
    ensures { result ≡ where_set (is_set first 32) (bits_of first 31 12) }
{
    if !iotinval::PSCV.is_set(first) {
        return None;
    }
    Pscid::new(iotinval::PSCID.read(first) as u32)
}

fn page(first: u64, second: u64) -> Option<PageNumber>
    ensures { result ≡ where_set (is_set first 10) (bits_of second 61 10) }
{
    if !iotinval::AV.is_set(first) {
        return None;
    }
    PageNumber::new(iotinval::ADDR.read(second))
}

fn store(first: u64, second: u64) -> Option<FenceStore>
    ensures { result ≡ where_set (is_set first 10)
        (record { address = 4 * bits_of second 61 0; «data» = bits_of first 63 32 }) }
{
    if !iofence::AV.is_set(first) {
        return None;
    }
    let address = FenceAddress::new(4 * iofence::ADDR.read(second))?;
    let data = iofence::DATA.read(first) as u32;
    Some(FenceStore { address, data })
}

fn directory_device(first: u64) -> Option<DeviceNumber>
    ensures { result ≡ where_set (is_set first 33) (bits_of first 63 40) }
{
    if !iodir::DV.is_set(first) {
        return None;
    }
    DeviceNumber::new(iodir::DID.read(first) as u32)
}

fn ats_device(first: u64) -> DeviceNumber
    ensures { result ≡ ats_device first }
{
    let segment = if ats::DSV.is_set(first) {
        ats::DSEG.read(first)
    } else {
        0
    };
    DeviceNumber::new((ats::RID.read(first) + (segment << 16)) as u32).unwrap()
}

fn ats_range(second: u64) -> AtsRange
    ensures { result ≡ ats_range second }
{
    if ats::S.is_set(second) {
        AtsRange::Everything
    } else {
        AtsRange::Page(PageNumber::new(ats::PAGE.read(second)).unwrap())
    }
}
