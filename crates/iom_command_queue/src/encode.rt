// From the fields of a command to its words.
ghost use Rattle.std.specs.Prelude.{◌≡◌, ◌<◌, ◌^◌};
ghost use Rattle.iom_command_queue.specs.Encoded.{first_word, second_word, or_zero, address_or_zero, data_or_zero, payload};

use crate::command::{AtsRange, Command, FenceStore};
use crate::layout::{FUNC3, OPCODE, ats, iodir, iofence, iotinval};
use crate::values::{DeviceNumber, PageNumber, Pscid};

/// The first word of the command: opcode and func3, and the fields that it uses.
#[inline(always)]
#[tactic(auto, unfolding(crate::specs::Encoded::first_word))]
pub(crate) fn first_word(command: &Command) -> u64
    ensures { result ≡ first_word command.now }
{
    match *command {
        Command::IotinvalVma { gscid, pscid, page } => {
            OPCODE.place(1)
                + iotinval::AV.place(page.is_some())
                + iotinval::PSCID.place(pscid_or_zero(pscid))
                + iotinval::PSCV.place(pscid.is_some())
                + iotinval::GV.place(gscid.is_some())
                + iotinval::GSCID.place(gscid_or_zero(gscid))
        }
        Command::IotinvalGvma { gscid, page } => {
            OPCODE.place(1)
                + FUNC3.place(1)
                + iotinval::AV.place(page.is_some())
                + iotinval::GV.place(gscid.is_some())
                + iotinval::GSCID.place(gscid_or_zero(gscid))
        }
        Command::IofenceC { store, wsi, pr, pw } => {
            OPCODE.place(2)
                + iofence::AV.place(store.is_some())
                + iofence::WSI.place(wsi)
                + iofence::PR.place(pr)
                + iofence::PW.place(pw)
                + iofence::DATA.place(u64::from(data_or_zero(store)))
        }
        Command::IodirInvalDdt { device } => {
            OPCODE.place(3)
                + iodir::DV.place(device.is_some())
                + iodir::DID.place(device_or_zero(device))
        }
        Command::AtsInval { device, .. } => {
            let number = u64::from(device.number());
            OPCODE.place(4)
                + ats::DSV.place(true)
                + ats::RID.place(number % (1 << 16))
                + ats::DSEG.place(number / (1 << 16))
        }
    }
}

/// The second word of the command: its address.
#[inline(always)]
#[tactic(auto, unfolding(crate::specs::Encoded::second_word))]
pub(crate) fn second_word(command: &Command) -> u64
    ensures { result ≡ second_word command.now }
{
    match *command {
        Command::IotinvalVma { page, .. } | Command::IotinvalGvma { page, .. } => {
            iotinval::ADDR.place(page_or_zero(page))
        }
        Command::IofenceC { store, .. } => iofence::ADDR.place(address_or_zero(store) / 4),
        Command::IodirInvalDdt { .. } => 0,
        Command::AtsInval { range, .. } => match range {
            AtsRange::Page(page) => ats::PAGE.place(page.number()),
            AtsRange::Everything => ats::S.place(true),
        },
    }
}

fn gscid_or_zero(gscid: Option<u16>) -> u64
    ensures value { result ≡ or_zero gscid }
    ensures fits { result < 2 ^ 16 }
{
    u64::from(gscid.unwrap_or(0))
}

fn pscid_or_zero(pscid: Option<Pscid>) -> u64
    ensures value { result ≡ or_zero pscid }
    ensures fits { result < 2 ^ 20 }
{
    match pscid {
        Some(pscid) => u64::from(pscid.number()),
        None => 0,
    }
}

fn page_or_zero(page: Option<PageNumber>) -> u64
    ensures value { result ≡ or_zero page }
    ensures fits { result < 2 ^ 52 }
{
    match page {
        Some(page) => page.number(),
        None => 0,
    }
}

fn device_or_zero(device: Option<DeviceNumber>) -> u64
    ensures value { result ≡ or_zero device }
    ensures fits { result < 2 ^ 24 }
{
    match device {
        Some(device) => u64::from(device.number()),
        None => 0,
    }
}

fn address_or_zero(store: Option<FenceStore>) -> u64
    ensures { result ≡ address_or_zero store }
{
    match store {
        Some(store) => store.address.address(),
        None => 0,
    }
}

fn data_or_zero(store: Option<FenceStore>) -> u32
    ensures { result ≡ data_or_zero store }
{
    match store {
        Some(store) => store.data,
        None => 0,
    }
}
