// What the command at the head of the queue waits for.
ghost use Rattle.std.specs.Prelude.{◌≡◌, IfSome};
ghost use Rattle.iom_iommu.specs.Fetches.{counted_in};
ghost use Rattle.iom_explain.specs.Waits.{name_of, is_waited_for, IsAwaited, FenceWaits, CommandWaits, IsHeadWait};

use iom_base::{AccessKind, DeviceId};
use iom_board::Board;
use iom_command_queue::{Command, CommandRing, MAX_SLOTS, QueueEntry};
use iom_machine::CommandName;
use std::fmt;

/// An access of a device that a fence waits for.
#[derive(Clone, Copy, PartialEq, Eq)]
pub struct AwaitedAccess {
    pub device: DeviceId,
    /// Its number among the device's accepted accesses, from 1, as `accepted N` says it.
    pub number: u64,
}

/// What the command queue stands at.
#[derive(Clone, Copy, PartialEq, Eq)]
pub enum HeadWait {
    /// Command processing is off or stopped.
    Stopped,
    /// No command waits.
    Empty,
    /// Bytes stand at the head that are no command, or are outside memory.
    Unreadable,
    /// A fence stands at the head, and waits for an invalidation request to be done.
    Request { device: DeviceId, serial: u64 },
    /// A fence stands at the head, and waits for an access to be made.
    Access(AwaitedAccess),
    /// An invalidation request is to be sent, and as many are open as may be.
    NoSlot,
    /// This command stands at the head, and none of the above is so.
    Next(CommandName),
}

/// The command's name.
fn name_of(command: &Command) -> CommandName
    ensures { result ≡ name_of command.now }
{
    match *command {
        Command::IotinvalVma { .. } => CommandName::IotinvalVma,
        Command::IotinvalGvma { .. } => CommandName::IotinvalGvma,
        Command::IofenceC { .. } => CommandName::IofenceC,
        Command::IodirInvalDdt { .. } => CommandName::IodirInvalDdt,
        Command::AtsInval { .. } => CommandName::AtsInval,
    }
}

/// Whether the fence waits for accesses of the kind.
fn is_waited_for(kind: AccessKind, pr: bool, pw: bool) -> bool
    ensures { result ≡ is_waited_for kind pr pw }
{
    match kind {
        AccessKind::Read => pr,
        AccessKind::Write => pw,
    }
}

/// The device's oldest access, where it was accepted up to this number and a fence with PR and PW waits for its kind.
fn awaited_of(
    hardware: &Board,
    device: DeviceId,
    pr: bool,
    pw: bool,
    before: u64,
) -> Option<AwaitedAccess>
    ensures { IfSome result (IsAwaited hardware.now pr pw before) }
{
    let iommu = &hardware.iommu;
    let number = iommu.oldest_number(device)?;
    let made = iommu.oldest(device)?;
    if number > before || !is_waited_for(made.kind, pr, pw) {
        return None;
    }
    let later = iommu.in_flight(device).saturating_sub(1);
    Some(AwaitedAccess {
        device,
        number: iommu.accepted(device).saturating_sub(later as u64),
    })
}

/// The first access, in the order in which the devices were plugged in, that a fence with PR and PW waits for: the oldest of its device,
/// and accepted before the fence counted.
fn awaited_access(hardware: &Board, pr: bool, pw: bool) -> Option<AwaitedAccess>
    ensures { IfSome result (IsAwaited hardware.now pr pw (counted_in hardware.now.iommu)) }
{
    let before = hardware
        .iommu
        .fence_snapshot()
        .unwrap_or(hardware.iommu.so_far());
    for device in &hardware.devices {
        if let Some(access) = awaited_of(hardware, device.id, pr, pw, before) {
            return Some(access);
        }
    }
    None
}

/// What a fence at the head waits for.
fn fence_wait(hardware: &Board, pr: bool, pw: bool) -> HeadWait
    ensures { FenceWaits hardware.now pr pw result }
{
    if let Some(slot) = hardware.iommu.slots().oldest() {
        return HeadWait::Request {
            device: slot.device,
            serial: slot.serial,
        };
    }
    match awaited_access(hardware, pr, pw) {
        Some(access) => HeadWait::Access(access),
        None => HeadWait::Next(CommandName::IofenceC),
    }
}

/// What the command, which stands at the head, waits for.
fn command_wait(hardware: &Board, command: &Command) -> HeadWait
    ensures { CommandWaits hardware.now command.now result }
{
    match *command {
        Command::IofenceC { pr, pw, .. } => fence_wait(hardware, pr, pw),
        Command::AtsInval { .. } if hardware.iommu.slots().len() == MAX_SLOTS => HeadWait::NoSlot,
        Command::AtsInval { .. }
        | Command::IotinvalVma { .. }
        | Command::IotinvalGvma { .. }
        | Command::IodirInvalDdt { .. } => HeadWait::Next(name_of(command)),
    }
}

/// What the command queue stands at: what its next command waits for, by what a fetch would find. It changes nothing.
pub fn head_wait(hardware: &Board) -> HeadWait
    ensures { IsHeadWait hardware.now result }
{
    let registers = hardware.iommu.registers();
    if !registers.is_processing_commands() {
        return HeadWait::Stopped;
    }
    match CommandRing::next(&hardware.memory, registers) {
        None => HeadWait::Empty,
        Some(QueueEntry::Outside | QueueEntry::Illegal(_)) => HeadWait::Unreadable,
        Some(QueueEntry::Command(command)) => command_wait(hardware, &command),
    }
}

/// The command as the specification writes it.
pub(crate) fn written(name: CommandName) -> &'static str {
    match name {
        CommandName::IotinvalVma => "IOTINVAL.VMA",
        CommandName::IotinvalGvma => "IOTINVAL.GVMA",
        CommandName::IofenceC => "IOFENCE.C",
        CommandName::IodirInvalDdt => "IODIR.INVAL_DDT",
        CommandName::AtsInval => "ATS.INVAL",
    }
}

impl fmt::Display for HeadWait {
    fn fmt<W: fmt::Write>(&self, f: &mut fmt::Formatter<W>) -> fmt::Result {
        match *self {
            HeadWait::Stopped => write!(
                f,
                "command processing is stopped until the driver restarts"
            ),
            HeadWait::Empty => write!(f, "no command waits"),
            HeadWait::Unreadable => write!(
                f,
                "no command stands there, and a fetch stops the processing"
            ),
            HeadWait::Request { device, serial } => write!(
                f,
                "the fence waits until {device:06x} is done with invalidation request {serial}"
            ),
            HeadWait::Access(AwaitedAccess { device, number }) => write!(
                f,
                "the fence waits until access {number} of {device:06x} is made"
            ),
            HeadWait::NoSlot => write!(
                f,
                "ATS.INVAL waits until one of the 32 open invalidation requests is done"
            ),
            HeadWait::Next(name) => {
                let name = written(name);
                write!(f, "{name} is next")
            }
        }
    }
}
