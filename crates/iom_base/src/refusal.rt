ghost use Rattle.std.specs.Prelude.{◌≡◌, Some};
ghost use Rattle.iom_base.specs.Refusals.{number_of, name_of, text_of};

use std::fmt;

/// Why a call is refused. A refused call changes nothing.
#[derive(Clone, Copy, PartialEq, Eq, Debug)]
pub enum Refusal {
    NoSuchDevice,
    AlreadyAttached,
    NotAttached,
    NotTrusted,
    FrameOutOfRange,
    FrameReserved,
    IovaOutOfRange,
    IovaBusy,
    NotGranted,
    NoFrames,
    QueueFull,
    TooManyPending,
    Quarantined,
    NumbersUsedUp,
    Memory,
    StillGranted,
    IdTooWide,
    TooManyDevices,
    NotStarted,
    AlreadyPlugged,
    WrongKind,
    BadMedium,
    BadQueue,
}

impl Refusal {
    /// The refusal's number, from 1 to 23.
    pub fn number(self) -> u8
        ensures { result ≡ number_of self }
    {
        self as u8 + 1
    }

    /// The refusal's name, as the enum spells it.
    pub fn name(self) -> &'static str
        ensures { result.now ≡ name_of self }
    {
        match self {
            Refusal::NoSuchDevice => "NoSuchDevice",
            Refusal::AlreadyAttached => "AlreadyAttached",
            Refusal::NotAttached => "NotAttached",
            Refusal::NotTrusted => "NotTrusted",
            Refusal::FrameOutOfRange => "FrameOutOfRange",
            Refusal::FrameReserved => "FrameReserved",
            Refusal::IovaOutOfRange => "IovaOutOfRange",
            Refusal::IovaBusy => "IovaBusy",
            Refusal::NotGranted => "NotGranted",
            Refusal::NoFrames => "NoFrames",
            Refusal::QueueFull => "QueueFull",
            Refusal::TooManyPending => "TooManyPending",
            Refusal::Quarantined => "Quarantined",
            Refusal::NumbersUsedUp => "NumbersUsedUp",
            Refusal::Memory => "Memory",
            Refusal::StillGranted => "StillGranted",
            Refusal::IdTooWide => "IdTooWide",
            Refusal::TooManyDevices => "TooManyDevices",
            Refusal::NotStarted => "NotStarted",
            Refusal::AlreadyPlugged => "AlreadyPlugged",
            Refusal::WrongKind => "WrongKind",
            Refusal::BadMedium => "BadMedium",
            Refusal::BadQueue => "BadQueue",
        }
    }
}

/// `refused N NAME`, as a line prints it.
impl fmt::Display for Refusal {
    ghost output = { λ refusal. Some (text_of refusal) };

    fn fmt<W: fmt::Write>(&self, f: &mut fmt::Formatter<W>) -> fmt::Result {
        let number = self.number();
        let name = self.name();
        write!(f, "refused {number} {name}")
    }
}
