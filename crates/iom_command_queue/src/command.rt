use crate::bytes::{self, COMMAND_SIZE};
use crate::decode::decode_words;
use crate::encode;
use crate::illegal::Illegal;
use crate::operation::Operation;
use crate::values::{DeviceNumber, FenceAddress, PageNumber, Pscid};

/// What software asks of the IOMMU. A field that is left out is None.
#[derive(Clone, Copy, PartialEq, Eq)]
pub enum Command {
    /// IOTINVAL.VMA: cached translations of the first stage go. Of which guest (GSCID), of which process
    /// (PSCID), of which page.
    IotinvalVma {
        gscid: Option<u16>,
        pscid: Option<Pscid>,
        page: Option<PageNumber>,
    },
    /// IOTINVAL.GVMA: cached translations of the second stage go.
    IotinvalGvma {
        gscid: Option<u16>,
        page: Option<PageNumber>,
    },
    /// IOFENCE.C: earlier commands are complete before it is. `wsi` asks for an interrupt then; `pr` and
    /// `pw` make it wait for reads and writes that are already processed.
    IofenceC {
        store: Option<FenceStore>,
        wsi: bool,
        pr: bool,
        pw: bool,
    },
    /// IODIR.INVAL_DDT: cached device contexts go, of one device or of all.
    IodirInvalDdt {
        device: Option<DeviceNumber>,
    },
    /// ATS.INVAL: a device is asked to drop translations of its own.
    AtsInval {
        device: DeviceNumber,
        range: AtsRange,
    },
}

/// What a fence stores once it is complete.
#[derive(Clone, Copy, PartialEq, Eq)]
pub struct FenceStore {
    pub address: FenceAddress,
    pub data: u32,
}

/// Which of its translations a device is to drop.
#[derive(Clone, Copy, PartialEq, Eq)]
pub enum AtsRange {
    Page(PageNumber),
    Everything,
}

impl Command {
    ghost use Rattle.std.specs.Prelude.{◌≡◌, ◌↔◌, Ok, Err};
    ghost use Rattle.iom_command_queue.specs.declared.illegal.Illegal.{Illegal};
    ghost use Rattle.iom_command_queue.specs.Formats.{IsCommand, operation_of, first_of, second_of};
    ghost use Rattle.iom_command_queue.specs.Legal.{IsIllegal, decoded};
    ghost use Rattle.iom_command_queue.specs.Encoded.{encoded, UnusedAreZero};

    /// The command that 16 bytes are. Exactly where they are none, the reason: the first that applies.
    pub fn decode(bytes: &[u8; COMMAND_SIZE]) -> Result<Command, Illegal>
        ensures command { (command : Command) → (result ≡ Ok command) ↔ IsCommand bytes.now command }
        ensures illegal { (reason : Illegal) →
            (result ≡ Err reason) ↔ IsIllegal reason (first_of bytes.now) (second_of bytes.now) }

        // What the clauses above say one by one, as one equation.
        ensures value { result ≡ decoded (first_of bytes.now) (second_of bytes.now) }
    {
        decode_words(bytes::first_of(bytes), bytes::second_of(bytes))
    }

    /// The 16 bytes that are written for the command: those of its fields that it leaves out are zero,
    /// and DSV of ATS.INVAL is 1.
    pub fn encode(self) -> [u8; COMMAND_SIZE]
        ensures command { IsCommand result self }
        ensures unused { UnusedAreZero self (first_of result) (second_of result) }

        // Which bytes they are.
        ensures value { result ≡ encoded self }
    {
        let first = encode::first_word(&self);
        let second = encode::second_word(&self);
        bytes::bytes_of(first, second)
    }

    /// Which command it is, without its fields.
    pub fn operation(self) -> Operation
        ensures { result ≡ operation_of self }
    {
        match self {
            Command::IotinvalVma { .. } => Operation::IotinvalVma,
            Command::IotinvalGvma { .. } => Operation::IotinvalGvma,
            Command::IofenceC { .. } => Operation::IofenceC,
            Command::IodirInvalDdt { .. } => Operation::IodirInvalDdt,
            Command::AtsInval { .. } => Operation::AtsInval,
        }
    }
}
