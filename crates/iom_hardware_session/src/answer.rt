ghost use Rattle.std.specs.Prelude.{◌≡◌};
ghost use Rattle.iom_hardware_session.specs.Found.{frame_found};
ghost use Rattle.iom_hardware_session.specs.declared.answer.Found.TheVariants as found;

use iom_base::{AccessKind, Cause, DeviceId, Refusal};
use iom_board::{CacheReply, Delivered, NoPlace};
use iom_fabric::Repeat;
use iom_hardware::Stepped;
use iom_inflight::MadeAt;
use iom_iommu::{Begun, Fetched, Load, Reply};
use iom_registers::RegFault;
use iom_stepped_hardware::StepOutcome;
use iom_tlb::Space;

/// What comes of a line.
#[derive(Clone, Copy, PartialEq, Eq)]
pub enum Answer {
    /// A device is plugged in, or isn't.
    Plugged(Result<(), Refusal>),
    /// A device is reset.
    Reset(Result<(), Refusal>),
    /// A disk is put into a block device, or isn't.
    TookDisk(Result<(), Refusal>),
    /// The queue of a block device is set, or isn't.
    QueueSet(Result<(), Refusal>),
    /// A block device took a step.
    TookStep(Result<Stepped, Refusal>),
    /// A block device took a step, where a walk takes several events.
    StepOutcome(Result<StepOutcome, Refusal>),
    /// The status of a block device.
    Status(Result<u8, Refusal>),
    /// The IOMMU answers a request so.
    Replied(Result<Reply, Refusal>),
    /// What becomes of a request that begins, where a walk takes several events.
    Begun(Result<Begun, Refusal>),
    /// What becomes of a request at the next load of its walk.
    WalkLoad(Result<Load, Refusal>),
    /// A device's own cache, or the IOMMU behind it, answers so.
    ThroughCache(Result<CacheReply, Refusal>),
    /// Whether a message is under way, or was lost at once.
    Sent(Result<bool, Refusal>),
    /// The access that was made, if one was in flight.
    Committed(Result<Option<MadeAt>, Refusal>),
    Fetched(Fetched),
    /// Whether a fence was given up.
    TimedOut(bool),
    Delivered(Delivered),
    /// Whether there was such a message to lose.
    Dropped(bool),
    Repeated(Repeat),
    /// Whether bytes were stored.
    Stored(Result<(), NoPlace>),
    /// Whether there are bytes to load.
    Loaded(Result<(), NoPlace>),
    /// The value of a register.
    Value(Result<u64, RegFault>),
    /// Whether a register was written.
    Written(Result<(), RegFault>),
    /// What is found of a claim.
    Claim(ClaimAnswer),
    /// The line is none of hardware, and nothing happened.
    NotOfHardware,
}

/// What is found of a claim.
#[derive(Clone, Copy, PartialEq, Eq)]
pub enum ClaimAnswer {
    /// It is made, and true.
    Good,
    /// It is made, and isn't true, or can't be certain.
    Wrong(Wrong),
    /// What was held is withdrawn under this number.
    Released(u32),
    /// The device is trusted with all memory from now on.
    Trusted,
    /// It isn't made, and nothing changes.
    Refused(Refusal),
    /// No claim with the number is open.
    NoSuchClaim,
}

/// Why a claim isn't true: the first that applies.
#[derive(Clone, Copy, PartialEq, Eq)]
pub enum Wrong {
    /// A device holds the frame.
    Held,
    /// What a device withdrew on the frame isn't done.
    Lingers,
    /// The device can reach the frame by this kind of access, which it may not make there.
    Reached(DeviceId, AccessKind),
    /// Hardware uses the frame.
    Used,
    /// A device, or the IOMMU, can write what hardware reads: then nothing is certain.
    Uncertain,
    /// A request at the page finds this instead.
    NotReady(Found),
}

/// What a request finds at a page.
#[derive(Clone, Copy, PartialEq, Eq)]
pub enum Found {
    /// The device has no context.
    NoContext,
    Fault(Cause),
    /// A walk ends at this page number.
    Walk { frame: u64 },
    /// A translation that is cached in the address space has this frame.
    Cached { space: Space, frame: u32 },
    /// A walk that begins at a cached pointer of the address space leads to this frame.
    Pointed { space: Space, frame: u32 },
}

impl Found {
    /// A walk that ends at this page number.
    pub(crate) fn by_walk(frame: u64) -> Found
        ensures { result ≡ found.Walk frame }
    {
        Found::Walk { frame }
    }

    /// The frame on which the request is accepted, if it is.
    pub fn frame(self) -> Option<u64>
        ensures { result ≡ frame_found self }
    {
        match self {
            Found::NoContext | Found::Fault(_) => None,
            Found::Walk { frame } => Some(frame),
            Found::Cached { space: _, frame } | Found::Pointed { space: _, frame } => {
                Some(u64::from(frame))
            }
        }
    }
}
