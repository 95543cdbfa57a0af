use arrayvec::ArrayVec;
use iom_base::{Cause, Refusal};
use iom_fabric::Translation;
use iom_virtqueue::ChainFault;

/// A command of the IOMMU's command queue, by its name.
#[derive(Clone, Copy, PartialEq, Eq)]
pub enum CommandName {
    IotinvalVma,
    IotinvalGvma,
    IofenceC,
    IodirInvalDdt,
    AtsInval,
}

/// What a fetch did.
#[derive(Clone, Copy, PartialEq, Eq)]
pub enum Fetched {
    /// It took the command, and did it.
    Did(CommandName),
    /// The command at the head waits.
    Waiting,
    /// There is no command.
    Empty,
    /// Command processing is stopped.
    Stopped,
}

/// A fault record, by its four words (IOMMU specification, section 3.2, "Fault/Event-Queue (FQ)").
#[derive(Clone, Copy, PartialEq, Eq)]
pub struct FaultRecord {
    pub words: [u64; 4],
}

/// What a block device's step was that began no access.
#[derive(Clone, Copy, PartialEq, Eq)]
pub enum BlockStep {
    /// No queue is set, or the driver has no new request.
    Idle,
    /// The access that it began isn't made yet.
    Waiting,
    /// Its own cache has no translation that lets its access through: it asks for one.
    Asked,
    /// The chain of descriptors has this fault, and the device is down.
    Chain(ChainFault),
    /// The request that begins at this descriptor is done, and so many bytes were written.
    Finished { head: u16, len: u32 },
    /// It is down until it is reset.
    Down,
}

/// What comes of an event.
#[derive(Drop)]
pub enum Outcome {
    /// The call did what it was asked.
    Done,
    /// The call did nothing, and says why.
    Refused(Refusal),
    /// Under this ticket the page was released, and lingers until the ticket is confirmed; or the
    /// device was detached, and is leaving until then; or it was quarantined, and all that it held lingers.
    Ticket(u32),
    /// The tickets from the first to the last are confirmed now; and whether the IOMMU gave a fence up,
    /// and takes no command until the driver restarts.
    Confirmed {
        first: u32,
        last: u32,
        timed_out: bool,
    },
    /// No ticket is confirmed now; and whether the IOMMU gave a fence up.
    NoneConfirmed {
        timed_out: bool,
    },
    /// The driver took this fault record, the oldest.
    Record(FaultRecord),
    /// There was no fault record to take.
    NoRecord,
    Fetched(Fetched),
    /// The fence that waited for devices is given up.
    TimedOut,
    /// No fence waits for devices, so none is given up.
    NoEffect,
    /// The access is accepted; the number counts the device's accepted accesses from 1.
    Accepted(u64),
    /// Eight accesses of the device are in flight.
    Busy,
    /// The bytes that are named are none or too many, or leave their page.
    BadSpan,
    /// The access is refused.
    Fault(Cause),
    /// The device's own cache has no translation that lets the access through.
    Miss,
    /// The message is under way.
    Sent,
    /// The message is lost: there was no room for it.
    Lost,
    /// A question was delivered, and is answered so.
    Answered(Translation),
    /// An answer was delivered, and the device keeps its translation.
    Kept,
    /// An answer was delivered, to a question that is older than what the device last dropped.
    Stale,
    /// An answer was delivered that has no translation.
    AnswerRefused,
    /// An answer or a request to invalidate was delivered to a device without a cache.
    Ignored,
    /// A request to invalidate with this number was delivered, and the device dropped what it names.
    Invalidated(u64),
    /// The word that the request to invalidate with this number is done was delivered: it was open for
    /// that device, and is closed.
    Closed(u64),
    /// Such a word was delivered, and no such request is open for that device.
    NotClosed(u64),
    /// The message is lost.
    Dropped,
    /// A copy of the message is under way.
    Repeated,
    /// There is no such message.
    NoMessage,
    /// A read was made, and gave these bytes.
    Read(ArrayVec<u8, 4096>),
    /// A write of so many bytes was made.
    Wrote(u64),
    /// Nothing of the device is in flight.
    NothingInFlight,
    /// The processor read these bytes.
    Bytes(ArrayVec<u8, 4096>),
    /// Whether the frame is free.
    Free(bool),
    /// A block device took a step, which began no access.
    Stepped(BlockStep),
    /// The status of a block device.
    Status(u8),
}

/// Counts that stand beside an outcome.
#[derive(Clone, Copy, PartialEq, Eq)]
pub struct Trace {
    /// Tickets that are not confirmed.
    pub tickets: u64,
    /// Accesses accepted and not made, over all devices.
    pub flight: u64,
    /// Messages in the fabric.
    pub messages: u64,
    /// Free frames.
    pub free: u64,
}
