// What a picture shows, as values.
use crate::page_copy::PageCopy;
use crate::period::Period;
use crate::stay::Stay;
use iom_base::{AccessKind, Cause, DeviceId};

/// A page of a device on a frame. Its stays follow one another.
#[derive(Clone, Copy, PartialEq, Eq, Hash)]
pub struct Lane {
    pub device: DeviceId,
    pub page: u64,
    pub frame: u64,
}

/// To what something belongs.
#[derive(Clone, Copy, PartialEq, Eq)]
pub enum Place {
    /// A page that was granted: the lane at this place of the timeline's list.
    Lane(usize),
    Frame(u64),
    /// The device, at a page that wasn't granted or isn't known.
    Device(DeviceId),
    /// The driver and the IOMMU's command queue.
    Driver,
}

/// What keeps a frame from being free beside the grant itself.
#[derive(Clone, Copy, PartialEq, Eq)]
pub enum CopyKind {
    /// The IOMMU may remember the page.
    CachedTranslation,
    /// The device's own cache has the page.
    DeviceCache,
    /// An answer with the page is under way to the device.
    Answer,
    /// An access was accepted, and isn't made.
    InFlight,
}

/// The time in which a device is quarantined: from the quarantine to the revival, at a page that lingered, or at the device's others.
#[derive(Clone, Copy)]
pub struct Quarantine {
    pub place: Place,
    pub period: Period,
}

/// What the fences of the command queue wait for.
#[derive(Clone, Copy, PartialEq, Eq)]
pub enum WaitCause {
    /// Accesses that were accepted before, of any device.
    Accesses,
    /// A device that was asked to drop a page.
    Devices,
    /// A restart: the queue is stopped.
    Stopped,
}

/// The time in which the command queue waits, as far as fetches show it.
#[derive(Clone, Copy)]
pub struct Wait {
    pub cause: WaitCause,
    pub period: Period,
}

/// What happened at a line.
#[derive(Clone, Copy)]
pub enum MarkKind {
    /// An access was accepted.
    Accepted(AccessKind),
    /// An access was accepted of which the trace doesn't say whether it is a read.
    AcceptedStep,
    /// The oldest accepted access of the device was made.
    Made,
    /// An access or a question was refused.
    Fault(Cause),
    FenceDone,
    TimedOut,
    Restarted,
    /// A message between a device and the IOMMU is lost.
    Lost,
    /// A poll confirmed the tickets from the first to the last.
    Confirmed { first: u32, last: u32 },
    /// It was asked whether the frame is free.
    Asked { is_free: bool },
    /// The frame was given to somebody else.
    HandedOff,
}

impl MarkKind {
    /// That of an access that was accepted, of this kind where that is known.
    pub(crate) fn of_accepted(kind: Option<AccessKind>) -> MarkKind {
        match kind {
            Some(kind) => MarkKind::Accepted(kind),
            None => MarkKind::AcceptedStep,
        }
    }
}

#[derive(Clone, Copy)]
pub struct Mark {
    pub line: u64,
    pub place: Place,
    pub kind: MarkKind,
}

/// A line of the trace, by where its bytes stand in the timeline's text.
#[derive(Clone, Copy)]
pub struct LineText {
    pub line: u64,
    pub start: usize,
    pub end: usize,
}

/// What a trace shows.
#[derive(Drop)]
pub struct Timeline {
    /// How many lines the trace has.
    pub last_line: u64,
    /// In the order of their first grants.
    pub lanes: Vec<Lane>,
    /// In the order of the grants.
    pub stays: Vec<Stay>,
    /// In the order in which they came to be.
    pub copies: Vec<PageCopy>,
    /// In the order of the quarantines.
    pub quarantines: Vec<Quarantine>,
    /// One after another.
    pub waits: Vec<Wait>,
    /// In the order of the lines.
    pub marks: Vec<Mark>,
    /// The lines that say something, in order.
    pub lines: Vec<LineText>,
    /// Their bytes, one after another.
    pub text: Vec<u8>,
}

impl Timeline {
    /// The bytes of a line of this timeline.
    pub fn text_of(&self, line: LineText) -> &[u8] {
        self.text.get(line.start..line.end).unwrap_or(&[])
    }
}
