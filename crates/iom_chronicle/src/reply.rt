// What is told, in words: by which way a device can reach a frame, and how the hardware uses one.
use iom_base::DeviceId;
use std::fmt;

/// Which of a device's contexts it is: the one in memory, or the one that the IOMMU has cached.
#[derive(Clone, Copy)]
pub enum ContextPlace {
    Stored,
    Cached,
}

/// A way by which a device can reach a frame. It says "by" what.
#[derive(Clone, Copy)]
pub enum WayFound {
    /// The access was accepted at that line.
    InFlight {
        since: u64,
    },
    /// The device's own cache has it since that line.
    DeviceCache {
        page: u64,
        since: u64,
    },
    /// The answer was sent at that line.
    Answer {
        page: u64,
        since: u64,
    },
    /// The IOMMU's cache has it since that line.
    CachedTranslation {
        page: u64,
        since: u64,
    },
    /// A walk ends at the entry. It begins at the root that a context has: the device's own, or that of another with the
    /// same address space.
    Entry {
        walker: Option<DeviceId>,
        context: ContextPlace,
        address: u64,
        since: u64,
    },
    /// A walk ends at the entry that begins at a table which a cached pointer names.
    PointedEntry {
        address: u64,
        since: u64,
    },
    /// No address is translated, whoever asks.
    DirectoryBare,
    /// No address of the device is translated.
    StagesBare,
    /// The device sends translated requests to any address, and a context lets them through.
    Forger {
        since: u64,
    },
}

impl fmt::Display for WayFound {
    fn fmt<W: fmt::Write>(&self, f: &mut fmt::Formatter<W>) -> fmt::Result {
        match *self {
            WayFound::InFlight { since } => write!(f, "access in flight since line {since}"),
            WayFound::DeviceCache { page, since } => {
                write!(f, "device's cache of page {page} since line {since}")
            }
            WayFound::Answer { page, since } => {
                write!(f, "answer under way for page {page} since line {since}")
            }
            WayFound::CachedTranslation { page, since } => {
                write!(f, "cached translation of page {page} since line {since}")
            }
            WayFound::Entry {
                walker,
                context,
                address,
                since,
            } => {
                write_walker(f, walker)?;
                write_context(f, context)?;
                write!(f, "entry at 0x{address:x} since line {since}")
            }
            WayFound::PointedEntry { address, since } => write!(
                f,
                "cached pointer to the table of the entry at 0x{address:x} since line {since}"
            ),
            WayFound::DirectoryBare => f.write_str("ddtp in mode Bare"),
            WayFound::StagesBare => f.write_str("context with both stages Bare"),
            WayFound::Forger { since } => {
                write!(f, "EN_ATS of a device that forges since line {since}")
            }
        }
    }
}

/// Whose walks they are, where they aren't the device's own.
fn write_walker<W: fmt::Write>(f: &mut fmt::Formatter<W>, walker: Option<DeviceId>) -> fmt::Result {
    match walker {
        Some(id) => write!(f, "walks of {id:06x} in the same address space, "),
        None => Ok(()),
    }
}

/// That they begin by the cached context, where they do.
fn write_context<W: fmt::Write>(f: &mut fmt::Formatter<W>, context: ContextPlace) -> fmt::Result {
    match context {
        ContextPlace::Stored => Ok(()),
        ContextPlace::Cached => f.write_str("cached context, and the "),
    }
}

/// How the hardware uses a frame.
#[derive(Clone, Copy)]
pub enum Use {
    CommandQueue,
    /// The fault queue is there, or the word of a fence that waits.
    FaultQueue,
    DirectoryRoot,
    DirectoryPage,
    /// A table that walks of the device read: by its context in memory, or (with the line) only by the one that is cached since then.
    Table {
        walker: DeviceId,
        cached_since: Option<u64>,
    },
    /// A table that walks read which begin at a cached pointer: of the first device of which a context has its address space, if
    /// one has it.
    PointedTable {
        walker: Option<DeviceId>,
        since: u64,
    },
}

impl fmt::Display for Use {
    fn fmt<W: fmt::Write>(&self, f: &mut fmt::Formatter<W>) -> fmt::Result {
        match *self {
            Use::CommandQueue => f.write_str("it is of the command queue"),
            Use::FaultQueue => {
                f.write_str("it is of the fault queue, or a queued fence stores there")
            }
            Use::DirectoryRoot => f.write_str("it is the root of the device directory"),
            Use::DirectoryPage => f.write_str("it is a page of the device directory"),
            Use::Table {
                walker,
                cached_since: None,
            } => write!(f, "walks of {walker:06x} read it as a table"),
            Use::Table {
                walker,
                cached_since: Some(line),
            } => write!(
                f,
                "walks of {walker:06x} read it as a table, by the context cached since line {line}"
            ),
            Use::PointedTable {
                walker: Some(walker),
                since,
            } => write!(
                f,
                "walks of {walker:06x} read it as a table, by a pointer cached since line {since}"
            ),
            Use::PointedTable {
                walker: None,
                since,
            } => write!(f, "it is a table, by a pointer cached since line {since}"),
        }
    }
}

/// As what the hardware reads a frame that it relies on: "ID can write frame F, which ..".
#[derive(Clone, Copy)]
pub enum ReadAs {
    Table { walker: DeviceId },
    Directory,
    CommandQueue,
}

impl fmt::Display for ReadAs {
    fn fmt<W: fmt::Write>(&self, f: &mut fmt::Formatter<W>) -> fmt::Result {
        match *self {
            ReadAs::Table { walker } => write!(f, "walks of {walker:06x} read as a table"),
            ReadAs::Directory => f.write_str("hardware reads as its directory"),
            ReadAs::CommandQueue => f.write_str("hardware reads as its command queue"),
        }
    }
}
