// What let an access through when it was accepted, in words.
use std::fmt;

/// By which door an access came in.
#[derive(Clone, Copy)]
pub enum Entrance {
    /// At an address that the IOMMU translates.
    Untranslated,
    /// As a translated request of a device that has no translation.
    Forged,
    /// As a translated request, by what the device's own cache has.
    ThroughCache,
    /// At an address that the IOMMU translates, by the last load of a walk whose loads are events of their own.
    Walk,
}

/// What let an access through.
#[derive(Clone, Copy)]
pub enum Through {
    DirectoryBare,
    StagesBare,
    CachedTranslation {
        page: u64,
        since: u64,
    },
    /// The device has it since that line, by an answer that was sent at the other.
    DeviceCache {
        page: u64,
        since: u64,
        answered: u64,
    },
    /// A walk that ended at the entry, whose word was stored at that line; where a cached context named the root, since when.
    Walk {
        address: u64,
        stored: u64,
        context_since: Option<u64>,
    },
    /// The same, where the walk began at a table that a cached pointer names, since when.
    WalkFromPointer {
        address: u64,
        stored: u64,
        pointer_since: u64,
    },
    /// A walk whose loads are events of their own: its last load was made at that line.
    WalkEnded {
        line: u64,
    },
    Forged,
}

/// What is kept of an access in flight: the line at which it was accepted, and what let it through. It is printed as that.
#[derive(Clone, Copy)]
pub struct Origin {
    pub line: u64,
    pub through: Through,
}

impl fmt::Display for Through {
    fn fmt<W: fmt::Write>(&self, f: &mut fmt::Formatter<W>) -> fmt::Result {
        match *self {
            Through::DirectoryBare => f.write_str("ddtp in mode Bare"),
            Through::StagesBare => f.write_str("a context with both stages Bare"),
            Through::CachedTranslation { page, since } => {
                write!(f, "cached translation of page {page} since line {since}")
            }
            Through::DeviceCache {
                page,
                since,
                answered,
            } => write!(
                f,
                "device's cache of page {page} since line {since}, by the answer of line {answered}"
            ),
            Through::Walk {
                address,
                stored,
                context_since,
            } => {
                write!(
                    f,
                    "walk to the entry at 0x{address:x} stored at line {stored}"
                )?;
                write_context(f, context_since)
            }
            Through::WalkFromPointer {
                address,
                stored,
                pointer_since,
            } => write!(
                f,
                "walk to the entry at 0x{address:x} stored at line {stored} under a table pointer cached since line {pointer_since}"
            ),
            Through::WalkEnded { line } => write!(f, "walk that ended at line {line}"),
            Through::Forged => f.write_str("forged translated request, let through by EN_ATS"),
        }
    }
}

/// Since when the context was cached, where it was.
fn write_context<W: fmt::Write>(f: &mut fmt::Formatter<W>, since: Option<u64>) -> fmt::Result {
    match since {
        Some(line) => write!(f, " under the context cached since line {line}"),
        None => Ok(()),
    }
}

impl fmt::Display for Origin {
    fn fmt<W: fmt::Write>(&self, f: &mut fmt::Formatter<W>) -> fmt::Result {
        self.through.fmt(f)
    }
}
