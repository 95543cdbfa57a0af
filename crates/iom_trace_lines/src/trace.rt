// A line of a trace.
use iom_base::{Access, DeviceId, GrantRights};
use iom_machine::{Event, Limits, Outcome};
use iom_script::WorldSize;

/// How much a trace lets its machine allow at a time.
#[derive(Clone, Copy)]
pub enum WorldLimits {
    /// What the model's driver, its devices and its IOMMU have room for.
    OfModel,
    /// As much as can be counted.
    Unlimited,
}

impl WorldLimits {
    ghost use Rattle.std.specs.Prelude.{◌≡◌};
    ghost use Rattle.iom_trace_lines.specs.WorldLimits.{limits_of};

    /// The limits of that machine.
    pub fn to_limits(self) -> Limits
        ensures { result ≡ limits_of self }
    {
        match self {
            WorldLimits::OfModel => Limits::of_model(),
            WorldLimits::Unlimited => Limits {
                pending: u64::MAX,
                in_flight: u64::MAX,
                devices: u64::MAX,
                pages: Some(1 << 52),
                in_order: false,
            },
        }
    }
}

/// Frames that are granted at pages, one after another.
#[derive(Clone, Copy)]
pub struct GrantedPages {
    pub device: DeviceId,
    /// The first page, and how many there are.
    pub page: u64,
    pub count: u64,
    /// The first frame.
    pub frame: u64,
    pub rights: GrantRights,
}

/// Pages that are released, one after another.
#[derive(Clone, Copy)]
pub struct ReleasedPages {
    pub device: DeviceId,
    /// The first page, and how many there are.
    pub page: u64,
    pub count: u64,
}

/// What a line of a trace says.
#[derive(Drop)]
pub enum TraceLine<'a> {
    /// It is empty, or begins with `#`.
    Nothing,
    /// The world has this size, and its machine these limits.
    World(WorldSize, WorldLimits),
    /// This came of the event; and the frame on which it was accepted, and the access that a step began, where they are
    /// shown. The frames that were taken for tables, where they are shown, stand in the list that was lent.
    Step {
        event: Event,
        outcome: &'a Outcome,
        has_tables: bool,
        on: Option<u64>,
        began: Option<&'a Access>,
    },
    /// The device's oldest access was made: a read, of bytes that aren't shown, or whatever it is.
    Made {
        device: DeviceId,
        is_read: bool,
    },
    /// Frames were granted at so many pages; and whether it is shown which became tables.
    Grants(GrantedPages, bool),
    /// The device was attached to the domain of the other one, whose tables it shares; and whether it is shown which frames became tables.
    Joins {
        device: DeviceId,
        with: DeviceId,
        ats: bool,
        has_tables: bool,
    },
    /// So many pages were released under the ticket.
    Releases(ReleasedPages, u32),
    /// The frame is now given to somebody else.
    Handoff(u64),
    /// It is taken back.
    Take(u64),
    /// The tables in the list that was lent were given back, while their device stays attached.
    TablesFreed,
    /// It isn't in the grammar.
    Bad,
}

/// What the next line of a reader is.
#[derive(Clone, Copy)]
pub enum NextLine {
    /// The bytes of the buffer from the first place to the second, which doesn't count.
    Line(usize, usize),
    /// It is too long, or the last one has no line feed.
    Broken,
    /// There is no other.
    End,
}
