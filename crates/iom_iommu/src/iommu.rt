ghost use Rattle.iom_inflight.specs.Invariant.{AreRowsIn};
ghost use Rattle.iom_inflight.specs.IsFact.{rows_in_prop};
ghost use Rattle.iom_iommu.specs.Cached.{AreTranslationsIn, translations_in_prop};

use iom_command_queue::Slots;
use iom_device_dir::DirCache;
use iom_inflight::InFlight;
use iom_registers::Registers;
use iom_tlb::TransCache;

/// The IOMMU, beside the memory that its calls are lent: always one of as many frames. Its translations are
/// cached in any cache that is lawful.
#[derive(Drop)]
pub struct Iommu<C: TransCache> {
    pub(crate) registers: Registers,
    /// The device contexts that are cached.
    pub(crate) contexts: DirCache,
    /// The translations that are cached.
    pub(crate) translations: C,
    /// The accesses that are accepted and not made yet.
    pub(crate) in_flight: InFlight,
    /// How many accesses were accepted when the fence at the head of the command queue was first fetched with no
    /// slot open, if one was: it waits for none of the later ones.
    pub(crate) fence_snapshot: Option<u64>,
    /// Whether the fence at the head of the command queue was fetched, and told to wait until no slot is open.
    pub(crate) fence_waits: bool,
    /// The invalidation requests that devices have still to complete.
    pub(crate) slots: Slots,
    /// How many frames the memory has.
    pub(crate) frames: u32,
    ghost inside: { AreRowsIn frames in_flight.rows } by { rows_in_prop frames in_flight.rows },
    ghost cached: { AreTranslationsIn frames (C.content translations) } by { translations_in_prop frames (C.content translations) },
}
