ghost use Rattle.iom_driver.specs.ReadyIsFact.{driver_invariant_prop};
ghost use Rattle.iom_driver.specs.Invariant.{StateInvariant};

use crate::device::Device;
use iom_ledger::Ledger;
use iom_table_frames::TableFrames;

/// The driver: what it granted, whose each frame is, which devices there are, and its tickets.
///
/// Memory and registers are lent to its calls, the same ones each time.
#[derive(Drop)]
pub struct Driver {
    pub(crate) ledger: Ledger,
    /// Which frames are reserved for tables and queues.
    pub(crate) owners: TableFrames,
    /// In the order of plugging, at most 16.
    pub(crate) devices: Vec<Device>,
    /// How many frames memory has.
    pub(crate) frames: u32,
    /// The levels of the device directory, 1 to 3.
    pub(crate) levels: u8,
    pub(crate) started: bool,
    /// The last ticket that was given.
    pub(crate) given: u32,
    /// The last ticket that was confirmed.
    pub(crate) confirmed: u32,
    /// How many numbers of fences no ticket took: those below the first, which were used up when it started, and one
    /// for each restart.
    pub(crate) restarts: u32,
    /// The last ticket that was given when it restarted last: the ones up to it wait for the fence of that restart.
    pub(crate) restarted: u32,
    ghost invariants: { StateInvariant ledger owners devices.items frames levels started given confirmed restarts restarted } by { driver_invariant_prop ledger owners devices.items frames levels started given confirmed restarts restarted },
}
