// What hardware and devices do by themselves.
use iom_base::DeviceId;
use std::fmt;

/// The bytes of a page.
const PAGE_SIZE: u64 = 4096;

/// One thing that hardware or a device does by itself. Its text is a line of a script.
#[derive(Clone, Copy)]
pub(crate) enum Step {
    Fetch,
    Commit(DeviceId),
    /// The device's request makes its next load.
    Load(DeviceId),
    /// The message at the place, counted from 0, is delivered.
    Deliver(usize),
    /// The device reads the first byte of the page, of a number below 2^52.
    Read(DeviceId, u64),
    /// It writes that byte.
    Write(DeviceId, u64),
    Ask(DeviceId, u64),
    /// It writes that byte through its own cache.
    WriteThroughCache(DeviceId, u64),
    /// The block device takes a step.
    BlockStep(DeviceId),
}

/// The address of the first byte of the page.
fn address_of(page: u64) -> u64 {
    page.saturating_mul(PAGE_SIZE)
}

impl fmt::Display for Step {
    fn fmt<W: fmt::Write>(&self, f: &mut fmt::Formatter<W>) -> fmt::Result {
        match *self {
            Step::Fetch => f.write_str("fetch"),
            Step::Commit(device) => write!(f, "commit {device:06x}"),
            Step::Load(device) => write!(f, "load {device:06x}"),
            Step::Deliver(place) => write!(f, "deliver {place}"),
            Step::Read(device, page) => {
                let address = address_of(page);
                write!(f, "read {device:06x} 0x{address:x} 1")
            }
            Step::Write(device, page) => {
                let address = address_of(page);
                write!(f, "write {device:06x} 0x{address:x} a5")
            }
            Step::Ask(device, page) => write!(f, "ask {device:06x} {page}"),
            Step::WriteThroughCache(device, page) => {
                let address = address_of(page);
                write!(f, "awrite {device:06x} 0x{address:x} a5")
            }
            Step::BlockStep(device) => write!(f, "step {device:06x}"),
        }
    }
}
