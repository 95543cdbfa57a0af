// What happens, as plain values.

use iom_base::{AccessKind, DeviceId, GrantRights, Mode, NewDevice, Sequence};
use iom_fabric::PageNumber;
use iom_machine::Event;
use std::alloc::{AllocError, Global};

/// What happens, by its kind.
#[derive(Clone, Copy, PartialEq)]
pub(crate) enum Act {
    Plug,
    Medium,
    Attach,
    Detach,
    Grant,
    Release,
    Quarantine,
    Revive,
    Restart,
    Fetch,
    Timeout,
    Poll,
    Faults,
    Read,
    Write,
    ReadTranslated,
    WriteTranslated,
    ReadThroughCache,
    WriteThroughCache,
    Ask,
    Forge,
    Deliver,
    Drop,
    Repeat,
    Reset,
    Queue,
    Step,
    /// The next load of a request that is under way, where walks make one load an event.
    Load,
    Status,
    Commit,
    Poke,
    Peek,
    Free,
}

/// What happens. It has a value for each field of each event; those that its kind doesn't have say nothing.
#[derive(Clone, Copy)]
pub(crate) struct Call {
    pub(crate) act: Act,
    pub(crate) device: DeviceId,
    pub(crate) page: u64,
    pub(crate) frame: u64,
    /// Where in the page or the frame its bytes begin, and how many they are: those of the word, again and again.
    pub(crate) offset: u64,
    pub(crate) len: u64,
    pub(crate) word: u64,
    pub(crate) rights: GrantRights,
    pub(crate) mode: Mode,
    pub(crate) ats: bool,
    pub(crate) new: NewDevice,
    pub(crate) disk: u64,
    /// Which message.
    pub(crate) place: u64,
    /// Which request to invalidate.
    pub(crate) serial: u64,
    /// How many descriptors a queue has.
    pub(crate) size: u64,
}

impl Call {
    /// Whether it is a read, if it is an access.
    pub(crate) fn kind(self) -> AccessKind {
        match self.act {
            Act::Read | Act::ReadTranslated | Act::ReadThroughCache => AccessKind::Read,
            _ => AccessKind::Write,
        }
    }

    /// Whether its bytes are 1 to 4,096, and within one page.
    pub(crate) fn is_in_page(self) -> bool {
        0 < self.len && self.len <= 4096 && self.offset <= 4096 && self.len <= 4096 - self.offset
    }
}

/// So many bytes, those of the word again and again, the lowest first.
fn bytes_of(alloc: Global, word: u64, len: u64) -> Result<Sequence<u8>, AllocError> {
    let bytes = word.to_le_bytes();
    let mut all = Sequence::new(alloc);
    for place in 0..len {
        all.push(bytes[(place % 8) as usize])?;
    }
    Ok(all)
}

/// The byte at the place of a page or a frame.
fn address(number: u64, offset: u64) -> u64 {
    number.wrapping_mul(4096).wrapping_add(offset)
}

/// The event of a write, with its bytes.
fn writing(alloc: Global, call: Call) -> Result<Event, AllocError> {
    let device = call.device;
    let bytes = bytes_of(alloc, call.word, call.len)?;
    let at = address(call.page, call.offset);
    Ok(match call.act {
        Act::Poke => Event::Poke {
            address: address(call.frame, call.offset),
            bytes,
        },
        Act::Write => Event::Write {
            device,
            address: at,
            bytes,
        },
        Act::WriteTranslated => Event::WriteTranslated {
            device,
            address: at,
            bytes,
        },
        _ => Event::WriteThroughCache {
            device,
            address: at,
            bytes,
        },
    })
}

/// The event of an access or of a block device.
fn of_device(call: Call) -> Event {
    let device = call.device;
    let len = call.len;
    let address = address(call.page, call.offset);
    match call.act {
        Act::Read => Event::Read {
            device,
            address,
            len,
        },
        Act::ReadTranslated => Event::ReadTranslated {
            device,
            address,
            len,
        },
        Act::ReadThroughCache => Event::ReadThroughCache {
            device,
            address,
            len,
        },
        Act::Queue => Event::Queue {
            device,
            size: call.size,
            descriptors: address,
            available: address.wrapping_add(0x100),
            used: address.wrapping_add(0x180),
        },
        Act::Step => Event::Step { device },
        Act::Status => Event::Status { device },
        Act::Reset => Event::Reset { device },
        _ => Event::Commit { device },
    }
}

/// The event of a message, of the IOMMU, or of the processor.
fn of_message(call: Call) -> Event {
    let device = call.device;
    let place = call.place;
    match call.act {
        Act::Fetch => Event::Fetch,
        Act::Timeout => Event::Timeout,
        Act::Ask => Event::Ask {
            device,
            page: PageNumber::new(call.page % (1 << 52)).unwrap(),
        },
        Act::Forge => Event::Forge {
            device,
            serial: call.serial,
        },
        Act::Deliver => Event::Deliver { place },
        Act::Drop => Event::Drop { place },
        Act::Repeat => Event::Repeat { place },
        Act::Peek => Event::Peek {
            address: address(call.frame, call.offset),
            len: call.len,
        },
        _ => of_device(call),
    }
}

/// The event of a call of the driver.
fn of_driver(call: Call) -> Event {
    let Call {
        device,
        page,
        frame,
        rights,
        ..
    } = call;
    match call.act {
        Act::Grant => Event::Grant {
            device,
            page,
            frame,
            rights,
        },
        Act::Release => Event::Release { device, page },
        Act::Detach => Event::Detach { device },
        Act::Quarantine => Event::Quarantine { device },
        Act::Revive => Event::Revive { device },
        Act::Restart => Event::Restart,
        Act::Poll => Event::Poll,
        Act::Faults => Event::Faults,
        Act::Free => Event::Free { frame },
        _ => of_message(call),
    }
}

/// The event.
pub(crate) fn event_of(alloc: Global, call: Call) -> Result<Event, AllocError> {
    let device = call.device;
    match call.act {
        Act::Poke | Act::Write | Act::WriteTranslated | Act::WriteThroughCache => {
            writing(alloc, call)
        }
        Act::Plug => Ok(Event::Plug {
            device,
            new: call.new,
        }),
        Act::Medium => Ok(Event::Medium {
            device,
            disk: call.disk,
        }),
        Act::Attach => Ok(Event::Attach {
            device,
            mode: call.mode,
            ats: call.ats,
        }),
        _ => Ok(of_driver(call)),
    }
}
