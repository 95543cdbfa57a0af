// What happens next in a drawn run.

ghost use Rattle.std.specs.Prelude.{◌<◌, ◌≤◌, ◌^◌, IfOk};
ghost use Rattle.iom_world_effects.specs.Unchanged.{IsNoChoice};

use iom_base::{DeviceId, GrantRights, Mode, NewDevice, Sequence, Size};
use iom_fabric::PageNumber;
use iom_machine::Event;
use std::alloc::{AllocError, Global};

/// The first frame that is granted; the others follow.
pub(crate) const FIRST_FRAME: u64 = 4;

/// How many frames are granted.
pub(crate) const FRAMES: u64 = 8;

/// Where in a frame its own name stands, in eight bytes.
pub(crate) const NAME_AT: u64 = 4088;

/// The last page that can be granted in tables of three levels. The next can be in tables of four.
pub(crate) const LAST_OF_THREE: u64 = 0x3ff_ffff;

/// The last page that can be granted in tables of four levels. The next can't be in any.
const LAST_OF_FOUR: u64 = 0x7_ffff_ffff;

/// How many of the lowest pages devices have and ask for.
pub(crate) const LOW_PAGES: u64 = 9;

/// How many pages a guest's tables stand in, from the first one on: as many as levels, of which there are four at most.
pub(crate) const GUEST_TABLES: u64 = 4;

/// Valid, readable, writable, for users, accessed and dirty: a leaf that lets everything through
/// (Privileged Architecture, "Addressing and Memory Protection").
pub(crate) const OPEN_LEAF: u64 = 0b1101_0111;

/// The words, each with its lowest byte first.
pub(crate) fn bytes_of(alloc: Global, words: &[u64]) -> Result<Sequence<u8>, AllocError> {
    let mut bytes = Sequence::new(alloc);
    for word in words {
        for byte in &word.to_le_bytes() {
            bytes.push(*byte)?;
        }
    }
    Ok(bytes)
}

/// The ids of the three devices.
#[derive(Clone, Copy)]
pub(crate) struct Ids {
    /// That of the device with a cache in the first stage.
    pub(crate) first: DeviceId,
    /// That of the one in the second stage or in both.
    pub(crate) other: DeviceId,
    /// That of the device that forges.
    pub(crate) raw: DeviceId,
}

/// Numbers that look random, a linear congruential generator, and events of these devices drawn by them.
#[derive(Drop)]
pub(crate) struct Draw {
    state: u64,
    ids: Ids,
}

impl Draw {
    pub(crate) fn new(seed: u64, ids: Ids) -> Draw {
        Draw { state: seed, ids }
    }

    pub(crate) fn ids(&self) -> Ids {
        self.ids
    }

    pub(crate) fn below(&mut self, limit: u64) -> u64
        requires { 0 < limit }
        ensures { result < limit }
    {
        self.state = self
            .state
            .wrapping_mul(6364136223846793005)
            .wrapping_add(1442695040888963407);
        (self.state >> 33) % limit
    }

    /// One of the three devices, mostly one with a cache.
    pub(crate) fn device(&mut self) -> DeviceId {
        match self.below(7) {
            0 => self.ids.raw,
            1..=3 => self.ids.first,
            _ => self.ids.other,
        }
    }

    /// A device for requests that only some kinds can make, mostly one that is given.
    fn mostly(&mut self, able: DeviceId) -> DeviceId {
        if self.below(16) == 0 {
            self.device()
        } else {
            able
        }
    }

    /// One of the two devices with a cache, seldom the raw one.
    fn asker(&mut self) -> DeviceId {
        let able = if self.below(2) == 0 {
            self.ids.first
        } else {
            self.ids.other
        };
        self.mostly(able)
    }

    /// One of the sizes.
    pub(crate) fn size(&mut self) -> Size {
        if self.below(2) == 0 {
            Size::Sv39
        } else {
            Size::Sv48
        }
    }

    /// A page that a device may have or ask for: mostly one of the lowest, else one at the end of what can be
    /// granted in tables of three levels or of four.
    fn page(&mut self) -> u64
        ensures { result ≤ 2 ^ 35 }
    {
        match self.below(24) {
            0 => LAST_OF_THREE,
            1 => LAST_OF_THREE + 1,
            2 => LAST_OF_FOUR,
            3 => LAST_OF_FOUR + 1,
            _ => self.below(LOW_PAGES),
        }
    }

    /// An entry of the guest's tables at this level of so many, which stand in its first pages in order: mostly the one
    /// that leads on, or to a page; else a leaf with drawn flags, or anything.
    pub(crate) fn entry(&mut self, level: u64, levels: u64) -> u64
        requires { level < 4 }
    {
        let page = self.page();
        match self.below(16) {
            0 => self.below(1 << 30) << 30 | self.below(1 << 30),
            1 => page << 10 | self.below(256),
            _ => {
                if level + 1 < levels {
                    (level + 1) << 10 | 1
                } else {
                    page << 10 | OPEN_LEAF
                }
            }
        }
    }

    /// A grant of one of the frames at one of the pages, mostly for reading and writing.
    fn grant(&mut self) -> Event
        ensures { IsNoChoice result }
    {
        Event::Grant {
            device: self.device(),
            page: self.page(),
            frame: FIRST_FRAME + self.below(FRAMES),
            rights: if self.below(4) == 0 {
                GrantRights::ReadOnly
            } else {
                GrantRights::ReadWrite
            },
        }
    }

    /// A release of one of the pages, seldom of one of those in which a guest's tables stand.
    fn release(&mut self) -> Event
        ensures { IsNoChoice result }
    {
        Event::Release {
            device: self.device(),
            page: match self.page() {
                table if table < GUEST_TABLES && self.below(8) > 0 => {
                    GUEST_TABLES + self.below(LOW_PAGES - GUEST_TABLES)
                }
                page => page,
            },
        }
    }

    /// A device asks for the translation of a page.
    fn ask(&mut self) -> Event
        ensures { IsNoChoice result }
    {
        let page = self.page();
        Event::Ask {
            device: self.asker(),
            page: PageNumber::new(page).unwrap(),
        }
    }

    /// A place among the messages under way, mostly one of the first.
    fn place(&mut self) -> u64 {
        if self.below(3) == 0 {
            self.below(12)
        } else {
            self.below(2)
        }
    }

    /// The raw device says that one of the last requests to invalidate is done, of which there were so many.
    fn forge(&mut self, requests: u64) -> Event
        ensures { IsNoChoice result }
    {
        let back = self.below(4);
        Event::Forge {
            device: self.mostly(self.ids.raw),
            serial: if back < requests {
                requests - back
            } else {
                back
            },
        }
    }

    /// Where a read begins, and how long it is: up to the end of a page, so that it takes in the frame's name.
    fn span_to_name(&mut self) -> (u64, u64) {
        let before = self.below(8);
        (self.page() * 4096 + NAME_AT - before, 8 + before)
    }

    /// An untranslated read.
    fn plain_read(&mut self) -> Event
        ensures { IsNoChoice result }
    {
        let (address, len) = self.span_to_name();
        Event::Read {
            device: self.device(),
            address,
            len,
        }
    }

    /// An untranslated read or one through a cache.
    fn read(&mut self) -> Event
        ensures { IsNoChoice result }
    {
        let (address, len) = self.span_to_name();
        if self.below(3) == 0 {
            let device = self.device();
            Event::Read {
                device,
                address,
                len,
            }
        } else {
            let device = self.asker();
            Event::ReadThroughCache {
                device,
                address,
                len,
            }
        }
    }

    /// Where a write begins, and its bytes: an entry of a table, and behind it a word that no other write has.
    fn entry_and_own(
        &mut self,
        alloc: Global,
        own: u64,
    ) -> Result<(u64, Sequence<u8>), AllocError> {
        let place = if self.below(2) == 0 {
            self.below(8)
        } else {
            self.below(509)
        };
        let address = self.page() * 4096 + 8 * place;
        let entry = self.entry(2, 3);
        Ok((address, bytes_of(alloc, &[entry, own])?))
    }

    /// An untranslated write.
    fn plain_write(&mut self, alloc: Global, own: u64) -> Result<Event, AllocError>
        ensures { IfOk result (λ event. IsNoChoice event) }
    {
        let (address, bytes) = self.entry_and_own(alloc, own)?;
        Ok(Event::Write {
            device: self.device(),
            address,
            bytes,
        })
    }

    /// An untranslated write or one through a cache.
    fn write(&mut self, alloc: Global, own: u64) -> Result<Event, AllocError>
        ensures { IfOk result (λ event. IsNoChoice event) }
    {
        let (address, bytes) = self.entry_and_own(alloc, own)?;
        if self.below(3) == 0 {
            let device = self.device();
            Ok(Event::Write {
                device,
                address,
                bytes,
            })
        } else {
            let device = self.asker();
            Ok(Event::WriteThroughCache {
                device,
                address,
                bytes,
            })
        }
    }

    /// A request at an address of one of the granted frames, that says it is translated.
    fn translated(&mut self, alloc: Global, own: u64) -> Result<Event, AllocError>
        ensures { IfOk result (λ event. IsNoChoice event) }
    {
        let device = self.mostly(self.ids.raw);
        let address = (FIRST_FRAME + self.below(FRAMES)) * 4096;
        if self.below(2) == 0 {
            let len = 8;
            Ok(Event::ReadTranslated {
                device,
                address,
                len,
            })
        } else {
            let bytes = bytes_of(alloc, &[own])?;
            Ok(Event::WriteTranslated {
                device,
                address,
                bytes,
            })
        }
    }

    /// What happens to a message: mostly it is delivered.
    fn message(&mut self, requests: u64) -> Event
        ensures { IsNoChoice result }
    {
        let place = self.place();
        match self.below(24) {
            0 => Event::Drop { place },
            1 | 2 => Event::Repeat { place },
            3 => self.forge(requests),
            4..=7 => self.ask(),
            _ => Event::Deliver { place },
        }
    }

    /// An event that is refused, or that leaves its page: a device is plugged in or attached once more.
    fn refused(&mut self) -> Event
        ensures { IsNoChoice result }
    {
        let device = self.device();
        match self.below(3) {
            0 => Event::Plug {
                device,
                new: NewDevice::Raw,
            },
            1 => Event::Attach {
                device,
                mode: Mode::First(self.size()),
                ats: false,
            },
            _ => Event::Read {
                device,
                address: self.page() * 4096 + NAME_AT,
                len: 9 + self.below(8),
            },
        }
    }

    /// An event that isn't a poke, of devices that have no cache and send no message. A write of it ends with this word.
    pub(crate) fn plain_event(&mut self, alloc: Global, own: u64) -> Result<Event, AllocError>
        ensures { IfOk result (λ event. IsNoChoice event) }
    {
        match self.below(24) {
            0..=3 => Ok(self.grant()),
            4 => Ok(self.release()),
            5..=8 => Ok(Event::Fetch),
            9 | 10 => Ok(Event::Poll),
            11 => Ok(Event::Faults),
            12..=15 => Ok(self.plain_read()),
            16 | 17 => self.plain_write(alloc, own),
            18 => Ok(self.refused()),
            _ => Ok(Event::Commit {
                device: self.device(),
            }),
        }
    }

    /// An event that isn't a poke. A write of it ends with this word; so many requests to invalidate there were.
    pub(crate) fn event(
        &mut self,
        alloc: Global,
        own: u64,
        requests: u64,
    ) -> Result<Event, AllocError>
        ensures { IfOk result (λ event. IsNoChoice event) }
    {
        match self.below(84) {
            0..=6 => Ok(self.grant()),
            7..=12 => Ok(self.release()),
            13..=22 => Ok(Event::Fetch),
            23..=25 => Ok(Event::Poll),
            26 => Ok(Event::Faults),
            27..=32 => Ok(self.read()),
            33..=36 => self.write(alloc, own),
            37 => self.translated(alloc, own),
            38..=53 => Ok(Event::Commit {
                device: self.device(),
            }),
            _ => Ok(self.message(requests)),
        }
    }
}
