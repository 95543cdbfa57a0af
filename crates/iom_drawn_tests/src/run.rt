// A run of the world, on which frame each access of it was, and which question each answer was to.

ghost use Rattle.std.specs.Prelude.{◌≡◌, ◌<◌, ◌≤◌, true};
ghost use Rattle.iom_world_effects.specs.Unchanged.{IsNoChoice};

use crate::draw::{
    Draw, FIRST_FRAME, FRAMES, GUEST_TABLES, Ids, LOW_PAGES, NAME_AT, OPEN_LEAF, bytes_of,
};
use crate::messages::{Messages, Question, Said};
use crate::settled::settles;
use iom_base::{DeviceId, GrantRights, Mode, NewDevice, Size};
use iom_machine::{Event, Outcome};
use iom_virtio_blk::MemoryDisk;
use iom_world::World;
use std::alloc::Global;
use std::test::Fail;

/// Ids that any device directory can name.
const NARROW: Ids = Ids {
    first: 0,
    other: 1,
    raw: 2,
};

/// Ids that only one of three levels can name. Below its root the first two have one page in common.
const WIDE: Ids = Ids {
    first: 0x12_3401,
    other: 0x12_5602,
    raw: 0xff_ffff,
};

/// What is drawn beside accesses, messages and what the driver does about pages.
#[derive(Clone, Copy, PartialEq)]
pub(crate) enum Plan {
    /// Three raw devices, one in each mode, that stay attached and send no message.
    Modes,
    /// Nothing: the devices stay attached, and each message that an invalidation waits for comes, mostly.
    Steady,
    /// Devices come and go, and messages are lost for good.
    Lifecycle,
}

/// An event, its outcome and what that doesn't show.
#[derive(Drop)]
pub(crate) struct Step {
    pub(crate) event: Event,
    pub(crate) outcome: Outcome,
    /// The frame on which an access was accepted, once it showed.
    pub(crate) frame: Option<u64>,
    /// The question that was delivered.
    pub(crate) question: Option<Question>,
    /// Whether this may come of the event, as far as the list of the messages under way says.
    pub(crate) agrees: bool,
}

impl Step {
    /// Whether an access of the device was accepted here, and its frame hasn't shown yet.
    fn is_open(&self, asked: DeviceId) -> bool {
        let (Event::Read { device, .. }
        | Event::Write { device, .. }
        | Event::ReadThroughCache { device, .. }
        | Event::WriteThroughCache { device, .. }) = &self.event
        else {
            return false;
        };
        let Outcome::Accepted(_) = &self.outcome else {
            return false;
        };
        *device == asked && self.frame.is_none()
    }
}

/// The last eight bytes as a word, the lowest first; 0 where there are fewer.
fn last_word(bytes: &[u8]) -> u64 {
    let Some(rest) = bytes.len().checked_sub(8) else {
        return 0;
    };
    let last = &bytes[rest..];
    u64::from_le_bytes([
        last[0], last[1], last[2], last[3], last[4], last[5], last[6], last[7],
    ])
}

/// A world, boxed as the run is itself, and all that happened to it: of what a test owns in place each later proof would
/// carry every part.
#[derive(Drop)]
pub(crate) struct Run {
    alloc: Global,
    world: Box<World<MemoryDisk>>,
    pub(crate) messages: Messages,
    plan: Plan,
    pub(crate) ids: Ids,
    pub(crate) levels: u8,
    /// The size of the tables of the device in the second stage or in both, and so of a guest's own.
    pub(crate) guest: Size,
    pub(crate) steps: Vec<Step>,
}

/// The sizes of the modes in which the three devices are attached at first.
#[derive(Clone, Copy)]
struct Sizes {
    first: Size,
    other: Size,
    raw: Size,
}

/// How many levels the guest's tables have.
fn levels_in(guest: Size) -> u64
    ensures some { 0 < result }
    ensures few { result ≤ 4 }
{
    match guest {
        Size::Sv39 => 3,
        Size::Sv48 => 4,
    }
}

/// The one for even numbers, and for odd ones.
fn size_by(number: u64) -> Size {
    if number % 2 == 0 {
        Size::Sv39
    } else {
        Size::Sv48
    }
}

impl Sizes {
    /// Those of the run of this seed: all eight combinations come, in runs of each kind.
    fn drawn(seed: u64) -> Sizes {
        Sizes {
            first: size_by(seed / 4),
            other: size_by(seed / 8),
            raw: size_by(seed / 16),
        }
    }
}

impl Run {
    pub(crate) fn happen(&mut self, event: Event) -> Result<(), Fail>
        requires { IsNoChoice event }
    {
        if self.world.events() < 1000000 {
            let outcome = self.world.step(&event);
            let question = self.messages.delivered_by(&event);
            let agrees = self.messages.agree(&event, &outcome);
            self.messages.note(&event, &outcome)?;
            self.steps.push(Step {
                event,
                outcome,
                frame: None,
                question,
                agrees,
            })?;
        }
        Ok(())
    }

    /// Whether it settles from where it ended, as [`settles`] says. Nothing is to happen after that.
    pub(crate) fn settles(&mut self) -> Result<bool, Fail> {
        Ok(settles(self.alloc, &mut self.world, &self.steps)?)
    }

    /// Whether the world counts the events that happened to it.
    pub(crate) fn has_count(&self) -> bool {
        self.world.events() == self.steps.len() as u64
    }

    fn plug_and_attach(
        &mut self,
        device: DeviceId,
        new: NewDevice,
        mode: Mode,
        ats: bool,
    ) -> Result<(), Fail> {
        self.happen(Event::Plug { device, new })?;
        self.happen(Event::Attach { device, mode, ats })
    }

    /// A world of 64 frames, to which nothing has happened. Where it is wide its directory has three levels, else one.
    fn new(alloc: Global, plan: Plan, is_wide: bool, guest: Size) -> Result<Box<Run>, Fail> {
        let (ids, levels) = if is_wide { (WIDE, 3) } else { (NARROW, 1) };
        let world = World::new(alloc, 64, levels, Vec::new(alloc))?;
        let run = Run {
            alloc,
            world: Box::new(alloc, world)?,
            messages: Messages::new(alloc),
            plan,
            ids,
            levels,
            guest,
            steps: Vec::new(alloc),
        };
        Ok(Box::new(alloc, run)?)
    }

    /// The device gets its first pages, so many of them. In the first four a guest's tables stand.
    pub(crate) fn grant_first(&mut self, device: DeviceId, count: u64) -> Result<(), Fail> {
        for page in 0..count {
            self.happen(Event::Grant {
                device,
                page,
                frame: FIRST_FRAME + page % FRAMES,
                rights: GrantRights::ReadWrite,
            })?;
        }
        Ok(())
    }

    /// The frame names itself: by twice its number, which is an entry that isn't valid.
    fn name(&mut self, frame: u64) -> Result<(), Fail>
        requires { frame < 4096 }
    {
        let address = frame * 4096 + NAME_AT;
        let bytes = bytes_of(self.alloc, &[2 * frame])?;
        self.happen(Event::Poke { address, bytes })
    }

    /// Three raw devices, one in each mode.
    fn plug_raw(&mut self, sizes: Sizes) -> Result<(), Fail> {
        let ids = self.ids;
        self.plug_and_attach(ids.first, NewDevice::Raw, Mode::First(sizes.first), false)?;
        self.plug_and_attach(ids.other, NewDevice::Raw, Mode::Both(sizes.other), false)?;
        self.plug_and_attach(ids.raw, NewDevice::Raw, Mode::Second(sizes.raw), false)
    }

    /// Two devices with a cache, of which one is in the second stage or in both, and a raw one.
    fn plug_caches(&mut self, sizes: Sizes, is_both: bool) -> Result<(), Fail> {
        let ids = self.ids;
        let other = if is_both {
            Mode::Both(sizes.other)
        } else {
            Mode::Second(sizes.other)
        };
        self.plug_and_attach(ids.first, NewDevice::Ats, Mode::First(sizes.first), true)?;
        self.plug_and_attach(ids.other, NewDevice::Ats, other, true)?;
        self.plug_and_attach(ids.raw, NewDevice::Raw, Mode::First(sizes.raw), false)
    }

    /// The processor writes an entry of the guest's table at this level.
    fn write_entry(&mut self, level: u64, place: u64, entry: u64) -> Result<(), Fail>
        requires { place < 512 }
    {
        let address = self.guest_frame(level) % 64 * 4096 + 8 * place;
        let bytes = bytes_of(self.alloc, &[entry])?;
        self.happen(Event::Poke { address, bytes })
    }

    /// The guest's tables lead from the lowest pages, and from those behind the last of three levels, to the lowest pages.
    fn link_tables(&mut self) -> Result<(), Fail> {
        let levels = levels_in(self.guest);
        for level in 1..levels {
            for place in [0, 256] {
                self.write_entry(level - 1, place, level << 10 | 1)?;
            }
        }
        for page in 0..LOW_PAGES {
            self.write_entry(levels - 1, page, page << 10 | OPEN_LEAF)?;
        }
        Ok(())
    }

    /// The three devices, the pages in which a guest's tables stand, and frames that name themselves.
    fn begin(&mut self, sizes: Sizes, is_both: bool) -> Result<(), Fail> {
        let ids = self.ids;
        if self.plan == Plan::Modes {
            self.plug_raw(sizes)?;
        } else {
            self.plug_caches(sizes, is_both)?;
        }
        self.grant_first(ids.other, GUEST_TABLES)?;
        for frame in FIRST_FRAME..FIRST_FRAME + FRAMES {
            self.name(frame)?;
        }
        self.link_tables()
    }

    /// The step at which the oldest access of the device was accepted whose frame hasn't shown yet.
    fn oldest(&self, device: DeviceId) -> Option<usize> {
        self.steps.iter().position(|step| step.is_open(device))
    }

    /// The last eight bytes that the last step showed.
    fn shown(&self) -> Option<u64> {
        let last = self.steps.len().checked_sub(1)?;
        match &self.steps[last].outcome {
            Outcome::Read(bytes) => Some(last_word(bytes)),
            Outcome::Bytes(bytes) => Some(last_word(bytes)),
            _ => None,
        }
    }

    /// Where in its frame the write of this step put its own word, and the word.
    fn mark(&self, place: usize) -> Option<(u64, u64)> {
        match &self.steps.get(place)?.event {
            Event::Write { address, bytes, .. } | Event::WriteThroughCache { address, bytes, .. } =>
                { Some((address % 4096 + 8, last_word(bytes.as_slice()))) }
            _ => None,
        }
    }

    /// The frame in which the write of this step, made just now, put its own word: the processor looks.
    fn seek(&mut self, place: usize) -> Result<Option<u64>, Fail> {
        let Some((offset, word)) = self.mark(place) else {
            return Ok(None);
        };
        for frame in FIRST_FRAME..FIRST_FRAME + FRAMES {
            self.happen(Event::Peek {
                address: frame * 4096 + offset % 4096,
                len: 8,
            })?;
            if self.shown() == Some(word) {
                return Ok(Some(frame));
            }
        }
        Ok(None)
    }

    /// The oldest access of the device is made, and its frame shows.
    fn commit(&mut self, device: DeviceId) -> Result<(), Fail> {
        let oldest = self.oldest(device);
        self.happen(Event::Commit { device })?;
        let Some(place) = oldest else {
            return Ok(());
        };
        let frame = match self.shown() {
            Some(name) => Some(name / 2),
            None => self.seek(place)?,
        };
        if let Some(step) = self.steps.get_mut(place) {
            step.frame = frame;
        }
        Ok(())
    }

    /// The frame that the page of the device with a guest was granted last, or else one of the eight.
    fn guest_frame(&self, asked: u64) -> u64 {
        let mut found = FIRST_FRAME + asked % FRAMES;
        for step in &self.steps {
            if let (
                Event::Grant {
                    device,
                    page,
                    frame,
                    ..
                },
                Outcome::Done,
            ) = (&step.event, &step.outcome)
            {
                if *device == self.ids.other && *page == asked {
                    found = *frame;
                }
            }
        }
        found
    }

    /// The processor writes an entry of the guest's tables. Above the last level it is the one for the lowest pages, or
    /// for those behind the last of three levels.
    fn poke(&mut self, draw: &mut Draw) -> Result<(), Fail> {
        let levels = levels_in(self.guest);
        let level = draw.below(levels);
        let place = if level + 1 == levels {
            draw.below(LOW_PAGES)
        } else if draw.below(4) == 0 {
            256
        } else {
            0
        };
        let entry = draw.entry(level, levels);
        self.write_entry(level, place, entry)
    }

    /// The message at the place is lost. Where an invalidation waits for it, and nothing is done about that, a copy is
    /// sent first, mostly: the command queue would stand still from then on.
    fn lose(&mut self, draw: &mut Draw, place: u64) -> Result<(), Fail> {
        let is_waited_for = self.plan == Plan::Steady
            && self
                .messages
                .at(place)
                .is_some_and(|said| said.is_waited_for());
        if is_waited_for && draw.below(64) > 0 {
            self.happen(Event::Repeat { place })?;
        }
        self.happen(Event::Drop { place })
    }

    /// A drawn event, other than a poke, of accesses, messages and what the driver does about pages.
    fn happen_drawn(&mut self, draw: &mut Draw, own: u64) -> Result<(), Fail> {
        let event = if self.plan == Plan::Modes {
            draw.plain_event(self.alloc, own)?
        } else {
            draw.event(self.alloc, own, self.messages.requests())?
        };
        match event {
            Event::Commit { device } => self.commit(device),
            Event::Drop { place } => self.lose(draw, place),
            _ => self.happen(event),
        }
    }

    /// A drawn event. Where no device has a cache, a guest's tables are written more often.
    fn go_on(&mut self, draw: &mut Draw, own: u64) -> Result<(), Fail> {
        let drawn = if self.plan == Plan::Modes {
            draw.below(6)
        } else {
            draw.below(10)
        };
        if drawn == 0 {
            return self.poke(draw);
        }
        if self.plan == Plan::Lifecycle {
            if let Some(event) = self.next_of_lifecycle(draw) {
                return self.live(draw, event);
            }
        }
        self.happen_drawn(draw, own)
    }

    /// What is in flight is made, and the driver says which frames are free.
    fn end(&mut self) -> Result<(), Fail> {
        let ids = self.ids;
        for device in [ids.first, ids.other, ids.raw] {
            for _made in 0..8 {
                self.commit(device)?;
            }
        }
        for frame in 0..64 {
            self.happen(Event::Free { frame })?;
        }
        Ok(())
    }

    /// A run of so many events drawn from the seed, beside those that show where accesses went; what is in
    /// flight at its end is made. One device is in the second stage or, in every other run, in both; of three raw
    /// ones, one is in each mode; and each has tables of either size. Of the runs in which devices come and go, every
    /// other two have a directory of three levels.
    pub(crate) fn drawn(
        alloc: Global,
        plan: Plan,
        seed: u64,
        count: u64,
    ) -> Result<Box<Run>, Fail> {
        let is_wide = plan == Plan::Lifecycle && seed / 2 % 2 == 1;
        let sizes = Sizes::drawn(seed);
        let mut run = Run::new(alloc, plan, is_wide, sizes.other)?;
        run.begin(sizes, seed % 2 == 1)?;
        let mut draw = Draw::new(seed, run.ids);
        for number in 0..count {
            run.go_on(&mut draw, number + 1 << 32)?;
        }
        run.end()?;
        Ok(run)
    }
}
