// A run: a world, and what the test knows of it.

use crate::call::{Act, Call, event_of};
use crate::flights::flights_of;
use crate::frames::{FIRST_FRAME, FRAMES, gives, index_of, take_over, write};
use crate::history::has;
use crate::judge::{Rule, judge, judge_commit};
use crate::knows::Knows;
use crate::met::{Row, meet_all};
use crate::pace::Paced;
use crate::reply::{Heard, Told, heard_of};
use iom_base::{AccessKind, DeviceId, Refusal};
use iom_inflight::MadeAt;
use iom_machine::{Event, Outcome};
use iom_stepped_world::{SteppedOutcome, SteppedWorld};
use iom_virtio_blk::MemoryDisk;
use iom_world::World;
use std::alloc::{AllocError, Global};
use std::test::Fail;

/// How many disks there are.
pub(crate) const DISKS: u64 = 12;

/// A run.
#[derive(Drop)]
pub(crate) struct Run {
    alloc: Global,
    world: Paced,
    pub(crate) knows: Box<Knows>,
    /// The bytes that the frames that are granted have to have.
    bytes: Vec<u8>,
    /// The rule that was broken first.
    pub(crate) broken: Option<Rule>,
}

/// The disks: some have two sectors, some four, and every third fails at a call.
fn disks(alloc: Global) -> Result<Vec<MemoryDisk>, AllocError> {
    let mut disks = Vec::new(alloc);
    for number in 0..DISKS {
        let fails_at = if number % 3 == 2 {
            Some(number / 3 + 1)
        } else {
            None
        };
        let sectors = if number % 2 == 0 { 4 } else { 2 };
        disks.push(MemoryDisk::new(alloc, number, sectors, fails_at)?)?;
    }
    Ok(disks)
}

/// A world to which nothing has happened, with so many levels of the directory.
fn world_of(alloc: Global, levels: u8, is_stepped: bool) -> Result<Paced, Fail> {
    let disks = disks(alloc)?;
    if is_stepped {
        let stepped = SteppedWorld::new(alloc, 64, levels, disks)?;
        return Ok(Paced::Stepped(Box::new(alloc, stepped)?));
    }
    let world = World::new(alloc, 64, levels, disks)?;
    Ok(Paced::Whole(Box::new(alloc, world)?))
}

/// The bytes of all frames that are granted.
fn look(alloc: Global, world: &mut Paced) -> Result<Vec<u8>, AllocError> {
    let mut all = Vec::new(alloc);
    for place in 0..FRAMES {
        let address = (FIRST_FRAME + place) * 4096;
        if let SteppedOutcome::Answer(Outcome::Bytes(bytes)) = world.step(&Event::Peek {
            address,
            len: 4096,
        }) {
            all.extend_from_slice(bytes.as_slice())?;
        }
    }
    Ok(all)
}

impl Run {
    /// A world to which nothing has happened, with so many levels of the directory.
    pub(crate) fn new(
        alloc: Global,
        levels: u8,
        wide: DeviceId,
        is_crowded: bool,
        is_stepped: bool,
    ) -> Result<Run, Fail> {
        let mut world = world_of(alloc, levels, is_stepped)?;
        let bytes = look(alloc, &mut world)?;
        Ok(Run {
            alloc,
            world,
            knows: Box::new(alloc, Knows::new(alloc, wide, is_crowded, is_stepped))?,
            bytes,
            broken: None,
        })
    }

    fn expect(&mut self, rule: Rule, holds: bool) {
        if !holds && self.broken.is_none() {
            self.broken = Some(rule);
        }
    }

    /// The write that is made leaves these bytes: those that were asked for, or, of a block device, any.
    fn write_made(&mut self, made: MadeAt, call: Call, now: &[u8]) {
        let first = index_of(u64::from(made.frame), u64::from(made.offset));
        let len = u64::from(made.len);
        if call.act == Act::Step {
            take_over(&mut self.bytes, now, first, len);
        } else {
            write(&mut self.bytes, first, len, call.word);
        }
    }

    /// The bytes of an access that is made are as they have to be, and no others change.
    fn judge_bytes(
        &mut self,
        call: Call,
        made: MadeAt,
        outcome: &SteppedOutcome,
    ) -> Result<(), AllocError> {
        let first = index_of(u64::from(made.frame), u64::from(made.offset));
        if let SteppedOutcome::Answer(Outcome::Read(given)) = outcome {
            let is_right = given.len() == usize::from(made.len)
                && gives(&self.bytes, first, given.as_slice());
            self.expect(Rule::Bytes, is_right);
        }
        let now = look(self.alloc, &mut self.world)?;
        if made.kind == AccessKind::Write {
            self.write_made(made, call, &now);
        }
        let is_right = self.bytes == now;
        self.expect(Rule::Bytes, is_right);
        Ok(())
    }

    /// The oldest access of the device is made: by what was in flight, on a frame that it may reach.
    fn commit(&mut self, call: Call) -> Result<Heard, Fail> {
        // Where tables come to be in the frames, they change by other events than these.
        if self.knows.is_crowded {
            self.bytes = look(self.alloc, &mut self.world)?;
        }
        let oldest = self.world.oldest(call.device);
        let event = Event::Commit {
            device: call.device,
        };
        let outcome = self.world.step(&event);
        let heard = heard_of(&outcome);
        let (rule, holds) = judge_commit(&self.knows, call, oldest, heard);
        self.expect(rule, holds);
        if let (Some(made), Some(flying)) = (
            oldest,
            flights_of(&self.knows.flights, call.device).oldest,
        ) {
            self.judge_bytes(flying.call, made, &outcome)?;
        }
        Ok(heard)
    }

    /// The event happens, and this comes of it.
    fn take(&mut self, call: Call) -> Result<Heard, AllocError> {
        if call.act == Act::Load {
            return Ok(heard_of(&self.world.load(call.device)));
        }
        let event = event_of(self.alloc, call)?;
        Ok(heard_of(&self.world.step(&event)))
    }

    /// An event that isn't a commit happens.
    fn act(&mut self, call: Call) -> Result<Heard, AllocError> {
        let heard = self.take(call)?;
        let (rule, holds) = judge(&self.knows, call, heard);
        self.expect(rule, holds);
        if call.act == Act::Poke && heard.reply == Told::Done {
            let first = index_of(call.frame, call.offset);
            write(&mut self.bytes, first, call.len, call.word);
        }
        Ok(heard)
    }

    /// The event happens, and what comes of it is held against what the test knows.
    pub(crate) fn happen(&mut self, call: Call, met: &mut Vec<Row>) -> Result<Told, Fail> {
        let heard = if call.act == Act::Commit {
            self.commit(call)?
        } else {
            self.act(call)?
        };
        meet_all(met, &self.knows, call, heard)?;
        self.knows.keep(call, heard)?;
        Ok(heard.reply)
    }

    /// Whether a table is in the frame: the processor may not write it.
    fn is_table(&mut self, free: Call) -> Result<bool, AllocError> {
        let mut poke = free;
        poke.act = Act::Poke;
        poke.offset = 0;
        poke.len = 1;
        let heard = self.take(poke)?;
        Ok(heard.reply == Told::Refused(Refusal::FrameReserved))
    }

    /// The world settles in 400 events at most; then a frame is free where nobody holds it, and else isn't.
    pub(crate) fn end(&mut self, last: Call) -> Result<(), AllocError> {
        let settled = self.world.settles();
        self.expect(Rule::Settle, settled);
        let held = self.knows.reached_by_any(false);
        let mut free = last;
        free.act = Act::Free;
        for frame in FIRST_FRAME..FIRST_FRAME + FRAMES {
            free.frame = frame;
            let is_free = self.take(free)?.reply == Told::Free(true);
            let may_be_table = self.knows.is_crowded && self.is_table(free)?;
            let is_held = has(held, frame);
            self.expect(Rule::Free, is_free != is_held || may_be_table && !is_free);
        }
        Ok(())
    }
}
