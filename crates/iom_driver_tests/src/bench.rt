// A driver with memory and registers of its own, of which a test sees no parts.
ghost use Rattle.std.specs.Prelude.{◌+◌, ◌<◌, ◌^◌};
ghost use Rattle.iom_device.specs.Caches.{epoch_in};

use crate::recording::Recording;
use iom_base::{DeviceId, GrantRights, Mode, Refusal, Size};
use iom_device::{Device, reset};
use iom_driver::laws::stays_ready;
use iom_driver::{Driver, Mapping, Polled, Ticket};
use iom_fault_queue::Record;
use iom_phys_mem::{Bytes, MemError, Memory};
use iom_registers::Register;
use std::alloc::Global;
use std::marker::Model;
use std::process::Abort;
use std::test::Fail;

/// How many frames the memory of a bench has.
const FRAMES: u32 = 64;

/// What a call of the driver answers that gives nothing.
pub(crate) type Done = Result<(), Refusal>;

/// The number of a ticket.
pub(crate) type Given = Result<u32, Refusal>;

pub(crate) const OK: Done = Ok(());

/// The modes, with tables of three levels.
pub(crate) const FIRST: Mode = Mode::First(Size::Sv39);

pub(crate) const SECOND: Mode = Mode::Second(Size::Sv39);

pub(crate) const BOTH: Mode = Mode::Both(Size::Sv39);

/// What a test does, with the answer, and what it looks at.
#[derive(Clone, Copy)]
pub(crate) enum Step<'a> {
    Plug(DeviceId, Done),
    /// With a cache of translations of its own.
    PlugTrusted(DeviceId, Done),
    Attach(DeviceId, Mode, Done),
    AttachAts(DeviceId, Mode, Done),
    Grant(DeviceId, u64, u64, Done),
    /// Each page from one up to another, the last excepted, gets the frame of its number.
    GrantEach(DeviceId, u64, u64),
    Release(DeviceId, u64, Given),
    /// Each page from one up to another, the last excepted, gets frame 5, and is released.
    ReleaseEach(DeviceId, u64, u64),
    Detach(DeviceId, Given),
    Quarantine(DeviceId, Given),
    MayRevive(DeviceId, Done),
    Revive(DeviceId, Done),
    Restart(Done),
    /// Confirms so many tickets from the first on, and tells whether a command timed out.
    Poll(u32, u32, bool),
    /// Is refused.
    PollRefused(Refusal),
    FaultsRefused(Refusal),
    /// A fence stores its number, as the IOMMU would.
    Complete(u32),
    /// The IOMMU gives a command up.
    TimeOut,
    Free(u32, bool),
    Reserved(u32, bool),
    CountFree(u32),
    Pending(usize),
    /// Words of memory from the address on.
    Words(u64, &'a [u64]),
    Register(Register, u64),
    /// The registers that were written last, up to six: none where there were fewer.
    Writes(&'a [Option<Register>]),
}

/// Memory, registers that remember their writes, and a driver that is ready for them.
#[derive(Drop)]
pub(crate) struct Bench {
    memory: Memory,
    io: Recording,
    driver: Driver,
}

impl Model for Bench {
    ghost use Rattle.std.specs.Prelude.{ℕ};
    ghost use Rattle.iom_driver.specs.Ready.{IsReady};
    ghost use Rattle.iom_driver.specs.StateOf.{state_of};

    ghost Value = { ℕ };

    ghost view = { λ bench. 0 };

    ghost invariant = { λ bench. IsReady (state_of bench.driver) bench.memory bench.io.registers };
}

// A test owns its bench in a box: of what it owns in place each later proof would carry every part.
impl Bench {
    /// At power-on.
    fn off(alloc: Global) -> Result<Box<Bench>, Fail> {
        let bench = Bench::off_in_place(alloc)?;
        Ok(Box::new(alloc, bench)?)
    }

    fn off_in_place(alloc: Global) -> Result<Bench, MemError> {
        let memory = Memory::new(alloc, FRAMES)?;
        let driver = Driver::new(alloc, FRAMES, 1)?;
        let io = Recording::new();
        Ok(Bench { memory, io, driver })
    }

    /// Started, with so many frames and levels of the directory.
    fn of_size(alloc: Global, frames: u32, levels: u8) -> Result<Box<Bench>, Fail> {
        let bench = Bench::started_in_place(alloc, frames, levels)?;
        Ok(Box::new(alloc, bench)?)
    }

    fn started_in_place(alloc: Global, frames: u32, levels: u8) -> Result<Bench, MemError> {
        let mut memory = Memory::new(alloc, frames)?;
        let mut driver = Driver::new(alloc, frames, levels)?;
        let mut io = Recording::new();
        driver.start(&mut memory, &mut io);
        Ok(Bench { memory, io, driver })
    }

    fn plug(&mut self, id: DeviceId) -> Result<(), Refusal> {
        self.driver.plug(id, false)
    }

    /// The device has a cache of translations of its own.
    fn plug_trusted(&mut self, id: DeviceId) -> Result<(), Refusal> {
        self.driver.plug(id, true)
    }

    fn attach_in(&mut self, id: DeviceId, mode: Mode) -> Result<(), Refusal> {
        self.driver.attach(&mut self.memory, id, mode, false)
    }

    fn attach_with_ats(&mut self, id: DeviceId, mode: Mode) -> Result<(), Refusal> {
        self.driver.attach(&mut self.memory, id, mode, true)
    }

    fn grant(&mut self, id: DeviceId, page: u64, frame: u64) -> Result<(), Refusal> {
        let mapping = Mapping {
            page,
            frame,
            rights: GrantRights::ReadWrite,
        };
        self.driver.grant(&mut self.memory, id, mapping)
    }

    fn release(&mut self, id: DeviceId, page: u64) -> Result<Ticket, Refusal> {
        self.driver
            .release(&mut self.memory, &mut self.io, id, page)
    }

    fn detach(&mut self, id: DeviceId) -> Result<Ticket, Refusal> {
        self.driver.detach(&mut self.memory, &mut self.io, id)
    }

    fn quarantine(&mut self, id: DeviceId) -> Result<Ticket, Refusal> {
        self.driver.quarantine(&mut self.memory, &mut self.io, id)
    }

    fn may_revive(&self, id: DeviceId) -> Result<(), Refusal> {
        self.driver.may_revive(id)
    }

    fn revive(&mut self, id: DeviceId) -> Result<(), Refusal> {
        self.driver.revive(&mut self.memory, id)
    }

    /// The device is reset between the two, which is among these: as whoever revives it has to.
    pub(crate) fn revive_reset(
        &mut self,
        devices: &mut Vec<Device>,
        id: DeviceId,
    ) -> Result<(), Refusal>
        requires epoch { epoch_in devices.old.items id + 1 < 2 ^ 64 }
    {
        self.may_revive(id)?;
        reset(devices, id);
        self.revive(id)
    }

    fn restart(&mut self) -> Result<(), Refusal> {
        self.driver.restart(&mut self.memory, &mut self.io)
    }

    fn poll(&mut self) -> Result<Polled, Refusal> {
        self.driver.poll(&mut self.memory, &self.io)
    }

    fn faults(&mut self) -> Result<Option<Record>, Refusal> {
        self.driver.faults(&self.memory, &mut self.io)
    }

    fn is_free(&self, frame: u32) -> bool {
        self.driver.is_free(frame)
    }

    fn is_reserved(&self, frame: u32) -> bool {
        self.driver.is_reserved(frame)
    }

    fn count_free(&self) -> u32 {
        self.driver.count_free()
    }

    fn pending(&self) -> usize {
        self.driver.pending()
    }

    /// Whether its driver is equal to the other's.
    pub(crate) fn has_same_driver(&self, other: &Bench) -> bool {
        self.driver.is_same(&other.driver)
    }

    /// A fence stores its number, as the IOMMU would.
    fn complete(&mut self, number: u32) {
        stays_ready();
        let address = 4096 * u64::from(self.memory.frames() - 3);
        self.memory.store_u32(address, number);
    }

    /// The IOMMU gives a command up.
    fn time_out(&mut self) {
        stays_ready();
        self.io.registers.set_cmd_to();
    }

    fn has_words(&self, address: u64, expected: &[u64]) -> bool {
        let mut place = address;
        for word in expected.iter() {
            if self.memory.load_u64(place) != Some(*word) {
                return false;
            }
            place = place.wrapping_add(8);
        }
        true
    }

    fn register(&self, register: Register) -> u64 {
        self.io.registers.value(register)
    }

    /// Whether these registers were written last, and in this order.
    fn was_written(&self, expected: &[Option<Register>]) -> bool {
        let io = &self.io;
        let last = [io.first, io.second, io.third, io.fourth, io.fifth, io.sixth];
        ends_with(&last, expected)
    }

    fn grant_each(&mut self, id: DeviceId, from: u64, to: u64) -> bool {
        for page in from..to {
            if self.grant(id, page, page) != OK {
                return false;
            }
        }
        true
    }

    fn release_each(&mut self, id: DeviceId, from: u64, to: u64) -> bool {
        for page in from..to {
            if self.grant(id, page, 5) != OK || self.release(id, page).is_err() {
                return false;
            }
        }
        true
    }

    /// Whether the step is done and answered so.
    fn effect(&mut self, step: Step) -> bool {
        match step {
            Step::Plug(id, done) => self.plug(id) == done,
            Step::PlugTrusted(id, done) => self.plug_trusted(id) == done,
            Step::Attach(id, mode, done) => self.attach_in(id, mode) == done,
            Step::AttachAts(id, mode, done) => self.attach_with_ats(id, mode) == done,
            Step::Grant(id, page, frame, done) => self.grant(id, page, frame) == done,
            Step::GrantEach(id, from, to) => self.grant_each(id, from, to),
            Step::Release(id, page, given) => number(self.release(id, page)) == given,
            Step::ReleaseEach(id, from, to) => self.release_each(id, from, to),
            Step::Detach(id, given) => number(self.detach(id)) == given,
            Step::Quarantine(id, given) => number(self.quarantine(id)) == given,
            Step::MayRevive(id, done) => self.may_revive(id) == done,
            Step::Revive(id, done) => self.revive(id) == done,
            Step::Restart(done) => self.restart() == done,
            Step::Poll(first, count, timed_out) => self.polls(Ok((first, count, timed_out))),
            Step::PollRefused(refusal) => self.polls(Err(refusal)),
            _ => self.sees(step),
        }
    }

    fn polls(&mut self, expected: Result<(u32, u32, bool), Refusal>) -> bool {
        let polled = self.poll();
        polled.map(|reply| (reply.first, reply.count, reply.timed_out)) == expected
    }

    /// The same of a look, and of what the IOMMU does.
    fn sees(&mut self, step: Step) -> bool {
        match step {
            Step::FaultsRefused(refusal) => self.faults().err() == Some(refusal),
            Step::Free(frame, is) => self.is_free(frame) == is,
            Step::Reserved(frame, is) => self.is_reserved(frame) == is,
            Step::CountFree(count) => self.count_free() == count,
            Step::Pending(count) => self.pending() == count,
            Step::Words(address, words) => self.has_words(address, words),
            Step::Register(register, value) => self.register(register) == value,
            Step::Writes(registers) => self.was_written(registers),
            Step::Complete(number) => {
                self.complete(number);
                true
            }
            Step::TimeOut => {
                self.time_out();
                true
            }
            _ => false,
        }
    }

    /// Takes the steps of a run, one after another.
    pub(crate) fn follow(&mut self, rt: &impl Abort, says: &str, steps: &[Step]) {
        for (place, step) in steps.iter().enumerate() {
            let is_so = self.effect(*step);
            holds(rt, says, place, is_so);
        }
    }
}

/// Ends the test where this doesn't hold at a step of the run.
fn holds(rt: &impl Abort, says: &str, place: usize, is_so: bool) {
    assert!(rt; is_so, "{says}: step {place}");
}

/// The number of a ticket that was given.
fn number(given: Result<Ticket, Refusal>) -> Given {
    given.map(|ticket| ticket.0)
}

/// Whether these are the last of them.
fn ends_with(all: &[Option<Register>; 6], expected: &[Option<Register>]) -> bool {
    let mut place = 6usize.saturating_sub(expected.len());
    for register in expected.iter() {
        if place >= 6 || all[place] != *register {
            return false;
        }
        place += 1;
    }
    true
}

/// With what a run begins.
#[derive(Clone, Copy)]
pub(crate) enum Start {
    /// At power-on.
    Off,
    /// Started, with 64 frames and a directory of one level.
    Usual,
    /// Started, with so many frames and levels of the directory.
    Sized(u32, u8),
}

/// A run: its name, with what it begins, and its steps.
pub(crate) type Run<'a> = (&'a str, Start, &'a [Step<'a>]);

fn begun(alloc: Global, start: Start) -> Result<Box<Bench>, Fail> {
    match start {
        Start::Off => Bench::off(alloc),
        Start::Usual => Bench::of_size(alloc, FRAMES, 1),
        Start::Sized(frames, levels) => Bench::of_size(alloc, frames, levels),
    }
}

/// A bench that is started, with 64 frames and a directory of one level.
pub(crate) fn started(alloc: Global) -> Result<Box<Bench>, Fail> {
    begun(alloc, Start::Usual)
}

/// The steps of each run are answered so.
pub(crate) fn follow(rt: &impl Abort, alloc: Global, runs: &[Run]) {
    for (says, start, steps) in runs.iter() {
        match begun(alloc, *start) {
            Ok(mut bench) => bench.follow(rt, says, steps),
            Err(_) => panic!(rt; "out of memory"),
        }
    }
}
