// Hardware with block devices, without a driver, of which a test sees no parts.
//
// A test is a table of acts, which one function takes: what a test owns, and what it compares in place, each later
// proof would carry.
ghost use Rattle.std.specs.Prelude.{◌+◌, ◌<◌, ◌^◌};
ghost use Rattle.iom_block_tests.specs.InvariantIsFact.{hardware_invariant_prop};
ghost use Rattle.iom_hardware.specs.Invariant.{HardwareInvariant};

use crate::expect::expect;
use crate::setup::{DDTP, FRAMES, ONE_LEVEL, QUEUE};
use iom_base::{NewDevice, Refusal};
use iom_board::Delivered;
use iom_board::laws::software_keeps_invariant;
use iom_hardware::{Hardware, Stepped};
use iom_iommu::Reply;
use iom_registers::Mmio;
use iom_virtio_blk::MemoryDisk;
use std::alloc::Global;
use std::process::Abort;

/// What is done to the hardware, and what comes of it.
#[derive(Clone, Copy)]
pub(crate) enum Act {
    /// The directory is turned on.
    TurnOn,
    /// Software stores a word, or finds one.
    Store(u64, u64),
    Word(u64, u64),
    /// A device is plugged in with this id; a disk is put into a device, or goes; the device is reset.
    Plug(u32, NewDevice, Result<(), Refusal>),
    Medium(u32, u64, Result<(), Refusal>),
    RemoveDisk(u32, Result<(), Refusal>),
    Reset(u32, Result<(), Refusal>),
    /// The queue of a device is set where the setup says; the device tells its status.
    Queue(u32, Result<(), Refusal>),
    Status(u32, Result<u8, Refusal>),
    /// A block device takes a step.
    Step(u32, Result<Stepped, Refusal>),
    /// The device steps to an access, which is accepted under this number; it wants that until it is made; and it is made.
    Makes(u32, u64),
    /// The oldest access of the device is that of this number, and is made; or there is none.
    Commits(u32, u64),
    CommitsNone(u32),
    /// The message at a place arrives.
    Deliver(u64, Delivered),
}

/// The hardware.
#[derive(Drop)]
pub(crate) struct Machine {
    hardware: Hardware<MemoryDisk>,
    alloc: Global,
    ghost invariants: { HardwareInvariant hardware } by { hardware_invariant_prop hardware },
}

impl Machine {
    /// At power-on, with two disks of eight sectors. Boxed: of what a test owns in place each later proof would carry every part.
    fn at_power_on(rt: &impl Abort, alloc: Global) -> Box<Machine> {
        let mut disks = Vec::with_capacity(alloc, 2).expect(rt, "memory for the list");
        for name in 0..2 {
            let disk = MemoryDisk::new(alloc, name, 8, None).expect(rt, "memory for a disk");
            disks.push(disk).expect(rt, "room for it");
        }
        let hardware = Hardware::new(alloc, FRAMES, disks).expect(rt, "memory for the hardware");
        Box::new(alloc, Machine { hardware, alloc }).expect(rt, "memory for the machine")
    }

    /// One more event can be counted.
    fn expect_room(&self, rt: &impl Abort)
        ensures { self.now.hardware.board.events + 1 < 2 ^ 64 }
    {
        let has_room = self.hardware.board.events < u64::MAX;
        assert!(rt; has_room);
    }

    fn turn_on(&mut self, rt: &impl Abort) {
        software_keeps_invariant();
        let written = self.hardware.board.iommu.write(DDTP, 8, ONE_LEVEL);
        expect(rt, written.is_ok());
    }

    fn stores(&mut self, rt: &impl Abort, address: u64, word: u64) {
        self.expect_room(rt);
        let stored = self.hardware.board.store(address, &word.to_le_bytes());
        expect(rt, stored.is_ok());
    }

    fn expect_word(&self, rt: &impl Abort, address: u64, word: u64) {
        let loaded = self.hardware.board.load(address, 8);
        let bytes = loaded.expect(rt, "a place in memory");
        expect(rt, bytes == word.to_le_bytes().as_slice());
    }

    fn plugs(&mut self, rt: &impl Abort, id: u32, what: NewDevice, expected: Result<(), Refusal>) {
        self.expect_room(rt);
        let plugged = self.hardware.plug(id, what);
        expect(rt, plugged == expected);
    }

    fn takes_disk(&mut self, rt: &impl Abort, id: u32, disk: u64, expected: Result<(), Refusal>) {
        self.expect_room(rt);
        let taken = self.hardware.medium(id, disk);
        expect(rt, taken == expected);
    }

    fn loses_disk(&mut self, rt: &impl Abort, id: u32, expected: Result<(), Refusal>) {
        self.expect_room(rt);
        let lost = self.hardware.remove_disk(id);
        expect(rt, lost == expected);
    }

    fn resets(&mut self, rt: &impl Abort, id: u32, expected: Result<(), Refusal>) {
        self.expect_room(rt);
        let reset = self.hardware.reset(id);
        expect(rt, reset == expected);
    }

    fn sets_queue(&mut self, rt: &impl Abort, id: u32, expected: Result<(), Refusal>) {
        self.expect_room(rt);
        let (size, descriptors, available, used) = QUEUE;
        let set = self.hardware.queue(id, size, descriptors, available, used);
        expect(rt, set == expected);
    }

    fn steps(&mut self, rt: &impl Abort, id: u32, expected: Result<Stepped, Refusal>) {
        self.expect_room(rt);
        let stepped = self.hardware.step(id);
        expect(rt, stepped == expected);
    }

    /// The oldest access of the device is that of the number, and is made.
    fn commits(&mut self, rt: &impl Abort, id: u32, number: u64) {
        self.expect_room(rt);
        expect(rt, self.hardware.oldest_number(id) == Some(number));
        let committed = self.hardware.commit(id);
        let made = committed.expect(rt, "a device");
        expect(rt, made.is_some());
    }

    /// The device wants an access, or waits for one.
    fn expect_wanted(&self, rt: &impl Abort, id: u32) {
        let wanted = self.hardware.wanted(self.alloc, id);
        let access = wanted.expect(rt, "memory for the access");
        expect(rt, access.is_some());
    }

    fn makes(&mut self, rt: &impl Abort, id: u32, number: u64) {
        self.steps(rt, id, Ok(Stepped::Began(Reply::Accepted(number))));
        self.steps(rt, id, Ok(Stepped::Waiting));
        self.expect_wanted(rt, id);
        self.commits(rt, id, number);
    }

    fn commits_none(&mut self, rt: &impl Abort, id: u32) {
        self.expect_room(rt);
        let committed = self.hardware.commit(id);
        expect(rt, committed == Ok(None));
    }

    fn delivers(&mut self, rt: &impl Abort, place: u64, expected: Delivered) {
        self.expect_room(rt);
        let delivered = self.hardware.deliver(place);
        expect(rt, delivered == expected);
    }

    fn expect_status(&self, rt: &impl Abort, id: u32, expected: Result<u8, Refusal>) {
        let status = self.hardware.status(id);
        expect(rt, status == expected);
    }

    /// Takes an act of software, or of a device that comes or goes.
    fn takes(&mut self, rt: &impl Abort, act: Act) {
        match act {
            Act::TurnOn => self.turn_on(rt),
            Act::Store(address, word) => self.stores(rt, address, word),
            Act::Word(address, word) => self.expect_word(rt, address, word),
            Act::Plug(id, what, expected) => self.plugs(rt, id, what, expected),
            Act::Medium(id, disk, expected) => self.takes_disk(rt, id, disk, expected),
            Act::RemoveDisk(id, expected) => self.loses_disk(rt, id, expected),
            Act::Reset(id, expected) => self.resets(rt, id, expected),
            _ => self.takes_of_block(rt, act),
        }
    }

    /// Takes an act of which a block device is the subject.
    fn takes_of_block(&mut self, rt: &impl Abort, act: Act) {
        match act {
            Act::Queue(id, expected) => self.sets_queue(rt, id, expected),
            Act::Status(id, expected) => self.expect_status(rt, id, expected),
            Act::Step(id, expected) => self.steps(rt, id, expected),
            Act::Makes(id, number) => self.makes(rt, id, number),
            Act::Commits(id, number) => self.commits(rt, id, number),
            Act::CommitsNone(id) => self.commits_none(rt, id),
            Act::Deliver(place, expected) => self.delivers(rt, place, expected),
            _ => expect(rt, false),
        }
    }
}

/// At power-on, with these words in memory, the acts are taken, one after another.
pub(crate) fn run(rt: &impl Abort, alloc: Global, words: &[(u64, u64)], acts: &[Act]) {
    let mut machine = Machine::at_power_on(rt, alloc);
    for (address, word) in words.iter() {
        machine.stores(rt, *address, *word);
    }
    for act in acts.iter() {
        machine.takes(rt, *act);
    }
}
