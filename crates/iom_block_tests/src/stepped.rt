// Block devices whose requests make one load an event, without a driver.
ghost use Rattle.std.specs.Prelude.{◌+◌, ◌<◌, ◌^◌};
ghost use Rattle.iom_block_devices.specs.Shown.{shown_blocks};
ghost use Rattle.iom_block_tests.specs.InvariantIsFact.{hardware_invariant_prop};
ghost use Rattle.iom_board.specs.BoardParts.{board_parts};
ghost use Rattle.iom_hardware.specs.Invariant.{HardwareInvariant};
ghost use Rattle.iom_stepped_hardware.specs.Beside.{AreBesideHardware};
ghost use Rattle.iom_stepped_hardware.specs.BesideIsFact.{are_beside_hardware_prop};
ghost use Rattle.iom_virtio_blk.specs.MemoryDisks.{disk_state};

use crate::expect::expect;
use crate::setup::{DDTP, DEVICE, FRAMES, LEAF, ONE_LEVEL, QUEUE, WORDS};
use iom_base::{AccessKind, Cause, NewDevice, Refusal};
use iom_board::laws::software_keeps_invariant;
use iom_hardware::{Hardware, Stepped};
use iom_iommu::{Begun, Fetched, Load, Reply};
use iom_registers::Mmio;
use iom_stepped_board::laws::stays_beside;
use iom_stepped_hardware::laws::events_stay_beside;
use iom_stepped_hardware::{
    StepOutcome, begin, commit, fetch, load, plug, queue, remove_disk, reset, step,
};
use iom_virtio_blk::MemoryDisk;
use iom_walks::Walks;
use std::alloc::Global;
use std::process::Abort;

/// Where a command queue of 256 entries in the frame 63 lies, the address of its first entry, and IOTINVAL.VMA of the page 3 of
/// PSCID 1.
const CQB: u64 = 24;

const CQT: u64 = 36;

const CQCSR: u64 = 72;

const BASE_VALUE: u64 = 0xfc07;

const RING: u64 = 0x3f000;

const VMA: (u64, u64) = (0x0000_0001_0000_1401, 0xc00);

/// Another device.
const RAW: u32 = 6;

/// What is done, and what comes of it.
#[derive(Clone, Copy)]
enum Act {
    Store(u64, u64),
    /// The command is taken, and done.
    Does((u64, u64)),
    Plug(u32, NewDevice, Result<(), Refusal>),
    RemoveDisk(u32, Result<(), Refusal>),
    Reset(u32, Result<(), Refusal>),
    Queue(u32, Result<(), Refusal>),
    Status(u32, Result<u8, Refusal>),
    Step(u32, Result<StepOutcome, Refusal>),
    /// The device asks for a read of one byte of the page 3.
    Begin(u32, Result<Begun, Refusal>),
    Load(u32, Result<Load, Refusal>),
    /// Three loads of the device go on.
    Loads(u32),
    /// The oldest access of the device is made, in this frame.
    MadeIn(u32, u32),
}

#[derive(Drop)]
struct Machine {
    hardware: Hardware<MemoryDisk>,
    walks: Walks,
    ghost invariants: { HardwareInvariant hardware } by { hardware_invariant_prop hardware },
    ghost beside: { AreBesideHardware (board_parts hardware.board) (shown_blocks disk_state hardware.blocks.items) walks } by { are_beside_hardware_prop (board_parts hardware.board) (shown_blocks disk_state hardware.blocks.items) walks },
}

impl Machine {
    /// At power-on, with a disk of eight sectors. Boxed: of what a test owns in place each later proof would carry every part.
    fn at_power_on(rt: &impl Abort, alloc: Global) -> Box<Machine> {
        events_stay_beside();
        let disk = MemoryDisk::new(alloc, 0, 8, None).expect(rt, "memory for a disk");
        let mut disks = Vec::with_capacity(alloc, 1).expect(rt, "memory for the list");
        disks.push(disk).expect(rt, "room for it");
        let hardware = Hardware::new(alloc, FRAMES, disks).expect(rt, "memory for the hardware");
        let walks = Walks::new(alloc).expect(rt, "memory for walks");
        Box::new(alloc, Machine { hardware, walks }).expect(rt, "memory for the machine")
    }

    /// One more event can be counted.
    fn expect_room(&self, rt: &impl Abort)
        ensures { self.now.hardware.board.events + 1 < 2 ^ 64 }
    {
        let has_room = self.hardware.board.events < u64::MAX;
        assert!(rt; has_room);
    }

    fn write(&mut self, rt: &impl Abort, offset: u64, width: u32, value: u64) {
        software_keeps_invariant();
        events_stay_beside();
        let written = self.hardware.board.iommu.write(offset, width, value);
        expect(rt, written.is_ok());
    }

    fn stores(&mut self, rt: &impl Abort, address: u64, word: u64) {
        stays_beside();
        events_stay_beside();
        self.expect_room(rt);
        let stored = self.hardware.board.store(address, &word.to_le_bytes());
        expect(rt, stored.is_ok());
    }

    /// The directory and the command queue are turned on.
    fn turn_on(&mut self, rt: &impl Abort) {
        self.write(rt, DDTP, 8, ONE_LEVEL);
        self.write(rt, CQB, 8, BASE_VALUE);
        self.write(rt, CQCSR, 4, 3);
    }

    fn does(&mut self, rt: &impl Abort, (first, second): (u64, u64)) {
        self.stores(rt, RING, first);
        self.stores(rt, RING + 8, second);
        self.write(rt, CQT, 4, 1);
        self.expect_room(rt);
        let fetched = fetch(&mut self.hardware, &mut self.walks);
        expect(rt, matches!(fetched, Fetched::Did(_)));
    }

    fn plugs(&mut self, rt: &impl Abort, id: u32, what: NewDevice, expected: Result<(), Refusal>) {
        self.expect_room(rt);
        let plugged = plug(&mut self.hardware, &mut self.walks, id, what);
        expect(rt, plugged == expected);
    }

    fn loses_disk(&mut self, rt: &impl Abort, id: u32, expected: Result<(), Refusal>) {
        self.expect_room(rt);
        let lost = remove_disk(&mut self.hardware, &mut self.walks, id);
        expect(rt, lost == expected);
    }

    fn resets(&mut self, rt: &impl Abort, id: u32, expected: Result<(), Refusal>) {
        self.expect_room(rt);
        let was = reset(&mut self.hardware, &mut self.walks, id);
        expect(rt, was == expected);
    }

    fn sets_queue(&mut self, rt: &impl Abort, id: u32, expected: Result<(), Refusal>) {
        self.expect_room(rt);
        let (size, descriptors, available, used) = QUEUE;
        let set = queue(
            &mut self.hardware,
            &mut self.walks,
            id,
            size,
            descriptors,
            available,
            used,
        );
        expect(rt, set == expected);
    }

    fn expect_status(&self, rt: &impl Abort, id: u32, expected: Result<u8, Refusal>) {
        let status = self.hardware.status(id);
        expect(rt, status == expected);
    }

    fn steps(&mut self, rt: &impl Abort, id: u32, expected: Result<StepOutcome, Refusal>) {
        self.expect_room(rt);
        let outcome = step(&mut self.hardware, &mut self.walks, id);
        expect(rt, outcome == expected);
    }

    fn begins(&mut self, rt: &impl Abort, id: u32, expected: Result<Begun, Refusal>) {
        self.expect_room(rt);
        let begun = begin(
            &mut self.hardware,
            &mut self.walks,
            id,
            0x3010,
            1,
            AccessKind::Read,
            &[],
        );
        expect(rt, begun == expected);
    }

    fn loads(&mut self, rt: &impl Abort, id: u32, expected: Result<Load, Refusal>) {
        self.expect_room(rt);
        let made = load(&mut self.hardware, &mut self.walks, id);
        expect(rt, made == expected);
    }

    fn loads_three(&mut self, rt: &impl Abort, id: u32) {
        for _ in 0..3 {
            self.loads(rt, id, Ok(Load::Loaded));
        }
    }

    fn makes(&mut self, rt: &impl Abort, id: u32, frame: u32) {
        self.expect_room(rt);
        let committed = commit(&mut self.hardware, &self.walks, id);
        let made = committed.expect(rt, "a device").expect(rt, "an access");
        expect(rt, made.frame == frame);
    }

    fn takes(&mut self, rt: &impl Abort, act: Act) {
        match act {
            Act::Store(address, word) => self.stores(rt, address, word),
            Act::Does(words) => self.does(rt, words),
            Act::Plug(id, what, expected) => self.plugs(rt, id, what, expected),
            Act::RemoveDisk(id, expected) => self.loses_disk(rt, id, expected),
            Act::Reset(id, expected) => self.resets(rt, id, expected),
            Act::Queue(id, expected) => self.sets_queue(rt, id, expected),
            _ => self.asks(rt, act),
        }
    }

    /// Takes an act by which a device asks for an access, or one is made.
    fn asks(&mut self, rt: &impl Abort, act: Act) {
        match act {
            Act::Status(id, expected) => self.expect_status(rt, id, expected),
            Act::Step(id, expected) => self.steps(rt, id, expected),
            Act::Begin(id, expected) => self.begins(rt, id, expected),
            Act::Load(id, expected) => self.loads(rt, id, expected),
            Act::Loads(id) => self.loads_three(rt, id),
            Act::MadeIn(id, frame) => self.makes(rt, id, frame),
            _ => expect(rt, false),
        }
    }
}

/// With a directory, tables and a virtqueue in memory, and the command queue on, the acts are taken, one after another.
fn run(rt: &impl Abort, alloc: Global, acts: &[Act]) {
    let mut machine = Machine::at_power_on(rt, alloc);
    for (address, word) in WORDS.iter() {
        machine.stores(rt, *address, *word);
    }
    machine.turn_on(rt);
    for act in acts.iter() {
        machine.takes(rt, *act);
    }
}

const BLOCK: NewDevice = NewDevice::Block { disk: 0 };

const WALKS: Result<StepOutcome, Refusal> = Ok(StepOutcome::Walking);

const WAITS: Result<StepOutcome, Refusal> = Ok(StepOutcome::Took(Stepped::Waiting));

/// A step walks: the device waits until the load that ends its request, and then for the access. The next one needs no load.
static STEPS: [Act; 13] = [
    Act::Plug(DEVICE, BLOCK, Ok(())),
    Act::Step(DEVICE, Ok(StepOutcome::Took(Stepped::Idle))),
    Act::Queue(DEVICE, Ok(())),
    Act::Step(DEVICE, WALKS),
    Act::Step(DEVICE, WAITS),
    Act::Loads(DEVICE),
    Act::Step(DEVICE, WAITS),
    Act::Load(DEVICE, Ok(Load::Ended(Reply::Accepted(1)))),
    Act::Step(DEVICE, WAITS),
    Act::MadeIn(DEVICE, 32),
    Act::Step(
        DEVICE,
        Ok(StepOutcome::Took(Stepped::Began(Reply::Accepted(2)))),
    ),
    Act::Load(DEVICE, Ok(Load::Nothing)),
    Act::Begin(DEVICE, Err(Refusal::WrongKind)),
];

/// The leaf goes while a step walks: the load that faults puts the device down.
static FAULTS: [Act; 8] = [
    Act::Plug(DEVICE, BLOCK, Ok(())),
    Act::Queue(DEVICE, Ok(())),
    Act::Step(DEVICE, WALKS),
    Act::Loads(DEVICE),
    Act::Store(LEAF, 0),
    Act::Load(DEVICE, Ok(Load::Ended(Reply::Fault(Cause::ReadPageFault)))),
    Act::Status(DEVICE, Ok(0x4f)),
    Act::Step(DEVICE, Ok(StepOutcome::Took(Stepped::Down))),
];

/// A queue that is set, a reset and a disk that goes give up a step that walks; an invalidation begins it anew.
static GIVEN_UP: [Act; 17] = [
    Act::Plug(DEVICE, BLOCK, Ok(())),
    Act::Queue(DEVICE, Ok(())),
    Act::Step(DEVICE, WALKS),
    Act::Queue(DEVICE, Ok(())),
    Act::Load(DEVICE, Ok(Load::Nothing)),
    Act::Step(DEVICE, WALKS),
    Act::Loads(DEVICE),
    Act::Does(VMA),
    Act::Loads(DEVICE),
    Act::Reset(DEVICE, Ok(())),
    Act::Load(DEVICE, Ok(Load::Nothing)),
    Act::Queue(DEVICE, Ok(())),
    Act::Step(DEVICE, WALKS),
    Act::RemoveDisk(DEVICE, Ok(())),
    Act::Load(DEVICE, Ok(Load::Nothing)),
    Act::Step(9, Err(Refusal::NoSuchDevice)),
    Act::Load(9, Err(Refusal::NoSuchDevice)),
];

/// Another device walks by itself, and a block device with a cache asks for the translation in one event.
static OTHERS: [Act; 14] = [
    Act::Store(0x1_00c0, 1),
    Act::Store(0x1_00d0, 0x1000),
    Act::Store(0x1_00d8, 0x8000_0000_0000_0011),
    Act::Begin(RAW, Err(Refusal::NoSuchDevice)),
    Act::Plug(RAW, NewDevice::Raw, Ok(())),
    Act::Begin(RAW, Ok(Begun::Walking)),
    Act::Step(RAW, Err(Refusal::WrongKind)),
    Act::Loads(RAW),
    Act::Reset(RAW, Ok(())),
    Act::Load(RAW, Ok(Load::Nothing)),
    Act::Plug(DEVICE, NewDevice::CachedBlock { disk: 0 }, Ok(())),
    Act::Queue(DEVICE, Ok(())),
    Act::Step(DEVICE, Ok(StepOutcome::Took(Stepped::Asked))),
    Act::Load(DEVICE, Ok(Load::Nothing)),
];

#[test]
fn a_block_device_walks_one_load_an_event(rt: HostRuntime) {
    run(&rt, rt.alloc(), &STEPS);
    run(&rt, rt.alloc(), &FAULTS);
    run(&rt, rt.alloc(), &GIVEN_UP);
    run(&rt, rt.alloc(), &OTHERS);
}
