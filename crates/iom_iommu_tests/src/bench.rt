// An IOMMU with a memory of its own, of which a test sees no parts.
//
// A test is a table of steps, which one function takes: what a test owns, and what it compares in place, each later
// proof would carry.
use crate::expect::expect;
use crate::setup::{CQB, CQCSR, DEVICE, FRAMES, RECORDS, RING, width_at};
use iom_base::{AccessKind, Rights};
use iom_command_queue::Command;
use iom_fabric::{PageNumber, Translation};
use iom_inflight::MadeAt;
use iom_iommu::{Fetched, Iommu, Reply};
use iom_phys_mem::{Bytes, Memory};
use iom_registers::{Mmio, RegFault, Registers};
use iom_tlb::Ioatc;
use std::alloc::Global;
use std::process::Abort;

/// What a fetch answers that does no command.
#[derive(Clone, Copy)]
pub(crate) enum Answer {
    Waiting,
    Empty,
    Stopped,
}

/// What is done to the IOMMU and its memory, and what is seen of them.
#[derive(Clone, Copy)]
pub(crate) enum Step<'a> {
    /// The command queue is where this value says, and on, with its interrupts enabled, and the device was added.
    TurnOn(u64),
    /// Another device is added.
    Add(u32),
    /// Software writes a register, which has that value then or another.
    Write(u64, u64),
    Register(u64, u64),
    Store(u64, u64),
    /// A store outside memory, which changes nothing.
    Outside(u64, u64),
    Word(u64, u64),
    /// A command, by its two words, stands in an entry of the queue; in so many entries from the first on.
    Put(u32, (u64, u64)),
    PutEach(u32, (u64, u64)),
    /// A fetch answers so, or does the command with these words, once or so many times.
    Fetch(Answer),
    Effect((u64, u64)),
    EachEffect(u32, (u64, u64)),
    /// A fetch does `ATS.INVAL` of the device's page 3, and opens the request with this number; or those up to it.
    Opens(u64),
    OpensEach(u64),
    /// The last request that was opened has this number.
    Last(u64),
    /// Twice a fetch answers so, no register changes, and the word at 0x5000 is 0.
    Unchanged(Answer),
    /// The device says that it completed the invalidation request with this number, which was open or not.
    Done(u32, u64, bool),
    /// So many requests are open.
    Open(usize),
    /// A timeout gives a command up.
    Timeout,
    /// A timeout has no effect, and changes nothing that software sees.
    NoTimeout,
    /// A device asks for a read of one byte, or for a write of these.
    Ask(u32, u64, &'a [u8], Reply),
    /// The same by a translated request of the device.
    Translated(u64, &'a [u8], Reply),
    /// The device asks for the translation of a page, which has a frame and rights, or is answered otherwise.
    Tells(u64, u32, Rights),
    Question(u64, Translation),
    /// So many accesses of the device were ever accepted, and so many are in flight over all devices.
    Counts(u64, usize),
    /// The oldest access of the device is made, in this frame, at this offset, and is of this kind.
    Commit,
    Made(u32, u16, AccessKind),
    NoneMade,
    /// An access of the device at the address, a read or a write of these bytes, is accepted, and made in this frame.
    GoesTo(u64, &'a [u8], u32),
    /// The record at this place of the fault queue has these words.
    Record(u64, [u64; 4]),
    /// So many reads of device 1 at 0x4000 and above are refused with this reply, each at an address of its own.
    AskEach(u32, Reply),
}

/// A memory of zeros at first, and an IOMMU for it.
#[derive(Drop)]
pub(crate) struct Bench {
    memory: Memory,
    iommu: Iommu<Ioatc>,
}

/// The command with these two words, which is one, is done.
fn did(rt: &impl Abort, (first, second): (u64, u64)) -> Fetched {
    let mut bytes = [0; 16];
    bytes[..8].copy_from_slice(&first.to_le_bytes());
    bytes[8..].copy_from_slice(&second.to_le_bytes());
    let command = Command::decode(&bytes);
    Fetched::Did(command.expect(rt, "a command"))
}

/// The words of ATS.INVAL of the page 3 of the device.
pub(crate) const INVALIDATE: (u64, u64) = (0x0000_0502_0000_0004, 0x3000);

impl Bench {
    /// At power-on. Boxed: of what a test owns in place each later proof would carry every part.
    pub(crate) fn at_power_on(rt: &impl Abort, alloc: Global) -> Box<Bench> {
        let cache = Ioatc::new(alloc).expect(rt, "memory for the cache");
        let bench = Bench {
            memory: Memory::new(alloc, FRAMES).expect(rt, "memory for the frames"),
            iommu: Iommu::new(alloc, FRAMES, cache).expect(rt, "memory for the IOMMU"),
        };
        Box::new(alloc, bench).expect(rt, "memory for the bench")
    }

    /// Whether the memories are equal, and the IOMMUs.
    pub(crate) fn is_same(&self, other: &Bench) -> bool {
        self.memory.is_same(&other.memory) && self.iommu.is_same(&other.iommu)
    }

    fn turn_on(&mut self, rt: &impl Abort, cqb: u64) {
        self.iommu.add(DEVICE);
        self.write(rt, CQB, cqb);
        self.write(rt, CQCSR, 3);
    }

    /// An access of software with a width of its own.
    pub(crate) fn read_as(&self, offset: u64, width: u32) -> Result<u64, RegFault> {
        self.iommu.read(offset, width)
    }

    /// An access of software with a width of its own.
    pub(crate) fn write_as(&mut self, offset: u64, width: u32, value: u64) -> Result<(), RegFault> {
        self.iommu.write(offset, width, value)
    }

    fn expect_register(&self, rt: &impl Abort, offset: u64, expected: u64) {
        let value = self.read_as(offset, width_at(offset));
        expect(rt, value == Ok(expected));
    }

    fn write(&mut self, rt: &impl Abort, offset: u64, value: u64) {
        let written = self.write_as(offset, width_at(offset), value);
        expect(rt, written.is_ok());
    }

    pub(crate) fn registers(&self) -> Registers {
        *self.iommu.registers()
    }

    fn store(&mut self, rt: &impl Abort, address: u64, word: u64) {
        expect(rt, self.memory.store_u64(address, word).is_some());
    }

    pub(crate) fn store_all(&mut self, rt: &impl Abort, words: &[(u64, u64)]) {
        for (address, word) in words.iter() {
            self.store(rt, *address, *word);
        }
    }

    fn expect_word(&self, rt: &impl Abort, address: u64, expected: u64) {
        expect(rt, self.memory.load_u64(address) == Some(expected));
    }

    fn expect_record(&self, rt: &impl Abort, place: u64, words: &[u64; 4]) {
        let mut address = RECORDS.wrapping_add(place.wrapping_mul(32));
        for word in words.iter() {
            self.expect_word(rt, address, *word);
            address = address.wrapping_add(8);
        }
    }

    fn put(&mut self, rt: &impl Abort, index: u32, (first, second): (u64, u64)) {
        let place = RING + 16 * u64::from(index);
        self.store(rt, place, first);
        self.store(rt, place + 8, second);
    }

    fn put_each(&mut self, rt: &impl Abort, count: u32, words: (u64, u64)) {
        for index in 0..count {
            self.put(rt, index, words);
        }
    }

    /// The IOMMU takes its next command.
    fn fetch(&mut self, rt: &impl Abort) -> Fetched {
        let is_its = self.memory.frames() == self.iommu.frames();
        assert!(rt; is_its);
        let has_number = self.iommu.slots().last() < u64::MAX;
        assert!(rt; has_number);
        self.iommu.fetch(&mut self.memory)
    }

    fn answers(&mut self, rt: &impl Abort, answer: Answer) {
        let expected = match answer {
            Answer::Waiting => Fetched::Waiting,
            Answer::Empty => Fetched::Empty,
            Answer::Stopped => Fetched::Stopped,
        };
        expect(rt, self.fetch(rt) == expected);
    }

    fn effect(&mut self, rt: &impl Abort, words: (u64, u64)) {
        expect(rt, self.fetch(rt) == did(rt, words));
    }

    fn does_each(&mut self, rt: &impl Abort, count: u32, words: (u64, u64)) {
        for _ in 0..count {
            self.effect(rt, words);
        }
    }

    /// The last invalidation request that was opened has this number.
    fn expect_last(&self, rt: &impl Abort, serial: u64) {
        expect(rt, self.iommu.slots().last() == serial);
    }

    fn opens(&mut self, rt: &impl Abort, serial: u64) {
        self.effect(rt, INVALIDATE);
        self.expect_last(rt, serial);
    }

    fn opens_each(&mut self, rt: &impl Abort, last: u64) {
        for serial in 1..last.saturating_add(1) {
            self.opens(rt, serial);
        }
    }

    fn unchanged(&mut self, rt: &impl Abort, answer: Answer) {
        let before = self.registers();
        self.answers(rt, answer);
        self.answers(rt, answer);
        expect(rt, self.registers() == before);
        self.expect_word(rt, 0x5000, 0);
    }

    fn expect_open(&self, rt: &impl Abort, count: usize) {
        expect(rt, self.iommu.slots().len() == count);
    }

    fn has_no_timeout(&mut self, rt: &impl Abort) {
        let before = self.registers();
        let open = self.iommu.slots().len();
        expect(rt, !self.iommu.timeout());
        expect(rt, self.registers() == before);
        self.expect_open(rt, open);
    }

    fn ask(&mut self, rt: &impl Abort, device: u32, address: u64, bytes: &[u8]) -> Reply {
        let is_its = self.memory.frames() == self.iommu.frames();
        assert!(rt; is_its);
        let is_added = self.iommu.is_added(device);
        assert!(rt; is_added);
        let has_room = self.iommu.so_far() < u64::MAX;
        assert!(rt; has_room);
        let (len, kind) = if bytes.is_empty() {
            (1, AccessKind::Read)
        } else {
            (bytes.len() as u64, AccessKind::Write)
        };
        self.iommu
            .request(&mut self.memory, device, address, len, kind, bytes)
    }

    fn ask_each(&mut self, rt: &impl Abort, times: u32, expected: Reply) {
        for n in 0..times {
            let address = 0x4000 + u64::from(n);
            expect(rt, self.ask(rt, 1, address, b"") == expected);
        }
    }

    fn ask_translated(&mut self, rt: &impl Abort, address: u64, bytes: &[u8]) -> Reply {
        let is_its = self.memory.frames() == self.iommu.frames();
        assert!(rt; is_its);
        let is_added = self.iommu.is_added(DEVICE);
        assert!(rt; is_added);
        let has_room = self.iommu.so_far() < u64::MAX;
        assert!(rt; has_room);
        let (len, kind) = if bytes.is_empty() {
            (1, AccessKind::Read)
        } else {
            (bytes.len() as u64, AccessKind::Write)
        };
        self.iommu
            .translated(&mut self.memory, DEVICE, address, len, kind, bytes)
    }

    fn question(&mut self, rt: &impl Abort, page: u64) -> Translation {
        let is_its = self.memory.frames() == self.iommu.frames();
        assert!(rt; is_its);
        let page = PageNumber::new(page).expect(rt, "52 bits");
        self.iommu.ask(&mut self.memory, DEVICE, page)
    }

    fn expect_counts(&self, rt: &impl Abort, accepted: u64, in_flight: usize) {
        expect(rt, self.iommu.accepted(DEVICE) == accepted);
        expect(rt, self.iommu.all_in_flight() == in_flight);
    }

    /// The oldest access of the device is made.
    fn commit(&mut self, rt: &impl Abort) -> Option<MadeAt> {
        let is_its = self.memory.frames() == self.iommu.frames();
        assert!(rt; is_its);
        let is_added = self.iommu.is_added(DEVICE);
        assert!(rt; is_added);
        self.iommu.commit(&mut self.memory, DEVICE)
    }

    fn expect_made(&mut self, rt: &impl Abort, expected: Option<(u32, u16, AccessKind)>) {
        let made = self.commit(rt);
        expect(
            rt,
            made.map(|made| (made.frame, made.offset, made.kind)) == expected,
        );
    }

    fn goes_to(&mut self, rt: &impl Abort, address: u64, bytes: &[u8], frame: u32) {
        let reply = self.ask(rt, DEVICE, address, bytes);
        expect(rt, matches!(reply, Reply::Accepted(_)));
        let made = self.commit(rt);
        expect(rt, made.map(|made| made.frame) == Some(frame));
    }

    /// Takes a step of software or of memory.
    fn takes(&mut self, rt: &impl Abort, step: Step) {
        match step {
            Step::TurnOn(cqb) => self.turn_on(rt, cqb),
            Step::Add(device) => expect(rt, self.iommu.add(device)),
            Step::Write(offset, value) => self.write(rt, offset, value),
            Step::Register(offset, value) => self.expect_register(rt, offset, value),
            Step::Store(address, word) => self.store(rt, address, word),
            Step::Outside(address, word) => {
                expect(rt, self.memory.store_u64(address, word).is_none());
            }
            Step::Word(address, word) => self.expect_word(rt, address, word),
            Step::Put(index, words) => self.put(rt, index, words),
            Step::PutEach(count, words) => self.put_each(rt, count, words),
            Step::Record(place, words) => self.expect_record(rt, place, &words),
            _ => self.takes_command(rt, step),
        }
    }

    /// Takes a step of the command queue.
    fn takes_command(&mut self, rt: &impl Abort, step: Step) {
        match step {
            Step::Fetch(answer) => self.answers(rt, answer),
            Step::Effect(words) => self.effect(rt, words),
            Step::EachEffect(count, words) => self.does_each(rt, count, words),
            Step::Opens(serial) => self.opens(rt, serial),
            Step::OpensEach(last) => self.opens_each(rt, last),
            Step::Last(serial) => self.expect_last(rt, serial),
            Step::Unchanged(answer) => self.unchanged(rt, answer),
            Step::Done(device, serial, is_open) => {
                expect(rt, self.iommu.done(device, serial) == is_open);
            }
            Step::Open(count) => self.expect_open(rt, count),
            Step::Timeout => expect(rt, self.iommu.timeout()),
            Step::NoTimeout => self.has_no_timeout(rt),
            _ => self.takes_access(rt, step),
        }
    }

    /// Takes a step of a device.
    fn takes_access(&mut self, rt: &impl Abort, step: Step) {
        match step {
            Step::Ask(device, address, bytes, reply) => {
                expect(rt, self.ask(rt, device, address, bytes) == reply);
            }
            Step::AskEach(times, reply) => self.ask_each(rt, times, reply),
            Step::Translated(address, bytes, reply) => {
                expect(rt, self.ask_translated(rt, address, bytes) == reply);
            }
            Step::Tells(page, frame, rights) => {
                let page_at = Translation::Page { frame, rights };
                expect(rt, self.question(rt, page) == page_at);
            }
            Step::Question(page, answer) => expect(rt, self.question(rt, page) == answer),
            Step::Counts(accepted, in_flight) => self.expect_counts(rt, accepted, in_flight),
            Step::Commit => expect(rt, self.commit(rt).is_some()),
            Step::Made(frame, offset, kind) => self.expect_made(rt, Some((frame, offset, kind))),
            Step::NoneMade => self.expect_made(rt, None),
            Step::GoesTo(address, bytes, frame) => self.goes_to(rt, address, bytes, frame),
            _ => expect(rt, false),
        }
    }

    /// Takes the steps, one after another.
    pub(crate) fn follow(&mut self, rt: &impl Abort, steps: &[Step]) {
        for step in steps.iter() {
            self.takes(rt, *step);
        }
    }
}

/// At power-on, with these words in memory, the steps are taken.
pub(crate) fn follow(rt: &impl Abort, alloc: Global, words: &[(u64, u64)], steps: &[Step]) {
    let mut bench = Bench::at_power_on(rt, alloc);
    bench.store_all(rt, words);
    bench.follow(rt, steps);
}
