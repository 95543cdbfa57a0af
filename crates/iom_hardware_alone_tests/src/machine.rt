// Hardware without a driver, of which a test sees no parts.
//
// A test is a table of acts, which one function takes: what a test owns, and what it compares in place, each later
// proof would carry.
ghost use Rattle.std.specs.Prelude.{◌+◌, ◌<◌, ◌^◌};
ghost use Rattle.iom_board.specs.BoardParts.{board_parts};
ghost use Rattle.iom_board.specs.Invariant.{BoardInvariant};
ghost use Rattle.iom_board.specs.InvariantIsFact.{board_invariant_prop};

use crate::expect::expect;
use crate::setup::{Answer, BASE_VALUE, CQB, CQCSR, FRAMES, RING, did, fetched_as, width_at};
use iom_base::{AccessKind, DeviceKind, NewDevice, Refusal};
use iom_board::laws::software_keeps_invariant;
use iom_board::{Board, CacheReply, Delivered, NoPlace, Sender};
use iom_fabric::{PageNumber, Repeat};
use iom_fault_reasons::{WhyFault, WhyTranslated, why_fault, why_translated};
use iom_inflight::MadeAt;
use iom_iommu::{Fetched, Reply};
use iom_registers::Mmio;
use std::alloc::Global;
use std::process::Abort;

/// What is done to the hardware, and what comes of it.
#[derive(Clone, Copy)]
pub(crate) enum Act<'a> {
    /// The command queue is where the setup says, and on.
    TurnOn,
    /// Software writes a register, or stores a word, or finds one; or there is no place for it.
    Write(u64, u64),
    Store(u64, u64),
    Word(u64, u64),
    NoStore(u64, NoPlace),
    NoLoad(u64, u64, NoPlace),
    /// A command, by its two words, stands in an entry of the queue, and is done by a fetch, which may be answered otherwise.
    Put(u32, (u64, u64)),
    Effect((u64, u64)),
    Fetch(Answer),
    Timeout(bool),
    /// A device is plugged in with this id, and is of a kind.
    Plug(u32, NewDevice, Result<(), Refusal>),
    /// Whether it may be, before it is.
    Prepare(u32, NewDevice, Result<(), Refusal>),
    Kind(u32, Option<DeviceKind>),
    /// A disk is put into a device, or goes; the device is reset.
    Medium(u32, u64, Result<(), Refusal>),
    RemoveDisk(u32, Result<(), Refusal>),
    Reset(u32, Result<(), Refusal>),
    Epoch(u32, u64),
    /// A device asks for a read of one byte, or for a write of these; and so by a translated request, or through its cache.
    Request(Sender, u32, u64, &'a [u8], Result<Reply, Refusal>),
    Translated(u32, u64, &'a [u8], Result<Reply, Refusal>),
    Through(Sender, u32, u64, &'a [u8], Result<CacheReply, Refusal>),
    /// The oldest access of the device would be made in this frame, and is, at this offset: these bytes stand there then.
    Makes(u32, u32, u16, &'a [u8]),
    MakesNone(u32, Result<(), Refusal>),
    Busy(Option<u32>),
    /// A device asks for the translation of a page, or says that a request is completed.
    Ask(u32, u64, Result<bool, Refusal>),
    Forge(u32, u64, Result<bool, Refusal>),
    /// The message at a place arrives, is lost, or repeated; and so many are under way.
    Deliver(u64, Delivered),
    Drop(u64, bool),
    Repeat(u64, Repeat),
    Messages(usize),
    /// What stops an access of the device to an address now, or that nothing does; also of a translated request.
    Why(u32, u64, AccessKind, WhyFault),
    WhyTranslated(u32, u64, WhyTranslated),
}

/// The hardware.
#[derive(Drop)]
pub(crate) struct Machine {
    hardware: Board,
    ghost invariants: { BoardInvariant (board_parts hardware) hardware.events } by { board_invariant_prop (board_parts hardware) hardware.events },
}

impl Machine {
    /// At power-on, with the disks 3 and 4. Boxed: of what a test owns in place each later proof would carry every part.
    pub(crate) fn at_power_on(rt: &impl Abort, alloc: Global) -> Box<Machine> {
        let hardware = Board::new(alloc, FRAMES, &[3, 4]).expect(rt, "memory for the hardware");
        Box::new(alloc, Machine { hardware }).expect(rt, "memory for the machine")
    }

    pub(crate) fn board(&self) -> &Board {
        &self.hardware
    }

    /// One more event can be counted.
    fn expect_room(&self, rt: &impl Abort)
        ensures { self.now.hardware.events + 1 < 2 ^ 64 }
    {
        let has_room = self.hardware.events < u64::MAX;
        assert!(rt; has_room);
    }

    pub(crate) fn write(&mut self, rt: &impl Abort, offset: u64, value: u64) {
        software_keeps_invariant();
        let written = self.hardware.iommu.write(offset, width_at(offset), value);
        expect(rt, written.is_ok());
    }

    fn turn_on(&mut self, rt: &impl Abort) {
        self.write(rt, CQB, BASE_VALUE);
        self.write(rt, CQCSR, 3);
    }

    pub(crate) fn stores(
        &mut self,
        rt: &impl Abort,
        address: u64,
        word: u64,
        expected: Result<(), NoPlace>,
    ) {
        self.expect_room(rt);
        let stored = self.hardware.store(address, &word.to_le_bytes());
        expect(rt, stored == expected);
    }

    pub(crate) fn put(&mut self, rt: &impl Abort, index: u32, (first, second): (u64, u64)) {
        let place = RING + 16 * u64::from(index);
        self.stores(rt, place, first, Ok(()));
        self.stores(rt, place + 8, second, Ok(()));
    }

    fn expect_word(&self, rt: &impl Abort, address: u64, word: u64) {
        let loaded = self.hardware.load(address, 8);
        let bytes = loaded.expect(rt, "a place in memory");
        expect(rt, bytes == word.to_le_bytes().as_slice());
    }

    fn expect_no_load(&self, rt: &impl Abort, address: u64, len: u64, expected: NoPlace) {
        let loaded = self.hardware.load(address, len);
        expect(rt, loaded.err() == Some(expected));
    }

    pub(crate) fn fetched(&mut self, rt: &impl Abort) -> Fetched {
        self.expect_room(rt);
        self.hardware.fetch()
    }

    fn fetches(&mut self, rt: &impl Abort, expected: Fetched) {
        let fetched = self.fetched(rt);
        expect(rt, fetched == expected);
    }

    fn times_out(&mut self, rt: &impl Abort, expected: bool) {
        self.expect_room(rt);
        let has_effect = self.hardware.timeout();
        expect(rt, has_effect == expected);
    }

    pub(crate) fn plugs(
        &mut self,
        rt: &impl Abort,
        id: u32,
        what: NewDevice,
        expected: Result<(), Refusal>,
    ) {
        self.expect_room(rt);
        let plugged = self.hardware.plug(id, what);
        expect(rt, plugged == expected);
    }

    fn prepares(
        &mut self,
        rt: &impl Abort,
        id: u32,
        what: NewDevice,
        expected: Result<(), Refusal>,
    ) {
        let prepared = self.hardware.prepare_plug(id, what);
        expect(rt, prepared == expected);
    }

    fn takes_disk(&mut self, rt: &impl Abort, id: u32, disk: u64, expected: Result<(), Refusal>) {
        self.expect_room(rt);
        let taken = self.hardware.medium(id, disk);
        expect(rt, taken == expected);
    }

    fn loses_disk(&mut self, rt: &impl Abort, id: u32, expected: Result<(), Refusal>) {
        self.expect_room(rt);
        let lost = self.hardware.remove_disk(id);
        expect(rt, lost == expected);
    }

    pub(crate) fn reset(&mut self, rt: &impl Abort, id: u32) -> Result<(), Refusal> {
        self.expect_room(rt);
        self.hardware.reset(id)
    }

    fn resets(&mut self, rt: &impl Abort, id: u32, expected: Result<(), Refusal>) {
        let reset = self.reset(rt, id);
        expect(rt, reset == expected);
    }

    /// A device asks for a read of so many bytes.
    pub(crate) fn reads(
        &mut self,
        rt: &impl Abort,
        id: u32,
        address: u64,
        len: u64,
    ) -> Result<Reply, Refusal> {
        self.expect_room(rt);
        self.hardware
            .request(Sender::Own, id, address, len, AccessKind::Read, b"")
    }

    pub(crate) fn requests(
        &mut self,
        rt: &impl Abort,
        sender: Sender,
        id: u32,
        address: u64,
        bytes: &[u8],
    ) -> Result<Reply, Refusal> {
        self.expect_room(rt);
        let (len, kind) = if bytes.is_empty() {
            (1, AccessKind::Read)
        } else {
            (bytes.len() as u64, AccessKind::Write)
        };
        self.hardware.request(sender, id, address, len, kind, bytes)
    }

    pub(crate) fn translated(
        &mut self,
        rt: &impl Abort,
        id: u32,
        address: u64,
        bytes: &[u8],
    ) -> Result<Reply, Refusal> {
        self.expect_room(rt);
        let (len, kind) = if bytes.is_empty() {
            (1, AccessKind::Read)
        } else {
            (bytes.len() as u64, AccessKind::Write)
        };
        self.hardware.translated(id, address, len, kind, bytes)
    }

    fn through(
        &mut self,
        rt: &impl Abort,
        sender: Sender,
        id: u32,
        address: u64,
        bytes: &[u8],
    ) -> Result<CacheReply, Refusal> {
        self.expect_room(rt);
        let (len, kind) = if bytes.is_empty() {
            (1, AccessKind::Read)
        } else {
            (bytes.len() as u64, AccessKind::Write)
        };
        self.hardware
            .through_cache(sender, id, address, len, kind, bytes)
    }

    pub(crate) fn commits(&mut self, rt: &impl Abort, id: u32) -> Result<Option<MadeAt>, Refusal> {
        self.expect_room(rt);
        self.hardware.commit(id)
    }

    /// The oldest access of the device is made, as it was told before.
    fn makes(&mut self, rt: &impl Abort, id: u32, frame: u32, offset: u16, bytes: &[u8]) {
        self.expect_room(rt);
        let oldest = self.hardware.oldest(id);
        let committed = self.hardware.commit(id);
        expect(rt, committed == Ok(oldest));
        let made = committed.expect(rt, "a device").expect(rt, "an access");
        expect(rt, made.frame == frame && made.offset == offset);
        expect(rt, self.hardware.bytes_of(made) == bytes);
    }

    fn makes_none(&mut self, rt: &impl Abort, id: u32, expected: Result<(), Refusal>) {
        let committed = self.commits(rt, id);
        expect(rt, committed == expected.map(|()| None));
    }

    fn asks(&mut self, rt: &impl Abort, id: u32, page: u64, expected: Result<bool, Refusal>) {
        self.expect_room(rt);
        let page = PageNumber::new(page).expect(rt, "52 bits");
        let sent = self.hardware.ask(id, page);
        expect(rt, sent == expected);
    }

    fn forges(&mut self, rt: &impl Abort, id: u32, serial: u64, expected: Result<bool, Refusal>) {
        self.expect_room(rt);
        let sent = self.hardware.forge(id, serial);
        expect(rt, sent == expected);
    }

    fn delivers(&mut self, rt: &impl Abort, place: u64, expected: Delivered) {
        self.expect_room(rt);
        let delivered = self.hardware.deliver(place);
        expect(rt, delivered == expected);
    }

    fn drops(&mut self, rt: &impl Abort, place: u64, expected: bool) {
        self.expect_room(rt);
        let found = self.hardware.drop_message(place);
        expect(rt, found == expected);
    }

    fn repeats(&mut self, rt: &impl Abort, place: u64, expected: Repeat) {
        self.expect_room(rt);
        let repeated = self.hardware.repeat(place);
        expect(rt, repeated == expected);
    }

    /// Takes an act of software or of the IOMMU.
    fn takes(&mut self, rt: &impl Abort, act: Act) {
        match act {
            Act::TurnOn => self.turn_on(rt),
            Act::Write(offset, value) => self.write(rt, offset, value),
            Act::Store(address, word) => self.stores(rt, address, word, Ok(())),
            Act::Word(address, word) => self.expect_word(rt, address, word),
            Act::NoStore(address, why) => self.stores(rt, address, 0, Err(why)),
            Act::NoLoad(address, len, why) => self.expect_no_load(rt, address, len, why),
            Act::Put(index, words) => self.put(rt, index, words),
            Act::Effect(words) => self.fetches(rt, did(rt, words)),
            Act::Fetch(answer) => self.fetches(rt, fetched_as(answer)),
            Act::Timeout(expected) => self.times_out(rt, expected),
            _ => self.takes_of_device(rt, act),
        }
    }

    /// Takes an act of which a device is the subject, but for its accesses.
    fn takes_of_device(&mut self, rt: &impl Abort, act: Act) {
        match act {
            Act::Plug(id, what, expected) => self.plugs(rt, id, what, expected),
            Act::Prepare(id, what, expected) => self.prepares(rt, id, what, expected),
            Act::Kind(id, expected) => expect(rt, self.hardware.kind_of(id) == expected),
            Act::Medium(id, disk, expected) => self.takes_disk(rt, id, disk, expected),
            Act::RemoveDisk(id, expected) => self.loses_disk(rt, id, expected),
            Act::Reset(id, expected) => self.resets(rt, id, expected),
            Act::Epoch(id, expected) => expect(rt, self.hardware.epoch_of(id) == expected),
            Act::Ask(id, page, expected) => self.asks(rt, id, page, expected),
            Act::Forge(id, serial, expected) => self.forges(rt, id, serial, expected),
            Act::Deliver(place, expected) => self.delivers(rt, place, expected),
            Act::Drop(place, expected) => self.drops(rt, place, expected),
            Act::Repeat(place, expected) => self.repeats(rt, place, expected),
            Act::Messages(count) => expect(rt, self.hardware.messages().len() == count),
            _ => self.takes_access(rt, act),
        }
    }

    /// Takes an act of a device's accesses.
    fn takes_access(&mut self, rt: &impl Abort, act: Act) {
        match act {
            Act::Request(sender, id, address, bytes, expected) => {
                expect(
                    rt,
                    self.requests(rt, sender, id, address, bytes) == expected,
                );
            }
            Act::Translated(id, address, bytes, expected) => {
                expect(rt, self.translated(rt, id, address, bytes) == expected);
            }
            Act::Through(sender, id, address, bytes, expected) => {
                expect(rt, self.through(rt, sender, id, address, bytes) == expected);
            }
            Act::Makes(id, frame, offset, bytes) => self.makes(rt, id, frame, offset, bytes),
            Act::MakesNone(id, expected) => self.makes_none(rt, id, expected),
            Act::Busy(expected) => expect(rt, self.hardware.first_busy() == expected),
            _ => self.explains(rt, act),
        }
    }

    /// Takes an act that asks why.
    fn explains(&self, rt: &impl Abort, act: Act) {
        match act {
            Act::Why(id, address, kind, expected) => {
                expect(rt, why_fault(&self.hardware, id, address, kind) == expected);
            }
            Act::WhyTranslated(id, address, expected) => {
                expect(rt, why_translated(&self.hardware, id, address) == expected);
            }
            _ => expect(rt, false),
        }
    }
}

/// At power-on, with these words in memory, the acts are taken, one after another.
pub(crate) fn run(rt: &impl Abort, alloc: Global, words: &[(u64, u64)], acts: &[Act]) {
    let mut machine = Machine::at_power_on(rt, alloc);
    for (address, word) in words.iter() {
        machine.stores(rt, *address, *word, Ok(()));
    }
    for act in acts.iter() {
        machine.takes(rt, *act);
    }
}
