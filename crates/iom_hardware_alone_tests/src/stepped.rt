// A board whose walks make one load an event, of which a test sees no parts. A test is a table of acts, which one function takes.
ghost use Rattle.std.specs.Prelude.{◌+◌, ◌<◌, ◌^◌};
ghost use Rattle.iom_board.specs.BoardParts.{board_parts};
ghost use Rattle.iom_board.specs.Invariant.{BoardInvariant};
ghost use Rattle.iom_board.specs.InvariantIsFact.{board_invariant_prop};
ghost use Rattle.iom_stepped_board.specs.Beside.{AreBeside};
ghost use Rattle.iom_stepped_board.specs.BesideIsFact.{are_beside_prop};

use crate::expect::expect;
use crate::setup::{
    BASE_VALUE, CONTEXT, CQB, CQCSR, CQT, DDTP, DEVICE, FENCE, FRAMES, INVALIDATE, LEAF, ONE_LEVEL,
    RING, VMA, WORDS, did, width_at,
};
use iom_ats_cache::Taken;
use iom_base::{AccessKind, Cause, NewDevice, Refusal, Rights};
use iom_board::laws::software_keeps_invariant;
use iom_board::{Board, CacheReply, Delivered, NoPlace, Sender};
use iom_fabric::{PageNumber, Translation};
use iom_inflight::MadeAt;
use iom_iommu::{Begun, Fetched, Load, Reply};
use iom_registers::Mmio;
use iom_stepped_board::laws::{events_stay_beside, stays_beside};
use iom_stepped_board::{begin, fetch, load, plug, remove_disk, reset, through_cache, translated};
use iom_walks::Walks;
use std::alloc::Global;
use std::process::Abort;

/// What is done, and what comes of it.
#[derive(Clone, Copy)]
enum Act<'a> {
    /// Software writes a register, or the processor stores a word, or finds no place for one.
    Write(u64, u64),
    Store(u64, u64),
    NoStore(u64, NoPlace),
    /// The command with these two words, in this entry of the queue, is done; or waits.
    Does(u32, (u64, u64)),
    Waits(u32, (u64, u64)),
    Plug(u32, NewDevice, Result<(), Refusal>),
    Reset(u32, Result<(), Refusal>),
    RemoveDisk(u32, Result<(), Refusal>),
    /// A device asks for the translation of a page; what becomes of messages.
    Ask(u32, u64, Result<bool, Refusal>),
    Deliver(u64, Delivered),
    /// The device asks for a read of one byte, or for a write of these; and so by a translated request, or through its cache.
    Begin(Sender, u32, u64, &'a [u8], Result<Begun, Refusal>),
    Translated(u32, u64, &'a [u8], Result<Reply, Refusal>),
    Through(Sender, u32, u64, &'a [u8], Result<CacheReply, Refusal>),
    /// So many reads of one byte, each accepted at once.
    Each(u32, u64),
    Load(u32, Result<Load, Refusal>),
    /// The oldest access of the device is made, in this frame.
    MadeIn(u32, u32),
    MakesNone(u32, Result<(), Refusal>),
}

/// A board, and beside it the requests that are under way.
#[derive(Drop)]
pub(crate) struct Machine {
    board: Board,
    walks: Walks,
    ghost invariants: { BoardInvariant (board_parts board) board.events } by { board_invariant_prop (board_parts board) board.events },
    ghost beside: { AreBeside (board_parts board) walks } by { are_beside_prop (board_parts board) walks },
}

impl Machine {
    /// At power-on, with the disks 3 and 4. Boxed: of what a test owns in place each later proof would carry every part.
    pub(crate) fn at_power_on(rt: &impl Abort, alloc: Global) -> Box<Machine> {
        let board = Board::new(alloc, FRAMES, &[3, 4]).expect(rt, "memory for it");
        let walks = Walks::new(alloc).expect(rt, "memory for walks");
        Box::new(alloc, Machine { board, walks }).expect(rt, "memory for the machine")
    }

    pub(crate) fn board(&self) -> &Board {
        &self.board
    }

    /// One more event can be counted.
    fn expect_room(&self, rt: &impl Abort)
        ensures { self.now.board.events + 1 < 2 ^ 64 }
    {
        let has_room = self.board.events < u64::MAX;
        assert!(rt; has_room);
    }

    pub(crate) fn write(&mut self, rt: &impl Abort, offset: u64, value: u64) {
        software_keeps_invariant();
        stays_beside();
        let width = width_at(offset);
        let written = self.board.iommu.write(offset, width, value);
        expect(rt, written.is_ok());
    }

    pub(crate) fn stores(
        &mut self,
        rt: &impl Abort,
        address: u64,
        word: u64,
        expected: Result<(), NoPlace>,
    ) {
        stays_beside();
        self.expect_room(rt);
        let stored = self.board.store(address, &word.to_le_bytes());
        expect(rt, stored == expected);
    }

    /// The command with these two words stands in this entry of the queue, and is the last one.
    pub(crate) fn put(&mut self, rt: &impl Abort, index: u32, (first, second): (u64, u64)) {
        let place = RING + 16 * u64::from(index);
        self.stores(rt, place, first, Ok(()));
        self.stores(rt, place + 8, second, Ok(()));
        self.write(rt, CQT, u64::from(index).wrapping_add(1));
    }

    pub(crate) fn fetched(&mut self, rt: &impl Abort) -> Fetched {
        self.expect_room(rt);
        fetch(&mut self.board, &mut self.walks)
    }

    fn fetches(&mut self, rt: &impl Abort, index: u32, words: (u64, u64), expected: Fetched) {
        self.put(rt, index, words);
        let fetched = self.fetched(rt);
        expect(rt, fetched == expected);
    }

    pub(crate) fn plugs(
        &mut self,
        rt: &impl Abort,
        id: u32,
        what: NewDevice,
        expected: Result<(), Refusal>,
    ) {
        self.expect_room(rt);
        let plugged = plug(&mut self.board, &mut self.walks, id, what);
        expect(rt, plugged == expected);
    }

    pub(crate) fn reset(&mut self, rt: &impl Abort, id: u32) -> Result<(), Refusal> {
        self.expect_room(rt);
        reset(&mut self.board, &mut self.walks, id)
    }

    fn resets(&mut self, rt: &impl Abort, id: u32, expected: Result<(), Refusal>) {
        let reset = self.reset(rt, id);
        expect(rt, reset == expected);
    }

    fn loses_disk(&mut self, rt: &impl Abort, id: u32, expected: Result<(), Refusal>) {
        self.expect_room(rt);
        let lost = remove_disk(&mut self.board, &mut self.walks, id);
        expect(rt, lost == expected);
    }

    fn questions(&mut self, rt: &impl Abort, id: u32, page: u64, expected: Result<bool, Refusal>) {
        events_stay_beside();
        self.expect_room(rt);
        let page = PageNumber::new(page).expect(rt, "52 bits");
        let sent = self.board.ask(id, page);
        expect(rt, sent == expected);
    }

    fn delivers(&mut self, rt: &impl Abort, place: u64, expected: Delivered) {
        events_stay_beside();
        self.expect_room(rt);
        let delivered = self.board.deliver(place);
        expect(rt, delivered == expected);
    }

    /// A device asks for a read of so many bytes.
    pub(crate) fn begins_read(
        &mut self,
        rt: &impl Abort,
        id: u32,
        address: u64,
        len: u64,
    ) -> Result<Begun, Refusal> {
        self.expect_room(rt);
        begin(
            &mut self.board,
            &mut self.walks,
            Sender::Own,
            id,
            address,
            len,
            AccessKind::Read,
            b"",
        )
    }

    pub(crate) fn begins(
        &mut self,
        rt: &impl Abort,
        sender: Sender,
        id: u32,
        address: u64,
        bytes: &[u8],
    ) -> Result<Begun, Refusal> {
        self.expect_room(rt);
        let (len, kind) = if bytes.is_empty() {
            (1, AccessKind::Read)
        } else {
            (bytes.len() as u64, AccessKind::Write)
        };
        begin(
            &mut self.board,
            &mut self.walks,
            sender,
            id,
            address,
            len,
            kind,
            bytes,
        )
    }

    pub(crate) fn translated(
        &mut self,
        rt: &impl Abort,
        id: u32,
        address: u64,
        bytes: &[u8],
    ) -> Result<Reply, Refusal> {
        self.expect_room(rt);
        let (len, kind) = if bytes.is_empty() {
            (1, AccessKind::Read)
        } else {
            (bytes.len() as u64, AccessKind::Write)
        };
        translated(&mut self.board, &self.walks, id, address, len, kind, bytes)
    }

    fn through(
        &mut self,
        rt: &impl Abort,
        sender: Sender,
        id: u32,
        address: u64,
        bytes: &[u8],
    ) -> Result<CacheReply, Refusal> {
        self.expect_room(rt);
        let (len, kind) = if bytes.is_empty() {
            (1, AccessKind::Read)
        } else {
            (bytes.len() as u64, AccessKind::Write)
        };
        through_cache(
            &mut self.board,
            &self.walks,
            sender,
            id,
            address,
            len,
            kind,
            bytes,
        )
    }

    fn begins_each(&mut self, rt: &impl Abort, times: u32, address: u64) {
        for _ in 0..times {
            let begun = self.begins(rt, Sender::Own, DEVICE, address, b"");
            expect(rt, matches!(begun, Ok(Begun::Answered(Reply::Accepted(_)))));
        }
    }

    pub(crate) fn loaded(&mut self, rt: &impl Abort, id: u32) -> Result<Load, Refusal> {
        self.expect_room(rt);
        load(&mut self.board, &mut self.walks, id)
    }

    fn loads(&mut self, rt: &impl Abort, id: u32, expected: Result<Load, Refusal>) {
        let loaded = self.loaded(rt, id);
        expect(rt, loaded == expected);
    }

    pub(crate) fn commits(&mut self, rt: &impl Abort, id: u32) -> Result<Option<MadeAt>, Refusal> {
        events_stay_beside();
        self.expect_room(rt);
        self.board.commit(id)
    }

    fn makes(&mut self, rt: &impl Abort, id: u32, frame: u32) {
        let committed = self.commits(rt, id);
        let made = committed.expect(rt, "a device").expect(rt, "an access");
        expect(rt, made.frame == frame);
    }

    fn makes_none(&mut self, rt: &impl Abort, id: u32, expected: Result<(), Refusal>) {
        let committed = self.commits(rt, id);
        expect(rt, committed == expected.map(|()| None));
    }

    fn takes(&mut self, rt: &impl Abort, act: Act) {
        match act {
            Act::Write(offset, value) => self.write(rt, offset, value),
            Act::Store(address, word) => self.stores(rt, address, word, Ok(())),
            Act::NoStore(address, why) => self.stores(rt, address, 0, Err(why)),
            Act::Does(index, words) => self.fetches(rt, index, words, did(rt, words)),
            Act::Waits(index, words) => self.fetches(rt, index, words, Fetched::Waiting),
            Act::Plug(id, what, expected) => self.plugs(rt, id, what, expected),
            Act::Reset(id, expected) => self.resets(rt, id, expected),
            Act::RemoveDisk(id, expected) => self.loses_disk(rt, id, expected),
            _ => self.sends(rt, act),
        }
    }

    /// Takes an act of a message, or of an access that was asked for.
    fn sends(&mut self, rt: &impl Abort, act: Act) {
        match act {
            Act::Ask(id, page, expected) => self.questions(rt, id, page, expected),
            Act::Deliver(place, expected) => self.delivers(rt, place, expected),
            Act::Each(times, address) => self.begins_each(rt, times, address),
            Act::Load(id, expected) => self.loads(rt, id, expected),
            Act::MadeIn(id, frame) => self.makes(rt, id, frame),
            Act::MakesNone(id, expected) => self.makes_none(rt, id, expected),
            _ => self.asks(rt, act),
        }
    }

    /// Takes an act by which a device asks for an access.
    fn asks(&mut self, rt: &impl Abort, act: Act) {
        match act {
            Act::Begin(sender, id, address, bytes, expected) => {
                expect(rt, self.begins(rt, sender, id, address, bytes) == expected);
            }
            Act::Translated(id, address, bytes, expected) => {
                expect(rt, self.translated(rt, id, address, bytes) == expected);
            }
            Act::Through(sender, id, address, bytes, expected) => {
                expect(rt, self.through(rt, sender, id, address, bytes) == expected);
            }
            _ => expect(rt, false),
        }
    }
}

/// With a directory and tables in memory, and the command queue on, the acts are taken, one after another.
fn run(rt: &impl Abort, alloc: Global, acts: &[Act]) {
    let mut machine = Machine::at_power_on(rt, alloc);
    for (address, word) in WORDS.iter() {
        machine.stores(rt, *address, *word, Ok(()));
    }
    machine.write(rt, DDTP, ONE_LEVEL);
    machine.write(rt, CQB, BASE_VALUE);
    machine.write(rt, CQCSR, 3);
    for act in acts.iter() {
        machine.takes(rt, *act);
    }
}

const WALKS: Result<Begun, Refusal> = Ok(Begun::Walking);

const ACCEPTED: Result<Load, Refusal> = Ok(Load::Ended(Reply::Accepted(1)));

const LOADED: Result<Load, Refusal> = Ok(Load::Loaded);

/// A page changes under a walk: what the last load finds is what counts. A second request is kept out, and the next one of the page needs
/// no load.
static CHANGED: [Act; 18] = [
    Act::Load(DEVICE, Err(Refusal::NoSuchDevice)),
    Act::Plug(DEVICE, NewDevice::Raw, Ok(())),
    Act::Plug(DEVICE, NewDevice::Raw, Err(Refusal::AlreadyPlugged)),
    Act::Load(DEVICE, Ok(Load::Nothing)),
    Act::Begin(Sender::Own, DEVICE, 0x3010, b"\x11", WALKS),
    Act::Begin(Sender::Own, DEVICE, 0x3010, b"", Ok(Begun::Occupied)),
    Act::Load(DEVICE, LOADED),
    Act::Load(DEVICE, LOADED),
    Act::Load(DEVICE, LOADED),
    Act::MakesNone(DEVICE, Ok(())),
    Act::Store(LEAF, 0x84d7),
    Act::NoStore(0x4_0000, NoPlace::OutsideMemory),
    Act::Load(DEVICE, ACCEPTED),
    Act::MadeIn(DEVICE, 33),
    Act::Begin(
        Sender::Own,
        DEVICE,
        0x3fff,
        b"\x11\x22",
        Ok(Begun::Answered(Reply::BadSpan)),
    ),
    Act::Begin(
        Sender::Own,
        DEVICE,
        0x3010,
        b"",
        Ok(Begun::Answered(Reply::Accepted(2))),
    ),
    Act::MadeIn(DEVICE, 33),
    Act::Begin(Sender::Step, DEVICE, 0x3010, b"", Err(Refusal::WrongKind)),
];

/// A fence doesn't wait for a walk, and an invalidation begins it anew, at the directory. A reset gives it up.
static ANEW: [Act; 15] = [
    Act::Plug(DEVICE, NewDevice::Raw, Ok(())),
    Act::Begin(Sender::Own, DEVICE, 0x3010, b"", WALKS),
    Act::Load(DEVICE, LOADED),
    Act::Load(DEVICE, LOADED),
    Act::Does(0, FENCE),
    Act::Load(DEVICE, LOADED),
    Act::Does(1, VMA),
    Act::Load(DEVICE, LOADED),
    Act::Load(DEVICE, LOADED),
    Act::Load(DEVICE, LOADED),
    Act::Load(DEVICE, ACCEPTED),
    Act::Begin(Sender::Own, DEVICE, 0x4000, b"", WALKS),
    Act::Reset(DEVICE, Ok(())),
    Act::Load(DEVICE, Ok(Load::Nothing)),
    Act::Reset(6, Err(Refusal::NoSuchDevice)),
];

/// A walk is one of the eight, for every request of its device, and has its place when it ends.
static EIGHT: [Act; 15] = [
    Act::Store(CONTEXT, 3),
    Act::Plug(DEVICE, NewDevice::Raw, Ok(())),
    Act::Begin(Sender::Own, DEVICE, 0x3010, b"", WALKS),
    Act::Load(DEVICE, LOADED),
    Act::Load(DEVICE, LOADED),
    Act::Load(DEVICE, LOADED),
    Act::Load(DEVICE, ACCEPTED),
    Act::Translated(DEVICE, 0x2_0010, b"", Ok(Reply::Accepted(2))),
    Act::Each(5, 0x3010),
    Act::Begin(Sender::Own, DEVICE, 0x4000, b"", WALKS),
    Act::Begin(
        Sender::Own,
        DEVICE,
        0x3010,
        b"",
        Ok(Begun::Answered(Reply::Busy)),
    ),
    Act::Translated(DEVICE, 0x2_0010, b"", Ok(Reply::Busy)),
    Act::Load(DEVICE, LOADED),
    Act::Load(DEVICE, LOADED),
    Act::Load(DEVICE, Ok(Load::Ended(Reply::Fault(Cause::ReadPageFault)))),
];

/// Messages go on while a walk is under way, which stays.
static ASKED: [Act; 11] = [
    Act::Store(CONTEXT, 3),
    Act::Plug(DEVICE, NewDevice::Ats, Ok(())),
    Act::Through(Sender::Own, DEVICE, 0x3010, b"", Ok(CacheReply::Miss)),
    Act::Ask(DEVICE, 3, Ok(true)),
    Act::Deliver(
        0,
        Delivered::Answered(Translation::Page {
            frame: 32,
            rights: Rights::RW,
        }),
    ),
    Act::Deliver(0, Delivered::Taken(Taken::Kept)),
    Act::Through(
        Sender::Own,
        DEVICE,
        0x3010,
        b"\xcc",
        Ok(CacheReply::Replied(Reply::Accepted(1))),
    ),
    Act::MadeIn(DEVICE, 32),
    Act::Does(0, INVALIDATE),
    Act::Waits(1, FENCE),
    Act::Translated(DEVICE, 0x3010, b"", Err(Refusal::WrongKind)),
];

/// A walk of a device that loses its disk is given up.
static OTHERS: [Act; 10] = [
    Act::Plug(DEVICE, NewDevice::Raw, Ok(())),
    Act::Begin(Sender::Own, DEVICE, 0x3010, b"", WALKS),
    Act::Load(DEVICE, LOADED),
    Act::Load(DEVICE, LOADED),
    Act::RemoveDisk(DEVICE, Ok(())),
    Act::Load(DEVICE, Ok(Load::Nothing)),
    Act::Plug(6, NewDevice::Block { disk: 3 }, Ok(())),
    Act::RemoveDisk(6, Ok(())),
    Act::Through(Sender::Own, 6, 0x3010, b"", Err(Refusal::WrongKind)),
    Act::MakesNone(7, Err(Refusal::NoSuchDevice)),
];

#[test]
fn a_walk_makes_one_load_an_event(rt: HostRuntime) {
    run(&rt, rt.alloc(), &CHANGED);
    run(&rt, rt.alloc(), &ANEW);
    run(&rt, rt.alloc(), &EIGHT);
    run(&rt, rt.alloc(), &ASKED);
    run(&rt, rt.alloc(), &OTHERS);
}
