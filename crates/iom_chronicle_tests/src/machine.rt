// Hardware without a driver, and the chronicle that is told of it: each act is a line.
ghost use Rattle.std.specs.Prelude.{◌+◌, ◌<◌, ◌^◌};
ghost use Rattle.iom_board.specs.BoardParts.{board_parts};
ghost use Rattle.iom_board.specs.Invariant.{BoardInvariant};
ghost use Rattle.iom_board.specs.InvariantIsFact.{board_invariant_prop};

use crate::expect::expect;
use iom_base::{AccessKind, NewDevice};
use iom_board::laws::software_keeps_invariant;
use iom_board::{Board, CacheReply, Sender};
use iom_chronicle::{Chronicle, Entrance, Origin, WayFound};
use iom_fabric::PageNumber;
use iom_iommu::Reply;
use iom_registers::Mmio;
use std::alloc::Global;
use std::process::Abort;

/// What happens at a line.
#[derive(Clone, Copy)]
pub(crate) enum Act<'a> {
    /// Software writes a register of this width, or stores a word.
    Write(u64, u32, u64),
    Store(u64, u64),
    /// A device is plugged in with this id.
    Plug(u32, NewDevice),
    /// A device reads a byte at the address, and may: at one that is translated, by a forged request, and through its cache.
    Reads(u32, u64),
    Forges(u32, u64),
    Through(u32, u64),
    /// A device writes a word so.
    Writes(u32, u64, u64),
    /// The oldest access of the device is made. It was let through by this.
    Makes(u32, &'a str),
    /// A command is fetched; a device asks for a page; the message at a place arrives.
    Fetch,
    Ask(u32, u64),
    Deliver(u64),
    /// The device can read the frame by this way, or the hardware uses it so; or not.
    Way(u32, u32, &'a str),
    NoWay(u32, u32),
    Used(u32, &'a str),
    Unused(u32),
    /// What is claimed, and since when.
    Granted(u32, u64, u32),
    Released(u32, u32, u64, u32),
    Done(u32),
    Ended(u32, u32, Option<u64>),
}

/// The hardware, and the chronicle of it.
#[derive(Drop)]
pub(crate) struct Machine {
    hardware: Board,
    chronicle: Box<Chronicle>,
    ghost invariants: { BoardInvariant (board_parts hardware) hardware.events } by { board_invariant_prop (board_parts hardware) hardware.events },
}

/// The memory of a test.
const FRAMES: u32 = 64;

impl Machine {
    /// At power-on. Boxed: of what a test owns in place each later proof would carry every part.
    fn at_power_on(rt: &impl Abort, alloc: Global) -> Box<Machine> {
        let hardware = Board::new(alloc, FRAMES, &[]).expect(rt, "memory for the hardware");
        let chronicle = Chronicle::new(alloc, FRAMES, false).expect(rt, "memory for the chronicle");
        let chronicle = Box::new(alloc, chronicle).expect(rt, "memory for the chronicle");
        let machine = Machine {
            hardware,
            chronicle,
        };
        Box::new(alloc, machine).expect(rt, "memory for the machine")
    }

    /// One more event can be counted.
    fn expect_room(&self, rt: &impl Abort)
        ensures { self.now.hardware.events + 1 < 2 ^ 64 }
    {
        let has_room = self.hardware.events < u64::MAX;
        assert!(rt; has_room);
    }

    fn write(&mut self, rt: &impl Abort, offset: u64, width: u32, value: u64) {
        software_keeps_invariant();
        let written = self.hardware.iommu.write(offset, width, value);
        expect(rt, written.is_ok());
    }

    fn stores(&mut self, rt: &impl Abort, address: u64, word: u64) {
        self.expect_room(rt);
        let stored = self.hardware.store(address, &word.to_le_bytes());
        expect(rt, stored.is_ok());
        self.chronicle.stored(address, 8);
    }

    fn plugs(&mut self, rt: &impl Abort, id: u32, what: NewDevice) {
        self.expect_room(rt);
        let plugged = self.hardware.plug(id, what);
        expect(rt, plugged.is_ok());
    }

    fn notices(&mut self) {
        self.chronicle.notice(&self.hardware);
    }

    fn accepts(&mut self, rt: &impl Abort, id: u32, address: u64, how: Entrance, reply: Reply) {
        expect(rt, matches!(reply, Reply::Accepted(_)));
        self.chronicle.accepted(&self.hardware, id, address, how);
    }

    fn reads(&mut self, rt: &impl Abort, id: u32, address: u64) {
        self.expect_room(rt);
        let reply = self
            .hardware
            .request(Sender::Own, id, address, 1, AccessKind::Read, &[]);
        let reply = reply.expect(rt, "a device");
        self.accepts(rt, id, address, Entrance::Untranslated, reply);
    }

    fn writes(&mut self, rt: &impl Abort, id: u32, address: u64, word: u64) {
        self.expect_room(rt);
        let bytes = word.to_le_bytes();
        let reply = self
            .hardware
            .request(Sender::Own, id, address, 8, AccessKind::Write, &bytes);
        let reply = reply.expect(rt, "a device");
        self.accepts(rt, id, address, Entrance::Untranslated, reply);
    }

    fn forges(&mut self, rt: &impl Abort, id: u32, address: u64) {
        self.expect_room(rt);
        let reply = self
            .hardware
            .translated(id, address, 1, AccessKind::Read, &[]);
        let reply = reply.expect(rt, "a device");
        self.accepts(rt, id, address, Entrance::Forged, reply);
    }

    fn goes_through(&mut self, rt: &impl Abort, id: u32, address: u64) {
        self.expect_room(rt);
        let reply = self
            .hardware
            .through_cache(Sender::Own, id, address, 1, AccessKind::Read, &[]);
        match reply.expect(rt, "a device") {
            CacheReply::Replied(reply) => {
                self.accepts(rt, id, address, Entrance::ThroughCache, reply);
            }
            CacheReply::Miss => expect(rt, false),
        }
    }

    fn makes(&mut self, rt: &impl Abort, alloc: Global, id: u32, text: &str) {
        self.expect_room(rt);
        let made = self.hardware.commit(id);
        let made = made.expect(rt, "a device").expect(rt, "an access");
        if made.kind == AccessKind::Write {
            let address = 4096 * u64::from(made.frame) + u64::from(made.offset);
            self.chronicle.stored(address, u64::from(made.len));
        }
        let origin = self.chronicle.made(id);
        expect_origin(rt, alloc, origin, text);
    }

    fn fetches(&mut self, rt: &impl Abort) {
        self.expect_room(rt);
        self.hardware.fetch();
    }

    fn asks(&mut self, rt: &impl Abort, id: u32, page: u64) {
        self.expect_room(rt);
        let page = PageNumber::new(page).expect(rt, "52 bits");
        expect(rt, self.hardware.ask(id, page) == Ok(true));
    }

    fn delivers(&mut self, rt: &impl Abort, place: u64) {
        self.expect_room(rt);
        self.hardware.deliver(place);
    }

    fn expect_use(&self, rt: &impl Abort, alloc: Global, frame: u32, text: &str) {
        let found = self.chronicle.use_of(&self.hardware, frame);
        let found = found.expect(rt, "a use");
        let written = format!(in alloc; "{found}").expect(rt, "memory");
        expect(rt, written.as_str() == text);
    }

    /// Takes an act that changes hardware.
    fn takes(&mut self, rt: &impl Abort, alloc: Global, act: Act) {
        match act {
            Act::Write(offset, width, value) => self.write(rt, offset, width, value),
            Act::Store(address, word) => self.stores(rt, address, word),
            Act::Plug(id, what) => self.plugs(rt, id, what),
            Act::Reads(id, address) => self.reads(rt, id, address),
            Act::Forges(id, address) => self.forges(rt, id, address),
            Act::Through(id, address) => self.goes_through(rt, id, address),
            Act::Writes(id, address, word) => self.writes(rt, id, address, word),
            Act::Makes(id, text) => self.makes(rt, alloc, id, text),
            Act::Fetch => self.fetches(rt),
            Act::Ask(id, page) => self.asks(rt, id, page),
            Act::Deliver(place) => self.delivers(rt, place),
            _ => self.takes_of_claims(rt, alloc, act),
        }
    }

    /// Takes an act that changes none.
    fn takes_of_claims(&mut self, rt: &impl Abort, alloc: Global, act: Act) {
        let chronicle = &mut self.chronicle;
        match act {
            Act::Way(id, frame, text) => {
                let way = chronicle.way(&self.hardware, id, frame, AccessKind::Read);
                expect_way(rt, alloc, way, text);
            }
            Act::NoWay(id, frame) => {
                let way = chronicle.way(&self.hardware, id, frame, AccessKind::Read);
                expect(rt, way.is_none());
            }
            Act::Used(frame, text) => self.expect_use(rt, alloc, frame, text),
            Act::Unused(frame) => {
                expect(rt, chronicle.use_of(&self.hardware, frame).is_none());
            }
            Act::Granted(id, page, frame) => {
                expect(rt, chronicle.granted(id, page, frame).is_ok());
            }
            Act::Released(number, id, page, frame) => {
                expect(rt, chronicle.released(number, id, page, frame).is_ok());
            }
            Act::Done(number) => chronicle.done(number),
            Act::Ended(id, frame, line) => {
                expect(rt, chronicle.right_ended(id, frame) == line);
            }
            _ => expect(rt, false),
        }
    }
}

fn expect_way(rt: &impl Abort, alloc: Global, found: Option<WayFound>, text: &str) {
    let way = found.expect(rt, "a way");
    let written = format!(in alloc; "{way}").expect(rt, "memory");
    expect(rt, written.as_str() == text);
}

fn expect_origin(rt: &impl Abort, alloc: Global, found: Option<Origin>, text: &str) {
    let origin = found.expect(rt, "an access in flight");
    let written = format!(in alloc; "{origin}").expect(rt, "memory");
    expect(rt, written.as_str() == text);
}

/// At power-on the acts of the setup are taken and then the others, one a line from 1 on.
pub(crate) fn run(rt: &impl Abort, alloc: Global, setup: &[Act], acts: &[Act]) {
    let mut machine = Machine::at_power_on(rt, alloc);
    let mut line = 1u64;
    for act in setup.iter().chain(acts.iter()) {
        machine.chronicle.begin(line);
        machine.takes(rt, alloc, *act);
        machine.notices();
        line = line.saturating_add(1);
    }
}
