// Lists of events, drawn from a seed, on two boards that begin alike: one makes all loads of a walk in the event of its request,
// the other one load an event. Where nothing else happens between the loads, both answer the same and leave the same.
use crate::draws::{BARE, BOTH, CONTEXTS, Draw, Event, SECOND, TABLES, TOO_WIDE, Wish};
use crate::expect::expect;
use crate::setup::{BASE_VALUE, CQB, CQCSR, CQT, DDTP, DEVICE, FQB, FQCSR, ONE_LEVEL, WORDS};
use crate::{machine, stepped};
use iom_base::{NewDevice, Refusal};
use iom_board::Sender;
use iom_iommu::{Begun, Load, Reply};
use std::alloc::Global;
use std::process::Abort;

/// How many lists are drawn, and of how many events each is.
const LISTS: u64 = 100;

const EVENTS: u32 = 60;

/// The most loads that a walk needs: three of a directory, and in tables of four levels in both stages four times those of the second
/// and one, and those of the second for the page.
const MOST_LOADS: u32 = 27;

/// A queue of 16 records in the frame 62: the faults of some lists are more.
const FAULTS: u64 = 0xf803;

static DEVICES: [u32; 5] = [DEVICE, SECOND, BOTH, BARE, TOO_WIDE];

/// How many requests of all lists were accepted, and faulted; how many needed more than three loads; and how many of those
/// accepted, of a device with tables, needed none, or one alone: by what is cached for the page, once its context was loaded.
#[derive(Drop)]
struct Counts {
    accepted: u32,
    faulted: u32,
    long: u32,
    at_once: u32,
    found: u32,
}

impl Counts {
    fn count(&mut self, id: u32, reply: Result<Reply, Refusal>, loads: u32) {
        match reply {
            Ok(Reply::Accepted(_)) => {
                self.accepted = self.accepted.wrapping_add(1);
                if loads == 0 && id != BARE {
                    self.at_once = self.at_once.wrapping_add(1);
                }
                if loads == 1 && id != BARE {
                    self.found = self.found.wrapping_add(1);
                }
            }
            Ok(Reply::Fault(_)) => self.faulted = self.faulted.wrapping_add(1),
            _ => {}
        }
        if loads > 3 {
            self.long = self.long.wrapping_add(1);
        }
    }
}

/// The two boards.
#[derive(Drop)]
struct Pair {
    whole: Box<machine::Machine>,
    stepped: Box<stepped::Machine>,
    /// How many commands were put into the queue.
    commands: u32,
}

impl Pair {
    fn at_power_on(rt: &impl Abort, alloc: Global) -> Pair {
        Pair {
            whole: machine::Machine::at_power_on(rt, alloc),
            stepped: stepped::Machine::at_power_on(rt, alloc),
            commands: 0,
        }
    }

    fn writes(&mut self, rt: &impl Abort, offset: u64, value: u64) {
        self.whole.write(rt, offset, value);
        self.stepped.write(rt, offset, value);
    }

    fn stores(&mut self, rt: &impl Abort, address: u64, word: u64) {
        self.whole.stores(rt, address, word, Ok(()));
        self.stepped.stores(rt, address, word, Ok(()));
    }

    fn plugs(&mut self, rt: &impl Abort, id: u32) {
        self.whole.plugs(rt, id, NewDevice::Raw, Ok(()));
        self.stepped.plugs(rt, id, NewDevice::Raw, Ok(()));
    }

    /// The directory, the tables and the queues are where they should be, and the devices plugged in.
    fn sets_up(&mut self, rt: &impl Abort) {
        for (address, word) in WORDS.iter() {
            self.stores(rt, *address, *word);
        }
        for (address, word) in CONTEXTS.iter() {
            self.stores(rt, *address, *word);
        }
        for (address, word) in TABLES.iter() {
            self.stores(rt, *address, *word);
        }
        self.writes(rt, DDTP, ONE_LEVEL);
        self.writes(rt, CQB, BASE_VALUE);
        self.writes(rt, CQCSR, 3);
        self.writes(rt, FQB, FAULTS);
        self.writes(rt, FQCSR, 1);
        for id in DEVICES.iter() {
            self.plugs(rt, *id);
        }
    }

    /// The reply to the device's request that is under way, and after how many loads, unless those are too many.
    fn reply_of_walk(&mut self, rt: &impl Abort, id: u32) -> Option<(Reply, u32)> {
        for made in 0..MOST_LOADS {
            match self.stepped.loaded(rt, id) {
                Ok(Load::Ended(reply)) => return Some((reply, made + 1)),
                loaded => expect(rt, loaded == Ok(Load::Loaded)),
            }
        }
        None
    }

    /// What comes of a request that began so, where its loads are all made at once, and how many those are.
    fn goes_on(
        &mut self,
        rt: &impl Abort,
        id: u32,
        begun: Result<Begun, Refusal>,
    ) -> (Result<Reply, Refusal>, u32) {
        match begun {
            Ok(Begun::Answered(reply)) => (Ok(reply), 0),
            Err(refusal) => (Err(refusal), 0),
            _ => {
                expect(rt, begun == Ok(Begun::Walking));
                let ended = self.reply_of_walk(rt, id);
                let (reply, loads) = ended.expect(rt, "27 loads at most");
                (Ok(reply), loads)
            }
        }
    }

    fn requests(&mut self, rt: &impl Abort, wish: &Wish, counts: &mut Counts) {
        let (id, address, bytes) = (wish.id, wish.address, wish.bytes());
        let (whole, begun) = if wish.is_write {
            (
                self.whole.requests(rt, Sender::Own, id, address, bytes),
                self.stepped.begins(rt, Sender::Own, id, address, bytes),
            )
        } else {
            let len = bytes.len() as u64;
            (
                self.whole.reads(rt, id, address, len),
                self.stepped.begins_read(rt, id, address, len),
            )
        };
        let (stepped, loads) = self.goes_on(rt, id, begun);
        expect(rt, stepped == whole);
        counts.count(id, whole, loads);
    }

    fn translated(&mut self, rt: &impl Abort, wish: &Wish) {
        let bytes: &[u8] = if wish.is_write { wish.bytes() } else { b"" };
        let whole = self.whole.translated(rt, wish.id, wish.address, bytes);
        let stepped = self.stepped.translated(rt, wish.id, wish.address, bytes);
        expect(rt, stepped == whole);
    }

    fn commits(&mut self, rt: &impl Abort, id: u32) {
        let whole = self.whole.commits(rt, id);
        let stepped = self.stepped.commits(rt, id);
        expect(rt, stepped == whole);
    }

    fn puts(&mut self, rt: &impl Abort, words: (u64, u64)) {
        let index = self.commands % 255;
        self.whole.put(rt, index, words);
        self.whole.write(rt, CQT, u64::from(index) + 1);
        self.stepped.put(rt, index, words);
        self.commands = self.commands.wrapping_add(1);
    }

    fn fetches(&mut self, rt: &impl Abort) {
        let whole = self.whole.fetched(rt);
        let stepped = self.stepped.fetched(rt);
        expect(rt, stepped == whole);
    }

    fn resets(&mut self, rt: &impl Abort, id: u32) {
        let whole = self.whole.reset(rt, id);
        let stepped = self.stepped.reset(rt, id);
        expect(rt, stepped == whole);
    }

    fn takes(&mut self, rt: &impl Abort, event: &Event, counts: &mut Counts) {
        match event {
            Event::Store(address, word) => self.stores(rt, *address, *word),
            Event::Request(wish) => self.requests(rt, wish, counts),
            Event::Translated(wish) => self.translated(rt, wish),
            Event::Commit(id) => self.commits(rt, *id),
            Event::Command(words) => {
                self.puts(rt, *words);
                self.fetches(rt);
            }
            Event::Fetch => self.fetches(rt),
            Event::Reset(id) => self.resets(rt, *id),
            Event::Directory(pointer) => self.writes(rt, DDTP, *pointer),
        }
    }

    /// Both are alike in their registers, in all that is cached, and in the accesses in flight with their frames.
    fn expect_same_iommu(&self, rt: &impl Abort) {
        let whole = self.whole.board();
        let stepped = self.stepped.board();
        expect(rt, stepped.iommu.is_same(&whole.iommu));
    }

    /// They are alike also in memory, in their devices and in their messages.
    fn expect_same(&self, rt: &impl Abort) {
        let whole = self.whole.board();
        let stepped = self.stepped.board();
        expect(rt, stepped.is_same(whole));
    }
}

/// The list of events that is drawn from this seed is taken on two boards.
fn takes_list(rt: &impl Abort, alloc: Global, seed: u64, counts: &mut Counts) {
    let mut pair = Pair::at_power_on(rt, alloc);
    let mut draw = Draw::new(seed);
    pair.sets_up(rt);
    for _ in 0..EVENTS {
        pair.takes(rt, &draw.event(), counts);
        pair.expect_same_iommu(rt);
    }
    pair.expect_same(rt);
}

#[test]
fn a_walk_at_one_load_an_event_answers_and_leaves_the_same(rt: HostRuntime) {
    let mut counts = Counts {
        accepted: 0,
        faulted: 0,
        long: 0,
        at_once: 0,
        found: 0,
    };
    for seed in 1..=LISTS {
        takes_list(&rt, rt.alloc(), seed, &mut counts);
    }
    // The lists do mean something.
    expect(&rt, counts.accepted >= 200 && counts.faulted >= 200);
    expect(&rt, counts.long >= 200 && counts.at_once >= 50);
    expect(&rt, counts.found >= 20);
}
