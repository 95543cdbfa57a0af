use crate::expect::expect;
use iom_base::Cause;
use iom_fault_queue::{Entry, Fault, FaultRing, FaultedRequest, Put, Record, Transaction};
use iom_phys_mem::{Bytes, Memory};
use iom_registers::{Mmio, Register, Registers};
use std::alloc::Global;
use std::process::Abort;

/// What is done to a fault queue, and what is seen of it.
#[derive(Clone, Copy)]
enum Step<'a> {
    Write(Register, u64),
    Reads(Register, u64),
    /// The record of a read at this address is put.
    Put(u64, Put),
    /// So many are put, each of which is taken then.
    PutAndTake(u64),
    /// So many records fit and come out in order, and one more is dropped, which sets fqof.
    Fills(u64),
    /// The record of a read at this address is taken.
    Takes(u64),
    TakesNone,
    TakesOutside,
    TakesIllegal,
    /// Words of memory from the address on.
    Holds(u64, &'a [u64]),
    Store(u64, u64),
}

// A memory of 64 frames, and registers.
#[derive(Drop)]
struct Machine {
    memory: Memory,
    registers: Registers,
}

// The record of device 1's read at an address.
fn record_at(address: u64) -> Record {
    let request = FaultedRequest {
        device: 1,
        transaction: Transaction::UntranslatedRead,
        address,
    };
    let fault = Fault {
        cause: Cause::ReadPageFault,
        guest_address: 0,
        implicit: false,
    };
    Record::new(request, fault)
}

impl Machine {
    // One whose queue lies where `fqb` says, and which is then turned on as `fqcsr` says.
    fn new(rt: &impl Abort, alloc: Global, fqb: u64, fqcsr: u64) -> Box<Machine> {
        let memory = Memory::new(alloc, 64).expect(rt, "memory for the frames");
        let mut registers = Registers::new();
        registers.set(Register::Fqb, fqb);
        registers.set(Register::Fqcsr, fqcsr);
        Box::new(alloc, Machine { memory, registers }).expect(rt, "memory for the bench")
    }

    fn writes(&mut self, register: Register, value: u64) -> bool {
        let (offset, width) = (register.offset(), register.width());
        self.registers.write(offset, width, value).is_ok()
    }

    fn reads(&self, register: Register, want: u64) -> bool {
        self.registers.read(register.offset(), register.width()) == Ok(want)
    }

    // The words are there from the address on.
    fn holds(&self, address: u64, words: &[u64]) -> bool {
        let mut place = address;
        for word in words.iter() {
            if self.memory.load_u64(place) != Some(*word) {
                return false;
            }
            place = place.wrapping_add(8);
        }
        true
    }

    // The record of a read at this address is put.
    fn puts(&mut self, address: u64, want: Put) -> bool {
        FaultRing::put(&mut self.memory, &mut self.registers, record_at(address)) == want
    }

    fn takes(&mut self, want: Option<Entry>) -> bool {
        FaultRing::take(&self.memory, &mut self.registers) == want
    }

    // The record of a read at this address is taken.
    fn takes_record(&mut self, address: u64) -> bool {
        let record = record_at(address);
        self.takes(Some(Entry::Record(record))) && Entry::Record(record).record() == Some(record)
    }

    fn fills(&mut self, room: u64) -> bool {
        for at in 0..room {
            if !self.puts(at, Put::Written) {
                return false;
            }
        }
        if !self.puts(room, Put::Overflow) {
            return false;
        }
        for at in 0..room {
            if !self.takes_record(at) {
                return false;
            }
        }
        self.takes(None)
    }

    fn puts_and_takes(&mut self, count: u64) -> bool {
        for at in 0..count {
            if !self.puts(at, Put::Written) || !self.takes_record(at) {
                return false;
            }
        }
        true
    }

    // Whether the step is done and answered so.
    fn effect(&mut self, step: Step) -> bool {
        match step {
            Step::Write(register, value) => self.writes(register, value),
            Step::Reads(register, value) => self.reads(register, value),
            Step::Put(address, put) => self.puts(address, put),
            Step::PutAndTake(count) => self.puts_and_takes(count),
            Step::Fills(room) => self.fills(room),
            Step::Takes(address) => self.takes_record(address),
            Step::TakesNone => self.takes(None),
            Step::TakesOutside => self.takes(Some(Entry::Outside)),
            Step::TakesIllegal => self.takes(Some(Entry::Illegal)),
            Step::Holds(address, words) => self.holds(address, words),
            Step::Store(address, word) => self.memory.store_u64(address, word).is_some(),
        }
    }
}

// A queue that lies where `fqb` says, and is turned on as `fqcsr` says, takes the steps.
fn follow(rt: &impl Abort, alloc: Global, fqb: u64, fqcsr: u64, steps: &[Step]) {
    let mut machine = Machine::new(rt, alloc, fqb, fqcsr);
    for step in steps.iter() {
        expect(rt, machine.effect(*step));
    }
}

/// Where the queue lies, how it is turned on, and what is done.
static RUNS: [(u64, u64, &[Step]); 8] = [
    // Rings of 2 and of 128 places at frame 62 have room for one record less, at each index of the ring. A write of 1 to fqof,
    // bit 9 of fqcsr, clears it; fqen is bit 0.
    (
        0xf800,
        1,
        &[
            Step::Fills(1),
            Step::Write(Register::Fqcsr, 0x201),
            Step::Fills(1),
            Step::Write(Register::Fqcsr, 0x201),
            Step::Fills(1),
            Step::Write(Register::Fqcsr, 0x201),
        ],
    ),
    (
        0xf806,
        1,
        &[
            Step::Fills(127),
            Step::Write(Register::Fqcsr, 0x201),
            Step::Fills(127),
            Step::Write(Register::Fqcsr, 0x201),
            Step::Fills(127),
            Step::Write(Register::Fqcsr, 0x201),
        ],
    ),
    // fqmf is bit 8, fqof 9, fqon 16. While fqof is 1 no record is written, though there is room.
    (
        0xf800,
        1,
        &[
            Step::Put(1, Put::Written),
            Step::Put(2, Put::Overflow),
            Step::Reads(Register::Fqcsr, 0x1_0201),
            Step::Takes(1),
            Step::Put(3, Put::Overflow),
            Step::TakesNone,
            Step::Write(Register::Fqcsr, 0x201),
            Step::Reads(Register::Fqcsr, 0x1_0001),
            Step::Put(4, Put::Written),
            Step::Takes(4),
        ],
    ),
    // A ring of 256 places at the last frame, which has room for 128 of them: the next place sets fqmf, and the record is
    // lost. What stands in a place outside is told as that, and the head moves on.
    (
        0xfc07,
        1,
        &[
            Step::PutAndTake(128),
            Step::Put(128, Put::Overflow),
            Step::Reads(Register::Fqcsr, 0x1_0101),
            Step::TakesNone,
            Step::Write(Register::Fqh, 127),
            Step::Takes(127),
            Step::Write(Register::Fqh, 200),
            Step::TakesOutside,
            Step::Reads(Register::Fqh, 201),
        ],
    ),
    // A record's bytes in memory, and the same place once somebody else wrote into it.
    (
        0xf806,
        1,
        &[
            Step::Put(0x4000, Put::Written),
            Step::Holds(0x3_e000, &[0x0000_0108_0000_000d, 0, 0x4000, 0]),
            Step::Store(0x3_e008, 1),
            Step::TakesIllegal,
            Step::TakesNone,
        ],
    ),
    // While the queue is off nothing is written and nothing is marked, also where fie, bit 1, is 1.
    (
        0xf806,
        2,
        &[
            Step::Put(1, Put::Off),
            Step::Reads(Register::Fqcsr, 2),
            Step::Reads(Register::Fqt, 0),
            Step::Reads(Register::Ipsr, 0),
            Step::Holds(0x3_e000, &[0]),
            Step::TakesNone,
        ],
    ),
    // fip is bit 1 of ipsr: no record and no overflow sets it where fie is 0.
    (
        0xf800,
        1,
        &[
            Step::Put(1, Put::Written),
            Step::Put(2, Put::Overflow),
            Step::Reads(Register::Ipsr, 0),
        ],
    ),
    // A record sets it where fie is 1, and fqof keeps it.
    (
        0xf800,
        3,
        &[
            Step::Put(1, Put::Written),
            Step::Reads(Register::Ipsr, 2),
            Step::Write(Register::Ipsr, 2),
            Step::Reads(Register::Ipsr, 0),
            Step::Put(2, Put::Overflow),
            Step::Reads(Register::Ipsr, 2),
            Step::Write(Register::Ipsr, 2),
            Step::Reads(Register::Ipsr, 2),
        ],
    ),
];

#[test]
fn records_are_put_and_taken(rt: HostRuntime) {
    for (fqb, fqcsr, steps) in RUNS.iter() {
        follow(&rt, rt.alloc(), *fqb, *fqcsr, steps);
    }
}

#[test]
fn an_illegal_entry_is_no_record(rt: HostRuntime) {
    expect(&rt, Entry::Illegal.record() == None);
}
