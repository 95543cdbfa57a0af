use crate::expect::expect;
use iom_command_queue::laws::counts;
use iom_command_queue::{Command, CommandRing, DeviceNumber, Illegal, QueueEntry};
use iom_phys_mem::{Bytes, Memory};
use iom_registers::{Register, Registers};
use std::alloc::Global;
use std::process::Abort;

/// What is done to a ring, and what is seen of it.
#[derive(Clone, Copy)]
enum Step {
    /// So many commands, which name devices from this one on, fill the ring. They come out in the order in which they went
    /// in, and then there is none.
    GoesRound(u32, u32),
    Reads(Register, u64),
    SetTail(u64),
    /// So many entries stand at the head in turn that are no command.
    TakeZeros(u32),
    /// None stands at the head.
    NextNone,
    /// One stands there that lies outside memory.
    NextOutside,
}

// A memory of 64 frames, and registers with a command queue.
#[derive(Drop)]
struct Bench {
    memory: Memory,
    registers: Registers,
}

// A command that names this device.
fn of_device(rt: &impl Abort, number: u32) -> Command {
    Command::IodirInvalDdt {
        device: Some(DeviceNumber::new(number).expect(rt, "24 bits")),
    }
}

impl Bench {
    // The queue begins at this page and is on.
    fn new(rt: &impl Abort, alloc: Global, page: u64, log2sz_less_1: u64) -> Box<Bench> {
        let memory = Memory::new(alloc, 64).expect(rt, "memory for the frames");
        let mut registers = Registers::new();
        registers.set(Register::Cqb, page << 10 | log2sz_less_1);
        registers.set(Register::Cqcsr, 1);
        Box::new(alloc, Bench { memory, registers }).expect(rt, "memory for the bench")
    }

    // Appends a command that names this device, where there is room, in memory.
    fn append(&mut self, rt: &impl Abort, number: u32) {
        let command = of_device(rt, number);
        assert!(rt; !CommandRing::is_full(&self.registers));
        counts(&self.memory, &self.registers);
        let place = self.registers.command_base() + 16 * self.registers.command_tail() as u64;
        assert!(rt; place / 4096 < self.memory.frames() as u64);
        CommandRing::append(&mut self.memory, &mut self.registers, command);
    }

    // What stands at the head.
    fn next(&self) -> Option<QueueEntry> {
        CommandRing::next(&self.memory, &self.registers)
    }

    // Takes this, which stands at the head.
    fn takes(&mut self, rt: &impl Abort, expected: QueueEntry) {
        expect(rt, self.next() == Some(expected));
        assert!(rt; self.registers.command_head() != self.registers.command_tail());
        CommandRing::advance(&mut self.registers);
    }

    fn goes_round(&mut self, rt: &impl Abort, first: u32, count: u32) {
        for number in first..first.saturating_add(count) {
            self.append(rt, number);
        }
        expect(rt, CommandRing::is_full(&self.registers));
        for number in first..first.saturating_add(count) {
            self.takes(rt, QueueEntry::Command(of_device(rt, number)));
        }
        expect(rt, self.next().is_none());
    }

    fn take_zeros(&mut self, rt: &impl Abort, count: u32) {
        for _ in 0..count {
            self.takes(rt, QueueEntry::Illegal(Illegal::Opcode));
        }
    }

    fn effect(&mut self, rt: &impl Abort, step: Step) {
        match step {
            Step::GoesRound(first, count) => self.goes_round(rt, first, count),
            Step::Reads(register, value) => expect(rt, self.registers.value(register) == value),
            Step::SetTail(tail) => self.registers.set(Register::Cqt, tail),
            Step::TakeZeros(count) => self.take_zeros(rt, count),
            Step::NextNone => expect(rt, self.next().is_none()),
            Step::NextOutside => expect(rt, self.next() == Some(QueueEntry::Outside)),
        }
    }

    fn follow(&mut self, rt: &impl Abort, steps: &[Step]) {
        for step in steps.iter() {
            self.effect(rt, *step);
        }
    }
}

/// The page in which a queue begins, what its base register says of its size, and what is done.
static RINGS: [(u64, u64, &[Step]); 4] = [
    // A ring of two entries holds one command, at either of its places.
    (
        63,
        0,
        &[
            Step::Reads(Register::Cqt, 0),
            Step::GoesRound(0, 1),
            Step::Reads(Register::Cqt, 1),
            Step::GoesRound(1, 1),
            Step::Reads(Register::Cqt, 0),
            Step::GoesRound(2, 1),
            Step::Reads(Register::Cqt, 1),
            Step::GoesRound(3, 1),
            Step::Reads(Register::Cqt, 0),
            Step::GoesRound(4, 1),
        ],
    ),
    // A ring of 256 entries holds 255 commands, also those that lie over its end.
    (
        63,
        7,
        &[
            Step::GoesRound(0, 255),
            Step::GoesRound(256, 255),
            Step::GoesRound(512, 255),
            Step::Reads(Register::Cqh, 253),
        ],
    ),
    // A ring of 512 entries that begins in the last frame of memory: of its entries the first 256 are in memory, where zeros
    // are no command, and the next is outside.
    (
        63,
        8,
        &[Step::SetTail(257), Step::TakeZeros(256), Step::NextOutside],
    ),
    // The highest base and the largest ring: nothing of it is in memory.
    (
        0xfff_ffff_ffff,
        31,
        &[
            Step::NextNone,
            Step::SetTail(0xffff_ffff),
            Step::NextOutside,
        ],
    ),
];

#[test]
fn rings_go_round_and_may_lie_outside_memory(rt: HostRuntime) {
    for (page, log2sz_less_1, steps) in RINGS.iter() {
        let mut bench = Bench::new(&rt, rt.alloc(), *page, *log2sz_less_1);
        bench.follow(&rt, steps);
    }
}
