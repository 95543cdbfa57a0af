use crate::expect::expect;
use crate::memory::Memory;
use crate::shown::Seen;
use iom_virtqueue::{ChainFault, Layout, Phase, Queue, Want};
use std::alloc::Global;
use std::process::Abort;

/// A queue with its table at 0, its available ring at 0x1000 and its used ring at 0x1400.
#[derive(Drop)]
pub(crate) struct Bench {
    queue: Queue,
    pub(crate) memory: Memory,
}

// The bytes were taken, or why they weren't.
fn shown(taken: Result<(), ChainFault>, access: Seen) -> Seen {
    match taken {
        Ok(()) => access,
        Err(fault) => Seen::Chain(fault),
    }
}

impl Bench {
    pub(crate) fn new(rt: &impl Abort, alloc: Global, size: u64) -> Box<Bench> {
        let layout = Layout::new(size, 0, 0x1000, 0x1400).expect(rt, "a layout");
        let queue = Queue::new(layout);
        let memory = Memory::new();
        Box::new(alloc, Bench { queue, memory }).expect(rt, "memory for the bench")
    }

    // The access that is wanted next is made.
    fn turn(&mut self) -> Seen {
        match self.queue.next() {
            Want::Nothing => Seen::Idle,
            Want::Read { address, len } => match self.memory.load(address, len) {
                Some(bytes) => shown(self.queue.took(bytes), Seen::Read(address, len)),
                None => Seen::Outside(address),
            },
            Want::Write { address, bytes } => {
                if !self.memory.store(address, &bytes) {
                    return Seen::Outside(address);
                }
                let len = bytes.len() as u16;
                shown(self.queue.took(&[]), Seen::Wrote(address, len))
            }
        }
    }

    /// The access that is wanted next is this one.
    pub(crate) fn turns(&mut self, rt: &impl Abort, expected: Seen) {
        expect(rt, self.turn() == expected);
    }

    /// The chain was read whole, and so many bytes were written for it.
    pub(crate) fn finishes(&mut self, rt: &impl Abort, written: u32) {
        let is_served = self.queue.phase() == Phase::Served;
        expect(rt, is_served);
        if let Phase::Served = self.queue.phase() {
            self.queue.finish(written);
        }
    }
}
