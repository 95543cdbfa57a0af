// What the processor writes and reads.
ghost use Rattle.std.specs.Prelude.{◌≡◌, ◌+◌, ◌<◌, ◌≤◌, ◌^◌, length, IfOk, IfErr};
ghost use Rattle.iom_base.specs.Bytes.{with_bytes};
ghost use Rattle.iom_board.specs.Counted.{IsCounted};
ghost use Rattle.iom_board.specs.BoardParts.{board_parts};
ghost use Rattle.iom_board.specs.Processor.{ProcessorWrites, BytesStandAt, HaveNoPlace};
ghost use Rattle.iom_board.specs.Invariant.{BoardInvariant};

use crate::answers::NoPlace;
use crate::board::Board;
use iom_base::{PAGE_SIZE, Span};
use iom_phys_mem::{Bytes, Memory};

/// The bytes stand in the frame, from the offset on.
fn put_bytes(frame: &mut [u8], offset: usize, bytes: &[u8])
    requires { offset + length bytes.now ≤ length frame.old }
    ensures { frame.new ≡ with_bytes frame.old offset bytes.now }
{
    frame[offset..offset + bytes.len()].copy_from_slice(bytes);
}

/// The bytes stand in memory, where they have a place.
fn store_bytes(memory: &mut Memory, address: u64, bytes: &[u8]) -> Result<(), NoPlace>
    ensures { ProcessorWrites memory.old address bytes.now result memory.new }
{
    if Span::new(address, bytes.len() as u64).is_none() {
        return Err(NoPlace::BadSpan);
    }
    let number = address / PAGE_SIZE;
    if number >= u64::from(memory.frames()) {
        return Err(NoPlace::OutsideMemory);
    }
    let frame = memory.frame_mut(number as u32).unwrap();
    put_bytes(frame, (address % PAGE_SIZE) as usize, bytes);
    Ok(())
}

impl Board {
    /// The processor writes the bytes at the physical address, within one frame. `BadSpan`, where they are none or too many or
    /// leave their frame, and else `OutsideMemory`, where memory has no such frame: then nothing changes.
    pub fn store(&mut self, address: u64, bytes: &[u8]) -> Result<(), NoPlace>
        requires invariants { BoardInvariant (board_parts self.old) self.old.events }
        requires count { self.old.events + 1 < 2 ^ 64 }
        ensures effect { ProcessorWrites self.old.memory address bytes.now result self.new.memory }
        ensures rest { board_parts self.new ≡ record (board_parts self.old) { memory = self.new.memory } }
        ensures invariants { BoardInvariant (board_parts self.new) self.new.events }
        ensures counted { IsCounted self.old self.new }
    {
        self.events += 1;
        store_bytes(&mut self.memory, address, bytes)
    }

    /// The bytes that the processor reads at the physical address, so many, within one frame. `BadSpan`, where they are none or
    /// too many or leave their frame, and else `OutsideMemory`, where memory has no such frame.
    pub fn load(&self, address: u64, len: u64) -> Result<&[u8], NoPlace>
        ensures loaded { IfOk result (λ bytes. BytesStandAt self.now.memory address len bytes.now) }
        ensures refused { IfErr result (HaveNoPlace self.now.memory address len) }
    {
        if Span::new(address, len).is_none() {
            return Err(NoPlace::BadSpan);
        }
        let number = address / PAGE_SIZE;
        if number >= u64::from(self.memory.frames()) {
            return Err(NoPlace::OutsideMemory);
        }
        let frame = self.memory.frame(number as u32).unwrap();
        let offset = (address % PAGE_SIZE) as usize;
        Ok(&frame[offset..offset + len as usize])
    }
}
