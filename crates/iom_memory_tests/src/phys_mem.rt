ghost use Rattle.std.specs.Prelude.{◌≤◌};

use crate::base::prints;
use crate::expect::{expect, expect_load, expect_short_store, expect_store};
use iom_base::FRAME_SIZE;
use iom_phys_mem::{Bytes, MemError, Memory, frames};
use std::alloc::Global;
use std::process::Abort;

// The first byte past a memory of 64 frames.
const END: u64 = 4096 * 64;

// A number whose bytes differ, the least byte first: 1, 2, 3, 4, 5, 6, 7, 8.
const DIGITS: u64 = 0x0807_0605_0403_0201;

// A memory of so many frames. A refused allocation is answered by `OutOfMemory` and nothing else, and the
// same call, where no allocation is refused, succeeds.
fn built(rt: &impl Abort, alloc: Global, frames: u32) -> Memory {
    let memory = Memory::new(alloc, frames).or_else(|fault| {
        expect(rt, fault == MemError::OutOfMemory);
        Memory::new(alloc, frames)
    });
    memory.expect(rt, "memory for the frames")
}

fn is_refused(rt: &impl Abort, alloc: Global, frames: u32) {
    let refused = Memory::new(alloc, frames).err();
    expect(rt, refused == Some(MemError::BadSize));
}

fn has_size(rt: &impl Abort, alloc: Global, frames: u32)
    requires { 64 ≤ frames }
{
    let memory = built(rt, alloc, frames);
    let end = 4096 * frames as u64;
    expect(rt, memory.frames() == frames);
    expect_load(rt, &memory, end - 8, Some(0));
    expect_load(rt, &memory, end, None);
    expect(rt, memory.frame(frames - 1).is_some());
    expect(rt, memory.frame(frames).is_none());
}

#[test]
fn sizes_are_64_to_4096(rt: HostRuntime) {
    for frames in [0, 1, 63, 4097, 65536, u32::MAX] {
        is_refused(&rt, rt.alloc(), frames);
    }
    has_size(&rt, rt.alloc(), 64);
    has_size(&rt, rt.alloc(), 65);
    has_size(&rt, rt.alloc(), 4096);
}

#[test]
fn words_go_up_to_the_last(rt: HostRuntime) {
    let mut memory = built(&rt, rt.alloc(), 64);
    for address in [0, 8, 4088, 4096, END - 8] {
        expect_store(&rt, &mut memory, address, DIGITS, true);
        expect_load(&rt, &memory, address, Some(DIGITS));
    }
    expect_short_store(&rt, &mut memory, END - 4, 0xffff_fffe, true);
    expect_load(&rt, &memory, END - 8, Some(0xffff_fffe_0403_0201));
}

#[test]
fn a_byte_makes_memories_differ(rt: HostRuntime) {
    let one = built(&rt, rt.alloc(), 64);
    let mut other = built(&rt, rt.alloc(), 64);
    expect(&rt, one.is_same(&other));
    expect_store(&rt, &mut other, END - 8, 1, true);
    expect(&rt, !one.is_same(&other));
}

#[test]
fn words_outside_are_none(rt: HostRuntime) {
    let mut memory = built(&rt, rt.alloc(), 64);
    for address in [END, END + 8, 4096 * 4096, u64::MAX - 7] {
        expect_load(&rt, &memory, address, None);
        expect_store(&rt, &mut memory, address, 1, false);
        expect_short_store(&rt, &mut memory, address, 1, false);
    }
    expect_short_store(&rt, &mut memory, u64::MAX - 3, 1, false);
    expect_load(&rt, &memory, u64::MAX, None);
}

#[test]
fn unaligned_words_are_none(rt: HostRuntime) {
    let mut memory = built(&rt, rt.alloc(), 64);
    for by in 1..8 {
        for word in [0, 4096, END - 8] {
            expect_load(&rt, &memory, word + by, None);
            expect_store(&rt, &mut memory, word + by, 1, false);
            expect_short_store(&rt, &mut memory, word + by, 0, by == 4);
        }
    }
}

// A byte of a frame.
fn byte_at(memory: &Memory, frame: u32, at: usize) -> Option<u8> {
    memory.frame(frame)?.get(at).copied()
}

// Writes a byte of a frame, where there is one.
fn set_byte(memory: &mut Memory, frame: u32, at: usize, byte: u8) -> bool {
    match memory.frame_mut(frame) {
        Some(bytes) => match bytes.get_mut(at) {
            Some(place) => {
                *place = byte;
                true
            }
            None => false,
        },
        None => false,
    }
}

fn fill(memory: &mut Memory, frame: u32) {
    for at in 0..4096 {
        set_byte(memory, frame, at, 255);
    }
}

// How many bytes of the frame aren't 255.
fn count_others(memory: &Memory, frame: u32) -> u32 {
    let mut count = 0u32;
    for at in 0..4096 {
        if byte_at(memory, frame, at) != Some(255) {
            count = count.wrapping_add(1);
        }
    }
    count
}

/// The bytes of frame 1 from 6 on.
static WRITTEN: [u8; 20] = [
    255, 255, 1, 2, 3, 4, 5, 6, 7, 8, 255, 255, 255, 255, 9, 10, 11, 12, 255, 255,
];

fn are_written(rt: &impl Abort, memory: &Memory) {
    for (place, byte) in WRITTEN.iter().enumerate() {
        expect(rt, byte_at(memory, 1, place.wrapping_add(6)) == Some(*byte));
    }
    expect(rt, count_others(memory, 1) == 12);
}

// The bytes of a store, and those beside them, where all were 255.
#[test]
fn stores_write_their_bytes(rt: HostRuntime) {
    let mut memory = built(&rt, rt.alloc(), 64);
    fill(&mut memory, 1);
    expect_store(&rt, &mut memory, 4096 + 8, DIGITS, true);
    expect_short_store(&rt, &mut memory, 4096 + 20, 0x0c0b_0a09, true);
    are_written(&rt, &memory);
}

fn are_lent(rt: &impl Abort, memory: &Memory) {
    expect_load(rt, memory, END - 8, Some(7 << 56));
    expect(rt, byte_at(memory, 63, 4095) == Some(7));
    expect(rt, byte_at(memory, 62, 4095) == Some(0));
}

// A frame that is lent is the memory's, and past the last there is none.
#[test]
fn lent_frames_are_the_memory(rt: HostRuntime) {
    let mut memory = built(&rt, rt.alloc(), 64);
    expect(&rt, set_byte(&mut memory, 63, 4095, 7));
    are_lent(&rt, &memory);
    expect(&rt, !set_byte(&mut memory, 64, 0, 7));
    expect(&rt, !set_byte(&mut memory, u32::MAX, 0, 7));
}

// Two frames that stand in the value itself, as a test of a layer above may have them.
#[derive(Drop)]
struct TwoFrames([[u8; FRAME_SIZE]; 2]);

impl Bytes for TwoFrames {
    ghost frames_of = { λ memory. memory.0 };

    fn frames(&self) -> u32 {
        2
    }

    fn load_u64(&self, address: u64) -> Option<u64> {
        frames::load_u64(&self.0, address)
    }

    fn store_u64(&mut self, address: u64, value: u64) -> Option<()> {
        frames::store_u64(&mut self.0, address, value)
    }

    fn store_u32(&mut self, address: u64, value: u32) -> Option<()> {
        frames::store_u32(&mut self.0, address, value)
    }
}

// Generic over where the bytes stand: moves a word.
fn move_word<B: Bytes>(bytes: &mut B, from: u64, to: u64) -> Option<()> {
    let word = bytes.load_u64(from)?;
    bytes.store_u64(to, word)
}

// A word is moved to the last place, and not past the end.
fn moves<B: Bytes>(rt: &impl Abort, bytes: &mut B, from: u64, end: u64, word: u64)
    requires { 8 ≤ end }
{
    expect(rt, move_word(bytes, from, end - 8) == Some(()));
    expect_load(rt, bytes, end - 8, Some(word));
    expect(rt, move_word(bytes, from, end) == None);
}

fn moves_in_two_frames(rt: &impl Abort) {
    let mut small = TwoFrames([[0; FRAME_SIZE]; 2]);
    expect(rt, small.frames() == 2);
    expect_short_store(rt, &mut small, 4, 0x0807_0605, true);
    moves(rt, &mut small, 0, 8192, 0x0807_0605_0000_0000);
}

#[test]
fn words_move_through_the_bound(rt: HostRuntime) {
    let mut memory = built(&rt, rt.alloc(), 64);
    expect_store(&rt, &mut memory, 8, DIGITS, true);
    moves(&rt, &mut memory, 8, END, DIGITS);
    moves_in_two_frames(&rt);
}

#[test]
fn faults_print(rt: HostRuntime) {
    let bad_size = "a memory has 64 to 4096 frames";
    prints(&rt, rt.alloc(), &MemError::BadSize, bad_size);
    prints(&rt, rt.alloc(), &MemError::OutOfMemory, "out of memory");
}
