ghost use Rattle.std.specs.Prelude.{◌≡◌, IfSome, length};

use crate::expect::expect;
use std::process::Abort;

const SIZE: usize = 8192;

/// Two pages of memory, which a queue or a device reaches at addresses from 0 on.
#[derive(Drop)]
pub(crate) struct Memory {
    bytes: [u8; SIZE],
}

impl Memory {
    pub(crate) fn new() -> Memory {
        Memory { bytes: [0; SIZE] }
    }

    /// The bytes at the address, where they lie in memory.
    pub(crate) fn load(&self, address: u64, len: u16) -> Option<&[u8]>
        ensures { IfSome result (λ bytes. length bytes.now ≡ len) }
    {
        if address > 7680 || len > 512 {
            return None;
        }
        let from = address as usize;
        Some(&self.bytes[from..from + usize::from(len)])
    }

    /// Writes the bytes at the address, where they lie in memory.
    pub(crate) fn store(&mut self, address: u64, bytes: &[u8]) -> bool {
        if address > 7680 || bytes.len() > 512 {
            return false;
        }
        let from = address as usize;
        self.bytes[from..from + bytes.len()].copy_from_slice(bytes);
        true
    }

    /// Writes bytes that lie in memory.
    pub(crate) fn poke(&mut self, rt: &impl Abort, at: u16, bytes: &[u8]) {
        expect(rt, self.store(u64::from(at), bytes));
    }

    /// Writes two bytes.
    pub(crate) fn poke_half(&mut self, rt: &impl Abort, at: u16, half: u16) {
        self.poke(rt, at, &half.to_le_bytes());
    }

    /// Writes a descriptor, of a buffer in memory.
    pub(crate) fn poke_descriptor(
        &mut self,
        rt: &impl Abort,
        index: u16,
        address: u16,
        len: u16,
        flags: u8,
        next: u16,
    ) {
        let [address_low, address_high] = address.to_le_bytes();
        let [len_low, len_high] = len.to_le_bytes();
        let [low, high] = next.to_le_bytes();
        let bytes = [
            address_low,
            address_high,
            0,
            0,
            0,
            0,
            0,
            0,
            len_low,
            len_high,
            0,
            0,
            flags,
            0,
            low,
            high,
        ];
        self.poke(rt, 16 * (index % 256), &bytes);
    }

    pub(crate) fn byte(&self, at: u16) -> u8 {
        self.bytes[usize::from(at) % SIZE]
    }

    pub(crate) fn put(&mut self, at: u16, byte: u8) {
        self.bytes[usize::from(at) % SIZE] = byte;
    }

    pub(crate) fn expect_byte(&self, rt: &impl Abort, at: u16, expected: u8) {
        expect(rt, self.byte(at) == expected);
    }

    /// These bytes stand there.
    pub(crate) fn expect(&self, rt: &impl Abort, at: u16, expected: &[u8]) {
        let mut place = at;
        for byte in expected.iter() {
            self.expect_byte(rt, place, *byte);
            place = place.wrapping_add(1);
        }
    }

    /// Two bytes are these.
    pub(crate) fn expect_half(&self, rt: &impl Abort, at: u16, expected: u16) {
        let shown = u16::from_le_bytes([self.byte(at), self.byte(at.wrapping_add(1))]);
        expect(rt, shown == expected);
    }
}
