//! Frames as they are kept.
ghost use Rattle.std.specs.Prelude.{◌≤◌, ◌^◌};

use crate::bytes::{put, stand_in, zeros_lent};
use indexmap::IndexMap;
use iom_base::Owner;
use std::alloc::{AllocError, Global};

/// A frame of which something is kept.
#[derive(Drop)]
pub struct KeptFrame {
    pub(crate) owner: Option<Owner>,
    /// None stand for zeros alone.
    pub(crate) bytes: Vec<u8>,
}

impl KeptFrame {
    ghost use Rattle.std.specs.Prelude.{◌≡◌, ◌+◌, ◌↔◌, OnOk, IsTrue, length, slice_range};
    ghost use Rattle.iom_kept_state.specs.Words.{with_bytes, empty_frame, bytes_kept, frame_kept};

    /// A frame of zeros that belongs to nobody. It takes no memory.
    fn new(alloc: Global) -> KeptFrame
        ensures { frame_kept result ≡ empty_frame }
    {
        KeptFrame {
            owner: None,
            bytes: Vec::new(alloc),
        }
    }

    /// Its bytes.
    fn bytes(&self) -> &[u8]
        ensures { result.now ≡ bytes_kept self.now.bytes.items }
    {
        match self.bytes.as_slice() {
            [] => zeros_lent(),
            bytes => bytes,
        }
    }

    /// Its bytes are there, be they zeros alone.
    fn fill(&mut self) -> Result<(), AllocError>
        ensures owner { self.new.owner ≡ self.old.owner }
        ensures bytes { OnOk result (self.new.bytes.items ≡ bytes_kept self.old.bytes.items) }
    {
        if self.bytes.is_empty() {
            self.bytes = Vec::from_slice(*self.bytes.allocator(), zeros_lent())?;
        }
        Ok(())
    }

    /// The bytes stand in it from the offset on.
    fn store(&mut self, offset: u64, bytes: &[u8]) -> Result<(), AllocError>
        ensures { OnOk result (frame_kept self.new ≡ record (frame_kept self.old) { bytes = with_bytes (bytes_kept self.old.bytes.items) offset bytes.now }) }
    {
        self.fill()?;
        put(&mut self.bytes, offset, bytes)
    }
}

/// The frames of memory.
#[derive(Drop)]
pub struct KeptFrames {
    /// How many there are.
    pub(crate) count: u64,
    /// Those of which something is kept.
    pub(crate) named: IndexMap<u64, KeptFrame>,
    ghost small: { count ≤ 2 ^ 40 },
}

impl KeptFrames {
    ghost use Rattle.std.specs.Prelude.{◌≡◌, ◌↔◌, ◌+◌, ◌≤◌, ◌-◌, ◌^◌, [], ◌∷◌, Some, OnOk, IfOk, IsTrue, length, replicate, slice_get, slice_range};
    ghost use Rattle.iom_kept_state.specs.Words.{option_and_then, option_copied, with_bytes, System, is_reserved, reserved_for, with_frame, bytes_of, stored, empty_frame, frames_in, kept_at, ChangesFrame};

    /// So many frames of zeros, of which the last four are the system's.
    pub fn at_power_on(alloc: Global, count: u64) -> Result<KeptFrames, AllocError>
        requires four { 4 ≤ count }
        requires small { count ≤ 2 ^ 40 }
        ensures { IfOk result (λ frames.
            frames_in frames ≡ reserved_for System ((count - 4) ∷ (count - 3) ∷ (count - 2) ∷ (count - 1) ∷ []) (replicate count empty_frame)) }
    {
        let mut frames = KeptFrames {
            count,
            named: IndexMap::new(alloc),
        };
        frames.reserve(&[count - 4, count - 3, count - 2, count - 1], Owner::System)?;
        Ok(frames)
    }

    /// How many frames there are.
    pub fn count(&self) -> u64
        ensures count { result ≡ length (frames_in self.now) }
        ensures small { result ≤ 2 ^ 40 }
    {
        self.count
    }

    /// Whether the frame belongs to the system or to a device.
    pub fn is_reserved(&self, number: u64) -> bool
        ensures { result ≡ is_reserved (frames_in self.now) number }
    {
        self.owner(number).is_some()
    }

    /// Whose the frame is, if it is somebody's.
    pub fn owner(&self, number: u64) -> Option<Owner>
        ensures { result ≡ option_and_then (λ frame. frame.owner) (slice_get (frames_in self.now) number) }
    {
        match self.kept(number) {
            None => None,
            Some(frame) => frame.owner,
        }
    }

    /// What is kept of the frame, if anything is.
    fn kept(&self, number: u64) -> Option<&KeptFrame>
        ensures { option_copied result ≡ kept_at self.now number }
    {
        if number >= self.count {
            return None;
        }
        self.named.get(&number)
    }

    /// The bytes of the frame; none, where there is no such frame.
    pub fn bytes(&self, number: u64) -> &[u8]
        ensures { result.now ≡ bytes_of (frames_in self.now) number }
    {
        if number >= self.count {
            return &[];
        }
        match self.kept(number) {
            None => zeros_lent(),
            Some(frame) => frame.bytes(),
        }
    }

    /// Whether these are the bytes in the frame from the offset on, so many or all that there are.
    pub fn shows(&self, number: u64, offset: u64, len: u64, bytes: &[u8]) -> bool
        ensures { IsTrue result ↔ (bytes.now ≡ slice_range (bytes_of (frames_in self.now) number) offset (offset + len)) }
    {
        stand_in(self.bytes(number), offset, len, bytes)
    }

    /// The frame belongs to the owner.
    fn own(&mut self, number: u64, owner: Owner) -> Result<(), AllocError>
        ensures { OnOk result (ChangesFrame self.old self.new number (λ frame. record frame { owner = Some owner })) }
    {
        let alloc = *self.named.allocator();
        let frame = self.named.entry(number)?.or_insert(KeptFrame::new(alloc));
        frame.owner = Some(owner);
        Ok(())
    }

    /// The frame belongs to the owner, where there is such a frame.
    fn reserve_one(&mut self, number: u64, owner: Owner) -> Result<(), AllocError>
        ensures { OnOk result (frames_in self.new ≡ with_frame (frames_in self.old) number (λ frame. record frame { owner = Some owner })) }
    {
        if number < self.count {
            self.own(number, owner)?;
        }
        Ok(())
    }

    /// The frames belong to the owner, where there are such frames.
    pub fn reserve(&mut self, taken: &[u64], owner: Owner) -> Result<(), AllocError>
        ensures { OnOk result (frames_in self.new ≡ reserved_for owner taken.now (frames_in self.old)) }
    {
        for number in taken {
            self.reserve_one(*number, owner)?;
        }
        Ok(())
    }

    /// The bytes stand in the frame from the offset on.
    fn store_in(&mut self, number: u64, offset: u64, bytes: &[u8]) -> Result<(), AllocError>
        ensures { OnOk result (ChangesFrame self.old self.new number (λ frame. record frame { bytes = with_bytes frame.bytes offset bytes.now })) }
    {
        let alloc = *self.named.allocator();
        let frame = self.named.entry(number)?.or_insert(KeptFrame::new(alloc));
        frame.store(offset, bytes)
    }

    /// The bytes stand in the frame from the offset on, where there is such a frame.
    pub fn store(&mut self, number: u64, offset: u64, bytes: &[u8]) -> Result<(), AllocError>
        ensures { OnOk result (frames_in self.new ≡ stored (frames_in self.old) number offset bytes.now) }
    {
        if number < self.count {
            self.store_in(number, offset, bytes)?;
        }
        Ok(())
    }
}
