// What the processor writes and reads, and what it is told of a frame.
ghost use denote.Follow.{follows_so};
ghost use Rattle.std.specs.Borrow.{sem};
ghost use mathlib.Core.Option.{none};
ghost use Rattle.iom_world.specs.contracts.world.World.{the_row};
ghost use Rattle.std.specs.Prelude.{⊤, ◌≡◌, ◌+◌, ◌/◌, ◌<◌, ◌^◌, false, true, length};
ghost use Rattle.iom_base.specs.Sizes.{page_size};
ghost use Rattle.iom_base.specs.Spans.{FitsInPage};
ghost use Rattle.iom_driver.specs.StateOf.{state_of};
ghost use Rattle.iom_table_frames.specs.Owners.{has_owner};
ghost use Rattle.iom_world.specs.Shown.{parts_of, disks_of, inside_of};
ghost use Rattle.iom_world_effects.specs.Processor.{PokesBytes, PeeksBytes, AsksFree};
ghost use Rattle.iom_world.specs.OnHardware.{outcome_of_no_place};
ghost use Rattle.iom_answers.specs.Answers.{outcome_of};

use crate::answering::{no_place_answer, store_answer};
use crate::world::World;
use iom_answers::{Answer, Lent};
use iom_base::{PAGE_SIZE, Refusal, Span};
use iom_board::NoPlace;
use iom_phys_mem::Bytes;
use iom_virtio_blk::Disk;
use iom_world_effects::laws_below;

impl<D: Disk> World<D> {
    /// Whether so many bytes at the physical address have a place within one frame, and that is reserved.
    // Of the span this looks where the frame is reserved alone: else the store looks at it.
    fn is_reserved_place(&self, address: u64, len: u64) -> bool
        ensures reserved { result ≡ true → FitsInPage address len × (address / page_size < length self.now.hardware.board.memory)
            × (has_owner (state_of self.now.driver).owners (address / page_size) ≡ true) }
        ensures unreserved { result ≡ false → FitsInPage address len → address / page_size < length self.now.hardware.board.memory
            → has_owner (state_of self.now.driver).owners (address / page_size) ≡ false }
    {
        let number = address / PAGE_SIZE;
        if number >= u64::from(self.hardware.board.memory.frames()) {
            return false;
        }
        if !self.driver.is_reserved(number as u32) {
            return false;
        }
        Span::new(address, len).is_some()
    }

    /// The processor writes the bytes at the physical address, within one frame that isn't reserved. Nothing
    /// changes where it is told `BadSpan`, since they are none or too many or leave their frame,
    /// `FrameOutOfRange` or `FrameReserved`.
    #[inline(never)]
    pub(crate) fn poke(&mut self, address: u64, bytes: &[u8]) -> Answer<'static>
        requires count { self.old.hardware.board.events + 1 < 2 ^ 64 }
        ensures effect { PokesBytes (parts_of self.old) address bytes.now (outcome_of result) (parts_of self.new) }
        ensures disks { disks_of self.new ≡ disks_of self.old }
        ensures inside { inside_of D.shown self.new ≡ inside_of D.shown self.old }
        ensures events { self.new.hardware.board.events ≡ self.old.hardware.board.events + 1 }
        ensures made { self.new.made ≡ self.old.made }
    {
        laws_below();
        if self.is_reserved_place(address, bytes.len() as u64) {
            self.hardware.board.events += 1;
            return Answer::Refused(Refusal::FrameReserved);
        }
        store_answer(self.hardware.board.store(address, bytes))
    }

    /// The processor reads so many bytes at the physical address, within one frame: they are lent; or `BadSpan`, or
    /// `FrameOutOfRange`. Nothing changes.
    #[inline(never)]
    pub(crate) fn peek(&mut self, address: u64, len: u64) -> Answer<'_>
        requires count { self.old.hardware.board.events + 1 < 2 ^ 64 }
        ensures* happens { sem 𝓛 (follows_so (the_row D.row D.Disk) (the_row D.row D.Disk) self.entry.ghost_name none (λ _ _. ⊤) (λ v.
            (PeeksBytes (parts_of self.old) address len (outcome_of result) × (parts_of v ≡ parts_of self.old))
            × (disks_of v ≡ disks_of self.old)
            × (inside_of D.shown v ≡ inside_of D.shown self.old)
            × (v.hardware.board.events ≡ self.old.hardware.board.events + 1)
            × (v.made ≡ self.old.made))) }
    {
        self.hardware.board.events += 1;
        match self.hardware.board.load(address, len) {
            Ok(bytes) => Answer::Bytes(Lent::new(bytes)),
            Err(why) => no_place_answer(why),
        }
    }

    /// Whether the frame is free: no device holds it or may still reach it, and it isn't reserved.
    /// `FrameOutOfRange` where memory has no such frame. Nothing changes.
    #[inline(never)]
    pub(crate) fn free(&mut self, frame: u64) -> Answer<'static>
        requires count { self.old.hardware.board.events + 1 < 2 ^ 64 }
        ensures effect { AsksFree (parts_of self.old) frame (outcome_of result) × (parts_of self.new ≡ parts_of self.old) }
        ensures disks { disks_of self.new ≡ disks_of self.old }
        ensures inside { inside_of D.shown self.new ≡ inside_of D.shown self.old }
        ensures events { self.new.hardware.board.events ≡ self.old.hardware.board.events + 1 }
        ensures made { self.new.made ≡ self.old.made }
    {
        self.hardware.board.events += 1;
        if frame >= u64::from(self.hardware.board.memory.frames()) {
            return Answer::Refused(Refusal::FrameOutOfRange);
        }
        Answer::Free(self.driver.is_free(frame as u32))
    }
}
