ghost use Rattle.std.specs.Prelude.{◌≡◌, ◌↔◌, ◌+◌, ◌<◌, ◌≤◌, IsTrue, OnOk, MatchOption, length, max};
ghost use Rattle.iom_frame_set.specs.Sets.{has, room, IsEmpty, HasEachFrame, HasSame, InsertsFrame, RemovesFrame, NoneIsCommon, IsHighestCommon, common_below};
ghost use Rattle.iom_frame_set.specs.Spans.{NoneIsInBoth, IsHighestInBoth};

use crate::bits::BITS;
use crate::number_set::NumberSet;
use std::alloc::{AllocError, Global};
use std::marker::Model;

/// A set of frames, and the numbers of its words that aren't 0.
#[derive(Drop)]
pub struct FrameSet {
    frames: NumberSet,
    filled: NumberSet,
}

impl Model for FrameSet {
    ghost use Rattle.iom_frame_set.specs.Sets.{Words};

    ghost Value = { Words };

    ghost view = { λ s. s.frames };

    ghost use Rattle.iom_frame_set.specs.Spans.{IsSummary};

    ghost invariant = { λ s. IsSummary s.frames s.filled };
}

impl FrameSet {
    /// The set of no frames. Takes no memory.
    pub fn empty(alloc: Global) -> FrameSet
        ensures { IsEmpty result }
    {
        FrameSet {
            frames: NumberSet::empty(alloc),
            filled: NumberSet::empty(alloc),
        }
    }

    /// The set of all frames. Takes no memory.
    pub fn full(alloc: Global) -> FrameSet
        ensures { HasEachFrame result }
    {
        FrameSet {
            frames: NumberSet::full(alloc),
            filled: NumberSet::full(alloc),
        }
    }

    /// Makes room for the frame and those below it, and for no more than the 64 of the frame's word. The same
    /// frames are in the set, also where memory is refused.
    pub fn make_room(&mut self, frame: u32) -> Result<(), AllocError>
        ensures within { OnOk result (frame < room self.new) }
        ensures grows { room self.old ≤ room self.new }
        ensures no_further { room self.new ≤ max (room self.old) (frame + 64) }
        ensures same { HasSame self.old self.new }
    {
        self.filled.make_room(frame / BITS)?;
        self.frames.make_room(frame)
    }

    /// Puts the frame into the set.
    pub fn insert(&mut self, frame: u32)
        requires { frame < room self.old }
        ensures inserted { InsertsFrame self.old self.new frame }
        ensures room { room self.new ≡ room self.old }
    {
        self.frames.insert(frame);
        self.filled.insert(frame / BITS);
    }

    /// Takes the frame out of the set, if it is there.
    pub fn remove(&mut self, frame: u32)
        requires { frame < room self.old }
        ensures removed { RemovesFrame self.old self.new frame }
        ensures room { room self.new ≡ room self.old }
    {
        self.frames.remove(frame);
        if self.frames.word(frame / BITS) == 0 {
            self.filled.remove(frame / BITS);
        }
    }

    /// Whether the frame is in the set.
    pub fn contains(&self, frame: u32) -> bool
        ensures { result ≡ has self.now frame }
    {
        self.frames.contains(frame)
    }

    /// The highest frame below the limit that is in both sets.
    fn highest_common(&self, other: &FrameSet, limit: u32) -> Option<u32>
        ensures { MatchOption result (NoneIsInBoth self.now other.now 0 limit) (IsHighestInBoth self.now other.now 0 limit) }
    {
        let mut below = limit / BITS;
        if let Some(frame) = self
            .frames
            .highest_in_word(&other.frames, below, limit % BITS)
        {
            return Some(frame);
        }
        while let Some(index) = self.filled.highest_in_both(&other.filled, below) {
            if let Some(frame) = self.frames.highest_in_word(&other.frames, index, BITS) {
                return Some(frame);
            }
            below = index;
        }
        None
    }

    /// The highest frame below the limit that is in both sets and isn't the named one. Looks at a word of
    /// each for 64 frames, from the limit's down to the one that has it, and passes over those where either
    /// has none: that a look at one word for 4,096 frames shows.
    pub fn highest_in_both(&self, other: &FrameSet, limit: u32, named: Option<u32>) -> Option<u32>
        ensures { MatchOption result (NoneIsCommon self.now other.now named limit) (IsHighestCommon self.now other.now named limit) }
    {
        match self.highest_common(other, limit) {
            Some(highest) if named == Some(highest) => self.highest_common(other, highest),
            found => found,
        }
    }

    /// How many frames below the limit are in both sets. Looks at a word of each for 64 frames.
    pub fn count_in_both(&self, other: &FrameSet, limit: u32) -> u32
        ensures { result ≡ length (common_below self.now other.now limit) }
    {
        self.frames.count_in_both(&other.frames, limit)
    }

    /// Whether the two are equal: the same frames are in both, and both have room for the same.
    // The numbers of the filled words are determined by the words.
    pub fn is_same(&self, other: &FrameSet) -> bool
        ensures { IsTrue result ↔ (self.now ≡ other.now) }
    {
        self.frames.is_same(&other.frames)
    }
}
