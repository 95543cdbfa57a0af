ghost use Rattle.std.specs.Prelude.{◌≡◌, ◌<◌, ◌≤◌, ◌+◌, ◌*◌, ◌^◌, ℕ, true, false, IfSome, IfNone};
ghost use Rattle.iom_table_survey.specs.Rows.{row_has, frame_place, GrowsBy, IsInRun, StandInBoth};

use crate::bits::{BITS, first_in_both, has_bit, with_bit};
use std::marker::Model;

/// The words of a row: a bit for each frame of the largest memory, and one for all further frames.
const WORDS: usize = 65;

/// The place of all frames from here on: the largest memory has no such frame.
const FURTHER: u64 = 4096;

/// A set of frames, a bit for each; those from 4,096 on, where no memory has any, share one. Seen as its words.
#[derive(Drop)]
pub struct FrameRow {
    words: [u64; WORDS],
}

impl Model for FrameRow {
    ghost use Rattle.std.specs.Prelude.{◌≡◌, List, ℕ, length};

    ghost Value = { List ℕ };

    ghost view = { λ row. row.words };

    ghost invariant = { λ row. length row.words ≡ 65 };
}

/// The place of a frame in a row.
fn place_of(frame: u64) -> usize
    ensures { result ≡ frame_place frame }
{
    frame.min(FURTHER) as usize
}

impl FrameRow {
    /// The set of no frame.
    pub fn new() -> FrameRow
        ensures { (f : ℕ) → row_has result f ≡ false }
    {
        FrameRow { words: [0; WORDS] }
    }

    /// The set of all frames.
    fn full() -> FrameRow
        ensures { (f : ℕ) → row_has result f ≡ true }
    {
        FrameRow {
            words: [u64::MAX; WORDS],
        }
    }

    /// Whether the frame is in the set.
    pub fn contains(&self, frame: u64) -> bool
        ensures { result ≡ row_has self.now frame }
    {
        let place = place_of(frame);
        has_bit(self.words[place / BITS], place % BITS)
    }

    /// Puts the frame into the set.
    pub fn insert(&mut self, frame: u64)
        ensures { GrowsBy self.old self.new (λ f. f ≡ frame) }
    {
        let place = place_of(frame);
        self.words[place / BITS] = with_bit(self.words[place / BITS], place % BITS);
    }

    /// Puts so many frames from the first on into the set.
    pub fn insert_run(&mut self, first: u64, count: u64)
        requires some { 0 < count }
        requires fits { first + count < 2 ^ 64 }
        ensures { GrowsBy self.old self.new (IsInRun first count) }
    {
        let end = (first + count).min(FURTHER + 1);
        for place in first.min(FURTHER)..end {
            self.insert(place);
        }
    }

    /// Puts all frames into the set.
    pub fn insert_all(&mut self)
        ensures { (f : ℕ) → row_has self.new f ≡ true }
    {
        *self = FrameRow::full();
    }

    /// Takes all frames out of the set.
    pub fn clear(&mut self)
        ensures { (f : ℕ) → row_has self.new f ≡ false }
    {
        *self = FrameRow::new();
    }

    /// Puts all frames of the other set into this one.
    pub fn union(&mut self, other: &FrameRow)
        ensures { GrowsBy self.old self.new (λ f. row_has other.now f ≡ true) }
    {
        for index in 0..WORDS {
            self.words[index] = self.words[index] | other.words[index];
        }
    }

    /// Whether none of the 64 frames from 64 times the index on is in the set.
    pub(crate) fn has_none_of(&self, index: usize) -> bool
        requires { index < 64 }
        ensures { result ≡ true → (k : ℕ) → k < 64 → row_has self.now (64 * index + k) ≡ false }
    {
        self.words[index] == 0
    }

    /// The first frame that is in both sets; 4,096, where no other is, and each has some frame from there on.
    pub fn first_common(&self, other: &FrameRow) -> Option<u64>
        ensures some { IfSome result (λ f. StandInBoth self.now other.now f × (f ≤ 4096)) }
        ensures first { IfSome result (λ f. (g : ℕ) → g < f → ¬ StandInBoth self.now other.now g) }
        ensures none { IfNone result ((f : ℕ) → ¬ StandInBoth self.now other.now f) }
    {
        for index in 0..WORDS - 1 {
            if let Some(bit) = first_in_both(self.words[index], other.words[index]) {
                return Some((index * BITS) as u64 + u64::from(bit));
            }
        }
        if self.contains(FURTHER) && other.contains(FURTHER) {
            return Some(FURTHER);
        }
        None
    }
}
