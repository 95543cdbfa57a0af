//! Words of 64 bits.
ghost use Rattle.std.specs.Prelude.{◌≡◌, ◌≢◌, ◌↔◌, ◌<◌, ◌≤◌, ℕ, MatchOption};
ghost use Rattle.std.specs.Int.{bit_at};
ghost use Rattle.iom_frame_set.specs.Spans.{IsHighestBit};

/// The bits of a word.
pub(crate) const BITS: u32 = 64;

/// The bits below the place.
pub(crate) fn ones_below(place: u32) -> u64
    ensures { (k : ℕ) → k < 64 → (bit_at result k ≡ 1) ↔ (k < place) }
{
    if place >= BITS {
        u64::MAX
    } else {
        (1 << place) - 1
    }
}

/// The word with the bit at the place set.
pub(crate) fn with_bit(word: u64, place: u32) -> u64
    requires { place < 64 }
    ensures set { bit_at result place ≡ 1 }
    ensures others { (k : ℕ) → k ≢ place → bit_at result k ≡ bit_at word k }
{
    word | (1 << place)
}

/// The word with the bit at the place clear.
pub(crate) fn without_bit(word: u64, place: u32) -> u64
    requires { place < 64 }
    ensures clear { bit_at result place ≡ 0 }
    ensures others { (k : ℕ) → k < 64 → k ≢ place → bit_at result k ≡ bit_at word k }
{
    word & !(1 << place)
}

/// The place of the highest bit that is set.
pub(crate) fn highest_bit(word: u64) -> Option<u32>
    ensures { MatchOption result ((k : ℕ) → bit_at word k ≡ 0) (IsHighestBit word) }
{
    if word == 0 {
        return None;
    }
    Some(BITS - 1 - word.leading_zeros())
}
