// Words of 64 bits.
ghost use Rattle.std.specs.Prelude.{◌≡◌, ◌≢◌, ◌==◌, ◌<◌, ℕ, IfSome, IfNone};
ghost use Rattle.std.specs.Int.RustNames.{bit_and};
ghost use Rattle.std.specs.Int.{bit_at};

/// The bits of a word.
pub(crate) const BITS: usize = 64;

/// The word with the bit at the place set.
pub(crate) fn with_bit(word: u64, place: usize) -> u64
    requires { place < 64 }
    ensures set { bit_at result place ≡ 1 }
    ensures others { (k : ℕ) → k ≢ place → bit_at result k ≡ bit_at word k }
{
    word | (1 << place)
}

/// Whether the bit at the place is set.
pub(crate) fn has_bit(word: u64, place: usize) -> bool
    requires { place < 64 }
    ensures { result ≡ (bit_at word place == 1) }
{
    (word >> place) & 1 == 1
}

/// The lowest bit that is set in both words.
pub(crate) fn first_in_both(one: u64, other: u64) -> Option<u32>
    ensures some { IfSome result (λ k. (k < 64) × (bit_at one k ≡ 1) × (bit_at other k ≡ 1)) }
    ensures lowest { IfSome result (λ k. (j : ℕ) → j < k → ¬ ((bit_at one j ≡ 1) × (bit_at other j ≡ 1))) }
    ensures none { IfNone result (bit_and one other ≡ 0) }
{
    let both = one & other;
    if both == 0 {
        return None;
    }
    Some(both.trailing_zeros())
}
