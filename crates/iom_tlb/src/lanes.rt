// The ways of a set side by side, eight words at once.
ghost use Rattle.std.specs.Prelude.{◌≡◌, ◌≢◌, ◌<◌, ◌==◌, ◌↔◌, ℕ, IsTrue, IfSome, None, map, slice_index};
ghost use Rattle.std.specs.Simd.Lanes.{mask_l};

use std::simd::prelude::*;

// A bit for each lane that is the word.
fn equal_lanes(lanes: &[u64; 8], word: u64) -> u64
    ensures { result ≡ mask_l (map (λ lane. lane == word) lanes.now) }
{
    u64x8::from_array(*lanes)
        .simd_eq(u64x8::splat(word))
        .to_bitmask()
}

/// Whether the same words stand in both, way by way.
pub(crate) fn are_same_lanes(one: &[u64; 8], other: &[u64; 8]) -> bool
    ensures { IsTrue result ↔ (one.now ≡ other.now) }
{
    one == other
}

/// The lowest of eight ways whose space word and page number are both those asked; None exactly where there is
/// none. All eight are compared at once.
pub fn find_way(spaces: &[u64; 8], pages: &[u64; 8], space: u64, page: u64) -> Option<usize>
    ensures found { IfSome result (λ way. (way < 8) × (slice_index spaces.now way ≡ space)
        × (slice_index pages.now way ≡ page)) }
    ensures lowest { IfSome result (λ way. (lower : ℕ) → lower < way → slice_index spaces.now lower ≡ space
        → slice_index pages.now lower ≢ page) }
    ensures none { result ≡ None → (way : ℕ) → way < 8 → slice_index spaces.now way ≡ space
        → slice_index pages.now way ≢ page }
{
    let same_space = equal_lanes(spaces, space);
    let same_page = equal_lanes(pages, page);
    let both = same_space & same_page;
    if both == 0 {
        return None;
    }
    Some(both.trailing_zeros() as usize)
}
