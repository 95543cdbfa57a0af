//! Sixteen hexadecimal digits at once, or 32, or 128.
ghost use Rattle.std.specs.Prelude.{◌≡◌, ◌≤◌, ◌+◌, ◌++◌, ◌↔◌, ℕ, List, length, map, take, IsTrue, None};
ghost use Rattle.std.specs.Bool.{MatchBool};
ghost use Rattle.std.specs.List.{AllByRecursion};
ghost use Rattle.iom_script.specs.Reading.{Reads};
ghost use Rattle.iom_script.specs.Cuts.{digit_of_value, value_of_digit, IsHexOf};

use crate::buffer::write_at;
use std::simd::prelude::*;

/// The value of each byte as a lower-case hexadecimal digit, and 240; or less, where it is none.
fn values_of<const N: usize>(text: Simd<u8, N>) -> Simd<u8, N>
    ensures { result ≡ map value_of_digit text.entry }
{
    // What isn't such a digit saturates, or comes to less.
    let decimal = (text - Simd::splat(b'9' + 1)).saturating_sub(Simd::splat(6));
    let letter = (Simd::splat(b'a' - 1) - text).saturating_sub(Simd::splat(10)) ^ Simd::splat(15);
    decimal.simd_max(letter)
}

/// Whether sixteen are all of digits.
fn are_values(values: u8x16) -> bool
    ensures { IsTrue result ↔ AllByRecursion (λ value. 240 ≤ value) values }
{
    values.simd_lt(u8x16::splat(240)).to_bitmask() == 0
}

/// Whether 32 are all of digits.
fn are_all_values(values: u8x32) -> bool
    ensures { IsTrue result ↔ AllByRecursion (λ value. 240 ≤ value) values }
{
    values.simd_lt(u8x32::splat(240)).to_bitmask() == 0
}

/// Whether 64 are all of digits.
fn are_values_of_64(values: u8x64) -> bool
    ensures { IsTrue result ↔ AllByRecursion (λ value. 240 ≤ value) values }
{
    let first = values.extract::<0, 32>();
    let second = values.extract::<32, 32>();
    first
        .simd_min(second)
        .simd_lt(u8x32::splat(240))
        .to_bitmask()
        == 0
}

/// The bytes that have two of these values each, the higher half first.
fn joined(values: u8x16) -> [u8; 8]
    requires { AllByRecursion (λ value. 240 ≤ value) values }
    ensures { IsHexOf (map digit_of_value values) result }
{
    // The first of two values is in the lower byte of its lane. Times 4,096 it comes, sixteenfold, to the second in the upper byte.
    let pairs = u16x8::from_le_bytes(values);
    let bytes = pairs * u16x8::splat(4097) / u16x8::splat(256);
    (bytes.cast::<u8>() + u8x8::splat(16)).to_array()
}

/// The same of twice as many.
fn all_joined(values: u8x32) -> [u8; 16]
    requires { AllByRecursion (λ value. 240 ≤ value) values }
    ensures { IsHexOf (map digit_of_value values) result }
{
    let pairs = u16x16::from_le_bytes(values);
    let bytes = pairs * u16x16::splat(4097) / u16x16::splat(256);
    (bytes.cast::<u8>() + u8x16::splat(16)).to_array()
}

/// The same of 64.
fn joined_of_64(values: u8x64) -> [u8; 32]
    requires { AllByRecursion (λ value. 240 ≤ value) values }
    ensures { IsHexOf (map digit_of_value values) result }
{
    let pairs = u16x32::from_le_bytes(values);
    let bytes = pairs * u16x32::splat(4097) / u16x32::splat(256);
    (bytes.cast::<u8>() + u8x32::splat(16)).to_array()
}

/// The eight bytes that sixteen hexadecimal digits say.
pub fn eight_bytes(digits: &[u8]) -> Option<[u8; 8]>
    requires { length digits.now ≡ 16 }
    ensures { Reads result (IsHexOf digits.now) }
{
    let values = values_of(u8x16::from_slice(digits));
    if are_values(values) {
        Some(joined(values))
    } else {
        None
    }
}

/// The sixteen bytes that 32 hexadecimal digits say.
pub fn sixteen_bytes(digits: &[u8]) -> Option<[u8; 16]>
    requires { length digits.now ≡ 32 }
    ensures { Reads result (IsHexOf digits.now) }
{
    let values = values_of(u8x32::from_slice(digits));
    if are_all_values(values) {
        Some(all_joined(values))
    } else {
        None
    }
}

/// Writes from the place on the 64 bytes that 128 hexadecimal digits say. False where they don't.
#[inline(always)]
pub(crate) fn put_64(places: &mut [u8], place: usize, digits: &[u8]) -> bool
    requires digits { length digits.now ≡ 128 }
    requires room { place + 64 ≤ length places.old }
    ensures len { length places.new ≡ length places.old }
    ensures said { MatchBool result ((bytes : List ℕ) × IsHexOf digits.now bytes × (take (place + 64) places.new ≡ take place places.old ++ bytes)) (Reads None (IsHexOf digits.now)) }
{
    let first = values_of(u8x64::from_slice(digits));
    let second = values_of(u8x64::from_slice(&digits[64..]));
    if !are_values_of_64(first.simd_min(second)) {
        return false;
    }
    let front = joined_of_64(first);
    let back = joined_of_64(second);
    write_at(places, place, &front);
    write_at(places, place + 32, &back);
    true
}
