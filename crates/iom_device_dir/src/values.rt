// The fields of contexts and entries whose width isn't that of an integer of Rust. Each is a struct with a ghost
// field: the prover can't carry an enum from one crate to another where a variant holds a struct with a model.
ghost use Rattle.std.specs.Prelude.{◌≡◌, ◌↔◌, ◌≤◌, ◌<◌, ◌^◌, ◌%◌, IsSome, IfSome};

use crate::fields::field;

/// A process soft-context identifier (PSCID), by which translations of a first stage are told apart: a number
/// of 20 bits.
#[derive(Clone, Copy, PartialEq, Eq)]
pub struct Pscid {
    number: u32,
    ghost in_range: { number < 2 ^ 20 },
}

impl Pscid {
    ghost use Rattle.iom_device_dir.specs.Values.{address_space_from};

    /// The identifier of this number. None exactly where it has more than 20 bits.
    pub fn new(number: u32) -> Option<Pscid>
        ensures found { IsSome result ↔ (number < 2 ^ 20) }
        ensures value { IfSome result (λ pscid. pscid.number ≡ number) }
    {
        if number < 1 << 20 {
            Some(Pscid { number })
        } else {
            None
        }
    }

    /// Its number.
    pub fn number(self) -> u32
        ensures value { result ≡ self.number }
        ensures fits { result < 2 ^ 20 }
    {
        self.number
    }

    // The identifier that a word names, in its 20 bits from this one on.
    pub(crate) fn from_word(word: u64, low: u32) -> Pscid
        requires { low ≤ 44 }
        ensures { result ≡ address_space_from low word }
    {
        Pscid {
            number: field(word, low + 19, low) as u32,
        }
    }
}

/// The page number of the root of a second stage, which has 16 KiB and is aligned to that: a multiple of 4, of
/// 44 bits.
#[derive(Clone, Copy, PartialEq, Eq)]
pub struct GuestRoot {
    number: u64,
    ghost in_range: { number < 2 ^ 44 },
    ghost aligned: { number % 4 ≡ 0 },
}

impl GuestRoot {
    ghost use Rattle.iom_device_dir.specs.Values.{guest_root_from};

    /// The root from the page of this number on. None exactly where it has more than 44 bits, or isn't aligned.
    pub fn new(number: u64) -> Option<GuestRoot>
        ensures found { IsSome result ↔ ((number < 2 ^ 44) × (number % 4 ≡ 0)) }
        ensures value { IfSome result (λ root. root.number ≡ number) }
    {
        if number >= 1 << 44 || number % 4 != 0 {
            return None;
        }
        Some(GuestRoot { number })
    }

    /// The number of its first page.
    pub fn number(self) -> u64
        ensures value { result ≡ self.number }
        ensures fits { result < 2 ^ 44 }
        ensures aligned { result % 4 ≡ 0 }
    {
        self.number
    }

    // The root from this page on.
    pub(crate) fn from_aligned(number: u64) -> GuestRoot
        requires fits { number < 2 ^ 44 }
        requires aligned { number % 4 ≡ 0 }
        ensures { result ≡ guest_root_from number }
    {
        GuestRoot { number }
    }
}
