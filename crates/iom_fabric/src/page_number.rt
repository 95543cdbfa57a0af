ghost use Rattle.std.specs.Prelude.{◌≡◌, ◌<◌, ◌^◌, ◌↔◌, IsSome, IfSome};

use std::marker::Model;

/// The number of a page of the 64-bit address space: below 2^52, since pages have 4,096 bytes.
#[derive(Clone, Copy, PartialEq, Eq)]
pub struct PageNumber(u64);

impl Model for PageNumber {
    ghost use Rattle.std.specs.Prelude.{ℕ, ◌<◌, ◌^◌};

    ghost Value = { ℕ };

    ghost view = { λ page. page.0 };

    ghost invariant = { λ page. page.0 < 2 ^ 52 };

    ghost inverse = { λ number. record { 0 = number } };
}

impl PageNumber {
    /// The page with this number. None exactly from 2^52 on.
    pub fn new(number: u64) -> Option<PageNumber>
        ensures found { IsSome result ↔ (number < 2 ^ 52) }
        ensures value { IfSome result (λ page. page ≡ number) }
    {
        if number < 1 << 52 {
            Some(PageNumber(number))
        } else {
            None
        }
    }

    /// The number.
    pub fn number(self) -> u64
        ensures value { result ≡ self }
        ensures range { result < 2 ^ 52 }
    {
        self.0
    }
}
