// The fields of commands whose width isn't that of an integer of Rust.
ghost use Rattle.std.specs.Prelude.{◌≡◌, ◌↔◌, ◌<◌, ◌%◌, ◌^◌, IsSome, IfSome};

use std::marker::Model;

/// A process soft-context identifier (PSCID): a number of 20 bits.
#[derive(Clone, Copy, PartialEq, Eq)]
pub struct Pscid {
    number: u32,
}

impl Model for Pscid {
    ghost use Rattle.std.specs.Prelude.{ℕ, ◌<◌, ◌^◌};

    ghost Value = { ℕ };

    ghost view = { λ pscid. pscid.number };

    ghost invariant = { λ pscid. pscid.number < 2 ^ 20 };

    ghost inverse = { λ number. record { number = number } };
}

impl Pscid {
    /// The identifier of this number. None exactly where it has more than 20 bits.
    pub fn new(number: u32) -> Option<Pscid>
        ensures found { IsSome result ↔ (number < 2 ^ 20) }
        ensures value { IfSome result (λ pscid. pscid ≡ number) }
    {
        if number < 1 << 20 {
            Some(Pscid { number })
        } else {
            None
        }
    }

    /// Its number.
    pub fn number(self) -> u32
        ensures value { result ≡ self }
        ensures fits { result < 2 ^ 20 }
    {
        self.number
    }
}

/// The number of a page: an address without its lowest 12 bits, so a number of 52 bits.
#[derive(Clone, Copy, PartialEq, Eq)]
pub struct PageNumber {
    number: u64,
}

impl Model for PageNumber {
    ghost use Rattle.std.specs.Prelude.{ℕ, ◌<◌, ◌^◌};

    ghost Value = { ℕ };

    ghost view = { λ page. page.number };

    ghost invariant = { λ page. page.number < 2 ^ 52 };

    ghost inverse = { λ number. record { number = number } };
}

impl PageNumber {
    /// The page of this number. None exactly where it has more than 52 bits.
    pub fn new(number: u64) -> Option<PageNumber>
        ensures found { IsSome result ↔ (number < 2 ^ 52) }
        ensures value { IfSome result (λ page. page ≡ number) }
    {
        if number < 1 << 52 {
            Some(PageNumber { number })
        } else {
            None
        }
    }

    /// Its number.
    pub fn number(self) -> u64
        ensures value { result ≡ self }
        ensures fits { result < 2 ^ 52 }
    {
        self.number
    }
}

/// The number of a device as commands name it (DID, or RID with DSEG above it): a number of 24 bits.
#[derive(Clone, Copy, PartialEq, Eq)]
pub struct DeviceNumber {
    number: u32,
}

impl Model for DeviceNumber {
    ghost use Rattle.std.specs.Prelude.{ℕ, ◌<◌, ◌^◌};

    ghost Value = { ℕ };

    ghost view = { λ device. device.number };

    ghost invariant = { λ device. device.number < 2 ^ 24 };

    ghost inverse = { λ number. record { number = number } };
}

impl DeviceNumber {
    /// The device of this number. None exactly where it has more than 24 bits.
    pub fn new(number: u32) -> Option<DeviceNumber>
        ensures found { IsSome result ↔ (number < 2 ^ 24) }
        ensures value { IfSome result (λ device. device ≡ number) }
    {
        if number < 1 << 24 {
            Some(DeviceNumber { number })
        } else {
            None
        }
    }

    /// Its number.
    pub fn number(self) -> u32
        ensures value { result ≡ self }
        ensures fits { result < 2 ^ 24 }
    {
        self.number
    }
}

/// The address at which a fence stores its data: a multiple of 4.
#[derive(Clone, Copy, PartialEq, Eq)]
pub struct FenceAddress {
    address: u64,
}

impl Model for FenceAddress {
    ghost use Rattle.std.specs.Prelude.{ℕ, ◌≡◌, ◌%◌};

    ghost Value = { ℕ };

    ghost view = { λ place. place.address };

    ghost invariant = { λ place. place.address % 4 ≡ 0 };

    ghost inverse = { λ address. record { address = address } };
}

impl FenceAddress {
    /// The place at this address. None exactly where it isn't a multiple of 4.
    pub fn new(address: u64) -> Option<FenceAddress>
        ensures found { IsSome result ↔ (address % 4 ≡ 0) }
        ensures value { IfSome result (λ place. place ≡ address) }
    {
        if address % 4 == 0 {
            Some(FenceAddress { address })
        } else {
            None
        }
    }

    /// Its address.
    pub fn address(self) -> u64
        ensures value { result ≡ self }
        ensures aligned { result % 4 ≡ 0 }
    {
        self.address
    }
}
