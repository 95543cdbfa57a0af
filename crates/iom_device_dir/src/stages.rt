// The stages of translation that a context asks for, by their modes.
ghost use Rattle.std.specs.Prelude.{◌≡◌, ◌<◌, ◌*◌, ◌^◌};
ghost use Rattle.iom_device_dir.specs.Decoded.{size_at, first_stage_at, second_stage_at};
ghost use Rattle.iom_device_dir.specs.Formats.{table_mode};
ghost use Rattle.iom_device_dir.specs.Encoded.{first_stage_word, second_stage_word};

use crate::values::GuestRoot;
use iom_base::{Ppn, Size};

/// The first stage of a context (`fsc`, where PDTV is 0).
#[derive(Clone, Copy, PartialEq, Eq)]
pub enum FirstStage {
    /// No translation.
    Bare,
    /// Page tables of the size, Sv39 or Sv48, from the root in this page on.
    Tables { size: Size, root: Ppn },
}

/// The second stage of a context (`iohgatp`).
#[derive(Clone, Copy, PartialEq, Eq)]
pub enum SecondStage {
    /// No translation.
    Bare,
    /// Page tables of the size, Sv39x4 or Sv48x4, from the root of 16 KiB on that begins in this page.
    Tables { size: Size, root: GuestRoot },
}

/// The mode Sv39 in `fsc`, and Sv39x4 in `iohgatp`.
const SV39: u64 = 8;

/// The mode Sv48 in `fsc`, and Sv48x4 in `iohgatp`.
const SV48: u64 = 9;

/// The lowest bit of MODE, in `fsc` and in `iohgatp`.
const MODE: u32 = 60;

/// The size of tables by their mode. None where it isn't offered, or has none.
fn size_at(mode: u64) -> Option<Size>
    ensures { result ≡ size_at mode }
{
    match mode {
        SV39 => Some(Size::Sv39),
        SV48 => Some(Size::Sv48),
        _ => None,
    }
}

/// The mode of tables of the size.
fn mode_of(size: Size) -> u64
    ensures value { result ≡ table_mode size }
    ensures small { result < 10 }
{
    match size {
        Size::Sv39 => SV39,
        Size::Sv48 => SV48,
    }
}

impl FirstStage {
    // None where the mode isn't offered.
    pub(crate) fn at(mode: u64, root: Ppn) -> Option<FirstStage>
        ensures { result ≡ first_stage_at mode root }
    {
        if mode == 0 {
            return Some(FirstStage::Bare);
        }
        match size_at(mode) {
            Some(size) => Some(FirstStage::Tables { size, root }),
            None => None,
        }
    }

    // MODE and PPN.
    pub(crate) fn word(self) -> u64
        ensures { result ≡ first_stage_word self }
    {
        match self {
            FirstStage::Bare => 0,
            FirstStage::Tables { size, root } => (mode_of(size) << MODE) + root.number(),
        }
    }
}

impl SecondStage {
    // None where the mode isn't offered, or the root of its tables isn't aligned.
    pub(crate) fn at(mode: u64, ppn: u64) -> Option<SecondStage>
        requires { ppn < 2 ^ 44 }
        ensures { result ≡ second_stage_at mode ppn }
    {
        if mode == 0 {
            return Some(SecondStage::Bare);
        }
        match size_at(mode) {
            Some(size) if ppn % 4 == 0 => Some(SecondStage::Tables {
                size,
                root: GuestRoot::from_aligned(ppn),
            }),
            _ => None,
        }
    }

    // MODE and PPN. GSCID, between the two, is 0.
    pub(crate) fn word(self) -> u64
        ensures value { result ≡ second_stage_word self }
        ensures room { result < 10 * 2 ^ 60 }
    {
        match self {
            SecondStage::Bare => 0,
            SecondStage::Tables { size, root } => (mode_of(size) << MODE) + root.number(),
        }
    }
}
