//! The state of the ledger machine as it is kept.

use crate::frames::KeptFrames;
use crate::grants::KeptGrants;
use iom_base::{Sequence, Spare};
use iom_machine::{Device, Limits};
use std::alloc::{AllocError, Global};

/// A state without its history, in whose place the grants are kept.
#[derive(Drop)]
pub struct KeptState {
    pub limits: Limits,
    /// How many levels the device directory has, from 1 to 3.
    pub levels: u8,
    pub frames: KeptFrames,
    pub grants: KeptGrants,
    /// In the order of plugging.
    pub devices: Sequence<Device>,
    /// The numbers of the disks that were never put into a device.
    pub disks: Sequence<u64>,
    /// For the bytes of the next write that is accepted.
    pub spare: Spare,
}

impl KeptState {
    ghost use Rattle.std.specs.Prelude.{◌≡◌, ◌≤◌, ◌^◌, [], IfOk};
    ghost use Rattle.iom_kept_state.specs.Words.{opening, IsPastOf, state_of};

    /// The state at power-on, with these limits, so many frames and levels of the device directory, and disks of these
    /// numbers. An address has at most 52 bits, so there are no more frames than their numbers of 40 bits name.
    pub fn power_on(
        alloc: Global,
        limits: Limits,
        frames: u64,
        levels: u8,
        disks: &[u64],
    ) -> Result<KeptState, AllocError>
        requires four { 4 ≤ frames }
        requires small { frames ≤ 2 ^ 40 }
        ensures past { IfOk result (λ kept. IsPastOf kept.grants []) }
        ensures state { IfOk result (λ kept. state_of kept [] ≡ opening limits frames levels disks.now) }
    {
        Ok(KeptState {
            limits,
            levels,
            frames: KeptFrames::at_power_on(alloc, frames)?,
            grants: KeptGrants::new(alloc)?,
            devices: Sequence::new(alloc),
            disks: Sequence::from_vec(Vec::from_slice(alloc, disks)?),
            spare: Spare::new(alloc),
        })
    }
}
