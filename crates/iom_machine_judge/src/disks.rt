// The disks that were never put into a device.
ghost use Rattle.std.specs.Prelude.{◌≡◌, ◌==◌, IfOk, filter, not};
ghost use Rattle.iom_machine_judge.specs.Words.{is_among, is_missing, without_disk};

use iom_base::Sequence;
use std::alloc::{AllocError, Global};

/// Whether the disk is one of these.
pub(crate) fn is_among(disks: &[u64], disk: u64) -> bool
    ensures { result ≡ is_among disks.now disk }
{
    disks.iter().any(|other| *other == disk)
}

/// Whether a disk is named that isn't one of these.
pub(crate) fn is_missing(disks: &[u64], named: Option<u64>) -> bool
    ensures { result ≡ is_missing disks.now named }
{
    match named {
        None => false,
        Some(disk) => !is_among(disks, disk),
    }
}

/// These disks but the one.
fn others(alloc: Global, disks: &[u64], disk: u64) -> Result<Sequence<u64>, AllocError>
    ensures { IfOk result (λ left. left ≡ filter (λ other. not (other == disk)) disks.now) }
{
    match disks {
        [] => Ok(Sequence::new(alloc)),
        [first, later @ ..] => {
            let mut left = others(alloc, later, disk)?;
            if *first != disk {
                left.push_front(*first)?;
            }
            Ok(left)
        }
    }
}

/// These disks but the one that is named, if one is.
pub(crate) fn without_disk(
    alloc: Global,
    disks: &[u64],
    named: Option<u64>,
) -> Result<Sequence<u64>, AllocError>
    ensures { IfOk result (λ left. left ≡ without_disk named disks.now) }
{
    match named {
        None => Ok(Sequence::from_vec(Vec::from_slice(alloc, disks)?)),
        Some(disk) => others(alloc, disks, disk),
    }
}
