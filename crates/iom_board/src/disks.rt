//! The disks that were never put into a device, by their numbers.
ghost use Rattle.std.specs.Prelude.{◌≡◌};
ghost use Rattle.iom_base.specs.Disks.{is_among, is_missing, without_disk};

/// Whether the disk is one of these.
pub(crate) fn is_among(disks: &[u64], disk: u64) -> bool
    ensures { result ≡ is_among disks.now disk }
{
    disks.iter().any(|other| *other == disk)
}

/// Whether a disk is named, and isn't one of these.
pub(crate) fn is_missing(disks: &[u64], named: Option<u64>) -> bool
    ensures { result ≡ is_missing disks.now named }
{
    match named {
        None => false,
        Some(disk) => !is_among(disks, disk),
    }
}

/// The disk that is named, if one is, is put into a device, and so is no more among these.
pub(crate) fn take_out(disks: &mut Vec<u64>, named: Option<u64>)
    ensures { disks.new.items ≡ without_disk named disks.old.items }
{
    if let Some(disk) = named {
        disks.retain(|other| *other != disk);
    }
}
