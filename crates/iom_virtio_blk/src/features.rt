ghost use Rattle.std.specs.Prelude.{◌≡◌};
ghost use Rattle.iom_virtio_blk.specs.Features.{flush_of};

/// The device can be told to flush its cache (virtio 1.2, section 5.2.3).
pub const VIRTIO_BLK_F_FLUSH: u64 = 1 << 9;

/// The device keeps to version 1 of the standard (section 6).
pub const VIRTIO_F_VERSION_1: u64 = 1 << 32;

/// The device is behind a platform that limits or translates its accesses (section 6).
pub const VIRTIO_F_ACCESS_PLATFORM: u64 = 1 << 33;

/// The features without which the device doesn't work.
pub const REQUIRED_FEATURES: u64 = VIRTIO_F_VERSION_1 | VIRTIO_F_ACCESS_PLATFORM;

/// The features that the device offers.
pub const OFFERED_FEATURES: u64 = REQUIRED_FEATURES | VIRTIO_BLK_F_FLUSH;

/// Whether the driver took FLUSH, where it may take these features: none where one is missing that is
/// required, or one is taken that isn't offered.
pub(crate) fn flush_of(features: u64) -> Option<bool>
    ensures { result ≡ flush_of features }
{
    match features {
        OFFERED_FEATURES => Some(true),
        REQUIRED_FEATURES => Some(false),
        _ => None,
    }
}
