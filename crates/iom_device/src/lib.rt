//! A plugged device, as the world keeps it: its id, its kind, whether it has a disk, and its own cache of
//! translations, where its kind has one (PCI Express Base Specification, sections 10.2 and 10.3).
//!
//! The layer above may rely on a device having a cache exactly where its kind does, empty when it is plugged
//! in; on what that cache has for an access; and on what a reset and a request to invalidate do to it, and to
//! nothing else of the device.
#![tactic(auto)]

mod device;

pub use device::{Device, place_of, reset};
