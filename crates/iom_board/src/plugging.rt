// How a device is plugged in, and a disk put into one.
ghost use Rattle.std.specs.Prelude.{◌≡◌, ◌≢◌, ◌↔◌, ◌+◌, ◌<◌, ◌^◌, IfOk, IsTrue, false, length, vec_capacity, Some, Err};
ghost use Rattle.std.specs.Option.{option_map_or};
ghost use Rattle.iom_base.specs.DeviceKinds.{is_block_device};
ghost use Rattle.iom_base.specs.Refusals.{first_that_applies};
ghost use Rattle.iom_base.specs.declared.refusal.Refusal.TheVariants.{Memory};
ghost use Rattle.iom_device.specs.Caches.{epoch_in, kind_in, with_has_disk};
ghost use Rattle.iom_board.specs.Counted.{IsCounted};
ghost use Rattle.iom_board.specs.BoardParts.{board_parts, disks_at_hand};
ghost use Rattle.iom_board.specs.Plugging.{why_not_plugged, has_disk_in, MayBePlugged, PlugsNewDevice, PutsDiskIntoDevice, LosesDisk, CanTake};
ghost use Rattle.iom_device.specs.Calls.{with_block_reset};
ghost use Rattle.iom_board.specs.Invariant.{BoardInvariant};

use crate::board::Board;
use crate::disks::{is_among, is_missing, take_out};
use crate::permits::Act;
use iom_base::{DeviceId, DeviceKind, MAX_DEVICES, NewDevice, Refusal};
use iom_device::{Device, place_of, reset};

/// The device with this id has a disk from now on, or has none.
fn set_has_disk(devices: &mut Vec<Device>, id: DeviceId, has: bool)
    ensures { devices.new.items ≡ with_has_disk devices.old.items id has }
{
    if let Some(place) = place_of(devices, id) {
        devices[place].has_disk = has;
    }
}

/// Whether a device is there, and a block device.
fn is_block(known: Option<DeviceKind>) -> bool
    ensures { result ≡ option_map_or is_block_device known false }
{
    match known {
        Some(kind) => kind.is_block_device(),
        None => false,
    }
}

/// The device with this id, which is of the kind, if one is there, is reset, where it is a block device.
fn reset_block(devices: &mut Vec<Device>, id: DeviceId, known: Option<DeviceKind>)
    requires known { known ≡ kind_in devices.old.items id }
    requires epoch { epoch_in devices.old.items id + 1 < 2 ^ 64 }
    ensures { devices.new.items ≡ with_block_reset devices.old.items id }
{
    if is_block(known) {
        reset(devices, id);
    }
}

impl Board {
    /// Why no such device is plugged in with this id, but for want of memory: the first reason that applies.
    fn why_not(&self, id: DeviceId, what: NewDevice) -> Option<Refusal>
        ensures reason { result ≡ first_that_applies (why_not_plugged (disks_at_hand self.now) (board_parts self.now) id what) }
        ensures no_memory { result ≢ Some Memory }
    {
        if self.kind_of(id).is_some() {
            return Some(Refusal::AlreadyPlugged);
        }
        if self.devices.len() >= MAX_DEVICES {
            return Some(Refusal::TooManyDevices);
        }
        if is_missing(&self.disks, what.disk()) {
            return Some(Refusal::BadMedium);
        }
        None
    }

    /// Whether such a device may be plugged in with this id. Where the answer is `Ok`, the list of devices has room for one more from
    /// then on, and so [`Board::plug`] isn't refused: what else has to be done for a device can be done between the two. Refused
    /// as `plug` is. Nothing changes but that room, and no event is counted.
    pub fn prepare_plug(&mut self, id: DeviceId, what: NewDevice) -> Result<(), Refusal>
        ensures answer { MayBePlugged (disks_at_hand self.old) (board_parts self.old) id what result }
        ensures has_room { IfOk result (λ done. length (board_parts self.new).devices < vec_capacity self.new.devices) }
        ensures had_room { length (board_parts self.old).devices < vec_capacity self.old.devices → result ≢ Err Memory }
        ensures parts { board_parts self.new ≡ board_parts self.old }
        ensures disks { disks_at_hand self.new ≡ disks_at_hand self.old }
        ensures events { self.new.events ≡ self.old.events }
    {
        if let Some(why) = self.why_not(id, what) {
            return Err(why);
        }
        if self.devices.reserve(1).is_err() {
            return Err(Refusal::Memory);
        }
        Ok(())
    }

    /// A device is plugged in, with nothing in flight and an empty cache, if it has one; a block device with the disk that it
    /// names, which isn't at hand any more. The first that applies of `AlreadyPlugged`, `TooManyDevices`, where 16 are, and
    /// `BadMedium`, where the disk isn't at hand; else `Memory`, where an allocation is refused, and never where the list of devices
    /// has room for one more. Nothing changes then.
    pub fn plug(&mut self, id: DeviceId, what: NewDevice) -> Result<(), Refusal>
        requires invariants { BoardInvariant (board_parts self.old) self.old.events }
        requires count { self.old.events + 1 < 2 ^ 64 }
        ensures effect { PlugsNewDevice (disks_at_hand self.old) (board_parts self.old) id what result
            (board_parts self.new) (disks_at_hand self.new) }
        ensures room { length (board_parts self.old).devices < vec_capacity self.old.devices → result ≢ Err Memory }
        ensures invariants { BoardInvariant (board_parts self.new) self.new.events }
        ensures events { self.new.events ≡ self.old.events + 1 }
    {
        self.events += 1;
        self.prepare_plug(id, what)?;
        self.iommu.add(id);
        take_out(&mut self.disks, what.disk());
        self.devices
            .push(Device::new(id, what.kind(), what.disk()))
            .unwrap();
        Ok(())
    }

    /// Whether the device with this id, if it is there, has a disk.
    fn has_disk(&self, id: DeviceId) -> bool
        ensures { result ≡ has_disk_in self.now.devices.items id }
    {
        match self.device_with(id) {
            Some(device) => device.has_disk,
            None => false,
        }
    }

    /// Whether the disk may be put into the device.
    fn can_take(&self, id: DeviceId, disk: u64) -> bool
        ensures { IsTrue result ↔ CanTake (disks_at_hand self.now) self.now.devices.items id disk }
    {
        if self.has_disk(id) {
            return false;
        }
        is_among(&self.disks, disk)
    }

    /// The disk is put into the block device, and isn't at hand any more. `NoSuchDevice` where no device has the id, `WrongKind`
    /// where it is no block device, `BadMedium` where it has a disk or the disk isn't at hand: then nothing changes.
    pub fn medium(&mut self, id: DeviceId, disk: u64) -> Result<(), Refusal>
        requires invariants { BoardInvariant (board_parts self.old) self.old.events }
        requires count { self.old.events + 1 < 2 ^ 64 }
        ensures effect { PutsDiskIntoDevice (disks_at_hand self.old) (board_parts self.old) id disk result
            (board_parts self.new) (disks_at_hand self.new) }
        ensures invariants { BoardInvariant (board_parts self.new) self.new.events }
        ensures events { self.new.events ≡ self.old.events + 1 }
    {
        self.events += 1;
        if let Some(why) = self.refusal(Act::HoldDisk, id) {
            return Err(why);
        }
        if !self.can_take(id, disk) {
            return Err(Refusal::BadMedium);
        }
        take_out(&mut self.disks, Some(disk));
        set_has_disk(&mut self.devices, id, true);
        Ok(())
    }

    /// The disk of the device goes, if it has one, and is never at hand again; a block device is reset. Nothing changes where no
    /// device has the id, `NoSuchDevice`.
    pub fn remove_disk(&mut self, id: DeviceId) -> Result<(), Refusal>
        requires invariants { BoardInvariant (board_parts self.old) self.old.events }
        requires count { self.old.events + 1 < 2 ^ 64 }
        ensures effect { LosesDisk (board_parts self.old) id result (board_parts self.new) }
        ensures invariants { BoardInvariant (board_parts self.new) self.new.events }
        ensures counted { IsCounted self.old self.new }
    {
        self.events += 1;
        if let Some(why) = self.refusal(Act::Any, id) {
            return Err(why);
        }
        set_has_disk(&mut self.devices, id, false);
        let known = self.kind_of(id);
        reset_block(&mut self.devices, id, known);
        Ok(())
    }
}
