// A message arrives: at the IOMMU, if a device sent it, and else at its device (PCI Express Base Specification, sections
// 10.2 and 10.3).
ghost use Rattle.std.specs.Prelude.{◌≡◌, ◌+◌, ◌<◌, ◌^◌, List, length, Option};
ghost use Rattle.iom_ats_cache.specs.Cache.{Cache};
ghost use Rattle.iom_device.specs.Caches.{cache_of, epoch_in, with_cache};
ghost use Rattle.iom_device.specs.Calls.{Obeys};
ghost use Rattle.iom_fabric.specs.declared.fabric.OnLink.{OnLink};
ghost use Rattle.iom_iommu.specs.Parts.{frames_of};
ghost use Rattle.iom_board.specs.Counted.{IsCounted};
ghost use Rattle.iom_board.specs.Deliveries.{TakesReply, MessageArrives, DeliversAtPlace};
ghost use Rattle.iom_board.specs.BoardParts.{board_parts};
ghost use Rattle.iom_board.specs.Invariant.{BoardInvariant};

use crate::answers::Delivered;
use crate::board::Board;
use iom_base::DeviceId;
use iom_device::{Device, place_of};
use iom_fabric::{Fabric, Message, PageNumber, Range, Translation};
use iom_iommu::Iommu;
use iom_phys_mem::Memory;
use iom_tlb::Ioatc;

/// A device takes an answer into its cache, and ignores it where it has none.
fn take(device: &mut Device, epoch: u64, page: PageNumber, answer: Translation) -> Delivered
    ensures taken { TakesReply device.old.cache epoch page answer result device.new.cache }
    ensures rest { device.new ≡ record device.old { cache = device.new.cache } }
{
    match &mut device.cache {
        Some(cache) => Delivered::Taken(cache.answer(epoch, page, answer)),
        None => Delivered::Ignored,
    }
}

/// The device with this id takes an answer, and ignores it where it has no cache.
fn take_answer(
    devices: &mut Vec<Device>,
    id: DeviceId,
    epoch: u64,
    page: PageNumber,
    answer: Translation,
) -> Delivered
    ensures { (after : Option Cache) × TakesReply (cache_of devices.old.items id) epoch page answer result after
        × (devices.new.items ≡ with_cache devices.old.items id after) }
{
    match place_of(devices, id) {
        Some(place) => take(&mut devices[place], epoch, page, answer),
        None => Delivered::Ignored,
    }
}

/// The device with this id obeys a request to invalidate, and ignores it where it has no cache: its word that it
/// is done.
fn obey(devices: &mut Vec<Device>, id: DeviceId, serial: u64, range: Range) -> Option<Message>
    requires { epoch_in devices.old.items id + 1 < 2 ^ 64 }
    ensures { (after : Option Cache) × Obeys (cache_of devices.old.items id) serial range result after
        × (devices.new.items ≡ with_cache devices.old.items id after) }
{
    match place_of(devices, id) {
        Some(place) => devices[place].obey(serial, range),
        None => None,
    }
}

/// The message on the device's link arrives: at the IOMMU, if the device sent it, and else at the device.
fn arrive(
    memory: &mut Memory,
    iommu: &mut Iommu<Ioatc>,
    devices: &mut Vec<Device>,
    fabric: &mut Fabric,
    id: DeviceId,
    message: Message,
) -> Delivered
    requires memory { length memory.old ≡ frames_of iommu.old }
    requires epoch { epoch_in devices.old.items id + 1 < 2 ^ 64 }
    ensures effect { (before : List OnLink) → MessageArrives message
        (record { memory = memory.old; iommu = iommu.old; devices = devices.old.items; fabric = before }) id fabric.old result
        (record { memory = memory.new; iommu = iommu.new; devices = devices.new.items; fabric = fabric.new }) }
    ensures frames { length memory.new ≡ length memory.old }
{
    match message {
        Message::Ask { epoch, page } => {
            let translation = iommu.ask(memory, id, page);
            let answer = Message::Answer {
                epoch,
                page,
                translation,
            };
            fabric.send(id, answer);
            Delivered::Answered(translation)
        }
        Message::Answer {
            epoch,
            page,
            translation,
        } => take_answer(devices, id, epoch, page, translation),
        Message::InvReq { serial, range } => match obey(devices, id, serial, range) {
            Some(done) => {
                fabric.send(id, done);
                Delivered::Invalidated(serial)
            }
            None => Delivered::Ignored,
        },
        Message::InvDone { serial } => {
            if iommu.done(id, serial) {
                Delivered::Closed(serial)
            } else {
                Delivered::NotClosed(serial)
            }
        }
    }
}

impl Board {
    /// The message at the place, counted from 0, arrives, and is under way no more: `NoMessage` where there is none, and
    /// then nothing changes. A question is `Answered`, and the answer sent; an answer is `Taken`, so or so, and a request to
    /// invalidate `Invalidated`, with the device's word sent, or `Ignored` by a device without a cache. A word that such a
    /// request is completed is `Closed` where that is open for the device, and else `NotClosed`.
    pub fn deliver(&mut self, place: u64) -> Delivered
        requires invariants { BoardInvariant (board_parts self.old) self.old.events }
        requires count { self.old.events + 1 < 2 ^ 64 }
        ensures effect { DeliversAtPlace (board_parts self.old) place result (board_parts self.new) }
        ensures invariants { BoardInvariant (board_parts self.new) self.new.events }
        ensures counted { IsCounted self.old self.new }
    {
        self.events += 1;
        let Some(on) = self.fabric.take(place as usize) else {
            return Delivered::NoMessage;
        };
        arrive(
            &mut self.memory,
            &mut self.iommu,
            &mut self.devices,
            &mut self.fabric,
            on.device,
            on.message,
        )
    }
}
