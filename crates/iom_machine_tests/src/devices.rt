// A plugged device, with a cache of translations of its own or without. All is about page 3, and frame 13.
use crate::expect::expect;
use iom_ats_cache::Taken;
use iom_base::{AccessKind, DeviceKind, Rights};
use iom_device::{Device, place_of};
use iom_fabric::{Message, PageNumber, Range, Translation};
use std::process::Abort;

/// What is done to a device, and what is seen of it.
#[derive(Clone, Copy)]
enum Step {
    /// It has the frame for a read of the page, or nothing.
    Reads(bool),
    /// An answer of this epoch, that the page is at the frame, is kept, where the device has a cache.
    Keeps(u64, bool),
    Reset,
    /// It does what a request to invalidate everything asks, and says that the one of this number is done, where it has a
    /// cache.
    Obeys(u64, bool),
    Epoch(u64),
}

fn reads(device: &Device, is_there: bool) -> bool {
    let shown = PageNumber::new(3).and_then(|page| device.look(page, AccessKind::Read));
    shown == is_there.then_some(13)
}

/// What becomes of an answer, where the device has a cache.
fn taken(device: &mut Device, epoch: u64) -> Option<Taken> {
    let page = PageNumber::new(3)?;
    let answer = Translation::Page {
        frame: 13,
        rights: Rights::RW,
    };
    Some(device.cache.as_mut()?.answer(epoch, page, answer))
}

fn reset(rt: &impl Abort, device: &mut Device) {
    assert!(rt; device.epoch() < 100);
    device.reset();
}

fn obey(rt: &impl Abort, device: &mut Device, serial: u64) -> Option<Message> {
    assert!(rt; device.epoch() < 100);
    device.obey(serial, Range::Everything)
}

fn effect(rt: &impl Abort, device: &mut Device, step: Step) -> bool {
    match step {
        Step::Reads(is_there) => reads(device, is_there),
        Step::Keeps(epoch, has_cache) => {
            taken(device, epoch) == has_cache.then_some(Taken::Kept)
        }
        Step::Reset => {
            reset(rt, device);
            true
        }
        Step::Obeys(serial, has_cache) => {
            obey(rt, device, serial) == has_cache.then_some(Message::InvDone { serial })
        }
        Step::Epoch(epoch) => device.epoch() == epoch,
    }
}

fn follow(rt: &impl Abort, kind: DeviceKind, steps: &[Step]) {
    let mut device = Device::new(2, kind, None);
    for step in steps.iter() {
        expect(rt, effect(rt, &mut device, *step));
    }
}

/// What a device with a cache keeps is found, and a reset drops it, and so does a request to invalidate. Each begins an epoch.
static WITH_CACHE: [Step; 9] = [
    Step::Reads(false),
    Step::Keeps(0, true),
    Step::Reads(true),
    Step::Reset,
    Step::Reads(false),
    Step::Keeps(1, true),
    Step::Obeys(7, true),
    Step::Reads(false),
    Step::Epoch(2),
];

/// A raw device has no cache, and is asked for nothing.
static RAW: [Step; 4] = [
    Step::Keeps(0, false),
    Step::Reset,
    Step::Obeys(7, false),
    Step::Epoch(0),
];

// A device is found by its id, among those that are plugged in.
#[test]
fn devices_keep_and_drop_and_stand_at_their_places(rt: HostRuntime) {
    follow(&rt, DeviceKind::Ats, &WITH_CACHE);
    follow(&rt, DeviceKind::Raw, &RAW);
    let raw = Device::new(1, DeviceKind::Raw, None);
    let block = Device::new(2, DeviceKind::Block, Some(3));
    expect(&rt, block.has_disk);
    let devices = [raw, block];
    expect(&rt, place_of(&devices, 2) == Some(1));
    expect(&rt, place_of(&devices, 3).is_none());
}
