use crate::bench::{BOTH, Bench, OK, Step, started};
use crate::expect::expect;
use iom_base::{DeviceId, DeviceKind, Refusal};
use iom_device::Device;
use std::alloc::Global;
use std::test::Fail;

/// What the revival of a device answers whose own cache is in its first epoch, and the epoch afterwards.
fn revived(bench: &mut Bench, alloc: Global, id: DeviceId) -> Option<(Result<(), Refusal>, u64)> {
    let mut devices = Vec::with_capacity(alloc, 1).ok()?;
    devices.push(Device::new(id, DeviceKind::Ats, None)).ok()?;
    let done = bench.revive_reset(&mut devices, id);
    Some((done, devices.first()?.epoch()))
}

/// Of a device in both stages with ATS: it is quarantined; its ticket is confirmed; its context stands as before.
static QUARANTINED: [Step; 3] = [
    Step::PlugTrusted(2, OK),
    Step::AttachAts(2, BOTH, OK),
    Step::Quarantine(2, Ok(1)),
];

static CONFIRMED: [Step; 2] = [Step::Complete(1), Step::Poll(1, 1, false)];

static REVIVED: [Step; 1] = [Step::Words(0x3c040, &[3, 0x8000_1000_0000_0038, 0x1000, 8 << 60])];

/// A device is reset by its revival, so its cache begins an epoch, and by no refusal.
#[test]
fn a_revival_begins_an_epoch(rt: HostRuntime) -> Result<(), Fail> {
    let mut bench = started(rt.alloc())?;
    bench.follow(&rt, "quarantined", &QUARANTINED);
    let refused = revived(&mut bench, rt.alloc(), 2);
    expect(&rt, refused == Some((Err(Refusal::StillGranted), 0)));
    bench.follow(&rt, "confirmed", &CONFIRMED);
    expect(&rt, revived(&mut bench, rt.alloc(), 2) == Some((OK, 1)));
    bench.follow(&rt, "revived", &REVIVED);
    Ok(())
}
