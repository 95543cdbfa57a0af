// What may come of the events of a block device.
ghost use Rattle.std.specs.Prelude.{◌≡◌, ◌↔◌, ◌<◌, IfOk, OnOk, IsTrue, Some, length, slice_get};
ghost use Rattle.iom_machine_judge.specs.Words.{HasBytes, MayWant, state_of, Decides, History, Device, MayInsert, Inserts, MaySet, MayBe, Begins, TakesStep, with_disk, StandsAt, layout_of};

use crate::accesses::access_with;
use crate::devices::give_disk;
use crate::disks::{is_among, without_disk};
use crate::line::Decided;
use crate::requests::{self, is_forwarded, is_within_page};
use crate::through_cache;
use iom_base::{Access, AccessKind, Refusal};
use iom_kept_state::KeptState;
use iom_machine::{BlockStep, Device, Outcome};
use iom_virtqueue::Layout;
use std::alloc::{AllocError, Global};

/// Whether the disk may be put into the device.
fn may_insert(kept: &KeptState, device: &Device, disk: u64) -> bool
    ensures { (h : History) → IsTrue result ↔ MayInsert disk (state_of kept.now h) device.now }
{
    !device.has_disk && is_among(kept.disks.as_slice(), disk)
}

/// Puts the disk into the block device at the place.
fn put_in(alloc: Global, kept: &mut KeptState, place: usize, disk: u64) -> Result<(), AllocError>
    requires { place < length kept.old.devices }
    ensures grants { OnOk result (kept.new.grants ≡ kept.old.grants) }
    ensures state { OnOk result ((device : Device) → slice_get kept.old.devices place ≡ Some device → StandsAt kept.old.devices device.id place
        → (h : History) → state_of kept.new h ≡ with_disk disk (state_of kept.old h) device) }
{
    let left = without_disk(alloc, kept.disks.as_slice(), Some(disk))?;
    kept.disks = left;
    give_disk(&mut kept.devices, place);
    Ok(())
}

/// Whether this may come of a disk that is put into the block device at the place; what is kept is then what it leaves.
pub(crate) fn insert(
    alloc: Global,
    kept: &mut KeptState,
    place: usize,
    disk: u64,
    outcome: &Outcome,
) -> Decided
    requires { place < length kept.old.devices }
    ensures { IfOk result (λ may. (device : Device) → slice_get kept.old.devices place ≡ Some device → StandsAt kept.old.devices device.id place
        → Decides may kept.old kept.new (λ before after. Inserts disk before device outcome.now after)) }
{
    let device = &kept.devices.as_slice()[place];
    let may = may_insert(kept, device, disk);
    match outcome {
        Outcome::Done => {
            if !may {
                return Ok(false);
            }
            put_in(alloc, kept, place, disk)?;
            Ok(true)
        }
        Outcome::Refused(Refusal::BadMedium) => Ok(!may),
        _ => Ok(false),
    }
}

/// Whether this may come where a queue is set so.
pub(crate) fn may_set(
    size: u64,
    descriptors: u64,
    available: u64,
    used: u64,
    outcome: &Outcome,
) -> bool
    ensures { IsTrue result ↔ MaySet (layout_of size descriptors available used) outcome.now }
{
    let is_layout = Layout::new(size, descriptors, available, used).is_some();
    match outcome {
        Outcome::Done => is_layout,
        Outcome::Refused(Refusal::BadQueue) => !is_layout,
        _ => false,
    }
}

/// Whether a step of the device may be this one, which begins no access.
fn may_be(kept: &KeptState, device: &Device, access: &Access, step: BlockStep) -> bool
    ensures { (h : History) → IsTrue result ↔ MayBe (state_of kept.now h) device.now access.now step }
{
    match step {
        BlockStep::Asked => device.kind.has_cache() && is_forwarded(kept, device, access),
        _ => true,
    }
}

/// Whether a write has as many bytes as it names, and a read has none.
fn has_bytes(access: &Access) -> bool
    ensures { IsTrue result ↔ HasBytes access.now.kind access.now.len access.now.bytes }
{
    match access.kind {
        AccessKind::Read => matches!(access.bytes.as_slice(), []),
        AccessKind::Write => access.bytes.as_slice().len() as u64 == access.len,
    }
}

/// Whether a step may begin the access.
fn may_want(access: &Access) -> bool
    ensures { IsTrue result ↔ MayWant access.now }
{
    is_within_page(access.address, access.len) && has_bytes(access)
}

/// Whether this may come where the device at the place begins the access; what is kept is then what it leaves.
fn begin(
    alloc: Global,
    kept: &mut KeptState,
    place: usize,
    access: &Access,
    frame: u64,
    outcome: &Outcome,
) -> Decided
    requires { place < length kept.old.devices }
    ensures { IfOk result (λ may. (device : Device) → slice_get kept.old.devices place ≡ Some device → StandsAt kept.old.devices device.id place
        → Decides may kept.old kept.new (λ before after. Begins before device access.now frame outcome.now after)) }
{
    if !may_want(access) {
        return Ok(false);
    }
    let bytes = access.bytes.as_slice();
    let wanted = access_with(
        alloc,
        &mut kept.spare,
        access.address,
        access.len,
        access.kind,
        bytes,
    )?;
    let device = &kept.devices.as_slice()[place];
    if device.kind.has_cache() {
        through_cache::answer_at(kept, place, wanted, frame, outcome)
    } else {
        requests::answer_at(kept, place, wanted, frame, outcome)
    }
}

/// Whether this may come of a step of the block device at the place; what is kept is then what it leaves.
pub(crate) fn take_step(
    alloc: Global,
    kept: &mut KeptState,
    place: usize,
    outcome: &Outcome,
    frame: u64,
    access: &Access,
) -> Decided
    requires { place < length kept.old.devices }
    ensures { IfOk result (λ may. (device : Device) → slice_get kept.old.devices place ≡ Some device → StandsAt kept.old.devices device.id place
        → Decides may kept.old kept.new (λ before after. TakesStep before device access.now frame outcome.now after)) }
{
    match outcome {
        Outcome::Stepped(step) => {
            let device = &kept.devices.as_slice()[place];
            Ok(may_be(kept, device, access, *step))
        }
        Outcome::Accepted(_) | Outcome::Busy | Outcome::Fault(_) => {
            begin(alloc, kept, place, access, frame, outcome)
        }
        _ => Ok(false),
    }
}
