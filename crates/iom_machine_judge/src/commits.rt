// What a commit makes.
ghost use Rattle.std.specs.Prelude.{◌≡◌, ◌↔◌, ◌<◌, IfOk, IsTrue, Some, length, slice_get};
ghost use Rattle.iom_machine_judge.specs.Words.{option_copied, History, May, Device, StandsAt, GivesBytes, MakesWrite, Makes, IsPastOf, state_of, Decides};

use crate::devices::take_oldest;
use crate::line::Decided;
use iom_base::{AcceptedAccess, AccessKind, DeviceId, PAGE_SIZE};
use iom_kept_state::KeptState;
use iom_machine::{Device, Outcome};

/// Whether the access is one of this kind that its device may make.
fn may_make(kept: &KeptState, id: DeviceId, made: &AcceptedAccess, kind: AccessKind) -> bool
    ensures { (h : History) → IsPastOf kept.now.grants h → IsTrue result ↔ ((made.now.access.kind ≡ kind) × May h id made.now.frame kind) }
{
    let page = made.access.address / PAGE_SIZE;
    made.access.kind == kind && kept.grants.may(id, page, made.frame, kind)
}

/// Whether the access is a read that its device may make, and gives these bytes.
fn gives(kept: &KeptState, id: DeviceId, made: &AcceptedAccess, bytes: &[u8]) -> bool
    ensures { (h : History) → IsPastOf kept.now.grants h → IsTrue result ↔ GivesBytes (state_of kept.now h) id made.now bytes.now }
{
    let (offset, len) = (made.access.address % PAGE_SIZE, made.access.len);
    may_make(kept, id, made, AccessKind::Read) && kept.frames.shows(made.frame, offset, len, bytes)
}

/// Whether the access is a write of so many bytes that its device may make.
fn writes(kept: &KeptState, id: DeviceId, made: &AcceptedAccess, len: u64) -> bool
    ensures { (h : History) → IsPastOf kept.now.grants h → IsTrue result ↔ MakesWrite (state_of kept.now h) id made.now len }
{
    may_make(kept, id, made, AccessKind::Write) && len == made.access.len
}

/// The oldest access of the device in flight.
fn oldest(device: &Device) -> Option<&AcceptedAccess>
    ensures { option_copied result ≡ slice_get device.now.in_flight 0 }
{
    device.in_flight.as_slice().first()
}

/// Whether the oldest access in flight of the device at the place may be made so; the next state is then kept.
pub(crate) fn make(kept: &mut KeptState, place: usize, outcome: &Outcome) -> Decided
    requires { place < length kept.old.devices }
    ensures { IfOk result (λ may. (device : Device) → slice_get kept.old.devices place ≡ Some device → StandsAt kept.old.devices device.id place
        → Decides may kept.old kept.new (λ before after. Makes before device outcome.now after)) }
{
    let device = &kept.devices.as_slice()[place];
    let Some(made) = oldest(device) else {
        return Ok(matches!(outcome, Outcome::NothingInFlight));
    };
    match outcome {
        Outcome::Read(bytes) => {
            if !gives(kept, device.id, made, bytes.as_slice()) {
                return Ok(false);
            }
            let _made = take_oldest(&mut kept.devices, place);
            Ok(true)
        }
        Outcome::Wrote(len) => {
            if !writes(kept, device.id, made, *len) {
                return Ok(false);
            }
            let made = take_oldest(&mut kept.devices, place);
            let bytes = made.access.bytes.as_slice();
            kept.frames
                .store(made.frame, made.access.address % PAGE_SIZE, bytes)?;
            kept.spare.put_back(made.access.bytes);
            Ok(true)
        }
        _ => Ok(false),
    }
}
