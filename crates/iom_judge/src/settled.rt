// On which frame an access is, so far as the grants say.
use iom_base::{AccessKind, DeviceId, Mode, PAGE_SIZE, Rights};
use iom_kept_state::KeptState;

/// What a device has at a page: it holds the frame, or else the frame lingers.
#[derive(Clone, Copy)]
pub(crate) struct Reachable {
    pub(crate) page: u64,
    pub(crate) frame: u64,
    pub(crate) rights: Rights,
    is_held: bool,
}

/// What the device has at the page.
pub(crate) fn reachable_at(kept: &KeptState, id: DeviceId, page: u64) -> Option<Reachable> {
    let held = kept.grants.held(id, page);
    let (frame, rights) = match held {
        Some(pair) => pair,
        None => kept.grants.lingering(id, page)?,
    };
    Some(Reachable {
        page,
        frame,
        rights,
        is_held: held.is_some(),
    })
}

/// The first of what the device has that is so.
pub(crate) fn first_reachable<F: Fn(Reachable) -> bool>(
    kept: &KeptState,
    id: DeviceId,
    is_so: F,
) -> Option<Reachable>
    requires { F.IsAlwaysCallable is_so }
{
    for index in 0..kept.grants.page_count(id) {
        let page = kept.grants.page_at(id, index)?;
        if let Some(it) = reachable_at(kept, id, page) {
            if is_so(it) {
                return Some(it);
            }
        }
    }
    None
}

/// A frame that the device may reach by an access of this kind, at some page: one that it holds, rather than one that may end soon. And
/// whether it may reach no other.
fn frame_somewhere(kept: &KeptState, id: DeviceId, kind: AccessKind) -> (u64, bool) {
    let held = first_reachable(kept, id, |it: Reachable| -> bool {
        it.is_held && it.rights.allows(kind)
    });
    let any = held.or(first_reachable(kept, id, |it: Reachable| -> bool {
        it.rights.allows(kind)
    }));
    let frame = any.map_or(0, |it: Reachable| -> u64 { it.frame });
    let other = first_reachable(kept, id, |it: Reachable| -> bool {
        it.frame != frame && it.rights.allows(kind)
    });
    (frame, other.is_none())
}

/// The frame on which an access of the device is that was accepted, and whether it may be on no other. Of a device in one stage that
/// is what it has at the page.
pub(crate) fn frame_of(
    kept: &KeptState,
    id: DeviceId,
    address: u64,
    kind: AccessKind,
) -> (u64, bool) {
    if let Some(Mode::Both(_)) = kept.attachment(id).mode() {
        return frame_somewhere(kept, id, kind);
    }
    let found = reachable_at(kept, id, address / PAGE_SIZE);
    (found.map_or(0, |it: Reachable| -> u64 { it.frame }), true)
}

/// A page at which the device has nothing.
pub(crate) fn page_without(kept: &KeptState, id: DeviceId) -> u64 {
    let last = u64::MAX / PAGE_SIZE;
    for back in 0..kept.grants.page_count(id) {
        let page = last.saturating_sub(back as u64);
        if reachable_at(kept, id, page).is_none() {
            return page;
        }
    }
    last.saturating_sub(kept.grants.page_count(id) as u64)
}
