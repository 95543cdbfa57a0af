// What was done about devices and their grants, as a plain list, and what is read off it.

use crate::call::{Act, Call};
use iom_base::{DeviceId, DeviceKind, GrantRights, Mode, Size};

/// Something that was done, and its ticket, if it has one.
#[derive(Clone, Copy)]
pub(crate) struct Entry {
    pub(crate) call: Call,
    pub(crate) ticket: u64,
}

/// Which right a grant gives.
#[derive(Clone, Copy)]
pub(crate) enum Right {
    /// Any: each lets the device read.
    Read,
    Write,
    /// One that doesn't let it write.
    ReadOnly,
}

/// Which grants are asked for.
#[derive(Clone, Copy)]
pub(crate) struct Which {
    /// Of this device, or of any.
    pub(crate) device: Option<DeviceId>,
    /// At this page, or at any.
    pub(crate) page: Option<u64>,
    pub(crate) right: Right,
    /// Whether those count too that were taken back under a ticket that isn't confirmed.
    pub(crate) lingering: bool,
}

/// The set of this frame alone; memory has 64 frames, a bit for each.
fn set_of(frame: u64) -> u64 {
    if frame < 64 { 1 << frame } else { 0 }
}

/// Whether the frame is in the set.
pub(crate) fn has(set: u64, frame: u64) -> bool {
    set & set_of(frame) != 0
}

/// Whether this is a grant that is asked for.
fn is_asked_for(call: Call, which: Which) -> bool {
    let is_device = match which.device {
        Some(device) => call.device == device,
        None => true,
    };
    let is_page = match which.page {
        Some(page) => call.page == page,
        None => true,
    };
    let can_write = call.rights == GrantRights::ReadWrite;
    let is_right = match which.right {
        Right::Read => true,
        Right::Write => can_write,
        Right::ReadOnly => !can_write,
    };
    call.act == Act::Grant && is_device && is_page && is_right
}

/// Whether what was granted at this place of the list is held still; or lingers, where that counts too. All tickets up to the
/// given one are confirmed.
fn unchanged(
    entries: &[Entry],
    place: usize,
    granted: Call,
    confirmed: u64,
    lingering: bool,
) -> bool {
    for later in place..entries.len() {
        let Entry { call, ticket } = entries[later];
        let is_all = call.act == Act::Quarantine;
        let is_page = call.act == Act::Release && call.page == granted.page;
        if call.device == granted.device && (is_all || is_page) {
            return lingering && confirmed < ticket;
        }
    }
    true
}

/// The frames of the grants that are asked for, as a set.
pub(crate) fn frames(entries: &[Entry], confirmed: u64, which: Which) -> u64 {
    let mut set = 0;
    for place in 0..entries.len() {
        let call = entries[place].call;
        if is_asked_for(call, which)
            && unchanged(entries, place, call, confirmed, which.lingering)
        {
            set |= set_of(call.frame);
        }
    }
    set
}

/// What was done last about how a device is attached.
#[derive(Clone, Copy, PartialEq)]
pub(crate) enum Tie {
    /// Nothing.
    Unattached,
    Attached,
    /// It was detached.
    Leaving,
    Quarantined,
}

/// What decides of a device's requests, beside its grants.
#[derive(Clone, Copy)]
pub(crate) struct Standing {
    pub(crate) tie: Tie,
    /// Whether it was detached or quarantined under a ticket that isn't confirmed.
    pub(crate) is_pending: bool,
    pub(crate) mode: Mode,
    pub(crate) ats: bool,
    ticket: u64,
}

impl Standing {
    /// Whether it has tables, or may still be served by what was cached of them.
    pub(crate) fn has_tables(self) -> bool {
        self.tie == Tie::Attached || self.is_pending
    }
}

/// How the device is attached after this.
fn after(old: Standing, entry: Entry) -> Standing {
    let mut new = old;
    match entry.call.act {
        Act::Attach => {
            new.tie = Tie::Attached;
            new.mode = entry.call.mode;
            new.ats = entry.call.ats;
        }
        Act::Revive => new.tie = Tie::Attached,
        Act::Detach => new.tie = Tie::Leaving,
        Act::Quarantine => new.tie = Tie::Quarantined,
        _ => return old,
    }
    new.ticket = entry.ticket;
    new
}

/// How the device is attached. All tickets up to the given one are confirmed.
pub(crate) fn standing_of(entries: &[Entry], confirmed: u64, device: DeviceId) -> Standing {
    let mut standing = Standing {
        tie: Tie::Unattached,
        is_pending: false,
        mode: Mode::First(Size::Sv39),
        ats: false,
        ticket: 0,
    };
    for entry in entries {
        if entry.call.device == device {
            standing = after(standing, *entry);
        }
    }
    // What attaches a device has no ticket.
    standing.is_pending = confirmed < standing.ticket;
    standing
}

/// What the device is, if it is plugged in.
pub(crate) fn kind_of(entries: &[Entry], device: DeviceId) -> Option<DeviceKind> {
    for entry in entries {
        if entry.call.device == device && entry.call.act == Act::Plug {
            return Some(entry.call.new.kind());
        }
    }
    None
}
