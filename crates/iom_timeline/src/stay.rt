ghost use Rattle.std.specs.Prelude.{◌≡◌, ◌≤◌, ◌<◌, ◌↔◌, IfSome, IsSome, true};

use crate::period::{NEVER, Period};
use crate::timeline::Lane;
use iom_base::{DeviceId, GrantRights};

/// The time from a grant of a page to the confirmation of its release: first the page is held, and then it lingers.
/// Neither ends before it begins, and the page lingers from where it was held last.
#[derive(Clone, Copy)]
pub struct Stay {
    /// The lane where it is, as a place in the timeline's list.
    pub lane: usize,
    pub device: DeviceId,
    pub page: u64,
    pub frame: u64,
    pub rights: GrantRights,
    /// The ticket of the release, once there is one.
    pub ticket: Option<u32>,
    /// The line of the grant.
    pub granted: u64,
    /// The line of the release or the quarantine, or [`NEVER`].
    pub released: u64,
    /// The line of the poll that confirmed the ticket, or [`NEVER`].
    pub confirmed: u64,
    /// Whether the frame was free with that poll: nobody else held it then, and it lingered nowhere else.
    pub is_last: bool,
    /// The first line behind that poll at which something happened on the lane, or [`NEVER`].
    pub quiet_until: u64,
    pub ghost in_order: { (granted ≤ released) × (released ≤ confirmed) },
}

impl Stay {
    /// The page is granted at this line: it is held from there on. The lane stands at this place of the timeline's list.
    pub(crate) fn begin(place: usize, lane: Lane, rights: GrantRights, line: u64) -> Stay {
        Stay {
            lane: place,
            device: lane.device,
            page: lane.page,
            frame: lane.frame,
            rights,
            ticket: None,
            granted: line,
            released: NEVER,
            confirmed: NEVER,
            is_last: false,
            quiet_until: NEVER,
        }
    }

    /// Whether the page is held at the end of the trace.
    pub fn is_held(&self) -> bool {
        self.released == NEVER
    }

    /// When the page was held.
    pub fn held(&self) -> Period
        ensures { (result.from ≡ self.now.granted) × (result.until ≡ self.now.released) }
    {
        Period {
            from: self.granted,
            until: self.released,
        }
    }

    /// When it lingered, if it was released: from the line up to which it was held.
    pub fn lingering(&self) -> Option<Period>
        ensures { IfSome result (λ period. (period.from ≡ self.now.released) × (period.until ≡ self.now.confirmed)) }
    {
        if self.is_held() {
            return None;
        }
        Some(Period {
            from: self.released,
            until: self.confirmed,
        })
    }

    /// The line from which on the frame was free, if it was: that of the poll that confirmed the ticket.
    pub fn free_from(&self) -> Option<u64>
        ensures found { IsSome result ↔ (self.now.is_last ≡ true) × (self.now.confirmed < NEVER) }
        ensures line { IfSome result (λ line. line ≡ self.now.confirmed) }
    {
        if self.is_last && self.confirmed < NEVER {
            Some(self.confirmed)
        } else {
            None
        }
    }

    /// The page is released under the ticket. Nothing changes where it was already.
    pub(crate) fn release(&mut self, line: u64, ticket: u32) {
        if self.is_held() {
            self.ticket = Some(ticket);
            self.confirmed = NEVER;
            self.released = line.max(self.granted);
        }
    }

    /// The ticket is confirmed. Nothing changes where it was already, or the page is held. Whether it is confirmed now.
    pub(crate) fn confirm(&mut self, line: u64) -> bool {
        if self.is_held() || self.confirmed != NEVER {
            return false;
        }
        self.confirmed = line.max(self.released);
        true
    }
}
