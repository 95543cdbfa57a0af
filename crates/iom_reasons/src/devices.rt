// What is said of a device, of its accesses in flight, which polls and commits touch, and of a step that it takes.
use crate::facts::Facts;
use crate::past::Release;
use crate::words::{InLine, MOST_SAID, Said, Under, Words, name_of};
use iom_base::{AcceptedAccess, AccessKind, DeviceId, PAGE_SIZE, Refusal};
use iom_machine::{Attachment, Device, Outcome};
use std::alloc::{AllocError, Global};
use std::ops::RangeInclusive;

/// Tickets, from the first to the last.
type Tickets = RangeInclusive<u32>;

/// An access in flight: whose it is, its index there, and its frame.
type Stray = (DeviceId, usize, u64);

/// Says with which number the device's next access is accepted, where the line shows another one.
pub(crate) fn say_next(words: &mut Words, device: &Device, outcome: &Outcome) -> Said {
    let next = device.accepted.saturating_add(1);
    match outcome {
        Outcome::Accepted(number) if *number != next => {
            words.say(format_args!("its next number is {next}"))
        }
        _ => Ok(()),
    }
}

/// Says that there is no such device.
pub(crate) fn say_absent(words: &mut Words, id: DeviceId) -> Said {
    words.say(format_args!("no device {id:06x} is plugged in"))?;
    words.could(Refusal::NoSuchDevice)
}

impl Facts<'_> {
    /// Says how the device is attached.
    pub(crate) fn say_attachment(&self, words: &mut Words, device: &Device) -> Said {
        let id = device.id;
        let (what, ticket) = match device.attachment {
            Attachment::Detached => return words.say(format_args!("{id:06x} isn't attached")),
            Attachment::Attached { .. } => return words.say(format_args!("{id:06x} is attached")),
            Attachment::Quarantined { ticket, .. } => ("quarantined", ticket),
            Attachment::Leaving { ticket, .. } => ("leaving", ticket),
        };
        let leave = self.notes.past.leaves.get(&ticket);
        let under = Under(Some(ticket), leave.map(|(_id, release)| *release));
        words.say(format_args!("{id:06x} is {what} {under}"))
    }

    /// Says what is known of a block device that takes a step, and which of its answers may always come.
    pub(crate) fn say_step(&self, words: &mut Words, id: DeviceId, outcome: &Outcome) -> Said {
        let Some(device) = self.kept.device(id) else {
            return say_absent(words, id);
        };
        if !device.kind.is_block_device() {
            words.say(format_args!("{id:06x} isn't a block device"))?;
            return words.could(Refusal::WrongKind);
        }
        self.say_attachment(words, device)?;
        let count = device.in_flight.as_slice().len();
        words.say(format_args!("{count} of its accesses are in flight"))?;
        say_next(words, device, outcome)?;
        words.could("idle, waiting, chain, finished, down")
    }

    /// Says what the device has in flight, and what a commit could have given.
    pub(crate) fn say_commit(&self, words: &mut Words, id: DeviceId) -> Said {
        let Some(device) = self.kept.device(id) else {
            return say_absent(words, id);
        };
        let Some(oldest) = device.in_flight.as_slice().first() else {
            words.say(format_args!("nothing of {id:06x} is in flight"))?;
            return words.could("none");
        };
        let (frame, len, kind) = (oldest.frame, oldest.access.len, oldest.access.kind);
        let (offset, name) = (oldest.access.address % PAGE_SIZE, name_of(kind));
        let accepted = InLine("accepted", self.notes.past.accepted(id, 0));
        words.say(format_args!(
            "the oldest access of {id:06x} in flight is a {name} of {len} bytes at offset {offset} of frame {frame}{accepted}"
        ))?;
        match kind {
            AccessKind::Read => {
                let bytes = self.bytes_at(frame, offset, len);
                words.could(format_args!("read {bytes}"))
            }
            AccessKind::Write => words.could(format_args!("wrote {len}")),
        }
    }

    /// Whether the access may be in flight where these tickets are confirmed.
    fn may_fly(&self, id: DeviceId, flight: &AcceptedAccess, tickets: &Tickets) -> bool {
        let grants = &self.kept.grants;
        let (frame, kind) = (flight.frame, flight.access.kind);
        let page = flight.access.address / PAGE_SIZE;
        let (first, last) = (*tickets.start(), *tickets.end());
        if last < first {
            return grants.may(id, page, frame, kind);
        }
        grants.may_once(id, page, frame, kind, first, last)
    }

    /// The accesses in flight that may not be where these tickets are confirmed.
    fn strays(&self, alloc: Global, tickets: &Tickets) -> Result<Vec<Stray>, AllocError> {
        let mut strays = Vec::new(alloc);
        for device in self.kept.devices.as_slice() {
            for (index, flight) in device.in_flight.as_slice().iter().enumerate() {
                if !self.may_fly(device.id, flight, tickets) {
                    strays.push((device.id, index, flight.frame))?;
                }
            }
        }
        Ok(strays)
    }

    /// Says what could have been confirmed. Where a ticket may be, those before it may.
    fn could_confirm(&self, words: &mut Words) -> Said {
        words.could("confirmed -")?;
        if !self.kept.limits.in_order {
            return Ok(());
        }
        let first = self.kept.grants.confirmed.saturating_add(1);
        for last in (first..=self.kept.grants.given).rev() {
            if self.strays(words.alloc, &(1..=last))?.is_empty() {
                return words.could(format_args!("confirmed {first}-{last}"));
            }
        }
        Ok(())
    }

    /// Says under which of these tickets the device released the frame last, and at which page, if it did.
    fn say_release(&self, words: &mut Words, id: DeviceId, frame: u64, tickets: &Tickets) -> Said {
        let mut places = Vec::new(words.alloc);
        self.add_places(&mut places, id, |reached: u64, _rights| reached == frame)?;
        let mut found: Option<(u64, Release)> = None;
        for place in places.iter() {
            let pending = self.pending_of(*place);
            if let Some(release) = pending.filter(|release| tickets.contains(&release.ticket)) {
                if found.is_none_or(|(_page, other)| other.ticket < release.ticket) {
                    found = Some((place.page, release));
                }
            }
        }
        match found {
            None => Ok(()),
            Some((page, Release { ticket, line, .. })) => words.say(format_args!(
                "its page {page} was released in line {line} under ticket {ticket}"
            )),
        }
    }

    /// Says what is in flight that a confirmation may not leave so, which is one of all tickets where the line shows none, and
    /// which ticket is the last.
    pub(crate) fn say_poll(&self, words: &mut Words, outcome: &Outcome) -> Said {
        let given = self.kept.grants.given;
        let tickets = match outcome {
            Outcome::Confirmed { first, last, .. } => *first..=*last,
            _ => 1..=given,
        };
        let strays = self.strays(words.alloc, &tickets)?;
        for (id, index, frame) in strays.iter().take(MOST_SAID) {
            let accepted = InLine("accepted", self.notes.past.accepted(*id, *index));
            words.say(format_args!(
                "an access of {id:06x} is in flight on frame {frame}{accepted}"
            ))?;
            self.say_release(words, *id, *frame, &tickets)?;
        }
        words.say_more(strays.len())?;
        words.say(format_args!("the last ticket that was given is {given}"))?;
        self.could_confirm(words)
    }
}
