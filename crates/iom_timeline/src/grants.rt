// What the driver does, and what the IOMMU does of it.
use crate::commands::{Command, Scope};
use crate::devices::{Device, Standing};
use crate::follower::{Follower, Pending, Waiting};
use crate::messages::Said;
use crate::period::{NEVER, Period};
use crate::stay::Stay;
use crate::timeline::{Lane, MarkKind, Place, Quarantine};
use iom_base::{DeviceId, GrantRights, Mode};
use iom_machine::CommandName;
use std::alloc::AllocError;

/// Those of the stays at these places that are held are released at this line, and wait for the ticket.
fn release_held(
    stays: &mut [Stay],
    pending: &mut Vec<Pending>,
    places: &[usize],
    line: u64,
    ticket: u32,
) -> Result<(), AllocError> {
    for place in places {
        let Some(stay) = stays.get_mut(*place) else {
            continue;
        };
        if stay.is_held() {
            stay.release(line, ticket);
            pending.push(Pending {
                ticket,
                waiting: Waiting::Stay(*place),
            })?;
        }
    }
    Ok(())
}

/// A time of the device at each of its pages that lingers, and at its others.
fn add_quarantines(
    quarantines: &mut Vec<Quarantine>,
    stays: &[Stay],
    device: &Device,
    period: Period,
) -> Result<(), AllocError> {
    for place in device.pages.values() {
        let Some(stay) = stays.get(*place) else {
            continue;
        };
        if stay.confirmed == NEVER {
            let place = Place::Lane(stay.lane);
            quarantines.push(Quarantine { place, period })?;
        }
    }
    let place = Place::Device(device.id);
    quarantines.push(Quarantine { place, period })?;
    Ok(())
}

/// The times at these places end at this line.
fn end_between(quarantines: &mut [Quarantine], from: usize, until: usize, line: u64) {
    for place in from..until {
        if let Some(quarantine) = quarantines.get_mut(place) {
            quarantine.period = quarantine.period.ended(line);
        }
    }
}

impl Follower {
    pub(crate) fn attach(&mut self, id: DeviceId, mode: Mode, ats: bool) {
        if let Some(device) = self.devices.get_mut(id) {
            device.mode = Some(mode);
            device.has_ats = ats;
            device.standing = Standing::Attached;
        }
    }

    /// The place of the lane, which is made where there is none.
    fn place_of(&mut self, lane: Lane) -> Result<usize, AllocError> {
        let (place, is_new) = self.lanes.insert_full(lane)?;
        if is_new {
            self.timeline.lanes.push(lane)?;
            self.copies.add_lane()?;
            self.quiet.push(None)?;
        }
        Ok(place)
    }

    pub(crate) fn grant(
        &mut self,
        id: DeviceId,
        page: u64,
        frame: u64,
        rights: GrantRights,
    ) -> Result<(), AllocError> {
        let lane = Lane {
            device: id,
            page,
            frame,
        };
        let place = self.place_of(lane)?;
        let stay = self.timeline.stays.len();
        let Some(device) = self.devices.get_mut(id) else {
            return Ok(());
        };
        device.pages.insert(page, stay)?;
        device.frames.insert(frame, place)?;
        device.granted.push(stay)?;
        self.timeline
            .stays
            .push(Stay::begin(place, lane, rights, self.line))?;
        self.disturb(place);
        self.hold(frame)
    }

    /// Something happens on the lane at this line.
    pub(crate) fn disturb(&mut self, lane: usize) {
        let Some(quiet) = self.quiet.get_mut(lane) else {
            return;
        };
        let Some(stay) = quiet.take() else {
            return;
        };
        if let Some(stay) = self.timeline.stays.get_mut(stay) {
            stay.quiet_until = self.line;
        }
    }

    /// The frame has a holder more.
    fn hold(&mut self, frame: u64) -> Result<(), AllocError> {
        let count = self.holders.get(&frame).copied().unwrap_or(0);
        self.holders.insert(frame, count.saturating_add(1))?;
        Ok(())
    }

    /// The stay is confirmed: its frame has a holder less.
    fn confirm_stay(&mut self, place: usize) {
        let line = self.line;
        let Some(stay) = self.timeline.stays.get_mut(place) else {
            return;
        };
        if !stay.confirm(line) {
            return;
        }
        if let Some(count) = self.holders.get_mut(&stay.frame) {
            *count = count.saturating_sub(1);
        }
    }

    /// The ticket that this waited for is confirmed at this line, with all others up to it: a frame without a holder is free.
    fn free_frame(&mut self, waiting: Waiting) {
        let Waiting::Stay(place) = waiting else {
            return;
        };
        let Some(stay) = self.timeline.stays.get_mut(place) else {
            return;
        };
        if self.holders.get(&stay.frame).copied() != Some(0) || stay.confirmed != self.line {
            return;
        }
        stay.is_last = true;
        if let Some(quiet) = self.quiet.get_mut(stay.lane) {
            *quiet = Some(place);
        }
    }

    /// With the tickets that were confirmed from this place of the list on, the frames without a holder are free.
    fn free_frames(&mut self, from: usize) {
        for place in from..self.confirmed {
            if let Some(pending) = self.pending.get(place).copied() {
                self.free_frame(pending.waiting);
            }
        }
    }

    /// Something waits for the ticket.
    fn wait(&mut self, ticket: u32, waiting: Waiting) -> Result<(), AllocError> {
        self.pending.push(Pending { ticket, waiting })?;
        Ok(())
    }

    /// A page is released.
    pub(crate) fn release(
        &mut self,
        id: DeviceId,
        page: u64,
        ticket: u32,
    ) -> Result<(), AllocError> {
        let Some(device) = self.devices.get(id) else {
            return Ok(());
        };
        self.commands.push_release(device, page)?;
        let Some(place) = device.pages.get(&page).copied() else {
            return Ok(());
        };
        if let Some(stay) = self.timeline.stays.get_mut(place) {
            stay.release(self.line, ticket);
        }
        self.wait(ticket, Waiting::Stay(place))
    }

    /// The device's context and all its pages are to be forgotten, and a fence comes behind.
    fn queue_farewell(&mut self, id: DeviceId) -> Result<(), AllocError> {
        if let Some(device) = self.devices.get(id) {
            self.commands.push_farewell(device)?;
        }
        self.commands.push_fence()
    }

    pub(crate) fn detach(&mut self, id: DeviceId, ticket: u32) -> Result<(), AllocError> {
        self.queue_farewell(id)?;
        self.reset(id);
        self.end_quarantines(id);
        if let Some(device) = self.devices.get_mut(id) {
            device.standing = Standing::Leaving;
        }
        self.wait(ticket, Waiting::Leaving(id))
    }

    pub(crate) fn quarantine(&mut self, id: DeviceId, ticket: u32) -> Result<(), AllocError> {
        self.queue_farewell(id)?;
        self.release_all(id, ticket)?;
        self.begin_quarantine(id)
    }

    /// All pages of the device are released under the ticket, and it is quarantined.
    fn release_all(&mut self, id: DeviceId, ticket: u32) -> Result<(), AllocError> {
        let line = self.line;
        let Some(device) = self.devices.get_mut(id) else {
            return Ok(());
        };
        device.standing = Standing::Quarantined;
        release_held(
            &mut self.timeline.stays,
            &mut self.pending,
            &device.granted,
            line,
            ticket,
        )?;
        device.granted.clear();
        Ok(())
    }

    /// The device is quarantined from this line on, at each of its pages that lingers.
    fn begin_quarantine(&mut self, id: DeviceId) -> Result<(), AllocError> {
        let period = Period::since(self.line);
        let first = self.timeline.quarantines.len();
        let Some(device) = self.devices.get_mut(id) else {
            return Ok(());
        };
        add_quarantines(
            &mut self.timeline.quarantines,
            &self.timeline.stays,
            device,
            period,
        )?;
        device.first_quarantine = first;
        device.quarantines_end = self.timeline.quarantines.len();
        Ok(())
    }

    /// The device isn't quarantined any more.
    fn end_quarantines(&mut self, id: DeviceId) {
        let line = self.line;
        let Some(device) = self.devices.get_mut(id) else {
            return;
        };
        device.is_barred = false;
        end_between(
            &mut self.timeline.quarantines,
            device.first_quarantine,
            device.quarantines_end,
            line,
        );
        device.first_quarantine = 0;
        device.quarantines_end = 0;
    }

    /// The IOMMU has forgotten the device's context. Where it is quarantined nothing of it is accepted any more.
    fn bar(&mut self, id: DeviceId) {
        let line = self.line;
        let Some(device) = self.devices.get_mut(id) else {
            return;
        };
        if device.standing != Standing::Quarantined {
            return;
        }
        device.is_barred = true;
        self.copies.spoil_all_kept(&device.kept, line);
        self.messages.spoil(id, &mut self.copies, line);
    }

    pub(crate) fn revive(&mut self, id: DeviceId) {
        self.reset(id);
        self.end_quarantines(id);
        if let Some(device) = self.devices.get_mut(id) {
            device.standing = Standing::Attached;
        }
    }

    /// The queue is emptied, and what is still needed is queued anew.
    pub(crate) fn restart(&mut self) -> Result<(), AllocError> {
        self.open_requests = 0;
        self.end_wait();
        self.commands.restart(&self.devices)?;
        self.mark(Place::Driver, MarkKind::Restarted)
    }

    /// The IOMMU did the next command of this name, and those before it.
    pub(crate) fn fetch(&mut self, name: CommandName) -> Result<(), AllocError> {
        self.end_wait();
        for _turn in 0..self.commands.count_to(name) {
            if let Some(command) = self.commands.take() {
                self.run(command)?;
            }
        }
        if name == CommandName::IofenceC {
            return self.mark(Place::Driver, MarkKind::FenceDone);
        }
        Ok(())
    }

    fn run(&mut self, command: Command) -> Result<(), AllocError> {
        match command {
            Command::Invalidate { device, scope, .. } => {
                self.forget(device, scope);
                Ok(())
            }
            Command::InvalidateContext { device } => {
                self.forget(device, Scope::Everything);
                self.bar(device);
                Ok(())
            }
            Command::AskDevice { device, scope } => {
                self.open_requests = self.open_requests.saturating_add(1);
                self.messages.say(device, Said::Request(scope))
            }
            Command::Fence => Ok(()),
        }
    }

    /// The IOMMU forgets pages of the device.
    fn forget(&mut self, id: DeviceId, scope: Scope) {
        self.shows_invalidations = true;
        let line = self.line;
        match scope {
            Scope::Page(page) => {
                if let Some(lane) = self.lane_at(id, Some(page), None) {
                    self.copies.forget(lane, line);
                }
            }
            Scope::Everything => {
                let Some(device) = self.devices.get_mut(id) else {
                    return;
                };
                self.copies.forget_all(&device.cached, line);
                device.cached.clear();
            }
        }
    }

    /// What waits next for a ticket up to the last one, and doesn't from here on.
    fn take_confirmed(&mut self, last: u32) -> Option<Waiting> {
        let pending = self.pending.get(self.confirmed)?;
        if pending.ticket > last {
            return None;
        }
        let waiting = pending.waiting;
        self.confirmed = self.confirmed.saturating_add(1);
        Some(waiting)
    }

    /// It waited for a ticket that is confirmed.
    fn settle(&mut self, waiting: Waiting) {
        match waiting {
            Waiting::Stay(place) => self.confirm_stay(place),
            Waiting::Leaving(id) => {
                if let Some(device) = self.devices.get_mut(id) {
                    device.standing = Standing::Detached;
                }
            }
        }
    }

    /// The tickets from the first to the last are confirmed.
    pub(crate) fn confirm(&mut self, first: u32, last: u32) -> Result<(), AllocError> {
        let before = self.confirmed;
        for _turn in 0..self.pending.len() {
            let Some(waiting) = self.take_confirmed(last) else {
                break;
            };
            self.settle(waiting);
        }
        self.free_frames(before);
        self.mark(Place::Driver, MarkKind::Confirmed { first, last })
    }
}
