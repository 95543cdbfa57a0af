// By which way a device can reach a frame, and since when.
use crate::caches::entries_at;
use crate::chronicle::Chronicle;
use crate::directory::context_address;
use crate::found::{
    Contexts, context_at, forges, has_cache, lets_ats, mode_of, space_of, tables_of,
};
use crate::levels::Target;
use crate::pointers::tables_at;
use crate::reply::{ContextPlace, WayFound};
use crate::sent::{Said, Sent, sent_at};
use iom_base::{AccessKind, DeviceId, ENTRY_SIZE, MAX_IN_FLIGHT};
use iom_board::Board;
use iom_registers::DirectoryMode;
use iom_tlb::PLACES;

/// The page of an answer by which the device would keep the frame, with a right to accesses of the kind.
fn answered_page(sent: &Sent, device: DeviceId, now: u64, target: Target) -> Option<u64> {
    match sent.said {
        Said::Answer {
            epoch,
            page,
            frame,
            rights,
        } => {
            let is_taken = sent.device == device && epoch == now;
            if is_taken && frame == target.frame && rights.allows(target.kind) {
                Some(page)
            } else {
                None
            }
        }
        _ => None,
    }
}

impl Chronicle {
    /// The first way by which the device can reach the frame by this kind of access, if one is found: an access in flight, the
    /// device's cache, an answer under way, a cached translation, an entry, or what lets everything through.
    pub fn way(
        &self,
        hardware: &Board,
        device: DeviceId,
        frame: u32,
        kind: AccessKind,
    ) -> Option<WayFound> {
        let target = Target { frame, kind };
        let contexts = Contexts::of(hardware, device);
        if let Some(way) = self.flight_way(hardware, device, target) {
            return Some(way);
        }
        if let Some(way) = self.ats_way(hardware, device, &contexts, target) {
            return Some(way);
        }
        if let Some(way) = self.translation_way(hardware, &contexts, target) {
            return Some(way);
        }
        if let Some(way) = self.entry_way(hardware, device, &contexts, target) {
            return Some(way);
        }
        if let Some(way) = self.pointer_way(hardware, &contexts, target) {
            return Some(way);
        }
        self.open_way(hardware, device, &contexts)
    }

    fn flight_way(&self, hardware: &Board, device: DeviceId, target: Target) -> Option<WayFound> {
        for place in 0..MAX_IN_FLIGHT {
            let waiting = hardware.iommu.waiting_at(device, place)?;
            if waiting.frame == target.frame && waiting.kind == target.kind {
                let since = match self.flights.at(device, place) {
                    Some(origin) => origin.line,
                    None => self.line,
                };
                return Some(WayFound::InFlight { since });
            }
        }
        None
    }

    /// What a device has in its own cache, or would have by an answer under way.
    fn ats_way(
        &self,
        hardware: &Board,
        device: DeviceId,
        contexts: &Contexts,
        target: Target,
    ) -> Option<WayFound> {
        if !contexts.have_ats() || !has_cache(hardware.kind_of(device)) {
            return None;
        }
        if let Some(way) = self.kept_way(hardware, device, target) {
            return Some(way);
        }
        self.answer_way(hardware, device, target)
    }

    fn kept_way(&self, hardware: &Board, id: DeviceId, target: Target) -> Option<WayFound> {
        for entry in entries_at(&hardware.devices, id).iter() {
            if entry.frame == target.frame && entry.rights.allows(target.kind) {
                let page = entry.page.number();
                let since = match self.caches.of_page(id, page) {
                    Some(kept) => kept.since,
                    None => self.line,
                };
                return Some(WayFound::DeviceCache { page, since });
            }
        }
        None
    }

    fn answer_way(&self, hardware: &Board, device: DeviceId, target: Target) -> Option<WayFound> {
        let epoch = hardware.epoch_of(device);
        for place in 0..hardware.fabric.len() {
            let sent = sent_at(&hardware.fabric, place)?;
            if let Some(page) = answered_page(&sent, device, epoch, target) {
                let since = self.messages.since(place, self.line);
                return Some(WayFound::Answer { page, since });
            }
        }
        None
    }

    fn translation_way(
        &self,
        hardware: &Board,
        contexts: &Contexts,
        target: Target,
    ) -> Option<WayFound> {
        for place in 0..PLACES {
            if let Some(cached) = hardware.iommu.translations().page_at(place) {
                let translation = cached.translation;
                if contexts.are_in(cached.space)
                    && translation.frame == target.frame
                    && translation.rights.allows(target.kind)
                {
                    let page = cached.page;
                    let since = match self.cached_since(cached.space, page) {
                        Some(line) => line,
                        None => self.line,
                    };
                    return Some(WayFound::CachedTranslation { page, since });
                }
            }
        }
        None
    }

    /// An entry of the device's own walks, else of those of other devices in the same address space.
    fn entry_way(
        &self,
        hardware: &Board,
        device: DeviceId,
        contexts: &Contexts,
        target: Target,
    ) -> Option<WayFound> {
        if let Some(way) = self.walker_way(hardware, device, None, contexts, target) {
            return Some(way);
        }
        for other in hardware.devices.iter() {
            if other.id != device {
                let way = self.walker_way(hardware, other.id, Some(other.id), contexts, target);
                if way.is_some() {
                    return way;
                }
            }
        }
        None
    }

    /// An entry of the walks of this device, by its stored context, else by the cached one.
    fn walker_way(
        &self,
        hardware: &Board,
        device: DeviceId,
        walker: Option<DeviceId>,
        contexts: &Contexts,
        target: Target,
    ) -> Option<WayFound> {
        for context in [ContextPlace::Stored, ContextPlace::Cached] {
            if let Some(address) = leaf_by(
                hardware, self.napot, device, context, contexts, target,
            ) {
                let since = self.entry_since(device, context, address);
                return Some(WayFound::Entry {
                    walker,
                    context,
                    address,
                    since,
                });
            }
        }
        None
    }

    /// An entry to which a walk leads that begins at a cached pointer, in the address space of one of these contexts.
    fn pointer_way(
        &self,
        hardware: &Board,
        contexts: &Contexts,
        target: Target,
    ) -> Option<WayFound> {
        for own in self.pointers.kept.iter() {
            if contexts.are_in(own.what.space) {
                if let Some(address) = tables_at(&own.what, self.napot).leaf_to(
                    &hardware.memory,
                    target,
                ) {
                    let since = own.line.max(self.words.at(address));
                    return Some(WayFound::PointedEntry { address, since });
                }
            }
        }
        None
    }

    /// Since when the entry is there, and the context cached, where it is by that.
    fn entry_since(&self, device: DeviceId, context: ContextPlace, address: u64) -> u64 {
        let stored = self.words.at(address);
        match context {
            ContextPlace::Stored => stored,
            ContextPlace::Cached => match self.contexts.since(device) {
                Some(line) => line.max(stored),
                None => self.line,
            },
        }
    }

    /// What lets a device reach every frame.
    fn open_way(
        &self,
        hardware: &Board,
        device: DeviceId,
        contexts: &Contexts,
    ) -> Option<WayFound> {
        let kind = hardware.kind_of(device);
        if kind.is_some() && mode_of(hardware) == DirectoryMode::Bare {
            return Some(WayFound::DirectoryBare);
        }
        if contexts.are_bare() {
            return Some(WayFound::StagesBare);
        }
        if contexts.have_ats() && forges(kind) {
            let since = self.ats_since(hardware, device, contexts);
            return Some(WayFound::Forger { since });
        }
        None
    }

    /// Since when the context with EN_ATS is cached, or stored, where the cached one hasn't it.
    fn ats_since(&self, hardware: &Board, device: DeviceId, contexts: &Contexts) -> u64 {
        if lets_ats(contexts.cached) {
            return match self.contexts.since(device) {
                Some(line) => line,
                None => self.line,
            };
        }
        match context_address(hardware, device) {
            Some(address) => self.context_stored(address),
            None => self.line,
        }
    }

    /// When a word of the context at the address was stored last.
    fn context_stored(&self, address: u64) -> u64 {
        let mut last = 0;
        for word in 0..4u64 {
            let line = self.words.at(address.saturating_add(ENTRY_SIZE * word));
            last = line.max(last);
        }
        last
    }
}

/// The entry at which a walk ends to the target, by the device's context in that place, where it translates in an address space
/// of these contexts.
fn leaf_by(
    hardware: &Board,
    napot: bool,
    device: DeviceId,
    place: ContextPlace,
    contexts: &Contexts,
    target: Target,
) -> Option<u64> {
    let context = context_at(hardware, device, place)?;
    let space = space_of(&context)?;
    if !contexts.are_in(space) {
        return None;
    }
    tables_of(&context, napot)?.leaf_to(&hardware.memory, target)
}
