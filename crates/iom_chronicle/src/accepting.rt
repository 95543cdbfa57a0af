// What let an access through that was just accepted.
ghost use Rattle.std.specs.Prelude.{◌≡◌};

use crate::chronicle::Chronicle;
use crate::found::{mode_of, space_of, tables_of};
use crate::levels::Target;
use crate::origin::{Entrance, Origin, Through};
use crate::pointers::tables_at;
use iom_base::{DeviceId, PAGE_SIZE};
use iom_board::Board;
use iom_device_dir::{Context, FirstStage, SecondStage};
use iom_pointers::lead;
use iom_registers::DirectoryMode;
use iom_tlb::Space;

/// What the access of the device that was accepted last does, on which frame.
fn newest(hardware: &Board, device: DeviceId) -> Option<Target> {
    let count = hardware.iommu.in_flight(device);
    let newest = hardware.iommu.waiting_at(device, count.checked_sub(1)?)?;
    Some(Target {
        frame: newest.frame,
        kind: newest.kind,
    })
}

/// The address of the entry at which the walk to the page ended. In both stages of an entry of the second's that leads to the
/// frame: which guest physical page it was is in no table of the host's.
fn walked_to(
    hardware: &Board,
    napot: bool,
    context: &Context,
    page: u64,
    target: Target,
) -> Option<u64> {
    let tables = tables_of(context, napot)?;
    match (context.first_stage, context.second_stage) {
        (FirstStage::Tables { .. }, SecondStage::Tables { .. }) => {
            tables.leaf_to(&hardware.memory, target)
        }
        _ => tables.leaf_of(&hardware.memory, page),
    }
}

impl Chronicle {
    /// An access of the device at the address was just accepted, and nothing noticed since: keeps its line, and what let it
    /// through, by what was remembered before this line. Of a walk whose loads are events of their own, only where it ended.
    pub fn accepted(&mut self, hardware: &Board, device: DeviceId, address: u64, how: Entrance)
        ensures { self.new ≡ record self.old { flights = self.new.flights } }
    {
        let page = address / PAGE_SIZE;
        let through = match how {
            Entrance::Untranslated => self.through_stages(hardware, device, page),
            Entrance::Forged => Through::Forged,
            Entrance::ThroughCache => self.through_cache(device, page),
            Entrance::Walk => Through::WalkEnded { line: self.line },
        };
        let origin = Origin {
            line: self.line,
            through,
        };
        self.flights.accept(device, origin);
    }

    /// The device's own cache, by what is remembered of it.
    fn through_cache(&self, device: DeviceId, page: u64) -> Through {
        match self.caches.of_page(device, page) {
            Some(kept) => Through::DeviceCache {
                page,
                since: kept.since,
                answered: kept.answered,
            },
            None => Through::DeviceCache {
                page,
                since: self.line,
                answered: self.line,
            },
        }
    }

    /// The stages of the device's context, which was cached or is now.
    fn through_stages(&self, hardware: &Board, device: DeviceId, page: u64) -> Through {
        if mode_of(hardware) == DirectoryMode::Bare {
            return Through::DirectoryBare;
        }
        let Some(context) = hardware.iommu.cached_context(device) else {
            return self.since_now(page);
        };
        match newest(hardware, device) {
            Some(target) => self.through_context(hardware, device, &context, page, target),
            None => self.since_now(page),
        }
    }

    /// What is still true where nothing else is known: the translation is cached since this line.
    fn since_now(&self, page: u64) -> Through {
        Through::CachedTranslation {
            page,
            since: self.line,
        }
    }

    /// A pointer that was cached before, at which a walk of the page began that led to the frame.
    fn through_pointer(
        &self,
        hardware: &Board,
        space: Space,
        page: u64,
        target: Target,
    ) -> Option<Through> {
        let known = self.pointers.deepest(space, page)?;
        let found = lead(
            &hardware.memory,
            self.napot,
            known.what.hand(page),
            target.kind,
        )?;
        if found.frame != target.frame {
            return None;
        }
        let address = tables_at(&known.what, self.napot).leaf_of(&hardware.memory, page)?;
        Some(Through::WalkFromPointer {
            address,
            stored: self.words.at(address),
            pointer_since: known.line,
        })
    }

    fn through_context(
        &self,
        hardware: &Board,
        device: DeviceId,
        context: &Context,
        page: u64,
        target: Target,
    ) -> Through {
        let Some(space) = space_of(context) else {
            return Through::StagesBare;
        };
        if let Some(since) = self.translations.since_for(space, page, target.kind) {
            return Through::CachedTranslation { page, since };
        }
        if let Some(through) = self.through_pointer(hardware, space, page, target) {
            return through;
        }
        match walked_to(hardware, self.napot, context, page, target) {
            Some(address) => Through::Walk {
                address,
                stored: self.words.at(address),
                context_since: self.contexts.since(device),
            },
            None => self.since_now(page),
        }
    }
}
