// The contexts that a request of a device may find, and what they name.
ghost use Rattle.std.specs.Prelude.{◌≢◌};

use crate::levels::{Stage, Tables};
use crate::reply::ContextPlace;
use iom_base::{DeviceId, DeviceKind};
use iom_board::Board;
use iom_device_dir::{Context, FirstStage, SecondStage, fits_directory, locate};
use iom_registers::{DirectoryMode, DirectoryPointer};
use iom_tlb::Space;

/// Whether the mode has a directory.
pub(crate) fn has_directory(mode: DirectoryMode) -> bool {
    match mode {
        DirectoryMode::Off | DirectoryMode::Bare => false,
        DirectoryMode::OneLevel | DirectoryMode::TwoLevels | DirectoryMode::ThreeLevels => true,
    }
}

/// The directory's mode.
pub(crate) fn mode_of(hardware: &Board) -> DirectoryMode {
    hardware.iommu.registers().directory_mode()
}

/// The context that memory has for the device.
fn stored_context(hardware: &Board, device: DeviceId) -> Option<Context> {
    let mode = mode_of(hardware);
    if mode == DirectoryMode::Bare {
        return None;
    }
    let pointer = DirectoryPointer {
        mode,
        ppn: hardware.iommu.registers().directory_root(),
    };
    locate(&hardware.memory, pointer, device).ok()
}

/// The context that is cached for the device, where its id isn't too wide for the directory.
fn cached_context(hardware: &Board, device: DeviceId) -> Option<Context> {
    if fits_directory(mode_of(hardware), device) {
        hardware.iommu.cached_context(device)
    } else {
        None
    }
}

/// The context of the device that a request may find there. None without a directory, or where no such device is plugged in.
pub(crate) fn context_at(
    hardware: &Board,
    device: DeviceId,
    place: ContextPlace,
) -> Option<Context> {
    if !has_directory(mode_of(hardware)) || hardware.kind_of(device).is_none() {
        return None;
    }
    match place {
        ContextPlace::Stored => stored_context(hardware, device),
        ContextPlace::Cached => cached_context(hardware, device),
    }
}

/// The address space in which what the context translates is cached. None where both stages are Bare.
pub(crate) fn space_of(context: &Context) -> Option<Space> {
    let pscid = context.pscid.number();
    let gscid = context.gscid;
    match (context.first_stage, context.second_stage) {
        (FirstStage::Bare, SecondStage::Bare) => None,
        (FirstStage::Tables { .. }, SecondStage::Bare) => Some(Space::First { pscid }),
        (FirstStage::Bare, SecondStage::Tables { .. }) => Some(Space::Second { gscid }),
        (FirstStage::Tables { .. }, SecondStage::Tables { .. }) => {
            Some(Space::Both { gscid, pscid })
        }
    }
}

/// Whether no address is translated by it.
pub(crate) fn is_bare(context: &Context) -> bool {
    space_of(context).is_none()
}

/// The tables that decide where the context leads: in both stages the second's. Walks know leaves of 64 KiB, or don't.
pub(crate) fn tables_of(context: &Context, napot: bool) -> Option<Tables> {
    match (context.first_stage, context.second_stage) {
        (FirstStage::Bare, SecondStage::Bare) => None,
        (FirstStage::Tables { size, root }, SecondStage::Bare) => Some(Tables {
            stage: Stage::First,
            root: root.number(),
            levels: size.levels(),
            napot,
        }),
        (FirstStage::Bare, SecondStage::Tables { size, root }) => Some(Tables {
            stage: Stage::Second,
            root: root.number(),
            levels: size.levels(),
            napot,
        }),
        (FirstStage::Tables { .. }, SecondStage::Tables { size, root }) => Some(Tables {
            stage: Stage::Second,
            root: root.number(),
            levels: size.levels(),
            napot,
        }),
    }
}

/// The contexts that a request of one device may find.
#[derive(Clone, Copy)]
pub(crate) struct Contexts {
    pub(crate) cached: Option<Context>,
    pub(crate) stored: Option<Context>,
}

impl Contexts {
    pub(crate) fn of(hardware: &Board, device: DeviceId) -> Contexts {
        Contexts {
            cached: context_at(hardware, device, ContextPlace::Cached),
            stored: context_at(hardware, device, ContextPlace::Stored),
        }
    }

    /// Whether one of them has EN_ATS.
    pub(crate) fn have_ats(&self) -> bool {
        lets_ats(self.cached) || lets_ats(self.stored)
    }

    /// Whether by one of them no address is translated.
    pub(crate) fn are_bare(&self) -> bool {
        leaves_bare(self.cached) || leaves_bare(self.stored)
    }

    /// Whether one of them translates in this address space.
    pub(crate) fn are_in(&self, space: Space) -> bool {
        is_in(self.cached, space) || is_in(self.stored, space)
    }
}

/// Whether there is a context, with EN_ATS.
pub(crate) fn lets_ats(context: Option<Context>) -> bool {
    match context {
        Some(context) => context.en_ats,
        None => false,
    }
}

fn leaves_bare(context: Option<Context>) -> bool {
    match context {
        Some(context) => is_bare(&context),
        None => false,
    }
}

fn is_in(context: Option<Context>, space: Space) -> bool {
    match context {
        Some(context) => space_of(&context) == Some(space),
        None => false,
    }
}

/// Whether a device of this kind sends translated requests by what its own cache has.
pub(crate) fn has_cache(kind: Option<DeviceKind>) -> bool {
    match kind {
        Some(kind) => kind.has_cache(),
        None => false,
    }
}

/// Whether it sends them to any address.
pub(crate) fn forges(kind: Option<DeviceKind>) -> bool {
    match kind {
        Some(kind) => kind.forges(),
        None => false,
    }
}
