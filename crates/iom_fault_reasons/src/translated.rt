// Why a request that says that it is translated is refused.
ghost use Rattle.std.specs.Prelude.{◌≡◌, true};
ghost use Rattle.iom_device_dir.specs.Paths.{fits_directory};
ghost use Rattle.iom_fault_reasons.specs.Reasons.{IsDirectory};
ghost use Rattle.iom_fault_reasons.specs.Translated.{IsTranslatedFound, IsTranslatedByDirectory, IsWhyTranslated, reason_of_context};
ghost use Rattle.iom_iommu.specs.Parts.{contexts_of, registers_of};

use crate::found::ContextSource;
use crate::untranslated::pointer_in;
use iom_base::{Cause, DeviceId, PAGE_SIZE};
use iom_board::Board;
use iom_device_dir::{Context, fits_directory};
use iom_phys_mem::{Bytes, Memory};
use iom_registers::{DirectoryMode, DirectoryPointer};
use iom_stepped_walk::EntryLoad;
use iom_walk_stops::{DirectoryEnd, end_of_directory};

/// Where the way of a request ends that says that it is translated.
#[derive(Clone, Copy, PartialEq, Eq)]
pub enum WhyTranslated {
    /// `ddtp` has the mode Off: no request is allowed.
    DirectoryOff,
    /// `ddtp` has the mode Bare: there are no contexts, and none lets such a request through.
    DirectoryBare,
    /// The device's id is too wide for the levels of the directory.
    IdTooWide,
    /// The way to the device's context stops at this entry of the directory, or at the context.
    NoContext { load: EntryLoad, cause: Cause },
    /// The device's context has EN_ATS clear.
    LacksAts(ContextSource),
    /// Memory has no such frame.
    OutsideMemory,
    /// Nothing stops it: the address is in this frame.
    Passes { frame: u32 },
}

/// The reason where the device has this context.
fn by_context(
    memory: &Memory,
    context: &Context,
    source: ContextSource,
    address: u64,
) -> WhyTranslated
    ensures { result ≡ reason_of_context memory.now context.now source address }
{
    if !context.en_ats {
        return WhyTranslated::LacksAts(source);
    }
    let page = address / PAGE_SIZE;
    if page >= u64::from(memory.frames()) {
        return WhyTranslated::OutsideMemory;
    }
    WhyTranslated::Passes { frame: page as u32 }
}

/// The reason where no context is cached for the device.
fn by_directory(
    memory: &Memory,
    ddtp: DirectoryPointer,
    id: DeviceId,
    address: u64,
) -> WhyTranslated
    requires directory { IsDirectory ddtp.mode }
    requires width { fits_directory ddtp.mode id ≡ true }
    ensures { IsTranslatedByDirectory memory.now ddtp id address result }
{
    match end_of_directory(memory, ddtp, id) {
        DirectoryEnd::Finds(context) => {
            by_context(memory, &context, ContextSource::Directory, address)
        }
        DirectoryEnd::StopsAt { load, cause } => WhyTranslated::NoContext { load, cause },
        DirectoryEnd::StopsUnread(_) => unreachable!(),
    }
}

/// The reason by the context that is cached, or else by the directory.
fn by_found(
    memory: &Memory,
    ddtp: DirectoryPointer,
    cached: Option<Context>,
    id: DeviceId,
    address: u64,
) -> WhyTranslated
    requires directory { IsDirectory ddtp.mode }
    requires width { fits_directory ddtp.mode id ≡ true }
    ensures { IsTranslatedFound memory.now ddtp cached id address result }
{
    match cached {
        Some(context) => by_context(memory, &context, ContextSource::Cache, address),
        None => by_directory(memory, ddtp, id, address),
    }
}

/// Where the way of a translated request would end now.
fn why(
    memory: &Memory,
    ddtp: DirectoryPointer,
    cached: Option<Context>,
    id: DeviceId,
    address: u64,
) -> WhyTranslated
    ensures { IsWhyTranslated memory.now ddtp cached id address result }
{
    match ddtp.mode {
        DirectoryMode::Off => WhyTranslated::DirectoryOff,
        DirectoryMode::Bare => WhyTranslated::DirectoryBare,
        _ if !fits_directory(ddtp.mode, id) => WhyTranslated::IdTooWide,
        DirectoryMode::OneLevel | DirectoryMode::TwoLevels | DirectoryMode::ThreeLevels => {
            by_found(memory, ddtp, cached, id, address)
        }
    }
}

/// Where the way of a request of the device that says that it is translated would end now. Where such a request is refused
/// now, this is why (`reason_law`).
pub fn why_translated(hardware: &Board, id: DeviceId, address: u64) -> WhyTranslated
    ensures { IsWhyTranslated hardware.now.memory (registers_of hardware.now.iommu).ddtp (contexts_of hardware.now.iommu id) id address result }
{
    why(
        &hardware.memory,
        pointer_in(hardware.iommu.registers()),
        hardware.iommu.cached_context(id),
        id,
        address,
    )
}
