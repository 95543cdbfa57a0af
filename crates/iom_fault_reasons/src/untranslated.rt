// Why an untranslated request is refused.
ghost use Rattle.std.specs.Prelude.{◌≡◌, true};
ghost use Rattle.iom_device_dir.specs.Paths.{fits_directory};
ghost use Rattle.iom_fault_reasons.specs.Reasons.{IsByDirectory, IsDirectory, IsFound, IsWhy};
ghost use Rattle.iom_iommu.specs.Parts.{contexts_of, registers_of};

use crate::found::{ContextSource, WhyFault, by_context, own_page};
use iom_base::{AccessKind, DeviceId};
use iom_board::Board;
use iom_device_dir::{Context, fits_directory};
use iom_phys_mem::Memory;
use iom_registers::{DirectoryMode, DirectoryPointer, Registers};
use iom_walk_stops::{DirectoryEnd, end_of_directory};

/// The reason where no context is cached for the device.
fn by_directory(
    memory: &Memory,
    ddtp: DirectoryPointer,
    id: DeviceId,
    address: u64,
    kind: AccessKind,
) -> WhyFault
    requires directory { IsDirectory ddtp.mode }
    requires width { fits_directory ddtp.mode id ≡ true }
    ensures { IsByDirectory memory.now ddtp id address kind result }
{
    match end_of_directory(memory, ddtp, id) {
        DirectoryEnd::Finds(context) => {
            by_context(memory, &context, ContextSource::Directory, address, kind)
        }
        DirectoryEnd::StopsAt { load, cause } => WhyFault::NoContext { load, cause },
        DirectoryEnd::StopsUnread(_) => unreachable!(),
    }
}

/// The reason by the context that is cached, or else by the directory.
fn by_found(
    memory: &Memory,
    ddtp: DirectoryPointer,
    cached: Option<Context>,
    id: DeviceId,
    address: u64,
    kind: AccessKind,
) -> WhyFault
    requires directory { IsDirectory ddtp.mode }
    requires width { fits_directory ddtp.mode id ≡ true }
    ensures { IsFound memory.now ddtp cached id address kind result }
{
    match cached {
        Some(context) => by_context(memory, &context, ContextSource::Cache, address, kind),
        None => by_directory(memory, ddtp, id, address, kind),
    }
}

/// What `ddtp` holds.
pub(crate) fn pointer_in(registers: &Registers) -> DirectoryPointer
    ensures { result ≡ registers.now.ddtp }
{
    DirectoryPointer {
        mode: registers.directory_mode(),
        ppn: registers.directory_root(),
    }
}

/// Where the way of an untranslated request would end now.
fn why(
    memory: &Memory,
    ddtp: DirectoryPointer,
    cached: Option<Context>,
    id: DeviceId,
    address: u64,
    kind: AccessKind,
) -> WhyFault
    ensures { IsWhy memory.now ddtp cached id address kind result }
{
    match ddtp.mode {
        DirectoryMode::Off => WhyFault::DirectoryOff,
        DirectoryMode::Bare => own_page(memory, address),
        _ if !fits_directory(ddtp.mode, id) => WhyFault::IdTooWide,
        DirectoryMode::OneLevel | DirectoryMode::TwoLevels | DirectoryMode::ThreeLevels => {
            by_found(memory, ddtp, cached, id, address, kind)
        }
    }
}

/// Where the way of an untranslated request of the device would end now, by the registers, the context that is cached for
/// it, the directory and the tables. Where such a request is refused now, this is why (`reason_law`).
pub fn why_fault(hardware: &Board, id: DeviceId, address: u64, kind: AccessKind) -> WhyFault
    ensures { IsWhy hardware.now.memory (registers_of hardware.now.iommu).ddtp (contexts_of hardware.now.iommu id) id address kind result }
{
    why(
        &hardware.memory,
        pointer_in(hardware.iommu.registers()),
        hardware.iommu.cached_context(id),
        id,
        address,
        kind,
    )
}
