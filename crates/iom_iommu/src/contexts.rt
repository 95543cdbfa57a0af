// The context of a device: the cached one, or the one that the directory has (IOMMU specification, section 2.3.1, "Process to
// locate the Device-context", and section 2.8, "Caching in-memory data structures").
ghost use Rattle.std.specs.Prelude.{◌≡◌, ◌≢◌, true, None};
ghost use Rattle.iom_registers.specs.Queues.{directory_mode};
ghost use Rattle.iom_registers.specs.declared.directory.DirectoryMode.TheVariants.{Bare};
ghost use Rattle.iom_device_dir.specs.Cached.{cached_contexts};
ghost use Rattle.iom_device_dir.specs.Located.{located_context};
ghost use Rattle.iom_device_dir.specs.Paths.{fits_directory};
ghost use Rattle.iom_iommu.specs.Service.{context_or_cause, ats_context_for, letting_ats, KeepsLocated, KeepsContext};

use iom_base::{Cause, DeviceId};
use iom_device_dir::{Context, DirCache, fits_directory, locate};
use iom_phys_mem::Memory;
use iom_registers::{DirectoryMode, DirectoryPointer, Registers};

/// The context that the directory has for the device. It is kept.
fn find_in_directory(
    memory: &Memory,
    registers: &Registers,
    contexts: &mut DirCache,
    device: DeviceId,
) -> Result<Context, Cause>
    requires { directory_mode registers.now ≢ Bare }
    ensures found { result ≡ located_context memory.now registers.now.ddtp device }
    ensures kept { KeepsLocated None result (cached_contexts contexts.old) device (cached_contexts contexts.new) }
{
    let pointer = DirectoryPointer {
        mode: registers.directory_mode(),
        ppn: registers.directory_root(),
    };
    let context = locate(memory, pointer, device)?;
    contexts.keep(device, context);
    Ok(context)
}

/// The context of the device, whose id isn't too wide for the directory: the cached one, or else the one that the
/// directory has, which is kept.
// Written into its callers, as `translate_by` and `accept` are: these are the way of each request.
#[inline(always)]
pub(crate) fn find_context(
    memory: &Memory,
    registers: &Registers,
    contexts: &mut DirCache,
    device: DeviceId,
) -> Result<Context, Cause>
    requires mode { directory_mode registers.now ≢ Bare }
    requires width { fits_directory (directory_mode registers.now) device ≡ true }
    ensures found { result ≡ context_or_cause memory.now registers.now (cached_contexts contexts.old) device }
    ensures kept { KeepsLocated (cached_contexts contexts.old device) (located_context memory.now registers.now.ddtp device)
        (cached_contexts contexts.old) device (cached_contexts contexts.new) }
{
    match contexts.look(device) {
        Some(cached) => Ok(cached),
        None => find_in_directory(memory, registers, contexts, device),
    }
}

/// The context, unless it has EN_ATS clear: step 7 of section 2.3, (a).
fn letting_ats(found: Result<Context, Cause>) -> Result<Context, Cause>
    ensures { result ≡ letting_ats found }
{
    match found {
        Ok(context) if context.en_ats => Ok(context),
        Ok(_) => Err(Cause::TransactionTypeDisallowed),
        Err(cause) => Err(cause),
    }
}

/// The context that lets the device ask for translations and make translated requests. It is kept where it was found
/// in the directory, also where it doesn't let it.
#[inline(always)]
pub(crate) fn find_ats_context(
    memory: &Memory,
    registers: &Registers,
    contexts: &mut DirCache,
    device: DeviceId,
) -> Result<Context, Cause>
    ensures found { result ≡ ats_context_for memory.now registers.now (cached_contexts contexts.old) device }
    ensures kept { KeepsContext memory.now registers.now (cached_contexts contexts.old) device (cached_contexts contexts.new) }
{
    let mode = registers.directory_mode();
    match mode {
        // Steps 1, 2 (a), 5, and then 6 with 7 (a), of section 2.3.
        DirectoryMode::Off => Err(Cause::AllInboundDisallowed),
        DirectoryMode::Bare => Err(Cause::TransactionTypeDisallowed),
        _ if !fits_directory(mode, device) => Err(Cause::TransactionTypeDisallowed),
        DirectoryMode::OneLevel | DirectoryMode::TwoLevels | DirectoryMode::ThreeLevels => {
            letting_ats(find_context(memory, registers, contexts, device))
        }
    }
}
