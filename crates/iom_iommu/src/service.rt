// An untranslated request is served (IOMMU specification, section 2.3, "Process to translate an IOVA", whose steps are
// named here by their numbers). There are no process ids, so steps 11 to 16 never come, and no MSI tables, so 18 doesn't.
ghost use Rattle.std.specs.Prelude.{◌≡◌, ◌≢◌, ◌<◌, true, length, IfOk};
ghost use Rattle.iom_device_dir.specs.Cached.{cached_contexts};
ghost use Rattle.iom_device_dir.specs.Located.{located_context};
ghost use Rattle.iom_device_dir.specs.Paths.{fits_directory};
ghost use Rattle.iom_iommu.specs.Cached.{AreTranslationsIn};
ghost use Rattle.iom_iommu.specs.Service.{context_or_cause, Serves, ServesBy, KeepsContext, KeepsLocated};
ghost use Rattle.iom_registers.specs.Queues.{directory_mode};
ghost use Rattle.iom_registers.specs.declared.directory.DirectoryMode.TheVariants.{Bare};

use crate::contexts::find_context;
use crate::translations::{own_page, plain, translate, translate_by};
use iom_base::{AccessKind, Cause, DeviceId};
use iom_device_dir::{DirCache, fits_directory};
use iom_phys_mem::Memory;
use iom_registers::{DirectoryMode, Registers};
use iom_stage_walk::WalkFault;
use iom_tlb::{TransCache, Translation};

/// The translation of an access of a device whose context has to be searched for. Its id isn't too wide.
// On its own, so that a device that makes one request after another doesn't pay for it.
#[inline(never)]
fn serve_by_search<C: TransCache>(
    memory: &Memory,
    registers: &Registers,
    contexts: &mut DirCache,
    translations: &mut C,
    device: DeviceId,
    address: u64,
    kind: AccessKind,
) -> Result<Translation, WalkFault>
    requires inside { AreTranslationsIn (length memory.now) (C.content translations.old) }
    requires mode { directory_mode registers.now ≢ Bare }
    requires width { fits_directory (directory_mode registers.now) device ≡ true }
    ensures served { ServesBy C.SURE (context_or_cause memory.now registers.now (cached_contexts contexts.old) device) memory.now address kind
        (C.content translations.old) result (C.content translations.new) }
    ensures kept { KeepsLocated (cached_contexts contexts.old device) (located_context memory.now registers.now.ddtp device)
        (cached_contexts contexts.old) device (cached_contexts contexts.new) }
    ensures inside { IfOk result (λ translation. translation.frame < length memory.now) }
{
    let found = find_context(memory, registers, contexts, device);
    translate_by(memory, found, address, kind, translations)
}

/// The translation of an access of the device, by steps 1 to 6 and what follows them. The context and the translation that
/// this finds in memory are cached, the context also where the translation then faults.
pub(crate) fn serve<C: TransCache>(
    memory: &Memory,
    registers: &Registers,
    contexts: &mut DirCache,
    translations: &mut C,
    device: DeviceId,
    address: u64,
    kind: AccessKind,
) -> Result<Translation, WalkFault>
    requires { AreTranslationsIn (length memory.now) (C.content translations.old) }
    ensures served { Serves C.SURE memory.now registers.now (cached_contexts contexts.old) device address kind
        (C.content translations.old) result (C.content translations.new) }
    ensures kept { KeepsContext memory.now registers.now (cached_contexts contexts.old) device (cached_contexts contexts.new) }
    ensures inside { IfOk result (λ translation. translation.frame < length memory.now) }
{
    let mode = registers.directory_mode();
    match mode {
        // Step 1.
        DirectoryMode::Off => Err(plain(Cause::AllInboundDisallowed)),
        // Step 2: on to step 20 with the address as it is.
        DirectoryMode::Bare => own_page(memory, address, kind),
        // Step 5, by the base format's DDI of step 3. Also where a context is cached: software may have given the directory fewer levels since.
        _ if !fits_directory(mode, device) => Err(plain(Cause::TransactionTypeDisallowed)),
        DirectoryMode::OneLevel | DirectoryMode::TwoLevels | DirectoryMode::ThreeLevels => {
            // Step 6; step 7 refuses no untranslated request. A device that makes one request after another pays for no
            // search, and for no copy of its context.
            match contexts.last_used(device) {
                Some(context) => translate(memory, context, address, kind, translations),
                None => serve_by_search(
                    memory,
                    registers,
                    contexts,
                    translations,
                    device,
                    address,
                    kind,
                ),
            }
        }
    }
}
