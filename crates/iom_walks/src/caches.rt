// What is looked for in the caches of an IOMMU, and what is kept in them.
ghost use Rattle.std.specs.Prelude.{◌≡◌, false};
ghost use Rattle.iom_device_dir.specs.Cached.{cached_contexts};
ghost use Rattle.iom_walks.specs.Caches.{LooksAtBegin, OffersContext, OffersTranslation, found_for, has_directory, looks_for_context, offers_translation};

use iom_base::DeviceId;
use iom_device_dir::{Context, DirCache, fits_directory};
use iom_registers::DirectoryMode;
use iom_stepped_requests::Kept;
use iom_tlb::TransCache;

/// Whether there is a directory.
fn has_directory(mode: DirectoryMode) -> bool
    ensures { result ≡ has_directory mode }
{
    match mode {
        DirectoryMode::Off | DirectoryMode::Bare => false,
        DirectoryMode::OneLevel | DirectoryMode::TwoLevels | DirectoryMode::ThreeLevels => true,
    }
}

/// The context that is cached for the device, where one is looked for.
pub(crate) fn look_for_context(
    mode: DirectoryMode,
    contexts: &mut DirCache,
    device: DeviceId,
) -> Option<Context>
    ensures found { result ≡ found_for (looks_for_context mode device) (cached_contexts contexts.old device) }
    ensures looked { LooksAtBegin (looks_for_context mode device) device contexts.old contexts.new }
{
    if has_directory(mode) && fits_directory(mode, device) {
        contexts.look(device)
    } else {
        None
    }
}

/// Keeps what a load found, in its cache.
pub(crate) fn keep<C: TransCache>(found: Kept, contexts: &mut DirCache, translations: &mut C)
    ensures contexts { OffersContext found contexts.old contexts.new }
    ensures translations { OffersTranslation C.SURE found (C.content translations.old) (C.content translations.new) }
    ensures untouched { offers_translation found ≡ false → translations.new ≡ translations.old }
{
    match found {
        Kept::Nothing => {}
        Kept::Context { device, context } => contexts.keep(device, context),
        Kept::Translation {
            space,
            page,
            translation,
        } => translations.keep(space, page, translation),
    }
}
