// An address is translated by the stages of a context: by what is cached, or by a walk (IOMMU specification, section 2.3,
// "Process to translate an IOVA", steps 10, 17, 19 and 20, and section 2.8, "Caching in-memory data structures").
ghost use Rattle.std.specs.Prelude.{◌≡◌, ◌<◌, ◌/◌, length, IfOk, IfErr, IsSome};
ghost use Rattle.iom_base.specs.Sizes.{page_size};
ghost use Rattle.iom_stage_walk.specs.Both.{plain};
ghost use Rattle.iom_tlb.specs.Content.{TranslationsUnchanged};
ghost use Rattle.iom_iommu.specs.Cached.{AreTranslationsIn};
ghost use Rattle.iom_iommu.specs.Service.{own_page, cached_for, Walks, Translates, ServesBy};
ghost use Rattle.iom_iommu.specs.Stages.{space_through, ReachesThrough, StopsThrough};

use iom_base::{AccessKind, Cause, PAGE_SIZE, Rights};
use iom_device_dir::{Context, FirstStage, SecondStage};
use iom_phys_mem::{Bytes, Memory};
use iom_stage_walk::{WalkFault, Walked, walk_both, walk_first, walk_second};
use iom_tlb::{Space, TransCache, Translation};

/// A fault that tells no guest physical address.
pub(crate) fn plain(cause: Cause) -> WalkFault
    ensures { result ≡ plain cause }
{
    WalkFault {
        cause,
        gpa: 0,
        implicit: false,
    }
}

/// The frame of the address itself, to be read and written.
pub(crate) fn own_page(
    memory: &Memory,
    address: u64,
    kind: AccessKind,
) -> Result<Translation, WalkFault>
    ensures value { result ≡ own_page memory.now address kind }
    ensures inside { IfOk result (λ translation. translation.frame < length memory.now) }
{
    let page = address / PAGE_SIZE;
    if page >= u64::from(memory.frames()) {
        return Err(plain(Cause::access_fault(kind)));
    }
    Ok(Translation {
        frame: page as u32,
        rights: Rights::RW,
        order: 0,
    })
}

/// The address space that the stages of the context translate. None where both are Bare.
fn space_of(context: &Context) -> Option<Space>
    ensures { result ≡ space_through context.now.first_stage context.now.second_stage context.now }
{
    let pscid = context.pscid.number();
    let gscid = context.gscid;
    match (context.first_stage, context.second_stage) {
        (FirstStage::Bare, SecondStage::Bare) => None,
        (FirstStage::Tables { .. }, SecondStage::Bare) => Some(Space::First { pscid }),
        (FirstStage::Bare, SecondStage::Tables { .. }) => Some(Space::Second { gscid }),
        (FirstStage::Tables { .. }, SecondStage::Tables { .. }) => {
            Some(Space::Both { gscid, pscid })
        }
    }
}

/// Where the walk of the context's stages ends, by step 17, the first stage, and step 19, the second. One of them at least
/// isn't Bare.
fn walk(
    memory: &Memory,
    context: &Context,
    address: u64,
    kind: AccessKind,
) -> Result<Walked, WalkFault>
    requires { IsSome (space_through context.now.first_stage context.now.second_stage context.now) }
    ensures reached { IfOk result (ReachesThrough context.now.first_stage context.now.second_stage memory.now address kind) }
    ensures stopped { IfErr result (StopsThrough context.now.first_stage context.now.second_stage memory.now address kind) }
{
    match (context.first_stage, context.second_stage) {
        (FirstStage::Bare, SecondStage::Bare) => unreachable!(),
        (FirstStage::Tables { size, root }, SecondStage::Bare) => {
            walk_first(memory, size, root.number(), address, kind)
        }
        (FirstStage::Bare, SecondStage::Tables { size, root }) => {
            walk_second(memory, size, root.number(), address, kind)
        }
        (
            FirstStage::Tables {
                size: first_size,
                root: first,
            },
            SecondStage::Tables {
                size: second_size,
                root: second,
            },
        ) => {
            let number = second.number();
            walk_both(
                memory,
                first_size,
                first,
                second_size,
                number,
                address,
                kind,
            )
        }
    }
}

/// The translation that the walk reaches. It is kept for the page of the address space; where the walk stops, nothing
/// is.
// On its own, so that a translation that is cached doesn't pay for it, and is written into its callers.
#[inline(never)]
fn walk_and_keep<C: TransCache>(
    memory: &Memory,
    context: &Context,
    address: u64,
    kind: AccessKind,
    space: Space,
    translations: &mut C,
) -> Result<Translation, WalkFault>
    requires { IsSome (space_through context.now.first_stage context.now.second_stage context.now) }
    ensures walked { Walks C.SURE
        (ReachesThrough context.now.first_stage context.now.second_stage memory.now address kind)
        (StopsThrough context.now.first_stage context.now.second_stage memory.now address kind)
        (space, address / page_size) (C.content translations.old) result (C.content translations.new) }
    ensures inside { IfOk result (λ translation. translation.frame < length memory.now) }
{
    match walk(memory, context, address, kind) {
        Ok(
            Walked {
                frame,
                rights,
                level,
                ..
            },
        ) => {
            let translation = Translation {
                frame,
                rights,
                order: 9 * u16::from(level),
            };
            translations.keep(space, address / PAGE_SIZE, translation);
            Ok(translation)
        }
        Err(fault) => Err(fault),
    }
}

/// The translation that is cached for the page, where its right allows the access.
fn find_cached<C: TransCache>(
    translations: &mut C,
    space: Space,
    page: u64,
    kind: AccessKind,
) -> Option<Translation>
    ensures found { result ≡ cached_for (C.content translations.old (space, page)) kind }
    ensures unchanged { TranslationsUnchanged (C.content translations.old) (C.content translations.new) }
{
    let cached = translations.look(space, page)?;
    if cached.rights.allows(kind) {
        Some(cached)
    } else {
        None
    }
}

/// The translation to which the stages of the context lead, which are those of the context itself (step 10). Where both are
/// Bare that is the address (step 20).
#[inline(always)]
pub(crate) fn translate<C: TransCache>(
    memory: &Memory,
    context: &Context,
    address: u64,
    kind: AccessKind,
    translations: &mut C,
) -> Result<Translation, WalkFault>
    requires { AreTranslationsIn (length memory.now) (C.content translations.old) }
    ensures translated { Translates C.SURE context.now.first_stage context.now.second_stage context.now memory.now
        address kind (C.content translations.old) result (C.content translations.new) }
    ensures inside { IfOk result (λ translation. translation.frame < length memory.now) }
{
    let Some(space) = space_of(context) else {
        return own_page(memory, address, kind);
    };
    match find_cached(translations, space, address / PAGE_SIZE, kind) {
        Some(cached) => Ok(cached),
        None => walk_and_keep(memory, context, address, kind, space, translations),
    }
}

/// The same by the context that was found, if one was.
#[inline(always)]
pub(crate) fn translate_by<C: TransCache>(
    memory: &Memory,
    found: Result<Context, Cause>,
    address: u64,
    kind: AccessKind,
    translations: &mut C,
) -> Result<Translation, WalkFault>
    requires { AreTranslationsIn (length memory.now) (C.content translations.old) }
    ensures served { ServesBy C.SURE found memory.now address kind (C.content translations.old) result (C.content translations.new) }
    ensures inside { IfOk result (λ translation. translation.frame < length memory.now) }
{
    match found {
        Ok(context) => translate(memory, &context, address, kind, translations),
        Err(cause) => Err(plain(cause)),
    }
}
