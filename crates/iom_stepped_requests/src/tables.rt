// A request whose context is found: by what is cached for its page, or in tables.
ghost use Rattle.std.specs.Prelude.{◌≡◌, ℕ, IsTrue};
ghost use Rattle.iom_stage_walk.specs.Both.{plain};
ghost use Rattle.iom_stepped_walk.specs.Positions.{remains};
ghost use Rattle.iom_tlb.specs.Content.{TranslationsUnchanged};
ghost use Rattle.iom_stepped_requests.specs.Serving.{answer_of, by_context, by_located, in_tables, looked_up, space_of};
ghost use Rattle.iom_stepped_requests.specs.Standing.{still_serving};

use crate::request::{Answer, Request};
use crate::walk::{RequestWalk, Serving};
use iom_base::{Cause, PAGE_SIZE};
use iom_device_dir::Context;
use iom_stage_walk::{WalkFault, Walked};
use iom_stepped_walk::Progress;
use iom_tlb::{Space, TransCache, Translation};
use iom_walk_stops::Stages;

/// A fault that tells no guest physical address.
pub(crate) fn plain(cause: Cause) -> WalkFault
    ensures { result ≡ plain cause }
{
    WalkFault {
        cause,
        gpa: 0,
        implicit: false,
    }
}

/// The address space that these stages of the context translate.
fn space_of(context: &Context, stages: Stages) -> Space
    ensures { result ≡ space_of context.now stages }
{
    let pscid = context.pscid.number();
    let gscid = context.gscid;
    match stages {
        Stages::First { .. } => Space::First { pscid },
        Stages::Second { .. } => Space::Second { gscid },
        Stages::Both { .. } => Space::Both { gscid, pscid },
    }
}

/// What a walk of tables answers a request.
fn answer_of(ended: Result<Walked, WalkFault>) -> Answer
    ensures { result ≡ answer_of ended }
{
    match ended {
        Ok(walked) => Answer::Reaches(walked),
        Err(fault) => Answer::Faults(fault),
    }
}

/// How far the request has come where its walk of tables has come so far.
pub(crate) fn in_tables(
    request: Request,
    context: Context,
    space: Space,
    progress: Progress,
) -> Serving
    ensures { (frames : ℕ) → still_serving frames result ≡ in_tables request context space (remains frames progress) }
{
    match progress {
        Progress::GoesOn(walk) => Serving::GoesOn(RequestWalk::InTables {
            request,
            context,
            space,
            walk,
        }),
        Progress::Ended(ended) => Serving::Served(answer_of(ended)),
    }
}

/// By this context, with what was looked up for the page.
pub(crate) fn by_context(request: Request, context: Context, cached: Option<Translation>) -> Serving
    ensures { (frames : ℕ) → still_serving frames result ≡ by_context frames cached request context }
{
    let Some(stages) = Stages::of(&context) else {
        return Serving::Served(Answer::AsItIs);
    };
    if let Some(translation) = cached {
        return Serving::Served(Answer::Cached(translation));
    }
    let space = space_of(&context, stages);
    let begun = stages.begin(request.asked.address, request.asked.kind);
    in_tables(request, context, space, begun)
}

/// The translation that is cached for the page, where its right allows the access. A request that was begun anew looks
/// for none.
fn look_up<C: TransCache>(
    translations: &mut C,
    anew: bool,
    request: Request,
    context: &Context,
) -> Option<Translation>
    ensures found { result ≡ looked_up anew (C.content translations.old) request context.now }
    ensures unchanged { TranslationsUnchanged (C.content translations.old) (C.content translations.new) }
    ensures untouched { IsTrue anew → translations.new ≡ translations.old }
{
    if anew {
        return None;
    }
    let stages = Stages::of(context)?;
    let page = request.asked.address / PAGE_SIZE;
    let cached = translations.look(space_of(context, stages), page)?;
    if cached.rights.allows(request.asked.kind) {
        Some(cached)
    } else {
        None
    }
}

/// By the context that the way to it led to, or not at all.
pub(crate) fn by_located<C: TransCache>(
    request: Request,
    anew: bool,
    found: Result<Context, Cause>,
    translations: &mut C,
) -> Serving
    ensures served { (frames : ℕ) → still_serving frames result ≡ by_located frames anew (C.content translations.old) request found }
    ensures unchanged { TranslationsUnchanged (C.content translations.old) (C.content translations.new) }
    ensures untouched { IsTrue anew → translations.new ≡ translations.old }
{
    match found {
        Ok(context) => {
            let cached = look_up(translations, anew, request, &context);
            by_context(request, context, cached)
        }
        Err(cause) => Serving::Served(Answer::Faults(plain(cause))),
    }
}
