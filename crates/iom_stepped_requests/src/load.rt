// One load of a request, and what is kept of it.
ghost use Rattle.std.specs.Prelude.{◌≡◌, ℕ, false, length};
ghost use Rattle.iom_stepped_walk.specs.Directories.{still_locating};
ghost use Rattle.iom_stepped_walk.specs.Positions.{remains};
ghost use Rattle.iom_tlb.specs.Content.{TranslationsUnchanged};
ghost use Rattle.iom_stepped_requests.specs.Serving.{kept, kept_in_directory, kept_in_tables, load};
ghost use Rattle.iom_stepped_requests.specs.Standing.{may_look, stands, still_serving};

use crate::beginning::in_directory;
use crate::request::{Kept, Request};
use crate::tables::in_tables;
use crate::walk::{Loaded, RequestWalk};
use iom_base::PAGE_SIZE;
use iom_phys_mem::Bytes;
use iom_stage_walk::Walked;
use iom_stepped_walk::{Locating, Progress};
use iom_tlb::{Space, TransCache, Translation};

/// A context is kept at the load that finds it, whatever follows.
fn kept_in_directory(request: Request, locating: Locating) -> Kept
    ensures { result ≡ kept_in_directory request (still_locating locating) }
{
    match locating {
        Locating::Ended(Ok(context)) => Kept::Context {
            device: request.device,
            context,
        },
        Locating::Ended(Err(_)) | Locating::GoesOn(_) => Kept::Nothing,
    }
}

/// A translation is kept at the last load, where the walk reaches a page.
fn kept_in_tables(request: Request, space: Space, progress: Progress) -> Kept
    ensures { (frames : ℕ) → result ≡ kept_in_tables request space (remains frames progress) }
{
    match progress {
        Progress::Ended(
            Ok(
                Walked {
                    frame,
                    rights,
                    level,
                    ..
                },
            ),
        ) => Kept::Translation {
            space,
            page: request.asked.address / PAGE_SIZE,
            translation: Translation {
                frame,
                rights,
                order: 9 * u16::from(level),
            },
        },
        Progress::Ended(Err(_)) | Progress::GoesOn(_) => Kept::Nothing,
    }
}

impl RequestWalk {
    /// Makes one load more, from memory as it is now: how far the request has come then, and what is to be kept of it.
    /// Where the load finds the context, the cache of translations is looked at, which keeps what it has.
    pub fn load<B: Bytes, C: TransCache>(self, memory: &B, translations: &mut C) -> Loaded
        ensures serving { still_serving (length (B.frames_of memory.now)) result.serving
            ≡ load (B.frames_of memory.now) (C.content translations.old) (stands (length (B.frames_of memory.now)) self) }
        ensures kept { result.kept ≡ kept (B.frames_of memory.now) (stands (length (B.frames_of memory.now)) self) }
        ensures unchanged { TranslationsUnchanged (C.content translations.old) (C.content translations.new) }
        ensures untouched { may_look self ≡ false → translations.new ≡ translations.old }
    {
        match self {
            RequestWalk::InDirectory {
                request,
                anew,
                walk,
            } => {
                let locating = walk.load(memory);
                let kept = kept_in_directory(request, locating);
                let serving = in_directory(request, anew, locating, translations);
                Loaded { serving, kept }
            }
            RequestWalk::InTables {
                request,
                context,
                space,
                walk,
            } => {
                let progress = walk.load(memory);
                let kept = kept_in_tables(request, space, progress);
                let serving = in_tables(request, context, space, progress);
                Loaded { serving, kept }
            }
        }
    }
}
