// A request begins, or begins anew.
ghost use Rattle.std.specs.Prelude.{◌≡◌, ◌≢◌, ℕ, IsTrue};
ghost use Rattle.iom_registers.specs.declared.directory.DirectoryMode.TheVariants.{Bare};
ghost use Rattle.iom_stepped_walk.specs.Directories.{still_locating};
ghost use Rattle.iom_tlb.specs.Content.{TranslationsUnchanged};
ghost use Rattle.iom_stepped_requests.specs.Serving.{begin, begun_anew, in_directory, way_to_context, without_directory};
ghost use Rattle.iom_stepped_requests.specs.Standing.{request_of, still_serving};

use crate::request::{Answer, Request};
use crate::tables::{by_context, by_located, plain};
use crate::walk::{RequestWalk, Serving};
use iom_base::{Cause, DeviceId};
use iom_device_dir::{Context, fits_directory};
use iom_registers::{DirectoryMode, DirectoryPointer};
use iom_stepped_walk::{DirectoryWalk, Locating};
use iom_tlb::TransCache;

/// How any request is answered where there is no directory.
fn without_directory(mode: DirectoryMode) -> Option<Answer>
    ensures { result ≡ without_directory mode }
{
    match mode {
        DirectoryMode::Off => Some(Answer::Faults(plain(Cause::AllInboundDisallowed))),
        DirectoryMode::Bare => Some(Answer::AsItIs),
        DirectoryMode::OneLevel | DirectoryMode::TwoLevels | DirectoryMode::ThreeLevels => None,
    }
}

/// The way to the context of a device, before its first load: at its end already where a context is cached, unless the id
/// is too wide for the directory.
fn way_to_context(ddtp: DirectoryPointer, cached: Option<Context>, id: DeviceId) -> Locating
    requires { ddtp.mode ≢ Bare }
    ensures { still_locating result ≡ way_to_context ddtp cached id }
{
    match cached {
        Some(context) if fits_directory(ddtp.mode, id) => Locating::Ended(Ok(context)),
        _ => DirectoryWalk::begin(ddtp, id),
    }
}

/// How far the request has come where the way to its context has come so far.
pub(crate) fn in_directory<C: TransCache>(
    request: Request,
    anew: bool,
    locating: Locating,
    translations: &mut C,
) -> Serving
    ensures served { (frames : ℕ) → still_serving frames result
        ≡ in_directory frames anew (C.content translations.old) request (still_locating locating) }
    ensures unchanged { TranslationsUnchanged (C.content translations.old) (C.content translations.new) }
    ensures untouched { IsTrue anew → translations.new ≡ translations.old }
{
    match locating {
        Locating::GoesOn(walk) => Serving::GoesOn(RequestWalk::InDirectory {
            request,
            anew,
            walk,
        }),
        Locating::Ended(found) => by_located(request, anew, found, translations),
    }
}

/// A request begins, by `ddtp`, with the context that is cached for its device and the cache of translations, which
/// keeps what it has. It makes no load yet: many need none.
pub fn begin<C: TransCache>(
    ddtp: DirectoryPointer,
    cached: Option<Context>,
    translations: &mut C,
    request: Request,
) -> Serving
    ensures begun { (frames : ℕ) → still_serving frames result ≡ begin frames ddtp cached (C.content translations.old) request }
    ensures unchanged { TranslationsUnchanged (C.content translations.old) (C.content translations.new) }
{
    if let Some(answer) = without_directory(ddtp.mode) {
        return Serving::Served(answer);
    }
    let way = way_to_context(ddtp, cached, request.device);
    in_directory(request, false, way, translations)
}

impl RequestWalk {
    /// The request that is served.
    pub fn request(self) -> Request
        ensures { result ≡ request_of self }
    {
        match self {
            RequestWalk::InDirectory { request, .. } | RequestWalk::InTables { request, .. } => {
                request
            }
        }
    }

    /// The request begins anew, by `ddtp` as it is now, whatever its loads have found: from the root of the directory,
    /// with no look in a cache. It makes no load yet. Where there is no directory, or the id is too wide for it, it is
    /// served.
    pub fn begun_anew(self, ddtp: DirectoryPointer) -> Serving
        ensures { (frames : ℕ) → still_serving frames result ≡ begun_anew frames ddtp (request_of self) }
    {
        let request = self.request();
        if let Some(answer) = without_directory(ddtp.mode) {
            return Serving::Served(answer);
        }
        match DirectoryWalk::begin(ddtp, request.device) {
            Locating::GoesOn(walk) => Serving::GoesOn(RequestWalk::InDirectory {
                request,
                anew: true,
                walk,
            }),
            Locating::Ended(Ok(context)) => by_context(request, context, None),
            Locating::Ended(Err(cause)) => Serving::Served(Answer::Faults(plain(cause))),
        }
    }
}
