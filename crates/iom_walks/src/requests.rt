// A request begins, and its loads are made.
ghost use Rattle.std.specs.Prelude.{◌≡◌, None};
ghost use Rattle.iom_base.specs.Spans.{FitsInPage};
ghost use Rattle.iom_device_dir.specs.Cached.{cached_contexts};
ghost use Rattle.iom_inflight.specs.Invariant.{CarriesBytes};
ghost use Rattle.iom_stepped_requests.specs.Serving.{begin};
ghost use Rattle.iom_stepped_requests.specs.Standing.{request_of};
ghost use Rattle.iom_tlb.specs.Content.{TranslationsUnchanged};
ghost use Rattle.iom_walks.specs.Caches.{LeavesTranslations, LooksAtBegin, OffersContext, OffersTranslation, looks_for_context, to_keep};
ghost use Rattle.iom_walks.specs.Calls.{Begins, Loads};
ghost use Rattle.iom_walks.specs.Rows.{StartsThere};
ghost use Rattle.iom_walks.specs.Walks.{IsAddedTo, under_way_of};

use crate::caches::{keep, look_for_context};
use crate::outcome::{Began, Loaded};
use crate::walks::{Walks, find};
use iom_base::{AccessKind, DeviceId};
use iom_device_dir::DirCache;
use iom_phys_mem::Bytes;
use iom_registers::DirectoryPointer;
use iom_stepped_requests::{Request, RequestWalk, Serving, begin};
use iom_stepped_walk::Asked;
use iom_tlb::TransCache;

impl Walks {
    /// The request of so many bytes is under way from now on, and stands there.
    fn walk(&mut self, device: DeviceId, walk: RequestWalk, len: u16, bytes: &[u8])
        requires added { IsAddedTo self.old device }
        requires own { (request_of walk).device ≡ device }
        requires within { FitsInPage (request_of walk).asked.address len }
        requires carries { CarriesBytes (request_of walk).asked.kind len bytes.now }
        ensures { StartsThere self.old device walk len bytes.now self.new }
    {
        let place = find(&self.rows, device).unwrap();
        let row = &mut self.rows[place];
        row.walk(walk, len, bytes);
    }

    /// A request of a device begins: so many bytes at the address; of a write these are the bytes. It makes no load, and
    /// reads no memory. A context that is cached for the device is looked for where there is a directory for which its
    /// id isn't too wide; once there is a context, a translation of the page.
    pub fn begin<C: TransCache>(
        &mut self,
        ddtp: DirectoryPointer,
        contexts: &mut DirCache,
        translations: &mut C,
        device: DeviceId,
        address: u64,
        len: u16,
        kind: AccessKind,
        bytes: &[u8],
    ) -> Began
        requires added { IsAddedTo self.old device }
        requires idle { under_way_of self.old device ≡ None }
        requires within { FitsInPage address len }
        requires carries { CarriesBytes kind len bytes.now }
        ensures begun { Begins self.old (record { device = device; asked = record { address = address; kind = kind } }) len bytes.now
            (λ frames. begin frames ddtp (cached_contexts contexts.old device) (C.content translations.old)
            (record { device = device; asked = record { address = address; kind = kind } })) result self.new }
        ensures contexts { LooksAtBegin (looks_for_context ddtp.mode device) device contexts.old contexts.new }
        ensures translations { TranslationsUnchanged (C.content translations.old) (C.content translations.new) }
    {
        let request = Request {
            device,
            asked: Asked { address, kind },
        };
        let cached = look_for_context(ddtp.mode, contexts, device);
        match begin(ddtp, cached, translations, request) {
            Serving::Served(answer) => Began::Served(answer),
            Serving::GoesOn(walk) => {
                self.walk(device, walk, len, bytes);
                Began::Walking
            }
        }
    }

    /// Makes the next load of the device's request, from memory as it is now. What the load finds that is to be kept is
    /// offered to its cache: a context at the load that finds it, a translation at the last one. Nothing changes where
    /// no request of it is under way.
    pub fn load<B: Bytes, C: TransCache>(
        &mut self,
        memory: &B,
        contexts: &mut DirCache,
        translations: &mut C,
        device: DeviceId,
    ) -> Loaded
        ensures loaded { Loads (B.frames_of memory.now) (C.content translations.old) self.old device result self.new }
        ensures contexts { OffersContext (to_keep (B.frames_of memory.now) (under_way_of self.old device)) contexts.old contexts.new }
        ensures translations { OffersTranslation C.SURE (to_keep (B.frames_of memory.now) (under_way_of self.old device))
            (C.content translations.old) (C.content translations.new) }
        ensures untouched { LeavesTranslations (B.frames_of memory.now) (under_way_of self.old device) translations.old translations.new }
    {
        let Some(place) = find(&self.rows, device) else {
            return Loaded::Nothing;
        };
        let row = &mut self.rows[place];
        let found = row.load(memory, translations);
        keep(found.kept, contexts, translations);
        found.loaded
    }
}
