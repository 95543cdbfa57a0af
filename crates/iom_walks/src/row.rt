// What is under way of one device.
ghost use Rattle.std.specs.Prelude.{◌≡◌, ◌≤◌, length, false, is_some, option_map, IfOk, Some};
ghost use Rattle.iom_base.specs.Sizes.{page_size};
ghost use Rattle.iom_stepped_requests.specs.Standing.{request_of};
ghost use Rattle.iom_tlb.specs.Content.{TranslationsUnchanged};
ghost use Rattle.iom_walks.specs.Caches.{LeavesTranslations, to_keep, may_look_in};
ghost use Rattle.iom_walks.specs.Calls.{RowBeginsAnew, row_walking};
ghost use Rattle.iom_walks.specs.Rows.{RowLoads};
ghost use Rattle.iom_walks.specs.Walks.{UnderWay, idle_row, new_row};

use crate::outcome::Loaded;
use crate::standing::Standing;
use iom_base::{DeviceId, FRAME_SIZE};
use iom_phys_mem::Bytes;
use iom_registers::DirectoryPointer;
use iom_stepped_requests::{Kept, Request, RequestWalk, Serving};
use iom_tlb::TransCache;
use std::alloc::{AllocError, Global};
use std::marker::Model;

/// What is under way of one device.
#[derive(Drop)]
pub(crate) struct Row {
    device: DeviceId,
    /// Its request, where one is under way.
    standing: Option<Standing>,
    /// The bytes with which that was asked that began last.
    bytes: Vec<u8>,
}

impl Model for Row {
    ghost use Rattle.iom_walks.specs.Walks.{WalkRow};

    ghost Value = { WalkRow };

    ghost use Rattle.std.specs.Prelude.{◌≤◌, option_map, vec_capacity};
    ghost use Rattle.iom_base.specs.Sizes.{page_size};
    ghost use Rattle.iom_walks.specs.Rows.{under_way_by};

    ghost view = { λ r. record { device = r.device; under_way = option_map under_way_by r.standing; bytes = r.bytes.items } };

    ghost invariant = { λ r. page_size ≤ vec_capacity r.bytes };
}

/// What a load makes of a row, and what it finds that is to be kept in a cache.
#[derive(Clone, Copy)]
pub(crate) struct RowLoaded {
    pub(crate) loaded: Loaded,
    pub(crate) kept: Kept,
}

impl Row {
    /// A row of no device yet, with room for the bytes of a write.
    pub(crate) fn new(alloc: Global) -> Result<Row, AllocError>
        ensures { IfOk result (λ row. row ≡ new_row 0) }
    {
        Ok(Row {
            device: 0,
            standing: None,
            bytes: Vec::with_capacity(alloc, FRAME_SIZE)?,
        })
    }

    /// From now on it is the device's, of which nothing has begun yet.
    pub(crate) fn start(&mut self, device: DeviceId)
        ensures { self.new ≡ new_row device }
    {
        self.device = device;
        self.standing = None;
        self.bytes.clear();
    }

    pub(crate) fn device(&self) -> DeviceId
        ensures { result ≡ self.now.device }
    {
        self.device
    }

    /// The request that is under way.
    pub(crate) fn request(&self) -> Option<Request>
        ensures { result ≡ option_map (λ (own : UnderWay). own.request) self.now.under_way }
    {
        match self.standing {
            Some(standing) => Some(standing.walk.request()),
            None => None,
        }
    }

    /// How far it has come.
    pub(crate) fn serving(&self) -> Option<Serving>
        ensures { result ≡ option_map (λ (own : UnderWay). own.serving) self.now.under_way }
    {
        match self.standing {
            Some(standing) => Some(standing.serving()),
            None => None,
        }
    }

    /// Whether a request is under way.
    pub(crate) fn is_walking(&self) -> bool
        ensures { result ≡ is_some self.now.under_way }
    {
        self.standing.is_some()
    }

    /// The bytes with which that was asked that began last.
    pub(crate) fn bytes(&self) -> &[u8]
        ensures { result.now ≡ self.now.bytes }
    {
        &self.bytes
    }

    /// A request of so many bytes is under way from now on, and stands there. Takes no memory.
    pub(crate) fn walk(&mut self, walk: RequestWalk, len: u16, bytes: &[u8])
        requires { length bytes.now ≤ page_size }
        ensures { self.new ≡ row_walking self.old (request_of walk) len bytes.now walk }
    {
        self.standing = Some(Standing {
            walk,
            served: None,
            len,
        });
        self.bytes.clear();
        self.bytes.extend_from_slice(bytes).unwrap();
    }

    /// Makes the next load of its request, if one is under way.
    pub(crate) fn load<B: Bytes, C: TransCache>(
        &mut self,
        memory: &B,
        translations: &mut C,
    ) -> RowLoaded
        ensures loaded { RowLoads (B.frames_of memory.now) (C.content translations.old) self.old result.loaded self.new }
        ensures kept { result.kept ≡ to_keep (B.frames_of memory.now) self.old.under_way }
        ensures unchanged { TranslationsUnchanged (C.content translations.old) (C.content translations.new) }
        ensures untouched { LeavesTranslations (B.frames_of memory.now) self.old.under_way translations.old translations.new }
    {
        let Some(standing) = self.standing else {
            return RowLoaded {
                loaded: Loaded::Nothing,
                kept: Kept::Nothing,
            };
        };
        let step = standing.load(memory, translations);
        let loaded = match step.serving {
            Serving::GoesOn(walk) => {
                self.standing = Some(Standing {
                    walk,
                    served: None,
                    len: standing.len,
                });
                Loaded::GoesOn
            }
            Serving::Served(answer) => {
                self.standing = None;
                Loaded::Ended(standing.answered(answer))
            }
        };
        RowLoaded {
            loaded,
            kept: step.kept,
        }
    }

    /// Its request begins anew, if one is under way.
    pub(crate) fn begin_anew(&mut self, ddtp: DirectoryPointer)
        ensures { RowBeginsAnew ddtp self.old self.new }
    {
        if let Some(standing) = self.standing {
            self.standing = Some(standing.begun_anew(ddtp));
        }
    }

    /// None is under way from now on.
    pub(crate) fn give_up(&mut self)
        ensures { self.new ≡ idle_row self.old }
    {
        self.standing.take();
    }
}
