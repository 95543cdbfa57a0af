// Where a request stands between two of its loads.
use crate::request::{Answer, Kept, Request};
use iom_device_dir::Context;
use iom_stepped_walk::{DirectoryWalk, TableWalk};
use iom_tlb::Space;

/// Where a request stands between two of its loads.
#[derive(Clone, Copy, PartialEq, Eq)]
pub enum RequestWalk {
    /// On its way through the directory to the context of its device.
    InDirectory {
        request: Request,
        /// Whether it was begun anew. Then it looks in no cache.
        anew: bool,
        walk: DirectoryWalk,
    },
    /// With that context, in tables of its stages.
    InTables {
        request: Request,
        /// The context by which it is translated.
        context: Context,
        /// The address space that the stages of the context translate.
        space: Space,
        walk: TableWalk,
    },
}

/// How far a request has come.
#[derive(Clone, Copy, PartialEq, Eq)]
pub enum Serving {
    /// It needs a load, and stands here.
    GoesOn(RequestWalk),
    /// It is served.
    Served(Answer),
}

/// What one load makes of a request.
#[derive(Clone, Copy, PartialEq, Eq)]
pub struct Loaded {
    pub serving: Serving,
    /// What the load found that is to be kept in a cache.
    pub kept: Kept,
}
