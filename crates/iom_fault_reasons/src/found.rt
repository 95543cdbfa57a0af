// Where the way of a request ends by what was found: by the page of its own address, by stages, or by a context.
ghost use Rattle.std.specs.Prelude.{◌≡◌};
ghost use Rattle.iom_fault_reasons.specs.Reasons.{IsByContext, IsByStages, own_reason};

use iom_base::{AccessKind, Cause, PAGE_SIZE};
use iom_device_dir::Context;
use iom_phys_mem::{Bytes, Memory};
use iom_stage_walk::WalkFault;
use iom_stepped_walk::{EntryLoad, Flaw};
use iom_walk_stops::{Stages, TablesEnd, end_of_tables};

/// From where the context of a device is taken.
#[derive(Clone, Copy, PartialEq, Eq)]
pub enum ContextSource {
    /// It is cached.
    Cache,
    /// None is cached, and the directory has it.
    Directory,
}

/// Where the way of an untranslated request ends.
#[derive(Clone, Copy, PartialEq, Eq)]
pub enum WhyFault {
    /// `ddtp` has the mode Off: no request is allowed.
    DirectoryOff,
    /// The device's id is too wide for the levels of the directory.
    IdTooWide,
    /// The way to the device's context stops at this entry of the directory, or at the context.
    NoContext {
        load: EntryLoad,
        cause: Cause,
    },
    /// No stage translates the address, and memory has no such frame.
    OutsideMemory,
    /// The address isn't one that the stages of the context translate.
    NoSuchAddress {
        source: ContextSource,
        fault: WalkFault,
    },
    /// The root of the first stage's tables isn't one that the second stage translates.
    NoGuestRoot {
        source: ContextSource,
        fault: WalkFault,
    },
    /// The walk of the context's stages stops at this entry, in which that is wrong.
    StopsAt {
        source: ContextSource,
        load: EntryLoad,
        flaw: Flaw,
        fault: WalkFault,
    },
    /// Nothing stops it: no stage translates the address, and it is in this frame.
    Untranslated {
        frame: u32,
    },
    /// Nothing stops it: the walk of the context's stages reaches this frame.
    Reaches {
        source: ContextSource,
        frame: u32,
    },
}

/// The reason where no stage translates the address.
pub(crate) fn own_page(memory: &Memory, address: u64) -> WhyFault
    ensures { result ≡ own_reason memory.now address }
{
    let page = address / PAGE_SIZE;
    if page >= u64::from(memory.frames()) {
        return WhyFault::OutsideMemory;
    }
    WhyFault::Untranslated { frame: page as u32 }
}

/// The reason where these stages of a context translate it.
fn by_stages(
    memory: &Memory,
    stages: Stages,
    source: ContextSource,
    address: u64,
    kind: AccessKind,
) -> WhyFault
    ensures { IsByStages memory.now stages source address kind result }
{
    match end_of_tables(memory, stages, address, kind) {
        TablesEnd::Reaches(walked) => WhyFault::Reaches {
            source,
            frame: walked.frame,
        },
        TablesEnd::StopsUnread(fault) => WhyFault::NoSuchAddress { source, fault },
        TablesEnd::LacksGuestRoot(fault) => WhyFault::NoGuestRoot { source, fault },
        TablesEnd::StopsAt { load, flaw, fault } => WhyFault::StopsAt {
            source,
            load,
            flaw,
            fault,
        },
    }
}

/// The reason where the device has this context.
pub(crate) fn by_context(
    memory: &Memory,
    context: &Context,
    source: ContextSource,
    address: u64,
    kind: AccessKind,
) -> WhyFault
    ensures { IsByContext memory.now context.now source address kind result }
{
    match Stages::of(context) {
        None => own_page(memory, address),
        Some(stages) => by_stages(memory, stages, source, address, kind),
    }
}
