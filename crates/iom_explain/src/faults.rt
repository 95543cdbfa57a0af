// Why a request faulted: where its way through the directory and the tables stops.
use crate::notes::{Note, Notes};
use crate::pages::note_parting;
use iom_base::{AccessKind, Cause, DeviceId};
use iom_fault_reasons::{WhyFault, WhyTranslated, why_fault, why_translated};
use iom_machine::Event;
use iom_stepped_walk::{EntryLoad, Flaw, Table};
use iom_virtio_blk::Disk;
use iom_world::World;
use std::fmt;
use std::fmt::Write;

/// An entry that was loaded, as it is named.
#[derive(Clone, Copy)]
struct Loaded(EntryLoad);

impl fmt::Display for Loaded {
    fn fmt<W: fmt::Write>(&self, f: &mut fmt::Formatter<W>) -> fmt::Result {
        let (index, address) = (self.0.index, self.0.address);
        match self.0.table {
            Table::Contexts => write!(f, "the device's context, at 0x{address:x},"),
            Table::Directory { level } => write!(
                f,
                "entry {index} of level {level} of the device directory, at 0x{address:x},"
            ),
            Table::FirstStage { level } => write!(
                f,
                "entry {index} of level {level} of the first stage, at 0x{address:x},"
            ),
            Table::SecondStage { level } => write!(
                f,
                "entry {index} of level {level} of the second stage, at 0x{address:x},"
            ),
            Table::GuestTable { level } => write!(
                f,
                "entry {index} of level {level} of the guest's tables, at 0x{address:x},"
            ),
        }
    }
}

/// What is wrong with an entry of a table.
fn wrong_in_table(flaw: Flaw) -> &'static str {
    match flaw {
        Flaw::OutsideMemory => "lies outside memory",
        Flaw::Invalid => "isn't valid",
        Flaw::NamesNoTable => "names a table below the last level",
        Flaw::Misaligned => "is a leaf that isn't aligned",
        Flaw::Forbids => "doesn't allow the access",
        Flaw::NamesNoPage => "names a page outside memory",
    }
}

/// What is wrong with an entry of the directory, or with a context.
fn wrong_in_directory(cause: Cause) -> &'static str {
    match cause {
        Cause::DirectoryLoadFault => "lies outside memory",
        Cause::DirectoryEntryNotValid => "isn't valid",
        Cause::DirectoryEntryMisconfigured => "is misconfigured",
        _ => "stops it",
    }
}

/// An untranslated request, as it is explained.
#[derive(Clone, Copy)]
struct Untranslated(WhyFault);

impl fmt::Display for Untranslated {
    fn fmt<W: fmt::Write>(&self, f: &mut fmt::Formatter<W>) -> fmt::Result {
        match self.0 {
            WhyFault::DirectoryOff => write!(f, "ddtp is off, and no request is allowed"),
            WhyFault::IdTooWide => write!(f, "the device's id is too wide for the directory"),
            WhyFault::NoContext { load, cause } => {
                let (entry, wrong) = (Loaded(load), wrong_in_directory(cause));
                write!(f, "{entry} {wrong}")
            }
            WhyFault::OutsideMemory => write!(
                f,
                "no stage translates the address, and memory has no such frame"
            ),
            WhyFault::NoSuchAddress { .. } => write!(
                f,
                "the device's stages translate no such address"
            ),
            WhyFault::NoGuestRoot { .. } => write!(
                f,
                "the device's second stage doesn't translate the root of its first"
            ),
            WhyFault::StopsAt { load, flaw, .. } => {
                let (entry, wrong) = (Loaded(load), wrong_in_table(flaw));
                write!(f, "{entry} {wrong}")
            }
            WhyFault::Untranslated { frame } | WhyFault::Reaches { frame, .. } => {
                write!(
                    f,
                    "nothing stops such a request now: it reaches frame {frame}"
                )
            }
        }
    }
}

/// A request that says that it is translated, as it is explained.
#[derive(Clone, Copy)]
struct Translated(WhyTranslated);

impl fmt::Display for Translated {
    fn fmt<W: fmt::Write>(&self, f: &mut fmt::Formatter<W>) -> fmt::Result {
        match self.0 {
            WhyTranslated::DirectoryOff => write!(f, "ddtp is off, and no request is allowed"),
            WhyTranslated::DirectoryBare => write!(
                f,
                "ddtp is bare, and no translated request is allowed"
            ),
            WhyTranslated::IdTooWide => write!(f, "the device's id is too wide for the directory"),
            WhyTranslated::NoContext { load, cause } => {
                let (entry, wrong) = (Loaded(load), wrong_in_directory(cause));
                write!(f, "{entry} {wrong}")
            }
            WhyTranslated::LacksAts(_) => write!(
                f,
                "the device's context has EN_ATS clear: it is attached without ats"
            ),
            WhyTranslated::OutsideMemory => write!(f, "memory has no such frame"),
            WhyTranslated::Passes { frame } => write!(
                f,
                "nothing stops such a request now: it reaches frame {frame}"
            ),
        }
    }
}

/// Notes why an untranslated request stops.
fn note_untranslated<D: Disk>(
    notes: &mut Notes,
    world: &World<D>,
    device: DeviceId,
    address: u64,
    kind: AccessKind,
) {
    let why = Untranslated(why_fault(&world.hardware().board, device, address, kind));
    let mut note = Note::new();
    let _ = write!(note, "{why}");
    notes.push(note);
    note_parting(notes, world, device);
}

/// Notes why a request stops that says that it is translated.
fn note_translated<D: Disk>(notes: &mut Notes, world: &World<D>, device: DeviceId, address: u64) {
    let why = Translated(why_translated(&world.hardware().board, device, address));
    let mut note = Note::new();
    let _ = write!(note, "{why}");
    notes.push(note);
    note_parting(notes, world, device);
}

/// Notes why an access through the device's own cache stops at the IOMMU: it goes there as a request that says that it is translated, and
/// what stops it is no matter of its address.
fn note_through_cache<D: Disk>(notes: &mut Notes, world: &World<D>, device: DeviceId) {
    match why_translated(&world.hardware().board, device, 0) {
        WhyTranslated::OutsideMemory | WhyTranslated::Passes { .. } => {}
        _ => note_translated(notes, world, device, 0),
    }
}

/// Notes where the way of the request stops; and that its device was quarantined or is leaving, where that is so.
pub(crate) fn note_fault<D: Disk>(notes: &mut Notes, world: &World<D>, event: &Event) {
    match event {
        Event::Read {
            device,
            address,
            ..
        } => note_untranslated(notes, world, *device, *address, AccessKind::Read),
        Event::Write {
            device,
            address,
            ..
        } => note_untranslated(notes, world, *device, *address, AccessKind::Write),
        Event::ReadTranslated {
            device,
            address,
            ..
        }
        | Event::WriteTranslated {
            device,
            address,
            ..
        } => {
            note_translated(notes, world, *device, *address);
        }
        Event::ReadThroughCache { device, .. } | Event::WriteThroughCache { device, .. } => {
            note_through_cache(notes, world, *device);
        }
        _ => {}
    }
}
