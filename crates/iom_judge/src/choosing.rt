// What is chosen of what a line doesn't show.
ghost use Rattle.std.specs.Prelude.{◌≡◌, ℕ, List, IfOk, IfSome, IsTrue, OnOk};
ghost use Rattle.iom_judge.specs.Certified.{ShowsRest, ShowsTables};

use crate::missing::{Begun, Missing};
use crate::settled::{Reachable, first_reachable, frame_of, page_without};
use crate::stop::Line;
use iom_base::{Access, AccessKind, Cause, DeviceId, Mode, PAGE_SIZE, Sequence};
use iom_fabric::Translation;
use iom_kept_state::KeptState;
use iom_machine::{Choice, Event, Outcome};
use iom_reasons::{Notes, Sent};
use std::alloc::{AllocError, Global};

/// Which frames a line shows as tables, where it does.
#[derive(Clone, Copy)]
pub(crate) enum Tables<'a> {
    /// These became tables of the device, or pages of the device directory.
    Own(Option<&'a [u64]>),
    /// None became tables, since the device has another's; these became pages of the device directory.
    OfAnother(Option<&'a [u64]>),
}

/// What a line shows of what its answer doesn't.
#[derive(Clone, Copy)]
pub(crate) struct Shown<'a> {
    pub(crate) tables: Tables<'a>,
    /// The tables that were given back.
    pub(crate) freed: &'a [u64],
    /// The frame on which an access was accepted.
    pub(crate) on: Option<u64>,
    /// The access that a step began.
    pub(crate) began: Option<&'a Access>,
}

/// Nothing is shown.
pub(crate) const NOTHING: Shown<'static> = Shown {
    tables: Tables::Own(None),
    freed: &[],
    on: None,
    began: None,
};

/// That this came of the event, with what the line shows of it.
#[derive(Clone, Copy)]
pub(crate) struct Reported<'a> {
    pub(crate) event: &'a Event,
    pub(crate) outcome: &'a Outcome,
    pub(crate) shown: Shown<'a>,
}

/// What is chosen for a line, and what of that is a guess.
#[derive(Drop)]
pub(crate) struct Chosen {
    pub(crate) choice: Choice,
    pub(crate) missing: Option<Missing>,
}

/// No device has this id: a script's have 24 bits.
const NOBODY: DeviceId = DeviceId::MAX;

/// The frames, where they are shown.
pub(crate) fn where_shown(are_shown: bool, frames: &[u64]) -> Option<&[u64]>
    ensures { (list : List ℕ) → IfSome result (λ it. list ≡ it.now) → IsTrue are_shown → list ≡ frames.now }
{
    if are_shown { Some(frames) } else { None }
}

/// A read of one byte.
pub(crate) fn read_at(alloc: Global, address: u64) -> Access {
    Access {
        address,
        len: 1,
        kind: AccessKind::Read,
        bytes: Sequence::new(alloc),
    }
}

/// The frames, in a list of their own.
fn list_of(alloc: Global, frames: &[u64]) -> Result<Sequence<u64>, AllocError>
    ensures { IfOk result (λ list. list ≡ frames.now) }
{
    Ok(Sequence::from_vec(Vec::from_slice(alloc, frames)?))
}

/// How many frames the root of a device's tables has.
fn root_size(mode: Mode) -> usize {
    match mode {
        Mode::First(_) => 1,
        Mode::Second(_) | Mode::Both(_) => 4,
    }
}

/// Those tables are chosen that are shown: of an attach those of the root stand first, and behind them pages of the device directory.
fn choose_tables(alloc: Global, choice: &mut Choice, reply: &Reported<'_>) -> Result<(), AllocError>
    ensures tables { OnOk result (ShowsTables reply.now.shown.tables reply.now.event.now choice.new) }
    ensures others { OnOk result (choice.new ≡ record choice.old { taken = choice.new.taken; directory = choice.new.directory }) }
{
    match (reply.shown.tables, reply.event) {
        (Tables::Own(None), _) => {}
        (Tables::Own(Some(tables)), Event::Attach { mode, .. }) => {
            let (root, pages) = tables.split_at(root_size(*mode).min(tables.len()));
            choice.taken = list_of(alloc, root)?;
            choice.directory = list_of(alloc, pages)?;
        }
        (Tables::Own(Some(tables)), _) => choice.taken = list_of(alloc, tables)?,
        (Tables::OfAnother(pages), _) => {
            choice.taken = Sequence::new(alloc);
            if let Some(pages) = pages {
                choice.directory = list_of(alloc, pages)?;
            }
        }
    }
    Ok(())
}

/// What the line shows is chosen as it shows it, but for an access.
fn choose_shown(alloc: Global, choice: &mut Choice, reply: &Reported<'_>) -> Result<(), AllocError>
    ensures { OnOk result (ShowsRest reply.now.shown reply.now.event.now choice.new) }
{
    let shown = &reply.shown;
    if !choice.returned.as_slice().is_empty() || !shown.freed.is_empty() {
        choice.returned = list_of(alloc, shown.freed)?;
    }
    if let Some(frame) = shown.on {
        choice.frame = frame;
    }
    choose_tables(alloc, choice, reply)
}

/// A page of which the device may be told so, if there is one.
fn page_told(kept: &KeptState, id: DeviceId, reply: Translation) -> u64 {
    if let Translation::Page { frame, rights } = reply {
        let is_told = |it: Reachable| it.frame == u64::from(frame) && it.rights == rights;
        if let Some(it) = first_reachable(kept, id, is_told) {
            return it.page;
        }
    }
    page_without(kept, id)
}

/// What asks for an access at an address of its device: the device, and the address and kind where they are shown.
fn asked_by(reply: &Reported<'_>) -> Option<(DeviceId, Option<(u64, AccessKind)>)> {
    let began = reply.shown.began;
    match reply.event {
        Event::Read {
            device,
            address,
            ..
        }
        | Event::ReadThroughCache {
            device,
            address,
            ..
        } => Some((*device, Some((*address, AccessKind::Read)))),
        Event::Write {
            device,
            address,
            ..
        }
        | Event::WriteThroughCache {
            device,
            address,
            ..
        } => Some((*device, Some((*address, AccessKind::Write)))),
        Event::Step { device } => Some((
            *device,
            began.map(|access| (access.address, access.kind)),
        )),
        _ => None,
    }
}

/// An access that is refused so, if any is: at a page where the device has nothing.
fn refused_access(
    alloc: Global,
    kept: &KeptState,
    id: DeviceId,
    cause: Cause,
) -> Result<Access, AllocError> {
    let mut access = read_at(alloc, page_without(kept, id).saturating_mul(PAGE_SIZE));
    if let Cause::WriteAccessFault | Cause::WritePageFault | Cause::WriteGuestPageFault = cause {
        access.kind = AccessKind::Write;
        access.bytes.push(0)?;
    }
    Ok(access)
}

impl Chosen {
    /// Nothing is chosen.
    pub(crate) fn new(alloc: Global) -> Chosen {
        Chosen {
            choice: Choice {
                directory: Sequence::new(alloc),
                taken: Sequence::new(alloc),
                returned: Sequence::new(alloc),
                frame: 0,
                device: NOBODY,
                page: 0,
                access: read_at(alloc, 0),
            },
            missing: None,
        }
    }

    /// No tables are chosen; and they are missing of an attach or a grant, where it isn't shown which it took.
    fn choose_no_tables(&mut self, line: &Line<'_>, reply: &Reported<'_>) {
        self.choice.taken = Sequence::new(line.alloc);
        self.choice.directory = Sequence::new(line.alloc);
        let is_shown = match reply.shown.tables {
            Tables::Own(tables) => tables.is_some(),
            Tables::OfAnother(pages) => {
                pages.is_some() || matches!(reply.event, Event::Grant { .. })
            }
        };
        if !is_shown {
            self.missing = Some(Missing::Tables { line: line.number });
        }
    }

    /// The frame of an access that was accepted, where it isn't shown: the one that the grants say.
    fn choose_frame(&mut self, kept: &KeptState, begun: Begun, address: u64, kind: AccessKind) {
        let (frame, is_certain) = frame_of(kept, begun.device, address, kind);
        self.choice.frame = frame;
        if !is_certain {
            self.missing = Some(Missing::Frame(begun));
        }
    }

    /// An access of a block device's step that isn't shown: a read of one byte, of the frame that is shown, or else of the first.
    fn choose_access(&mut self, alloc: Global, kept: &KeptState, begun: Begun, on: Option<u64>) {
        let found = first_reachable(kept, begun.device, |it: Reachable| -> bool {
            on.is_none() || on == Some(it.frame)
        });
        if let Some(it) = found {
            self.choice.frame = it.frame;
            self.choice.access = read_at(alloc, it.page.saturating_mul(PAGE_SIZE));
        }
        self.missing = Some(Missing::Access(begun));
    }

    /// What is chosen of an access that was accepted, as this one of its device.
    fn choose_accepted(
        &mut self,
        line: &Line<'_>,
        kept: &KeptState,
        reply: &Reported<'_>,
        number: u64,
    ) {
        let Some((device, access)) = asked_by(reply) else {
            return;
        };
        let begun = Begun {
            device,
            number,
            line: line.number,
        };
        match access {
            None => self.choose_access(line.alloc, kept, begun, reply.shown.on),
            Some(_) if reply.shown.on.is_some() => {}
            Some((address, kind)) => self.choose_frame(kept, begun, address, kind),
        }
    }

    /// The question that a delivery answered.
    fn choose_question(&mut self, kept: &KeptState, question: Option<Sent>, reply: Translation) {
        if let Some(Sent { device, page }) = question {
            self.choice.device = device;
            self.choice.page = match page {
                Some(page) => page,
                None => page_told(kept, device, reply),
            };
        }
    }

    /// What is chosen of what this line doesn't show: nothing that isn't lawful, where something else is. What no step of this event
    /// asks for stays as it was.
    fn choose_unshown(
        &mut self,
        line: &Line<'_>,
        kept: &KeptState,
        notes: &Notes,
        reply: &Reported<'_>,
    ) -> Result<(), AllocError> {
        self.missing = None;
        match (reply.event, reply.outcome) {
            (_, Outcome::Accepted(number)) => self.choose_accepted(line, kept, reply, *number),
            (Event::Step { device }, Outcome::Fault(cause)) => {
                self.choice.access = refused_access(line.alloc, kept, *device, *cause)?;
            }
            (Event::Step { .. }, _) => self.choice.access = read_at(line.alloc, 0),
            (Event::Attach { .. } | Event::Grant { .. }, Outcome::Done) => {
                self.choose_no_tables(line, reply);
            }
            (event, Outcome::Answered(answer)) => {
                self.choose_question(kept, notes.question_of(event), *answer);
            }
            _ => {}
        }
        Ok(())
    }

    /// What is chosen for a line: what it shows, but for an access, and of the rest nothing that isn't lawful, where something else is.
    pub(crate) fn choose(
        &mut self,
        line: &Line<'_>,
        kept: &KeptState,
        notes: &Notes,
        reply: &Reported<'_>,
    ) -> Result<(), AllocError>
        ensures { OnOk result (ShowsRest reply.now.shown reply.now.event.now self.new.choice) }
    {
        self.choose_unshown(line, kept, notes, reply)?;
        choose_shown(line.alloc, &mut self.choice, reply)
    }
}
