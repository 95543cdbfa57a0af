// What changes of a domain: a page is granted, or released. It changes for each device of the domain, and a line may say it of many pages.
ghost use Rattle.std.specs.Prelude.{◌≡◌, ◌<◌, ◌∷◌, [], List, IfSome, IsTrue, OnOk, map};
ghost use Rattle.iom_machine.specs.declared.choice.Choice as spec_choice;
ghost use Rattle.iom_machine.specs.declared.event.Event as spec_event;
ghost use Rattle.iom_machine.specs.declared.outcome.Outcome.TheVariants as outcomes;
ghost use Rattle.iom_trace_lines.specs.TraceLines.{Releases};
ghost use Rattle.iom_judge.specs.Certified.{Continues, ContinuesAs, ContinuesBy, ContinuesAtEach, ShowsChoice, ShowsTables};
ghost use Rattle.iom_judge.specs.declared.changes.Change.TheVariants as changes;
ghost use Rattle.iom_judge.specs.Happenings.{Happening, Came, CameInTurn, IsShared, behind, change_by, event_of, tables_chosen};

use crate::choosing::{NOTHING, Reported, Shown, Tables, where_shown};
use crate::machine::TraceMachine;
use crate::stop::{Judged, Line};
use iom_base::{DeviceId, GrantRights};
use iom_machine::{Event, Outcome};
use iom_trace_lines::{GrantedPages, ReleasedPages};

/// What changes at a page.
#[derive(Clone, Copy)]
pub(crate) enum Change {
    /// The frame is granted there.
    Grant {
        page: u64,
        frame: u64,
        rights: GrantRights,
    },
    /// What was granted there is released.
    Release {
        page: u64,
    },
}

impl Change {
    /// What changed by this, if something did, and the device of which it did.
    fn by(event: &Event, outcome: &Outcome) -> Option<(DeviceId, Change)>
        ensures { result ≡ change_by event.now outcome.now }
    {
        match (event, outcome) {
            (
                Event::Grant {
                    device,
                    page,
                    frame,
                    rights,
                },
                Outcome::Done,
            ) => Some((
                *device,
                Change::Grant {
                    page: *page,
                    frame: *frame,
                    rights: *rights,
                },
            )),
            (Event::Release { device, page }, Outcome::Ticket(_)) => {
                Some((*device, Change::Release { page: *page }))
            }
            _ => None,
        }
    }

    /// The event that changes this of the device.
    fn event_of(self, device: DeviceId) -> Event
        ensures { result ≡ event_of device self }
    {
        match self {
            Change::Grant {
                page,
                frame,
                rights,
            } => Event::Grant {
                device,
                page,
                frame,
                rights,
            },
            Change::Release { page } => Event::Release { device, page },
        }
    }

    /// The same so many pages behind, and on a frame as far behind. None where that is beyond what 64 bits say.
    fn behind(self, index: u64) -> Option<Change>
        ensures { IfSome result (λ it. it ≡ behind index self) }
    {
        match self {
            Change::Grant {
                page,
                frame,
                rights,
            } => Some(Change::Grant {
                page: page.checked_add(index)?,
                frame: frame.checked_add(index)?,
                rights,
            }),
            Change::Release { page } => Some(Change::Release {
                page: page.checked_add(index)?,
            }),
        }
    }
}

/// What is shown of the change with this index: the first has all tables that are shown.
fn shown_at(has_tables: bool, tables: &[u64], index: u64) -> Shown<'_>
    ensures { (event : spec_event.Event) (choice : spec_choice.Choice) → ShowsTables result.tables event choice → IsTrue has_tables
        → (index ≡ 0 → tables_chosen event choice ≡ tables.now) × (0 < index → tables_chosen event choice ≡ []) }
{
    let tables = if index == 0 { tables } else { &[] };
    Shown {
        tables: Tables::Own(where_shown(has_tables, tables)),
        ..NOTHING
    }
}

impl TraceMachine {
    /// This came of the event, of which no more is shown than which frames became tables.
    pub(crate) fn go_on_showing<'x>(
        &mut self,
        line: &Line<'_>,
        event: &'x Event,
        outcome: &'x Outcome,
        tables: Tables<'_>,
    ) -> Judged
        ensures { OnOk result ((choice : spec_choice.Choice) × ShowsTables tables.entry event.now choice
            × Continues self.old (Came event.now outcome.now choice ∷ []) self.new) }
    {
        let shown = Shown { tables, ..NOTHING };
        let reply = Reported {
            event,
            outcome,
            shown,
        };
        self.go_on_alone(line, &reply)
    }

    /// It changes of each of these devices too.
    fn change_these(
        &mut self,
        line: &Line<'_>,
        devices: &[DeviceId],
        change: Change,
        outcome: &Outcome,
    ) -> Judged
        ensures { OnOk result ((others : List Happening) × CameInTurn (map (λ device. event_of device change) devices.now) outcome.now others
            × Continues self.old others self.new) }
    {
        match devices {
            [] => Ok(()),
            [device, others @ ..] => {
                let event = change.event_of(*device);
                self.go_on_showing(line, &event, outcome, Tables::OfAnother(None))?;
                self.change_these(line, others, change, outcome)
            }
        }
    }

    /// What this changes of a device changes of each other one that shares its domain.
    fn change_sharers(&mut self, line: &Line<'_>, event: &Event, outcome: &Outcome) -> Judged
        ensures { OnOk result ((others : List Happening) × IsShared (change_by event.now outcome.now) outcome.now others
            × Continues self.old others self.new) }
    {
        let Some((device, change)) = Change::by(event, outcome) else {
            return Ok(());
        };
        let devices = self.domains.sharers(line.alloc, &self.kept, device)?;
        self.change_these(line, devices.as_slice(), change, outcome)
    }

    /// This came of a grant or a release: of each device of the domain, and it is its first that is named.
    #[inline(never)]
    fn go_on_in_domain(&mut self, line: &Line<'_>, reply: &Reported<'_>) -> Judged
        ensures { OnOk result ((choice : spec_choice.Choice) × ShowsChoice reply.now.shown reply.now.event.now choice
            × ContinuesBy self.old reply.now.event.now reply.now.outcome.now choice self.new) }
    {
        self.domains.check_first(line, reply.event)?;
        self.go_on_alone(line, reply)?;
        self.change_sharers(line, reply.event, reply.outcome)
    }

    /// This came of the event.
    pub(crate) fn go_on(&mut self, line: &Line<'_>, reply: &Reported<'_>) -> Judged
        ensures { OnOk result ((choice : spec_choice.Choice) × ShowsChoice reply.now.shown reply.now.event.now choice
            × ContinuesBy self.old reply.now.event.now reply.now.outcome.now choice self.new) }
    {
        match reply.event {
            Event::Grant { .. } | Event::Release { .. } => self.go_on_in_domain(line, reply),
            _ => self.go_on_alone(line, reply),
        }
    }

    /// It changed so of the device at so many pages, one after another; and the tables that were taken, where they are shown.
    fn change_each<'x>(
        &mut self,
        line: &Line<'_>,
        device: DeviceId,
        first: Change,
        count: u64,
        outcome: &'x Outcome,
        has_tables: bool,
        tables: &'x [u64],
    ) -> Judged
        ensures { OnOk result (ContinuesAtEach self.old device first outcome.now count has_tables tables.now self.new) }
    {
        for index in 0..count {
            let Some(change) = first.behind(index) else {
                return Err(line.bad("it goes beyond 2^64")?);
            };
            let reply = Reported {
                event: &change.event_of(device),
                outcome,
                shown: shown_at(has_tables, tables, index),
            };
            self.go_on(line, &reply)?;
        }
        Ok(())
    }

    /// These pages were granted; and the tables that were taken, where they are shown.
    #[inline(never)]
    pub(crate) fn grant_each(
        &mut self,
        line: &Line<'_>,
        granted: GrantedPages,
        has_tables: bool,
        tables: &[u64],
    ) -> Judged
        ensures { OnOk result (ContinuesAtEach self.old granted.device (changes.Grant granted.page granted.frame granted.rights) outcomes.Done granted.count
            has_tables tables.now self.new) }
    {
        let (device, count, done) = (granted.device, granted.count, Outcome::Done);
        let first = Change::Grant {
            page: granted.page,
            frame: granted.frame,
            rights: granted.rights,
        };
        self.change_each(line, device, first, count, &done, has_tables, tables)
    }

    /// These pages were released under the ticket.
    #[inline(never)]
    pub(crate) fn release_each(
        &mut self,
        line: &Line<'_>,
        released: ReleasedPages,
        ticket: u32,
    ) -> Judged
        ensures { OnOk result (ContinuesAs self.old (Releases released.device released.page released.count ticket) [] self.new) }
    {
        let (device, page, count) = (released.device, released.page, released.count);
        let (first, given) = (Change::Release { page }, Outcome::Ticket(ticket));
        self.change_each(line, device, first, count, &given, false, &[])
    }
}
