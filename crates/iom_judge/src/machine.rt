// The machine of a trace, and what a line does to it.
ghost use Rattle.std.specs.Prelude.{◌≡◌, ◌∷◌, ◌&&◌, [], ℕ, List, None, IfOk, IfSome, OnOk, IsTrue, if◌then◌else◌, not};
ghost use Rattle.iom_machine.specs.declared.choice.Choice as spec;
ghost use Rattle.iom_trace_lines.specs.TraceLines.{said_of, SaysLine};
ghost use Rattle.iom_machine.specs.Machine.{ChosenStep};
ghost use Rattle.iom_machine_judge.specs.Words.{Decides};
ghost use Rattle.iom_judge.specs.Certified.{first_in, is_given, with_begun, Continues, Follows, IsOpened, ShowsChoice};
ghost use Rattle.iom_judge.specs.Happenings.{is_used, Came};
ghost use Rattle.iom_judge.specs.Sharing.{is_this, own_domain};

use crate::choosing::{Chosen, Reported, Shown, Tables, where_shown};
use crate::domains::Domains;
use crate::guesses::Guesses;
use crate::handed::Handed;
use crate::stop::{Judged, Line, Stop};
use crate::verdict::Finding;
use iom_kept_state::KeptState;
use iom_machine::Choice;
use iom_machine_judge::judge;
use iom_reasons::{Facts, Notes};
use iom_script::WorldSize;
use iom_trace_lines::{TraceLine, WorldLimits};
use std::alloc::{AllocError, Global};

/// The numbers of the disks that a world has at power-on.
const DISKS: [u64; 4] = [0, 1, 2, 3];

/// The frames of the largest world.
const MOST_FRAMES: u64 = 1 << 40;

/// Whether this may come, with what was chosen, and the access that a step began, where it is shown: then the next state is kept.
fn may_come(
    alloc: Global,
    kept: &mut KeptState,
    reply: &Reported<'_>,
    choice: &Choice,
) -> Result<bool, AllocError>
    ensures { IfOk result (λ may. Decides may kept.old kept.new (λ before after.
        ChosenStep (with_begun reply.now.shown choice.now) before reply.now.event.now reply.now.outcome.now after)) }
{
    let (event, outcome) = (reply.event, reply.outcome);
    match reply.shown.began {
        Some(access) => judge(alloc, kept, event, outcome, choice, access),
        None => judge(alloc, kept, event, outcome, choice, &choice.access),
    }
}

/// The machine of a trace, after the lines so far: the ledger machine, and beside it which frames were given to somebody else,
/// and which devices share a domain.
#[derive(Drop)]
pub(crate) struct TraceMachine {
    pub(crate) kept: KeptState,
    pub(crate) handed: Handed,
    pub(crate) domains: Domains,
    pub(crate) guesses: Guesses,
    notes: Notes,
    /// What is chosen for the line, in one place for line after line.
    chosen: Chosen,
}

impl TraceMachine {
    /// The machine at power-on of a world of this size, with these limits. None where there is no such world.
    pub(crate) fn power_on(
        alloc: Global,
        size: WorldSize,
        limits: WorldLimits,
    ) -> Result<Option<TraceMachine>, AllocError>
        ensures { IfOk result (λ found. IfSome found (IsOpened size limits)) }
    {
        if size.frames < 4 || size.frames > MOST_FRAMES || size.levels > 3 {
            return Ok(None);
        }
        let levels = size.levels as u8;
        let kept = KeptState::power_on(alloc, limits.to_limits(), size.frames, levels, &DISKS)?;
        Ok(Some(TraceMachine {
            kept,
            handed: Handed::new(alloc),
            domains: Domains::new(alloc),
            guesses: Guesses::new(alloc),
            notes: Notes::new(alloc),
            chosen: Chosen::new(alloc),
        }))
    }

    /// Notes what this line shows, and what was guessed of it.
    fn note(
        &mut self,
        line: &Line<'_>,
        reply: &Reported<'_>,
        made: Option<usize>,
    ) -> Result<(), AllocError>
        ensures kept { self.new.kept ≡ self.old.kept }
        ensures given { OnOk result ((frame : ℕ) → is_given self.new.handed frame
            ≡ (is_given self.old.handed frame && not (is_used reply.now.event.now reply.now.outcome.now self.old.chosen.choice frame))) }
        ensures takes { OnOk result (self.new.handed.takes_back ≡ self.old.handed.takes_back) }
        ensures domains { OnOk result ((k : ℕ) → first_in self.new.domains k
            ≡ (if is_this (own_domain reply.now.event.now reply.now.outcome.now) k then None else first_in self.old.domains k)) }
    {
        self.notes.begin_line(line.number);
        self.notes.note(reply.event, reply.outcome)?;
        self.handed.note(reply, &self.chosen.choice);
        self.domains.note(reply.event, reply.outcome);
        self.guesses.note_line(reply, made);
        match self.chosen.missing {
            None => Ok(()),
            Some(missing) => self.guesses.miss(missing),
        }
    }

    /// Whether this may come of the event without the model's limits.
    fn comes_unlimited(&mut self, alloc: Global, reply: &Reported<'_>) -> Result<bool, AllocError> {
        let limits = self.kept.limits;
        if limits.pages.is_some() {
            return Ok(false);
        }
        self.kept.limits = WorldLimits::Unlimited.to_limits();
        let may_come = may_come(alloc, &mut self.kept, reply, &self.chosen.choice)?;
        self.kept.limits = limits;
        Ok(may_come)
    }

    /// Why the judging stops at a line of which this may not come.
    #[inline(never)]
    fn refusal(&mut self, line: &Line<'_>, reply: &Reported<'_>) -> Result<Stop, AllocError> {
        if let Some(missing) = self.guesses.behind(&self.kept, reply) {
            return line.uncertified(missing);
        }
        let facts = Facts {
            kept: &self.kept,
            notes: &self.notes,
            on: reply.shown.on,
        };
        let why = facts.reason(line.alloc, reply.event, reply.outcome)?;
        let reason = line.quoting(&why)?;
        if self.comes_unlimited(line.alloc, reply)? {
            return line.stop(Finding::Beyond(reason));
        }
        line.stop(Finding::Unlawful(reason))
    }

    /// This came of the event, and of no other device's with it. It is left out where it may not come.
    pub(crate) fn go_on_alone(&mut self, line: &Line<'_>, reply: &Reported<'_>) -> Judged
        ensures { OnOk result ((choice : spec.Choice) × ShowsChoice reply.now.shown reply.now.event.now choice
            × Continues self.old (Came reply.now.event.now reply.now.outcome.now choice ∷ []) self.new) }
    {
        self.chosen.choose(line, &self.kept, &self.notes, reply)?;
        let choice = &self.chosen.choice;
        self.handed.check(line, reply, choice)?;
        self.domains.check(line, &self.kept, reply)?;
        let made = self.guesses.place_of_oldest(&self.kept, reply.event);
        if !may_come(line.alloc, &mut self.kept, reply, choice)? {
            return Err(self.refusal(line, reply)?);
        }
        Ok(self.note(line, reply, made)?)
    }

    /// The line says this, which isn't an event with its outcome, with these frames of tables beside.
    #[inline(never)]
    fn take_other<'x>(
        &mut self,
        line: &Line<'_>,
        said: &'x TraceLine<'x>,
        tables: &'x [u64],
    ) -> Judged
        ensures { (text : List ℕ) → SaysLine text (said_of said.now) tables.now → OnOk result (Follows self.old (said_of said.now) tables.now self.new) }
    {
        match said {
            TraceLine::Nothing => Ok(()),
            TraceLine::Bad | TraceLine::Step { .. } => Err(line.bad_text(false)?),
            TraceLine::World(..) => Err(line.bad("the world has its size already")?),
            TraceLine::Made { device, is_read } => self.make(line, *device, *is_read),
            TraceLine::Grants(granted, has_tables) => {
                self.grant_each(line, *granted, *has_tables, tables)
            }
            TraceLine::Releases(released, ticket) => self.release_each(line, *released, *ticket),
            TraceLine::Handoff(frame) => self.hand_off(line, *frame),
            TraceLine::Take(frame) => self.take_back(line, *frame),
            TraceLine::Joins {
                device,
                with,
                ats,
                has_tables,
            } => self.join(line, *device, *with, *ats, *has_tables, tables),
            TraceLine::TablesFreed => self.free_tables(line, tables),
        }
    }

    /// The line says this, with these frames of tables beside. It is left out where it may not come, but for those of its events that came before.
    pub(crate) fn take_said<'x>(
        &mut self,
        line: &Line<'_>,
        said: &'x TraceLine<'x>,
        tables: &'x [u64],
    ) -> Judged
        ensures { (text : List ℕ) → SaysLine text (said_of said.now) tables.now → OnOk result (Follows self.old (said_of said.now) tables.now self.new) }
    {
        let TraceLine::Step {
            event,
            outcome,
            has_tables,
            on,
            began,
        } = said
        else {
            return self.take_other(line, said, tables);
        };
        let reply = Reported {
            event,
            outcome,
            shown: Shown {
                tables: Tables::Own(where_shown(*has_tables, tables)),
                freed: &[],
                on: *on,
                began: *began,
            },
        };
        self.go_on(line, &reply)
    }
}
