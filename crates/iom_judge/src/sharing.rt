// What a line says of a device that is attached to the domain of another.
ghost use Rattle.std.specs.Prelude.{◌≡◌, ◌∷◌, [], ℕ, IfSome, IsTrue, OnOk, true};
ghost use Rattle.iom_kept_state.specs.Grants.{IsPastOf};
ghost use Rattle.iom_kept_state.specs.States.{state_of};
ghost use Rattle.iom_ledger.specs.History.{History};
ghost use Rattle.iom_base.specs.declared.grant_rights.GrantRights as spec_rights;
ghost use Rattle.iom_machine.specs.Refusals.{attachment_of, is_attached, mode_at};
ghost use Rattle.iom_machine.specs.declared.choice.Choice as spec_choice;
ghost use Rattle.iom_machine.specs.declared.event.Event.TheVariants as events;
ghost use Rattle.iom_machine.specs.declared.outcome.Outcome.TheVariants as outcomes;
ghost use Rattle.iom_trace_lines.specs.TraceLines.{Joins};
ghost use Rattle.iom_judge.specs.Certified.{trace_state, Continues, ContinuesAs, ContinuesByHeld};
ghost use Rattle.iom_judge.specs.Happenings.{Came, Joined};
ghost use Rattle.iom_judge.specs.Sharing.{first_of, MayShare};

use crate::choosing::{Tables, where_shown};
use crate::machine::TraceMachine;
use crate::missing::Missing;
use crate::stop::{Judged, Line, Stop};
use crate::verdict::Finding;
use iom_base::{DeviceId, GrantRights, Mode, Rights};
use iom_kept_state::is_attached;
use iom_machine::{Attachment, Event, Outcome};

/// The right to grant that is these rights.
fn right_of(rights: Rights) -> GrantRights {
    if rights == Rights::RW {
        GrantRights::ReadWrite
    } else {
        GrantRights::ReadOnly
    }
}

impl TraceMachine {
    /// Whether the device may have the domain of this first one.
    fn may_share(&self, device: DeviceId, first: DeviceId) -> bool
        ensures { (h : History) → IsPastOf self.now.kept.grants h → IsTrue result → MayShare (trace_state self.now h) device first }
    {
        let kept = &self.kept;
        if kept.limits.in_order || device == first {
            return false;
        }
        if let Some(_another) = self.domains.first_with(first) {
            return false;
        }
        if !kept.device_may_give_back(first) {
            return false;
        }
        if kept.attachment(device).mode() != kept.attachment(first).mode() {
            return false;
        }
        kept.grants.hold_the_same(device, first)
    }

    /// The first device of the domain of the other one, which the device may have.
    fn first_to_share(&self, device: DeviceId, with: DeviceId) -> Option<DeviceId>
        ensures { (h : History) → IsPastOf self.now.kept.grants h → IfSome result (λ first. (first ≡ first_of (trace_state self.now h) with)
            × MayShare (trace_state self.now h) device first × (is_attached (attachment_of (state_of self.now.kept h) with) ≡ true)) }
    {
        if !is_attached(self.kept.attachment(with)) {
            return None;
        }
        let first = self.domains.first_of(with);
        if !self.may_share(device, first) {
            return None;
        }
        Some(first)
    }

    /// The grant of what the other device holds at the page with this index, if it holds something there.
    fn grant_of_held(&self, device: DeviceId, first: DeviceId, index: usize) -> Option<Event>
        ensures { IfSome result (λ event. (page frame : ℕ) × (rights : spec_rights.GrantRights) × (event ≡ events.Grant device page frame rights)) }
    {
        let grants = &self.kept.grants;
        let page = grants.page_at(first, index)?;
        let (frame, rights) = grants.held(first, page)?;
        Some(Event::Grant {
            device,
            page,
            frame,
            rights: right_of(rights),
        })
    }

    /// The device is granted what this first one holds.
    fn grant_held(&mut self, line: &Line<'_>, device: DeviceId, first: DeviceId) -> Judged
        ensures { OnOk result (ContinuesByHeld self.old device self.new) }
    {
        for index in 0..self.kept.grants.page_count(first) {
            if let Some(event) = self.grant_of_held(device, first, index) {
                self.go_on_showing(line, &event, &Outcome::Done, Tables::OfAnother(None))?;
            }
        }
        Ok(())
    }

    /// The mode in which the device is attached, whose domain another may have.
    fn mode_to_share(&self, line: &Line<'_>, with: DeviceId) -> Result<Mode, Stop> {
        if self.kept.limits.in_order {
            let reason = line.quoting("the devices of a domain release under one ticket")?;
            return Err(line.stop(Finding::Beyond(reason))?);
        }
        if let Attachment::Attached { mode, .. } = self.kept.attachment(with) {
            return Ok(mode);
        }
        let reason = format!(in line.alloc; "{with:06x} isn't attached")?;
        Err(line.unlawful(&reason)?)
    }

    /// The device is attached to the domain of the other one.
    #[inline(never)]
    pub(crate) fn join(
        &mut self,
        line: &Line<'_>,
        device: DeviceId,
        with: DeviceId,
        ats: bool,
        has_tables: bool,
        tables: &[u64],
    ) -> Judged
        ensures { OnOk result (ContinuesAs self.old (Joins device with ats has_tables) tables.now self.new) }
    {
        let mode = self.mode_to_share(line, with)?;
        let first = self.domains.first_of(with);
        let event = Event::Attach { device, mode, ats };
        let pages = Tables::OfAnother(where_shown(has_tables, tables));
        self.go_on_showing(line, &event, &Outcome::Done, pages)?;
        self.grant_held(line, device, first)?;
        let Some(first) = self.first_to_share(device, with) else {
            return Err(line.uncertified(Missing::Pending { device, with })?);
        };
        self.domains.join(device, first)?;
        Ok(())
    }
}
