// What a line of devices, hardware or the processor does, in hardware of either pace.
ghost use Rattle.std.specs.Prelude.{◌≡◌, ◌+◌, ◌<◌, ◌≤◌, ◌^◌};
ghost use Rattle.iom_hardware_session.specs.Lines.{KeepsClaims};
ghost use Rattle.iom_hardware_session.specs.Paces.{EventOrNone, LoadsBy};
ghost use Rattle.iom_hardware_session.specs.Shown.{shown_in};

use crate::answer::Answer;
use crate::beside::Beside;
use crate::state::Session;
use crate::{pointed_events, stepped_events, whole_events};
use iom_base::{DeviceId, Refusal};
use iom_iommu::Load;
use iom_machine::Event;

impl Session {
    /// What devices, hardware or the processor do; an event that is none of theirs does nothing.
    pub(crate) fn event(&mut self, event: &Event) -> Answer
        requires count { self.old.hardware.board.events + 1 < 2 ^ 64 }
        ensures effect { EventOrNone event.now result (shown_in self.old) (shown_in self.new) }
        ensures claims { KeepsClaims self.old self.new }
        ensures counted { self.new.hardware.board.events ≤ self.old.hardware.board.events + 1 }
    {
        match &mut self.beside {
            Beside::Nothing => whole_events::event(&mut self.hardware, event),
            Beside::UnderWay(walks) => stepped_events::event(&mut self.hardware, walks, event),
            Beside::Pointers(features, pointers) => pointed_events::event(
                &mut self.hardware,
                *features,
                pointers,
                event,
            ),
        }
    }

    /// The next load of the device's walk, if one is under way.
    pub(crate) fn load_next(&mut self, device: DeviceId) -> Answer
        requires count { self.old.hardware.board.events + 1 < 2 ^ 64 }
        ensures effect { LoadsBy self.old.beside device result (shown_in self.old) (shown_in self.new) }
        ensures claims { KeepsClaims self.old self.new }
        ensures counted { self.new.hardware.board.events ≤ self.old.hardware.board.events + 1 }
    {
        match &mut self.beside {
            Beside::UnderWay(walks) => stepped_events::load(&mut self.hardware, walks, device),
            Beside::Nothing | Beside::Pointers(_, _) => match self.hardware.board.kind_of(device) {
                None => Answer::WalkLoad(Err(Refusal::NoSuchDevice)),
                Some(_) => Answer::WalkLoad(Ok(Load::Nothing)),
            },
        }
    }
}
