ghost use Rattle.std.specs.Prelude.{◌≡◌};
ghost use Rattle.iom_litmus_looks.specs.Acts.{event_of};

use iom_litmus::HardwareStep;
use iom_machine::Event;

/// What hardware does, as an event of a script. None for a load of a walk: a walk goes whole here.
pub fn event_of(step: HardwareStep) -> Option<Event>
    ensures { result ≡ event_of step }
{
    match step {
        HardwareStep::Fetch => Some(Event::Fetch),
        HardwareStep::Commit(device) => Some(Event::Commit { device }),
        HardwareStep::Load(_) => None,
        HardwareStep::Deliver(place) => Some(Event::Deliver {
            place: place as u64,
        }),
        HardwareStep::Drop(place) => Some(Event::Drop {
            place: place as u64,
        }),
        HardwareStep::Repeat(place) => Some(Event::Repeat {
            place: place as u64,
        }),
        HardwareStep::Timeout => Some(Event::Timeout),
    }
}
