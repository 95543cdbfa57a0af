// Which events a line can say.
ghost use Rattle.std.specs.Prelude.{◌↔◌, IsTrue};
ghost use Rattle.iom_event_text.specs.Texts.{IsNamed, AreNameable, IsSayable};

use iom_base::DeviceId;
use iom_machine::Event;

/// The most bytes that a line names.
const MOST_BYTES: usize = 4096;

/// Whether six hexadecimal digits name the device.
fn is_device(device: DeviceId) -> bool
    ensures { IsTrue result ↔ IsNamed device }
{
    device < 1 << 24
}

/// Whether a line can name so many bytes.
fn are_nameable(bytes: &[u8]) -> bool
    ensures { IsTrue result ↔ AreNameable bytes.now }
{
    !bytes.is_empty() && bytes.len() <= MOST_BYTES
}

/// Whether a line can say the event. Of a script's events each can be said, and so can those of settling.
pub fn is_sayable(event: &Event) -> bool
    ensures { IsTrue result ↔ IsSayable event.now }
{
    match event {
        Event::Restart
        | Event::Fetch
        | Event::Timeout
        | Event::Poll
        | Event::Faults
        | Event::Deliver { .. }
        | Event::Drop { .. }
        | Event::Repeat { .. }
        | Event::Peek { .. }
        | Event::Free { .. } => true,
        Event::Poke { bytes, .. } => are_nameable(bytes.as_slice()),
        Event::Write { device, bytes, .. }
        | Event::WriteTranslated { device, bytes, .. }
        | Event::WriteThroughCache { device, bytes, .. } => {
            is_device(*device) && are_nameable(bytes.as_slice())
        }
        Event::Plug { device, .. }
        | Event::Medium { device, .. }
        | Event::Attach { device, .. }
        | Event::Detach { device }
        | Event::Grant { device, .. }
        | Event::Release { device, .. }
        | Event::Quarantine { device }
        | Event::Revive { device }
        | Event::Read { device, .. }
        | Event::ReadTranslated { device, .. }
        | Event::ReadThroughCache { device, .. }
        | Event::Ask { device, .. }
        | Event::Forge { device, .. }
        | Event::Reset { device }
        | Event::Queue { device, .. }
        | Event::Step { device }
        | Event::Status { device }
        | Event::Commit { device } => is_device(*device),
    }
}
