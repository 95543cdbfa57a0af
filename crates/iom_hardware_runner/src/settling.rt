// How hardware comes to rest: what it does next on the way, and when it rests.
ghost use Rattle.std.specs.Prelude.{◌≡◌, ◌↔◌, IsTrue, true, false, IfSome, IfNone};
ghost use Rattle.iom_hardware_session.specs.Shown.{walks_in};
ghost use Rattle.iom_hardware_runner.specs.Runs.{IsStill, brings_to_rest, command_waits, is_stepped};
ghost use Rattle.iom_hardware_script.specs.declared.script.HardwareLine.TheVariants as says;
ghost use Rattle.iom_machine.specs.declared.event.Event.TheVariants as events;

use crate::under_way::first_walking;
use iom_board::Board;
use iom_hardware_script::HardwareLine;
use iom_hardware_session::Session;
use iom_machine::Event;

/// Whether a command waits and the queue runs.
pub(crate) fn can_fetch(hardware: &Board) -> bool
    ensures { result ≡ command_waits hardware.now }
{
    let registers = hardware.iommu.registers();
    registers.is_processing_commands() && registers.command_head() != registers.command_tail()
}

/// Whether no access is in flight, no message under way, and no request of a device.
pub(crate) fn is_still(session: &Session) -> bool
    ensures { IsTrue result ↔ IsStill session.now.hardware.board (walks_in session.now.beside) }
{
    let hardware = session.hardware();
    hardware.first_busy().is_none()
        && hardware.messages().is_empty()
        && first_walking(session).is_none()
}

/// Whether the line is a fetch.
pub(crate) fn is_fetch(line: &HardwareLine) -> bool
    ensures { result ≡ true → line.now ≡ says.Event events.Fetch }
{
    matches!(line, HardwareLine::Event(Event::Fetch))
}

/// What hardware does next while it comes to rest: an access is made, the first message delivered, the next load of a walk made, or
/// a command taken. None where there is nothing left to do.
pub(crate) fn settling_step(session: &Session) -> Option<HardwareLine>
    ensures some { IfSome result (λ step. brings_to_rest (is_stepped session.now) step ≡ true) }
    ensures none { IfNone result (IsStill session.now.hardware.board (walks_in session.now.beside) × (command_waits session.now.hardware.board ≡ false)) }
{
    let hardware = session.hardware();
    if let Some(device) = hardware.first_busy() {
        return Some(HardwareLine::Event(Event::Commit { device }));
    }
    if !hardware.messages().is_empty() {
        return Some(HardwareLine::Event(Event::Deliver { place: 0 }));
    }
    if let Some(device) = first_walking(session) {
        return Some(HardwareLine::Load { device });
    }
    if can_fetch(hardware) {
        return Some(HardwareLine::Event(Event::Fetch));
    }
    None
}
