ghost use Rattle.std.specs.Prelude.{◌≡◌, IfOk};
ghost use Rattle.iom_script.specs.Reading.{Reads};
ghost use Rattle.iom_hardware_script.specs.Grammar.{is_of_hardware, IsHardwareLine};
ghost use Rattle.iom_hardware_script.specs.Parts.{IsClaimLine, IsSoftwareLine};

use crate::claims::claim_of;
use crate::help::help_of;
use crate::loads::load;
use crate::registers::{register_read, register_write};
use crate::script::HardwareLine;
use iom_machine::Event;
use iom_script::event_of;
use iom_script::words::after;
use std::alloc::{AllocError, Global};

/// Whether devices or hardware do this, or it is a store or a load of the processor. What our own driver is asked isn't.
pub fn is_of_hardware(event: &Event) -> bool
    ensures { result ≡ is_of_hardware event.now }
{
    match event {
        Event::Plug { .. }
        | Event::Reset { .. }
        | Event::Read { .. }
        | Event::Write { .. }
        | Event::ReadTranslated { .. }
        | Event::WriteTranslated { .. }
        | Event::ReadThroughCache { .. }
        | Event::WriteThroughCache { .. }
        | Event::Ask { .. }
        | Event::Forge { .. }
        | Event::Commit { .. }
        | Event::Fetch
        | Event::Timeout
        | Event::Deliver { .. }
        | Event::Drop { .. }
        | Event::Repeat { .. }
        | Event::Poke { .. }
        | Event::Peek { .. }
        | Event::Medium { .. }
        | Event::Queue { .. }
        | Event::Step { .. }
        | Event::Status { .. } => true,
        Event::Attach { .. }
        | Event::Detach { .. }
        | Event::Grant { .. }
        | Event::Release { .. }
        | Event::Quarantine { .. }
        | Event::Revive { .. }
        | Event::Restart
        | Event::Poll
        | Event::Faults
        | Event::Free { .. } => false,
    }
}

/// `claim`, and what is claimed
fn claim(line: &[u8]) -> Option<HardwareLine>
    ensures { Reads result (IsClaimLine line.now) }
{
    let text = after(line, b"claim ")?;
    let claimed = claim_of(text)?;
    Some(HardwareLine::Claim(claimed))
}

/// What a line says that software does.
fn of_software(line: &[u8]) -> Option<HardwareLine>
    ensures { Reads result (IsSoftwareLine line.now) }
{
    if let Some(said) = register_write(line) {
        return Some(said);
    }
    if let Some(said) = register_read(line) {
        return Some(said);
    }
    claim(line)
}

/// What a line says, behind that of the hardware. Only the bytes of a write or a poke take memory.
pub fn line_of(alloc: Global, line: &[u8]) -> Result<Option<HardwareLine>, AllocError>
    ensures { IfOk result (λ said. Reads said (IsHardwareLine line.now)) }
{
    if let Some(said) = of_software(line) {
        return Ok(Some(said));
    }
    if let Some(help) = help_of(line) {
        return Ok(Some(HardwareLine::Help(help)));
    }
    if let Some(said) = load(line) {
        return Ok(Some(said));
    }
    let Some(event) = event_of(alloc, line)? else {
        return Ok(None);
    };
    if !is_of_hardware(&event) {
        return Ok(None);
    }
    Ok(Some(HardwareLine::Event(event)))
}
