// A line happens, and the reply to it.
ghost use Rattle.std.specs.Prelude.{◌≡◌, ◌+◌, ◌<◌, ◌^◌, IfOk};
ghost use Rattle.iom_claims.specs.Claimed.{Claimed};
ghost use Rattle.iom_claims.specs.Shown.{ShowsClaimed};
ghost use Rattle.iom_hardware_session.specs.Lines.{made_by};
ghost use Rattle.iom_hardware_session.specs.Runs.{LineGoesOn};
ghost use Rattle.iom_litmus_hardware.specs.Lines.{is_event_of_block, is_for_tests, Says, TakesLine};
ghost use Rattle.iom_litmus_hardware.specs.Places.{IsWhole};
ghost use Rattle.iom_script.specs.Reading.{Reads};

use iom_base::Sequence;
use iom_hardware_runner::put_answer;
use iom_hardware_script::{HardwareLine, line_of};
use iom_hardware_session::{Answer, Session, Stepped};
use iom_inflight::MadeAt;
use iom_litmus::Reply;
use iom_litmus_looks::{front_of, touches_of};
use iom_machine::Event;
use iom_script::LineBuffer;
use std::alloc::{AllocError, Global};

/// Whether the event is one of a block device: that one is plugged in, too.
fn is_of_block(event: &Event) -> bool
    ensures { result ≡ is_event_of_block event.now }
{
    match event {
        Event::Plug { new, .. } => new.kind().is_block_device(),
        Event::Medium { .. } | Event::Queue { .. } | Event::Step { .. } | Event::Status { .. } => {
            true
        }
        _ => false,
    }
}

/// Whether a test can have the line. It has none of block devices, none that asks hardware to act by itself, which a test says
/// by its parts, and no load of a walk, which is whole here.
pub(crate) fn is_for_tests(said: &HardwareLine) -> bool
    ensures { result ≡ is_for_tests said.now }
{
    match said {
        HardwareLine::Event(event) => !is_of_block(event),
        HardwareLine::RegisterRead { .. }
        | HardwareLine::RegisterWrite { .. }
        | HardwareLine::Claim(_) => true,
        HardwareLine::Help(_) | HardwareLine::Load { .. } => false,
    }
}

/// The line that a text of a test says. None where it says none, or one that a test can't have.
pub fn line_for_tests(alloc: Global, text: &[u8]) -> Result<Option<HardwareLine>, AllocError>
    ensures { IfOk result (λ said. Reads said (Says text.now)) }
{
    match line_of(alloc, text)? {
        Some(said) if is_for_tests(&said) => Ok(Some(said)),
        _ => Ok(None),
    }
}

/// The access that was made.
fn made_by(answer: &Answer) -> Option<MadeAt>
    ensures { result ≡ made_by answer.now }
{
    match answer {
        Answer::Committed(Ok(made)) => *made,
        _ => None,
    }
}

/// The line happens. Walks that are whole stay so.
pub(crate) fn go_on(session: &mut Session, said: &HardwareLine) -> Stepped
    requires count { session.old.hardware.board.events + 1 < 2 ^ 64 }
    ensures goes_on { (c : Claimed) → ShowsClaimed session.old.claims c
        → LineGoesOn session.old c (record { said = said.now; stepped = result; watched = session.new.watched.items }) session.new }
    ensures whole { IsWhole session.old → IsWhole session.new }
{
    session.line(said)
}

/// The line happens. Its reply, whose text is written by way of the buffer.
pub(crate) fn take(
    alloc: Global,
    session: &mut Session,
    said: &HardwareLine,
    buffer: &mut LineBuffer,
) -> Result<Reply, AllocError>
    requires count { session.old.hardware.board.events + 1 < 2 ^ 64 }
    ensures leads { IfOk result (λ reply. TakesLine said.now session.old reply session.new) }
    ensures whole { IsWhole session.old → IsWhole session.new }
{
    let stepped = go_on(session, said);
    put_answer(buffer, said, &stepped.answer, session.hardware());
    let text = Vec::from_slice(alloc, front_of(buffer.as_slice()))?;
    Ok(Reply {
        text: Sequence::from_vec(text),
        touches: touches_of(alloc, made_by(&stepped.answer))?,
        wrong: session.is_wrong(&stepped),
        violated: stepped.violated,
    })
}
