// What the processor writes and reads, and what it is told of a frame.
ghost use Rattle.std.specs.Prelude.{◌≡◌, ◌↔◌, IfOk, IsTrue};
ghost use Rattle.iom_machine_judge.specs.Words.{History, Pokes, ShowsBytes, Peeks, TellsFree, state_of, Decides, DecidesUnchanged};

use crate::line::Decided;
use crate::reasons::{frame_refusal, poke_refusal, refuses};
use crate::requests::is_within_page;
use iom_base::PAGE_SIZE;
use iom_kept_state::KeptState;
use iom_machine::Outcome;

/// Whether a poke may come so; the next state is then kept.
pub(crate) fn judge_poke(
    kept: &mut KeptState,
    address: u64,
    bytes: &[u8],
    outcome: &Outcome,
) -> Decided
    ensures { IfOk result (λ may. Decides may kept.old kept.new (λ before after. Pokes before address bytes.now outcome.now after)) }
{
    let fits = is_within_page(address, bytes.len() as u64);
    let first = poke_refusal(kept, address / PAGE_SIZE);
    match outcome {
        Outcome::BadSpan => Ok(!fits),
        Outcome::Refused(why) => Ok(fits && refuses(first, false, *why)),
        Outcome::Done => {
            if !fits || first.is_some() {
                return Ok(false);
            }
            kept.frames
                .store(address / PAGE_SIZE, address % PAGE_SIZE, bytes)?;
            Ok(true)
        }
        _ => Ok(false),
    }
}

/// Whether so many bytes stand at the address, where that isn't reserved.
fn shows(kept: &KeptState, address: u64, len: u64, bytes: &[u8]) -> bool
    ensures { (h : History) → IsTrue result ↔ ShowsBytes (state_of kept.now h) address len bytes.now }
{
    let (frame, offset) = (address / PAGE_SIZE, address % PAGE_SIZE);
    if bytes.len() as u64 != len {
        return false;
    }
    kept.frames.is_reserved(frame) || kept.frames.shows(frame, offset, len, bytes)
}

/// Whether a peek may come so, which leaves the state as it is.
pub(crate) fn judge_peek(kept: &KeptState, address: u64, len: u64, outcome: &Outcome) -> bool
    ensures { DecidesUnchanged result kept.now (λ before after. Peeks before address len outcome.now after) }
{
    let fits = is_within_page(address, len);
    let first = frame_refusal(kept, address / PAGE_SIZE);
    match outcome {
        Outcome::BadSpan => !fits,
        Outcome::Refused(why) => fits && refuses(first, false, *why),
        Outcome::Bytes(bytes) => {
            if !fits || first.is_some() {
                return false;
            }
            shows(kept, address, len, bytes.as_slice())
        }
        _ => false,
    }
}

fn are_same(one: bool, other: bool) -> bool
    ensures { IsTrue result ↔ (one ≡ other) }
{
    one == other
}

/// Whether the question whether the frame is free may be answered so, which leaves the state as it is.
pub(crate) fn judge_free(kept: &KeptState, frame: u64, outcome: &Outcome) -> bool
    ensures { DecidesUnchanged result kept.now (λ before after. TellsFree before frame outcome.now after) }
{
    let first = frame_refusal(kept, frame);
    match outcome {
        Outcome::Refused(why) => refuses(first, false, *why),
        Outcome::Free(reply) => {
            if first.is_some() {
                return false;
            }
            are_same(*reply, kept.is_free(frame))
        }
        _ => false,
    }
}
