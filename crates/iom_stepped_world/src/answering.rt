// What the answers of the hardware are told as.
ghost use Rattle.std.specs.Prelude.{◌≡◌};
ghost use Rattle.iom_machine.specs.declared.outcome.Outcome.TheVariants as outcome;
ghost use Rattle.iom_stepped_world.specs.Told.{told, told_begun, told_load, told_step};
ghost use Rattle.iom_world.specs.OnHardware.{outcome_of_cache_reply, outcome_of_step, outcome_unless};
ghost use Rattle.iom_world_effects.specs.Requests.{outcome_of_reply};

use crate::outcome::SteppedOutcome;
use iom_base::Refusal;
use iom_board::CacheReply;
use iom_hardware::Stepped;
use iom_iommu::{Begun, Load, Reply};
use iom_machine::{BlockStep, Outcome};
use iom_stepped_hardware::StepOutcome;

/// What an answer of the IOMMU is told as.
fn reply_outcome(reply: Reply) -> Outcome
    ensures { result ≡ outcome_of_reply reply }
{
    match reply {
        Reply::Accepted(number) => Outcome::Accepted(number),
        Reply::Busy => Outcome::Busy,
        Reply::BadSpan => Outcome::BadSpan,
        Reply::Fault(cause) => Outcome::Fault(cause),
    }
}

/// What is told of a request that needs no walk.
pub(crate) fn request_outcome(answer: Result<Reply, Refusal>) -> Outcome
    ensures { result ≡ outcome_unless outcome_of_reply answer }
{
    match answer {
        Ok(reply) => reply_outcome(reply),
        Err(why) => Outcome::Refused(why),
    }
}

/// What is told of one through the device's own cache.
pub(crate) fn cached_outcome(answer: Result<CacheReply, Refusal>) -> Outcome
    ensures { result ≡ outcome_unless outcome_of_cache_reply answer }
{
    match answer {
        Ok(CacheReply::Miss) => Outcome::Miss,
        Ok(CacheReply::Replied(reply)) => reply_outcome(reply),
        Err(why) => Outcome::Refused(why),
    }
}

/// What is told of a request that begins.
pub(crate) fn begun_outcome(answer: Result<Begun, Refusal>) -> SteppedOutcome
    ensures { told result ≡ told_begun answer }
{
    match answer {
        Ok(Begun::Answered(reply)) => SteppedOutcome::Answer(reply_outcome(reply)),
        Ok(Begun::Walking) => SteppedOutcome::Walking,
        Ok(Begun::Occupied) => SteppedOutcome::Occupied,
        Err(why) => SteppedOutcome::Answer(Outcome::Refused(why)),
    }
}

/// What is told of a load.
pub(crate) fn load_outcome(answer: Result<Load, Refusal>) -> SteppedOutcome
    ensures { told result ≡ told_load answer }
{
    match answer {
        Ok(Load::Nothing) => SteppedOutcome::NoWalk,
        Ok(Load::Loaded) => SteppedOutcome::Loaded,
        Ok(Load::Ended(reply)) => SteppedOutcome::Answer(reply_outcome(reply)),
        Err(why) => SteppedOutcome::Answer(Outcome::Refused(why)),
    }
}

/// What a step of a block device that is one event is told as.
fn took_outcome(taken: Stepped) -> Outcome
    ensures { result ≡ outcome_of_step taken }
{
    match taken {
        Stepped::Began(reply) => reply_outcome(reply),
        Stepped::Asked => Outcome::Stepped(BlockStep::Asked),
        Stepped::Idle => Outcome::Stepped(BlockStep::Idle),
        Stepped::Waiting => Outcome::Stepped(BlockStep::Waiting),
        Stepped::Down => Outcome::Stepped(BlockStep::Down),
        Stepped::Chain(fault) => Outcome::Stepped(BlockStep::Chain(fault)),
        Stepped::Finished { head, len } => Outcome::Stepped(BlockStep::Finished { head, len }),
    }
}

/// What is told of a step of a block device.
pub(crate) fn step_outcome(answer: Result<StepOutcome, Refusal>) -> SteppedOutcome
    ensures { told result ≡ told_step answer }
{
    match answer {
        Ok(StepOutcome::Walking) => SteppedOutcome::Walking,
        Ok(StepOutcome::Took(taken)) => SteppedOutcome::Answer(took_outcome(taken)),
        Err(why) => SteppedOutcome::Answer(Outcome::Refused(why)),
    }
}
