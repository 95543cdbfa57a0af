// What the answers of the hardware and of the driver are told as.
ghost use Rattle.std.specs.Prelude.{◌≡◌, ◌+◌, ◌≤◌, ◌^◌, if◌then◌else◌};
ghost use Rattle.iom_answers.specs.Answers.{outcome_of};
ghost use Rattle.iom_machine.specs.declared.outcome.Outcome.TheVariants as outcome;
ghost use Rattle.iom_world_effects.specs.Answers.{outcome_of_done, outcome_of_ticket};
ghost use Rattle.iom_world_effects.specs.Deliveries.{outcome_of_taking};
ghost use Rattle.iom_world_effects.specs.Effect.{outcome_of_poll, outcome_of_report};
ghost use Rattle.iom_world_effects.specs.Messages.{outcome_of_repeat};
ghost use Rattle.iom_world_effects.specs.Requests.{outcome_of_reply};
ghost use Rattle.iom_world.specs.OnHardware.{outcome_unless, outcome_of_status, outcome_of_sending, outcome_of_delivery, outcome_of_cache_reply, outcome_of_no_place, outcome_of_store, outcome_of_step};

use iom_answers::Answer;
use iom_ats_cache::Taken;
use iom_base::Refusal;
use iom_board::{CacheReply, Delivered, NoPlace};
use iom_driver::{Polled, Ticket};
use iom_fabric::Repeat;
use iom_hardware::Stepped;
use iom_iommu::Reply;
use iom_machine::BlockStep;

/// What an answer of the driver that gives nothing is told as.
pub(crate) fn done_answer(answer: Result<(), Refusal>) -> Answer<'static>
    ensures { outcome_of result ≡ outcome_of_done answer }
{
    match answer {
        Ok(()) => Answer::Done,
        Err(why) => Answer::Refused(why),
    }
}

/// What an answer of the driver that gives a ticket is told as.
pub(crate) fn ticket_answer(answer: Result<Ticket, Refusal>) -> Answer<'static>
    ensures { outcome_of result ≡ outcome_of_ticket answer }
{
    match answer {
        Ok(ticket) => Answer::Ticket(ticket.0),
        Err(why) => Answer::Refused(why),
    }
}

/// What a poll is told as.
pub(crate) fn poll_answer(polled: Polled) -> Answer<'static>
    requires { polled.first + polled.count ≤ 2 ^ 32 }
    ensures { outcome_of result ≡ outcome_of_poll (Ok polled) }
{
    let timed_out = polled.timed_out;
    if polled.count == 0 {
        return Answer::NoneConfirmed { timed_out };
    }
    Answer::Confirmed {
        first: polled.first,
        last: polled.first + (polled.count - 1),
        timed_out,
    }
}

/// What the status of a block device is told as.
pub(crate) fn status_answer(answer: Result<u8, Refusal>) -> Answer<'static>
    ensures { outcome_of result ≡ outcome_unless outcome_of_status answer }
{
    match answer {
        Ok(status) => Answer::Status(status),
        Err(why) => Answer::Refused(why),
    }
}

/// What a timeout is told as.
pub(crate) fn timeout_answer(has_effect: bool) -> Answer<'static>
    ensures { outcome_of result ≡ (if has_effect then outcome.TimedOut else outcome.NoEffect) }
{
    if has_effect {
        Answer::TimedOut
    } else {
        Answer::NoEffect
    }
}

/// What an answer of the IOMMU is told as.
pub(crate) fn reply_answer(reply: Reply) -> Answer<'static>
    ensures { outcome_of result ≡ outcome_of_reply reply }
{
    match reply {
        Reply::Accepted(number) => Answer::Accepted(number),
        Reply::Busy => Answer::Busy,
        Reply::BadSpan => Answer::BadSpan,
        Reply::Fault(cause) => Answer::Fault(cause),
    }
}

/// What an access through a device's own cache is told as.
pub(crate) fn cached_answer(answer: Result<CacheReply, Refusal>) -> Answer<'static>
    ensures { outcome_of result ≡ outcome_unless outcome_of_cache_reply answer }
{
    match answer {
        Ok(CacheReply::Miss) => Answer::Miss,
        Ok(CacheReply::Replied(reply)) => reply_answer(reply),
        Err(why) => Answer::Refused(why),
    }
}

/// What is told of a message that a device sends.
pub(crate) fn send_answer(answer: Result<bool, Refusal>) -> Answer<'static>
    ensures { outcome_of result ≡ outcome_unless outcome_of_sending answer }
{
    match answer {
        Ok(true) => Answer::Sent,
        Ok(false) => Answer::Lost,
        Err(why) => Answer::Refused(why),
    }
}

/// What is told of a message that was repeated.
pub(crate) fn repeat_answer(repeat: Repeat) -> Answer<'static>
    ensures { outcome_of result ≡ outcome_of_repeat repeat }
{
    match repeat {
        Repeat::Repeated => Answer::Repeated,
        Repeat::Lost => Answer::Lost,
        Repeat::Nothing => Answer::NoMessage,
    }
}

/// What is told of an answer, by what the device does with it.
pub(crate) fn taken_answer(taken: Taken) -> Answer<'static>
    ensures { outcome_of result ≡ outcome_of_taking taken }
{
    match taken {
        Taken::Kept => Answer::Kept,
        Taken::Stale => Answer::Stale,
        Taken::Refused => Answer::AnswerRefused,
    }
}

/// What is told of a message that arrives.
pub(crate) fn delivery_answer(delivered: Delivered) -> Answer<'static>
    ensures { outcome_of result ≡ outcome_of_delivery delivered }
{
    match delivered {
        Delivered::NoMessage => Answer::NoMessage,
        Delivered::Answered(answer) => Answer::Answered(answer),
        Delivered::Taken(taken) => taken_answer(taken),
        Delivered::Ignored => Answer::Ignored,
        Delivered::Invalidated(serial) => Answer::Invalidated(serial),
        Delivered::Closed(serial) => Answer::Closed(serial),
        Delivered::NotClosed(serial) => Answer::NotClosed(serial),
    }
}

/// What bytes without a place in memory are told as.
pub(crate) fn no_place_answer(why: NoPlace) -> Answer<'static>
    ensures { outcome_of result ≡ outcome_of_no_place why }
{
    match why {
        NoPlace::BadSpan => Answer::BadSpan,
        NoPlace::OutsideMemory => Answer::Refused(Refusal::FrameOutOfRange),
    }
}

/// What a store of the processor is told as.
pub(crate) fn store_answer(answer: Result<(), NoPlace>) -> Answer<'static>
    ensures { outcome_of result ≡ outcome_of_store answer }
{
    match answer {
        Ok(()) => Answer::Done,
        Err(why) => no_place_answer(why),
    }
}

/// What came of a request is told so.
#[inline(always)]
pub(crate) fn request_answer(answer: Result<Reply, Refusal>) -> Answer<'static>
    ensures { outcome_of result ≡ outcome_unless outcome_of_reply answer }
{
    match answer {
        Ok(reply) => reply_answer(reply),
        Err(why) => Answer::Refused(why),
    }
}

/// What a step of a block device was is told so.
#[inline(always)]
pub(crate) fn step_answer(answer: Result<Stepped, Refusal>) -> Answer<'static>
    ensures { outcome_of result ≡ outcome_unless outcome_of_step answer }
{
    match answer {
        Ok(Stepped::Began(reply)) => reply_answer(reply),
        Ok(Stepped::Asked) => Answer::Stepped(BlockStep::Asked),
        Ok(Stepped::Idle) => Answer::Stepped(BlockStep::Idle),
        Ok(Stepped::Waiting) => Answer::Stepped(BlockStep::Waiting),
        Ok(Stepped::Down) => Answer::Stepped(BlockStep::Down),
        Ok(Stepped::Chain(fault)) => Answer::Stepped(BlockStep::Chain(fault)),
        Ok(Stepped::Finished { head, len }) => {
            Answer::Stepped(BlockStep::Finished { head, len })
        }
        Err(why) => Answer::Refused(why),
    }
}
