// The answer of a line, as text.
ghost use Rattle.std.specs.Prelude.{◌≡◌, IfSome};
ghost use Rattle.iom_hardware_runner.specs.Answers.{claim_text};
ghost use Rattle.iom_hardware_script.specs.Answers.{hardware_answer_text};
ghost use Rattle.iom_hardware_session.specs.Answered.{judgement_in};

use crate::outcomes::{
    put_begun, put_cache, put_committed, put_delivered, put_done, put_fetched, put_loaded,
    put_refusal, put_repeated, put_replied, put_sent, put_status, put_step, put_step_outcome,
    put_stored, put_walk_load, put_words,
};
use iom_board::Board;
use iom_hardware_script::{Answer as Text, HardwareLine, append_answer};
use iom_hardware_session::{Answer, ClaimAnswer};
use iom_machine::Event;
use iom_registers::RegFault;
use iom_script::LineBuffer;

/// Writes the text of an answer that no outcome has, in place of what stood there.
fn put_text(out: &mut LineBuffer, text: &Text)
    ensures { out.new ≡ hardware_answer_text text.now }
{
    out.clear();
    append_answer(out, text);
}

/// Why a register isn't there.
fn put_fault(out: &mut LineBuffer, fault: RegFault) {
    match fault {
        RegFault::BadOffset => put_text(out, &Text::BadOffset),
        RegFault::BadWidth => put_text(out, &Text::BadWidth),
    }
}

/// What is found of a claim; behind `wrong: ` stand other words.
fn put_claim(out: &mut LineBuffer, found: ClaimAnswer)
    ensures { out.new ≡ claim_text found }
{
    match found {
        ClaimAnswer::Good => put_text(out, &Text::Good),
        ClaimAnswer::Released(number) => put_text(out, &Text::Claimed(number)),
        ClaimAnswer::Trusted => put_words(out, b"ok"),
        ClaimAnswer::Refused(why) => put_refusal(out, why),
        ClaimAnswer::NoSuchClaim => put_text(out, &Text::NoSuchClaim),
        ClaimAnswer::Wrong(_) => put_words(out, b"wrong: "),
    }
}

/// What the processor loads stands in memory.
fn put_bytes(out: &mut LineBuffer, line: &HardwareLine, hardware: &Board) {
    if let HardwareLine::Event(Event::Peek { address, len }) = line {
        put_loaded(out, hardware, *address, *len);
    }
}

/// Writes the answer of the line, in place of what stood there; of a claim that is wrong only `wrong: `.
pub fn put_answer(out: &mut LineBuffer, line: &HardwareLine, answer: &Answer, hardware: &Board)
    // What is found of a claim.
    ensures claimed { IfSome (judgement_in answer.now) (λ found. out.new ≡ claim_text found) }
{
    match *answer {
        Answer::Plugged(done)
        | Answer::Reset(done)
        | Answer::TookDisk(done)
        | Answer::QueueSet(done) => put_done(out, done),
        Answer::TookStep(stepped) => put_step(out, stepped),
        Answer::StepOutcome(outcome) => put_step_outcome(out, outcome),
        Answer::Status(status) => put_status(out, status),
        Answer::Replied(reply) => put_replied(out, reply),
        Answer::Begun(begun) => put_begun(out, begun),
        Answer::WalkLoad(load) => put_walk_load(out, load),
        Answer::ThroughCache(reply) => put_cache(out, reply),
        Answer::Sent(sent) => put_sent(out, sent),
        Answer::Committed(made) => put_committed(out, hardware, made),
        Answer::Fetched(fetched) => put_fetched(out, fetched),
        Answer::TimedOut(true) => put_words(out, b"timed-out"),
        Answer::TimedOut(false) => put_words(out, b"no effect"),
        Answer::Delivered(delivered) => put_delivered(out, delivered),
        Answer::Dropped(true) => put_words(out, b"dropped"),
        Answer::Dropped(false) => put_words(out, b"none"),
        Answer::Repeated(repeated) => put_repeated(out, repeated),
        Answer::Stored(stored) => put_stored(out, stored),
        Answer::Loaded(_) => put_bytes(out, line, hardware),
        Answer::Value(Ok(value)) => put_text(out, &Text::Value(value)),
        Answer::Value(Err(fault)) | Answer::Written(Err(fault)) => put_fault(out, fault),
        Answer::Written(Ok(())) => put_words(out, b"ok"),
        Answer::Claim(found) => put_claim(out, found),
        Answer::NotOfHardware => out.clear(),
    }
}
