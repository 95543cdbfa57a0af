// Outcomes that lines tell.
ghost use Rattle.std.specs.Prelude.{◌≡◌, ◌++◌, ◌∷◌, [], codes, flat_map, length, IfOk, IfSome};
ghost use Rattle.std.specs.Fmt.{decimal};
ghost use Rattle.iom_base.specs.Causes.{code_of};
ghost use Rattle.iom_base.specs.Refusals.{name_of, number_of};
ghost use Rattle.iom_script.specs.Digits.{hex_of};
ghost use Rattle.iom_trace_lines.specs.Places.{AreOfKind};
ghost use Rattle.iom_script.specs.Lines.{answer_text, fetched_text, line_of, outcome_text, step_text, timeout_text, word_text};

use crate::words::{behind, long_number_of, short_number_before, short_number_of};
use arrayvec::ArrayVec;
use iom_base::{Cause, Refusal};
use iom_fabric::Translation;
use iom_machine::{BlockStep, CommandName, Event, FaultRecord, Fetched, Outcome};
use iom_script::words::{eight_bytes, is_word, put_bytes, right_of};
use iom_virtqueue::ChainFault;
use std::alloc::{AllocError, Global};

#[rattlefmt::skip]
static REFUSALS: [Refusal; 23] = [
    Refusal::NoSuchDevice, Refusal::AlreadyAttached, Refusal::NotAttached, Refusal::NotTrusted,
    Refusal::FrameOutOfRange, Refusal::FrameReserved, Refusal::IovaOutOfRange, Refusal::IovaBusy, Refusal::NotGranted,
    Refusal::NoFrames, Refusal::QueueFull, Refusal::TooManyPending, Refusal::Quarantined, Refusal::NumbersUsedUp,
    Refusal::Memory, Refusal::StillGranted, Refusal::IdTooWide, Refusal::TooManyDevices, Refusal::NotStarted,
    Refusal::AlreadyPlugged, Refusal::WrongKind, Refusal::BadMedium, Refusal::BadQueue,
];

#[rattlefmt::skip]
pub static CAUSES: [Cause; 11] = [
    Cause::ReadAccessFault, Cause::WriteAccessFault, Cause::ReadPageFault, Cause::WritePageFault,
    Cause::ReadGuestPageFault, Cause::WriteGuestPageFault, Cause::AllInboundDisallowed, Cause::DirectoryLoadFault,
    Cause::DirectoryEntryNotValid, Cause::DirectoryEntryMisconfigured, Cause::TransactionTypeDisallowed,
];

/// A place for each kind of outcome, for line after line. An outcome has room for the bytes of a page, and a new one is a
/// fill of so many zeros: in such a place only what differs is written. Each stands in a box, so that none is moved.
#[derive(Drop)]
pub struct KeptOutcomes {
    done: Box<Outcome>,
    accepted: Box<Outcome>,
    read: Box<Outcome>,
    wrote: Box<Outcome>,
    ticket: Box<Outcome>,
    fault: Box<Outcome>,
    fetched: Box<Outcome>,
    confirmed: Box<Outcome>,
    none_confirmed: Box<Outcome>,
    bytes: Box<Outcome>,
    no_record: Box<Outcome>,
    sent: Box<Outcome>,
    kept: Box<Outcome>,
    record: Box<Outcome>,
    stepped: Box<Outcome>,
    answered: Box<Outcome>,
    /// One that comes seldom: such a one is put here whole.
    seldom: Box<Outcome>,
}

/// The place, which is one of this kind, once that is told.
macro_rules! tell {
    ($place:expr, $kind:pat => $told:expr) => {{
        let place: &mut Outcome = &mut $place;
        match place {
            $kind => $told,
            _ => return None,
        }
        Some(place)
    }};
}

/// What is told beside the first of these words that the text is.
macro_rules! tell_words {
    ($text:expr, $($word:literal => $place:expr, $kind:pat,)+) => {
        $(if is_word($text, $word) {
            return tell!($place, $kind => {});
        })+
    };
}

/// What is told beside the first of these starts that the text has, of what stands behind it.
macro_rules! tell_behind {
    ($text:expr, $rest:ident, $($start:literal => $reply:expr,)+) => {
        $(if let Some($rest) = behind($text, $start) {
            return $reply;
        })+
    };
}

/// The refusal with this number and this name.
fn refusal_of(text: &[u8]) -> Option<Refusal>
    ensures { IfSome result (λ why. text.now ≡ decimal (number_of why) ++ codes " " ++ name_of why) }
{
    let (number, rest) = short_number_before(text)?;
    let name = behind(rest, b" ")?;
    for why in &REFUSALS {
        if u32::from(why.number()) == number && is_word(name, why.name().as_bytes()) {
            return Some(*why);
        }
    }
    None
}

/// The cause with the number.
fn cause_of(text: &[u8]) -> Option<Cause>
    ensures { IfSome result (λ cause. text.now ≡ decimal (code_of cause)) }
{
    let code = long_number_of(text)?;
    for cause in &CAUSES {
        if u64::from(cause.code()) == code {
            return Some(*cause);
        }
    }
    None
}

/// The word of a record with which the text begins, and what stands behind it.
fn record_word_before(text: &[u8]) -> Option<(u64, &[u8])>
    ensures { IfSome result (λ read. text.now ≡ word_text read.0 ++ read.1.now) }
{
    let digits = behind(text, b" 0x")?;
    if digits.len() < 16 {
        return None;
    }
    let (word, rest) = digits.split_at(16);
    let bytes = eight_bytes(word)?;
    Some((u64::from_be_bytes(bytes), rest))
}

/// The record that four words say.
fn record_of(text: &[u8]) -> Option<FaultRecord>
    ensures { IfSome result (λ taken. text.now ≡ flat_map word_text taken.words) }
{
    let (first, rest) = record_word_before(text)?;
    let (second, rest) = record_word_before(rest)?;
    let (third, rest) = record_word_before(rest)?;
    let (fourth, rest) = record_word_before(rest)?;
    if !rest.is_empty() {
        return None;
    }
    Some(FaultRecord {
        words: [first, second, third, fourth],
    })
}

/// What a fetch did, by its words. A step may wait too.
fn fetched_of(event: &Event, text: &[u8]) -> Option<Fetched>
    ensures { IfSome result (λ fetched. text.now ≡ fetched_text fetched) }
{
    match text {
        b"empty" => Some(Fetched::Empty),
        b"did iofence.c" => Some(Fetched::Did(CommandName::IofenceC)),
        b"did iotinval.vma" => Some(Fetched::Did(CommandName::IotinvalVma)),
        b"did iotinval.gvma" => Some(Fetched::Did(CommandName::IotinvalGvma)),
        b"did ats.inval" => Some(Fetched::Did(CommandName::AtsInval)),
        b"did iodir.inval_ddt" => Some(Fetched::Did(CommandName::IodirInvalDdt)),
        b"stopped" => Some(Fetched::Stopped),
        b"waiting" if !matches!(event, Event::Step { .. }) => Some(Fetched::Waiting),
        _ => None,
    }
}

/// As many bytes as a read may give.
static ZEROS: [u8; 4096] = [0; 4096];

/// The list has so many places, whatever stands there. None where that is more than it has room for.
fn resize(list: &mut ArrayVec<u8, 4096>, len: usize) -> Option<()>
    ensures { IfSome result (λ done. length list.new.items ≡ len) }
{
    if len <= list.len() {
        list.truncate(len);
        return Some(());
    }
    let more = len - list.len();
    match list.try_extend_from_slice(ZEROS.get(..more)?) {
        Ok(()) => Some(()),
        Err(_) => None,
    }
}

/// Puts the bytes into the list that two hexadecimal digits each say. None where they don't.
fn tell_bytes(list: &mut ArrayVec<u8, 4096>, text: &[u8]) -> Option<()>
    ensures { IfSome result (λ done. text.now ≡ hex_of list.new.items) }
{
    if text.len() % 2 != 0 {
        return None;
    }
    resize(list, text.len() / 2)?;
    if put_bytes(list.as_mut_slice(), text) {
        Some(())
    } else {
        None
    }
}

/// Whether ` timeout` stands behind what a poll found.
fn is_given_up(text: &[u8]) -> Option<bool>
    ensures { IfSome result (λ timed_out. text.now ≡ timeout_text timed_out) }
{
    match text {
        [] => Some(false),
        b" timeout" => Some(true),
        _ => None,
    }
}

/// The tickets that `A-B` says, and whether ` timeout` is behind them.
fn tickets_of(text: &[u8]) -> Option<(u32, u32, bool)>
    ensures { IfSome result (λ read. text.now ≡ decimal read.0 ++ codes "-" ++ decimal read.1 ++ timeout_text read.2) }
{
    let (first, more) = short_number_before(text)?;
    let others = behind(more, b"-")?;
    let (last, rest) = short_number_before(others)?;
    let timed_out = is_given_up(rest)?;
    Some((first, last, timed_out))
}

/// The answer to a question that `FRAME RIGHT` or `fault C` says.
#[inline(never)]
fn translation_of(text: &[u8]) -> Option<Translation>
    ensures { IfSome result (λ reply. answer_text reply ≡ codes "answer " ++ text.now) }
{
    if let Some(code) = behind(text, b"fault ") {
        return Some(Translation::Refused(cause_of(code)?));
    }
    let (frame, rest) = short_number_before(text)?;
    let rights = right_of(behind(rest, b" ")?)?.rights();
    Some(Translation::Page { frame, rights })
}

/// The head and the length of a chain that `HEAD LENGTH` says.
fn finished_of(text: &[u8]) -> Option<(u16, u32)>
    ensures { IfSome result (λ read. text.now ≡ decimal read.0 ++ codes " " ++ decimal read.1) }
{
    let (head, rest) = short_number_before(text)?;
    let len = short_number_of(behind(rest, b" ")?)?;
    Some((u16::try_from(head).ok()?, len))
}

/// What a block device's step was that began no access, by its words.
// Not written into its caller: with this there, too little room would be left for what comes often.
#[inline(never)]
fn step_of(text: &[u8]) -> Option<BlockStep>
    ensures { IfSome result (λ step. text.now ≡ step_text step) }
{
    match text {
        b"waiting" => Some(BlockStep::Waiting),
        b"idle" => Some(BlockStep::Idle),
        b"asked" => Some(BlockStep::Asked),
        b"down" => Some(BlockStep::Down),
        b"chain Loop" => Some(BlockStep::Chain(ChainFault::Loop)),
        b"chain BadIndex" => Some(BlockStep::Chain(ChainFault::BadIndex)),
        b"chain Order" => Some(BlockStep::Chain(ChainFault::Order)),
        b"chain Indirect" => Some(BlockStep::Chain(ChainFault::Indirect)),
        b"chain TooLong" => Some(BlockStep::Chain(ChainFault::TooLong)),
        b"chain Short" => Some(BlockStep::Chain(ChainFault::Short)),
        _ => {
            let (head, len) = finished_of(behind(text, b"finished ")?)?;
            Some(BlockStep::Finished { head, len })
        }
    }
}

/// The outcome that comes seldom and has a number, by its words.
fn numbered_of(text: &[u8]) -> Option<Outcome>
    ensures { IfSome result (λ outcome. outcome_text outcome ≡ text.now) }
{
    tell_behind!(text, rest,
        b"refused " => Some(Outcome::Refused(refusal_of(rest)?)),
        b"invalidated " => Some(Outcome::Invalidated(long_number_of(rest)?)),
        b"closed " => Some(Outcome::Closed(long_number_of(rest)?)),
        b"ignored " => Some(Outcome::NotClosed(long_number_of(rest)?)),
        b"status " => Some(Outcome::Status(u8::try_from(long_number_of(rest)?).ok()?)),
    );
    None
}

/// The outcome that comes seldom, by its words. `none` says of some events that there is no such message.
fn seldom_of(event: &Event, text: &[u8]) -> Option<Outcome>
    ensures { IfSome result (λ outcome. outcome_text outcome ≡ text.now) }
{
    match text {
        b"miss" => Some(Outcome::Miss),
        b"busy" => Some(Outcome::Busy),
        b"badspan" => Some(Outcome::BadSpan),
        b"none" => match event {
            Event::Deliver { .. } | Event::Drop { .. } | Event::Repeat { .. } => {
                Some(Outcome::NoMessage)
            }
            _ => Some(Outcome::NothingInFlight),
        },
        b"free yes" => Some(Outcome::Free(true)),
        b"free no" => Some(Outcome::Free(false)),
        b"timed-out" => Some(Outcome::TimedOut),
        b"no effect" => Some(Outcome::NoEffect),
        b"lost" => Some(Outcome::Lost),
        b"stale" => Some(Outcome::Stale),
        b"refusal" => Some(Outcome::AnswerRefused),
        b"ignored" => Some(Outcome::Ignored),
        b"dropped" => Some(Outcome::Dropped),
        b"repeated" => Some(Outcome::Repeated),
        _ => numbered_of(text),
    }
}

/// Puts the outcome into the place that comes seldom, by its words.
// A call: written into its caller, an outcome would be filled with zeros for each line.
#[inline(never)]
fn put_seldom(place: &mut Outcome, event: &Event, text: &[u8]) -> Option<()>
    ensures { IfSome result (λ put. outcome_text place.new ≡ text.now) }
{
    *place = seldom_of(event, text)?;
    Some(())
}

/// A place that has the outcome.
// A call: written into its caller, each would be filled three times.
#[inline(never)]
fn place(alloc: Global, outcome: Outcome) -> Result<Box<Outcome>, AllocError>
    ensures { IfOk result (λ place. place.value ≡ outcome) }
{
    Ok(Box::new(alloc, outcome)?)
}

impl KeptOutcomes {
    /// Places of which each is of its kind.
    pub fn new(alloc: Global) -> Result<KeptOutcomes, AllocError>
        ensures { IfOk result AreOfKind }
    {
        Ok(KeptOutcomes {
            done: place(alloc, Outcome::Done)?,
            accepted: place(alloc, Outcome::Accepted(0))?,
            read: place(alloc, Outcome::Read(ArrayVec::new()))?,
            wrote: place(alloc, Outcome::Wrote(0))?,
            ticket: place(alloc, Outcome::Ticket(0))?,
            fault: place(alloc, Outcome::Fault(Cause::ReadPageFault))?,
            fetched: place(alloc, Outcome::Fetched(Fetched::Empty))?,
            confirmed: place(
                alloc,
                Outcome::Confirmed {
                    first: 0,
                    last: 0,
                    timed_out: false,
                },
            )?,
            none_confirmed: place(alloc, Outcome::NoneConfirmed { timed_out: false })?,
            bytes: place(alloc, Outcome::Bytes(ArrayVec::new()))?,
            no_record: place(alloc, Outcome::NoRecord)?,
            sent: place(alloc, Outcome::Sent)?,
            kept: place(alloc, Outcome::Kept)?,
            record: place(alloc, Outcome::Record(FaultRecord { words: [0; 4] }))?,
            stepped: place(alloc, Outcome::Stepped(BlockStep::Idle))?,
            answered: place(
                alloc,
                Outcome::Answered(Translation::Refused(Cause::ReadPageFault)),
            )?,
            seldom: place(alloc, Outcome::Ignored)?,
        })
    }

    /// The place of an access that is accepted, with its number told.
    pub(crate) fn accepted(&mut self, number: u64) -> Option<&Outcome>
        ensures { IfSome result (λ outcome. line_of outcome.now ≡ (codes "accepted " ++ decimal number) ++ 10 ∷ []) }
    {
        tell!(self.accepted, Outcome::Accepted(held) => *held = number)
    }

    /// The place of what is done.
    pub(crate) fn done(&mut self) -> Option<&Outcome>
        ensures { IfSome result (λ outcome. line_of outcome.now ≡ codes "ok" ++ 10 ∷ []) }
    {
        tell!(self.done, Outcome::Done => {})
    }

    /// The outcome that the text tells of the event, by its words.
    pub(crate) fn tell(&mut self, event: &Event, text: &[u8]) -> Option<&Outcome>
        // What is read is what the text says.
        ensures { IfSome result (λ outcome. line_of outcome.now ≡ text.now ++ 10 ∷ []) }
    {
        if let [b'b' | b'r' | b'w', ..] = text {
            tell_behind!(text, rest,
                b"read " => tell!(self.read, Outcome::Read(bytes) => tell_bytes(bytes, rest)?),
                b"wrote " => tell!(self.wrote, Outcome::Wrote(len) => *len = long_number_of(rest)?),
                b"bytes " => tell!(self.bytes, Outcome::Bytes(bytes) => tell_bytes(bytes, rest)?),
                b"record" => tell!(self.record, Outcome::Record(taken) => *taken = record_of(rest)?),
            );
        }
        if let [b'c', ..] = text {
            tell_behind!(text, rest,
                b"confirmed -" => tell!(self.none_confirmed, Outcome::NoneConfirmed { timed_out: is } => *is = is_given_up(rest)?),
                b"confirmed " => tell!(self.confirmed, Outcome::Confirmed { first, last, timed_out: is } =>
                    (*first, *last, *is) = tickets_of(rest)?),
            );
        }
        tell_behind!(text, rest,
            b"ticket " => tell!(self.ticket, Outcome::Ticket(ticket) => *ticket = short_number_of(rest)?),
            b"fault " => tell!(self.fault, Outcome::Fault(cause) => *cause = cause_of(rest)?),
            b"answer " => tell!(self.answered, Outcome::Answered(reply) => *reply = translation_of(rest)?),
        );
        if let Some(what) = fetched_of(event, text) {
            return tell!(self.fetched, Outcome::Fetched(fetched) => *fetched = what);
        }
        tell_words!(text,
            b"sent" => self.sent, Outcome::Sent,
            b"kept" => self.kept, Outcome::Kept,
            b"no record" => self.no_record, Outcome::NoRecord,
        );
        if let Some(step) = step_of(text) {
            return tell!(self.stepped, Outcome::Stepped(held) => *held = step);
        }
        put_seldom(&mut self.seldom, event, text)?;
        Some(&self.seldom)
    }
}
