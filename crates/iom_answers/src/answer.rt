ghost use Rattle.std.specs.Prelude.{◌≡◌};
ghost use Rattle.iom_answers.specs.Answers.{outcome_of};

use crate::lent::{Lent, lent_of};
use iom_base::{Cause, Refusal};
use iom_fabric::Translation;
use iom_machine::{BlockStep, FaultRecord, Fetched, Outcome};

/// What comes of an event: an outcome ([`Outcome`]), but that what is large is lent from where it stands.
// The order of fields is such that those of all kinds share their places: it is made and looked at for each event.
#[derive(Clone, Copy)]
pub enum Answer<'a> {
    Done,
    Refused(Refusal),
    Ticket(u32),
    Confirmed {
        timed_out: bool,
        first: u32,
        last: u32,
    },
    NoneConfirmed {
        timed_out: bool,
    },
    Record(&'a FaultRecord),
    NoRecord,
    Fetched(Fetched),
    TimedOut,
    NoEffect,
    Accepted(u64),
    Busy,
    BadSpan,
    Fault(Cause),
    Miss,
    Sent,
    Lost,
    Answered(Translation),
    Kept,
    Stale,
    AnswerRefused,
    Ignored,
    Invalidated(u64),
    Closed(u64),
    NotClosed(u64),
    Dropped,
    Repeated,
    NoMessage,
    /// A read was made, and gave these bytes.
    Read(Lent<'a>),
    Wrote(u64),
    NothingInFlight,
    /// The processor read these bytes.
    Bytes(Lent<'a>),
    Free(bool),
    Stepped(BlockStep),
    Status(u8),
}

impl<'a> Answer<'a> {
    /// The outcome, with the bytes lent.
    pub fn of(outcome: &'a Outcome) -> Answer<'a>
        ensures { outcome_of result ≡ outcome.now }
    {
        match outcome {
            Outcome::Done => Answer::Done,
            Outcome::Refused(why) => Answer::Refused(*why),
            Outcome::Ticket(ticket) => Answer::Ticket(*ticket),
            Outcome::Confirmed {
                first,
                last,
                timed_out,
            } => Answer::Confirmed {
                first: *first,
                last: *last,
                timed_out: *timed_out,
            },
            Outcome::NoneConfirmed { timed_out } => Answer::NoneConfirmed {
                timed_out: *timed_out,
            },
            Outcome::Record(record) => Answer::Record(record),
            Outcome::NoRecord => Answer::NoRecord,
            Outcome::Fetched(fetched) => Answer::Fetched(*fetched),
            Outcome::TimedOut => Answer::TimedOut,
            Outcome::NoEffect => Answer::NoEffect,
            Outcome::Accepted(number) => Answer::Accepted(*number),
            Outcome::Busy => Answer::Busy,
            Outcome::BadSpan => Answer::BadSpan,
            Outcome::Fault(cause) => Answer::Fault(*cause),
            Outcome::Miss => Answer::Miss,
            Outcome::Sent => Answer::Sent,
            Outcome::Lost => Answer::Lost,
            Outcome::Answered(translation) => Answer::Answered(*translation),
            Outcome::Kept => Answer::Kept,
            Outcome::Stale => Answer::Stale,
            Outcome::AnswerRefused => Answer::AnswerRefused,
            Outcome::Ignored => Answer::Ignored,
            Outcome::Invalidated(serial) => Answer::Invalidated(*serial),
            Outcome::Closed(serial) => Answer::Closed(*serial),
            Outcome::NotClosed(serial) => Answer::NotClosed(*serial),
            Outcome::Dropped => Answer::Dropped,
            Outcome::Repeated => Answer::Repeated,
            Outcome::NoMessage => Answer::NoMessage,
            Outcome::Read(bytes) => Answer::Read(lent_of(bytes)),
            Outcome::Wrote(count) => Answer::Wrote(*count),
            Outcome::NothingInFlight => Answer::NothingInFlight,
            Outcome::Bytes(bytes) => Answer::Bytes(lent_of(bytes)),
            Outcome::Free(is_free) => Answer::Free(*is_free),
            Outcome::Stepped(step) => Answer::Stepped(*step),
            Outcome::Status(status) => Answer::Status(*status),
        }
    }

    /// The outcome that says the same. Each call writes a page.
    #[inline(never)]
    pub fn outcome(self) -> Outcome
        ensures { result ≡ outcome_of self.entry }
    {
        match self {
            Answer::Done => Outcome::Done,
            Answer::Refused(why) => Outcome::Refused(why),
            Answer::Ticket(ticket) => Outcome::Ticket(ticket),
            Answer::Confirmed {
                first,
                last,
                timed_out,
            } => Outcome::Confirmed {
                first,
                last,
                timed_out,
            },
            Answer::NoneConfirmed { timed_out } => Outcome::NoneConfirmed { timed_out },
            Answer::Record(record) => Outcome::Record(*record),
            Answer::NoRecord => Outcome::NoRecord,
            Answer::Fetched(fetched) => Outcome::Fetched(fetched),
            Answer::TimedOut => Outcome::TimedOut,
            Answer::NoEffect => Outcome::NoEffect,
            Answer::Accepted(number) => Outcome::Accepted(number),
            Answer::Busy => Outcome::Busy,
            Answer::BadSpan => Outcome::BadSpan,
            Answer::Fault(cause) => Outcome::Fault(cause),
            Answer::Miss => Outcome::Miss,
            Answer::Sent => Outcome::Sent,
            Answer::Lost => Outcome::Lost,
            Answer::Answered(translation) => Outcome::Answered(translation),
            Answer::Kept => Outcome::Kept,
            Answer::Stale => Outcome::Stale,
            Answer::AnswerRefused => Outcome::AnswerRefused,
            Answer::Ignored => Outcome::Ignored,
            Answer::Invalidated(serial) => Outcome::Invalidated(serial),
            Answer::Closed(serial) => Outcome::Closed(serial),
            Answer::NotClosed(serial) => Outcome::NotClosed(serial),
            Answer::Dropped => Outcome::Dropped,
            Answer::Repeated => Outcome::Repeated,
            Answer::NoMessage => Outcome::NoMessage,
            Answer::Read(lent) => lent.read(),
            Answer::Wrote(count) => Outcome::Wrote(count),
            Answer::NothingInFlight => Outcome::NothingInFlight,
            Answer::Bytes(lent) => lent.loaded(),
            Answer::Free(is_free) => Outcome::Free(is_free),
            Answer::Stepped(step) => Outcome::Stepped(step),
            Answer::Status(status) => Outcome::Status(status),
        }
    }
}
