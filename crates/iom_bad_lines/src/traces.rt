// What is wrong with a line that isn't in the grammar of traces.
use crate::forms::{EVENTS, SCRIPT_FORMS, TRACE_FIRST, TRACE_FORMS};
use crate::limits::wrong_number;
use crate::places::{END, WrongPlace, at_start, closest, form_of};
use iom_script::words::number_of;

/// What stands between the two parts of a line.
const ARROW: &str = " => ";

/// What is expected behind the first.
const ANSWER: &str = "` => ` and an answer";

/// What may be answered to releases of pages side by side, and to an event.
const TICKET: &str = "`ticket T`";

const ANY: &str = "an answer to that";

/// Behind the last word of a form no line ends, but its answer begins.
fn before_answer(place: WrongPlace<'_>) -> WrongPlace<'_> {
    if place.expected != END {
        return place;
    }
    WrongPlace {
        expected: ANSWER,
        ..place
    }
}

/// The form, which the line has, unless a number goes beyond what it may say.
fn within_limits<'a>(said: &'a str, form: &'static str) -> Result<&'static str, WrongPlace<'a>> {
    match wrong_number(said, form) {
        Some(place) => Err(place),
        None => Ok(form),
    }
}

/// The form of the first line that says something, before its answer; or where that is wrong.
fn first_form(said: &str) -> Result<&'static str, WrongPlace<'_>> {
    match form_of(said, &TRACE_FIRST) {
        Some(form) => within_limits(said, form),
        None => {
            let start = at_start(said, "world", "world F L");
            Err(before_answer(closest(said, &TRACE_FIRST, start)))
        }
    }
}

/// Where a line leaves the forms of those behind the first, before its answer.
fn wrong_event(said: &str) -> WrongPlace<'_> {
    let start = at_start(
        said,
        "the name of an event",
        "docs/JUDGE.md has the lines of a trace",
    );
    match start.found {
        "world" => WrongPlace {
            form: "the first line alone says how large the world is",
            ..start
        },
        _ => {
            let best = closest(said, &SCRIPT_FORMS[..EVENTS], start);
            before_answer(closest(said, &TRACE_FORMS, best))
        }
    }
}

/// The form of another line, before its answer; or where that is wrong.
fn other_form(said: &str) -> Result<&'static str, WrongPlace<'_>> {
    let event = form_of(said, &SCRIPT_FORMS[..EVENTS]);
    match event.or(form_of(said, &TRACE_FORMS)) {
        Some(form) => within_limits(said, form),
        None => Err(wrong_event(said)),
    }
}

/// What may be answered to lines of this form.
fn answer_to(form: &str) -> &'static str {
    match form {
        "release ID PAGE+N" => TICKET,
        _ if TRACE_FIRST.contains(&form) || TRACE_FORMS.contains(&form) => "`ok`",
        _ => ANY,
    }
}

/// Whether it is answered that an access is accepted.
fn is_accepted(answer: &str) -> bool {
    let number = answer.strip_prefix("accepted ");
    number.is_some_and(|number| number_of(number.as_bytes()).is_some())
}

/// What may stand behind the answer, where that is seen to be one to a line of this form.
fn behind_answer(form: &str, answer: &str) -> Option<&'static str> {
    let takes_tables = form.starts_with("attach ") || form.starts_with("grant ");
    match answer_to(form) {
        TICKET => None,
        _ if answer == "ok" && takes_tables => Some("`tables F F ..`"),
        _ if answer == "ok" => Some("the end of the line"),
        ANY if is_accepted(answer) && form == "step ID" => {
            Some("`on F`, or the line of an access of that device,")
        }
        ANY if is_accepted(answer) => Some("`on F`"),
        _ => None,
    }
}

/// What is wrong with the answer to a line of this form, which begins at the column.
fn wrong_answer<'a>(form: &'static str, column: usize, answered: &'a str) -> WrongPlace<'a> {
    if let Some((answer, behind)) = answered.split_once("; ") {
        if let Some(expected) = behind_answer(form, answer) {
            let column = column.saturating_add(answer.len()).saturating_add(2);
            return WrongPlace::new(column, behind, expected, form);
        }
    }
    WrongPlace::new(column, answered, answer_to(form), form)
}

/// What is wrong with the line, which isn't in the grammar of traces: with what it says happened, or else with what it says was
/// answered. The first line that says something says how large the world is.
pub fn explain_trace_line(line: &str, is_first: bool) -> WrongPlace<'_> {
    let (said, answered) = match line.split_once(ARROW) {
        None => (line, None),
        Some((said, answered)) => (said, Some(answered)),
    };
    let form = if is_first {
        first_form(said)
    } else {
        other_form(said)
    };
    let behind = said.len().saturating_add(1);
    match (form, answered) {
        (Err(place), _) => place,
        (Ok(form), None) => WrongPlace::new(behind, "", ANSWER, form),
        (Ok(form), Some(text)) => wrong_answer(form, behind.saturating_add(ARROW.len()), text),
    }
}
