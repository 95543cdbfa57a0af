// Where a line leaves the forms that lines have.
use crate::limits::wrong_number;
use crate::words::is_such;

/// What is expected behind the last word of a form.
pub(crate) const END: &str = "the end of the line, or a number within its limits";

/// Where a line leaves its form.
#[derive(Clone, Copy, Debug)]
pub struct WrongPlace<'a> {
    /// The byte at which that begins, counted from 1.
    pub column: usize,
    /// The word that stands there; none at the end of the line.
    pub found: &'a str,
    /// What was expected there.
    pub expected: &'static str,
    /// The whole form.
    pub form: &'static str,
}

impl<'a> WrongPlace<'a> {
    pub(crate) fn new(
        column: usize,
        found: &'a str,
        expected: &'static str,
        form: &'static str,
    ) -> WrongPlace<'a> {
        WrongPlace {
            column,
            found,
            expected,
            form,
        }
    }
}

/// The line goes wrong with its first word.
pub(crate) fn at_start<'a>(
    line: &'a str,
    expected: &'static str,
    form: &'static str,
) -> WrongPlace<'a> {
    WrongPlace::new(1, line.split(' ').next().unwrap_or(""), expected, form)
}

/// Where the line leaves the form. One that ends with `..` goes on with frames.
fn compare_with<'a>(line: &'a str, form: &'static str) -> WrongPlace<'a> {
    let (said, beyond) = match form.strip_suffix(" ..") {
        None => (form, END),
        Some(said) => (said, "FRAME"),
    };
    let mut column: usize = 1;
    let mut words = said.split(' ');
    for found in line.split(' ') {
        let expected = words.next().unwrap_or(beyond);
        if !is_such(found, expected) {
            return WrongPlace::new(column, found, expected, form);
        }
        column = column.saturating_add(found.len()).saturating_add(1);
    }
    WrongPlace::new(column, "", words.next().unwrap_or(END), form)
}

/// The first of the forms that the line has: it has a word for each of that form, and no other, so it leaves it behind its end alone.
pub(crate) fn form_of(line: &str, forms: &[&'static str]) -> Option<&'static str> {
    for form in forms {
        let place = compare_with(line, form);
        if place.expected == END && place.column > line.len().saturating_add(1) {
            return Some(*form);
        }
    }
    None
}

/// Where the line leaves the one of these forms with which it agrees for longest, if it agrees for longer than up to there.
pub(crate) fn closest<'a>(
    line: &'a str,
    forms: &[&'static str],
    there: WrongPlace<'a>,
) -> WrongPlace<'a> {
    let mut best = there;
    for form in forms {
        let other = compare_with(line, form);
        // pages side by side were meant
        let is_pages = other.expected == "PAGE+N" && other.found.contains('+');
        if other.column > best.column || (other.column == best.column && is_pages) {
            best = other;
        }
    }
    best
}

/// Where the line, which has one of these forms, says a number beyond its limits; or where it leaves the one with which it agrees
/// for longest, or the place that is told.
pub(crate) fn explain_by<'a>(
    line: &'a str,
    forms: &[&'static str],
    there: WrongPlace<'a>,
) -> WrongPlace<'a> {
    if let Some(form) = form_of(line, forms) {
        if let Some(place) = wrong_number(line, form) {
            return place;
        }
    }
    closest(line, forms, there)
}
