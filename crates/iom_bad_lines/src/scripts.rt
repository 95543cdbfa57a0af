// What is wrong with a line that isn't in the grammar of scripts.
use crate::forms::{FIRST, SCRIPT_FORMS};
use crate::places::{WrongPlace, at_start, explain_by};

/// Where a line of a script leaves the one of its forms with which it agrees for longest: of the first line that says something
/// the one that begins a script, of any other the rest.
pub fn explain_script_line(line: &str, is_first: bool) -> WrongPlace<'_> {
    if is_first {
        let start = at_start(line, "world", "world F L");
        return explain_by(line, &FIRST, start);
    }
    let start = at_start(
        line,
        "the name of an event",
        "docs/LANGUAGE.md has the names",
    );
    explain_by(line, &SCRIPT_FORMS, start)
}
