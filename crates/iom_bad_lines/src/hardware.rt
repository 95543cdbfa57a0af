// What is wrong with a line that isn't in the grammar of drivers under test.
use crate::forms::{HARDWARE_FIRST, HARDWARE_FORMS};
use crate::places::{WrongPlace, at_start, explain_by};

/// Where a line of a driver's script leaves the one of its forms with which it agrees for longest: of the first line that says
/// something those that begin a script, of any other the rest.
pub fn explain_hardware_line(line: &str, is_first: bool) -> WrongPlace<'_> {
    if is_first {
        let start = at_start(line, "hardware", "hardware F");
        return explain_by(line, &HARDWARE_FIRST, start);
    }
    let start = at_start(line, "the name of an event", "docs/DRIVER.md has the names");
    explain_by(line, &HARDWARE_FORMS, start)
}
