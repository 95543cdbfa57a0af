// What is told of a line of a file that isn't in the grammar. The file is read once more for it: a run keeps no line.
use iom_bad_lines::{explain_hardware_line, is_first_spoken, is_past_limit, line_at, wrong_end};
use iom_script::SCRIPT_LIMIT;
use iom_script_reading::read_script;
use std::{fs, str};

/// Tells on standard error what is wrong with the line of the text.
fn explain_text(rt: &HostRuntime, file: &str, text: &str, place: usize) {
    let line = line_at(text, place);
    let is_first = is_first_spoken(text, place);
    if line.starts_with("hardware ") && !is_first {
        let _ = eprintln!(rt;
            "iommu-hw: {file}: line {place}: `hardware` is said once, first of all"
        );
        return;
    }
    let wrong = explain_hardware_line(line, is_first);
    if wrong.found.is_empty() {
        if let Some(end) = wrong_end(text, place) {
            let _ = eprintln!(rt; "iommu-hw: {file}: line {place}: {end}");
            return;
        }
    }
    let (column, found, expected, form) = (wrong.column, wrong.found, wrong.expected, wrong.form);
    let _ = eprintln!(rt;
        "iommu-hw: {file}: line {place}, column {column}: `{found}` stands where {expected} was expected ({form})"
    );
}

/// Tells on standard error that the line goes beyond what a script may have. A live session may be longer: of such a line of it
/// nothing is told.
fn explain_length(rt: &HostRuntime, live: bool, file: &str, place: usize) {
    if !live {
        let _ = eprintln!(rt;
            "iommu-hw: {file}: line {place}: the script is longer than {SCRIPT_LIMIT} bytes"
        );
    }
}

/// Tells on standard error what is wrong with the line of the file, where that can be read again.
pub(crate) fn explain_line(rt: &HostRuntime, live: bool, file: &str, number: u64) {
    let Ok(mut opened) = fs::open(rt, file) else {
        return;
    };
    let Ok(bytes) = read_script(rt.alloc(), &mut opened) else {
        return;
    };
    let place = usize::try_from(number).unwrap_or(usize::MAX);
    match str::from_utf8(&bytes) {
        Ok(text) if is_past_limit(text, place) => explain_length(rt, live, file, place),
        Ok(text) => explain_text(rt, file, text, place),
        Err(_) => {
            let _ = eprintln!(rt; "iommu-hw: {file}: line {place}: it isn't text");
        }
    }
}
