// A trace with what its answers don't show, as the model tells it.
use std::alloc::{AllocError, Global};

/// Whether the told line is this one, with or without what its answer doesn't show behind it.
fn tells(told: &str, line: &str) -> bool {
    match told.strip_prefix(line) {
        None => false,
        Some(rest) => rest.is_empty() || rest.starts_with("; "),
    }
}

/// Appends the told line where it tells this one, and this one else.
fn push_fuller(lines: &mut String, line: &str, told: &str) -> Result<(), AllocError> {
    if tells(told, line) {
        lines.push_str(told)?;
    } else {
        lines.push_str(line)?;
    }
    lines.push('\n')
}

/// The trace, with each line as it is told that stands at the same place in the told trace too.
pub(crate) fn annotated(alloc: Global, trace: &str, told: &str) -> Result<String, AllocError> {
    let mut lines = String::new(alloc);
    let mut told = told.lines();
    for line in trace.lines() {
        match told.next() {
            Some(fuller) => push_fuller(&mut lines, line, fuller)?,
            None => push_fuller(&mut lines, line, "")?,
        }
    }
    Ok(lines)
}
