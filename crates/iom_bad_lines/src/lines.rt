// Lines of a text, by their numbers, which are counted from 1.
use iom_script::{SCRIPT_LIMIT, is_spoken};

/// The line. Empty where there are fewer.
pub fn line_at(text: &str, place: usize) -> &str {
    text.lines().nth(place.saturating_sub(1)).unwrap_or("")
}

/// Whether the line is the first that says something, of these lines up to it.
pub fn is_first_spoken(text: &str, place: usize) -> bool {
    let before = text.lines().take(place.saturating_sub(1));
    !before.into_iter().any(|line| is_spoken(line.as_bytes()))
}

/// Whether the line goes beyond the bytes that a script may have.
pub fn is_past_limit(text: &str, place: usize) -> bool {
    let mut end: usize = 0;
    for line in text.split('\n').take(place) {
        end = end.saturating_add(line.len()).saturating_add(1);
    }
    end > SCRIPT_LIMIT
}

/// What is wrong with how the line ends, if anything is. A line ends with a line feed alone.
pub fn wrong_end(text: &str, place: usize) -> Option<&'static str> {
    let line = text.split('\n').nth(place.saturating_sub(1))?;
    if line.ends_with('\r') {
        return Some("it ends with a carriage return");
    }
    if text.split('\n').count() == place {
        return Some("it ends without a line feed");
    }
    None
}
