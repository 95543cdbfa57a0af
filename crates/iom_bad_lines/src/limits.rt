// Numbers beyond what a line may say, though it has the form of one.
use crate::places::WrongPlace;
use crate::words::are_some;
use iom_script::words::{number_of, page_of};

/// Whether the word is a number between these, or one of them.
fn is_between(word: &str, least: u64, most: u64) -> bool {
    number_of(word.as_bytes()).is_some_and(|number| least <= number && number <= most)
}

/// The most frames of which a first line of this form may speak, and what is expected there.
fn most_frames(form: &str) -> (u64, &'static str) {
    match form {
        "world F L unlimited" => (1 << 40, "a number from 64 to 1,099,511,627,776"),
        _ => (4096, "a number from 64 to 4,096"),
    }
}

/// Where a first line, which has this form, says a size that can't be.
fn wrong_size<'a>(line: &'a str, form: &'static str) -> Option<WrongPlace<'a>> {
    let mut words = line.split(' ');
    let name = words.next().unwrap_or("");
    let frames = words.next().unwrap_or("");
    let levels = words.next().unwrap_or("");
    let column = name.len().saturating_add(2);
    let (most, expected) = most_frames(form);
    if !is_between(frames, 64, most) {
        return Some(WrongPlace::new(column, frames, expected, form));
    }
    if name == "world" && !is_between(levels, 1, 3) {
        let column = column.saturating_add(frames.len()).saturating_add(1);
        return Some(WrongPlace::new(column, levels, "a number from 1 to 3", form));
    }
    None
}

/// Where a line, which has this form, says a number beyond what it may say. None where none is known to be.
pub(crate) fn wrong_number<'a>(line: &'a str, form: &'static str) -> Option<WrongPlace<'a>> {
    let mut words = line.split(' ').skip(2);
    let pages = words.next().unwrap_or("");
    let frame = words.next().unwrap_or("");
    let count = pages.split('+').nth(1).unwrap_or("");
    match form {
        "ask ID PAGE" if page_of(pages.as_bytes()).is_none() => {
            let expected = "a number below 4,503,599,627,370,496";
            Some(WrongPlace::new(12, pages, expected, form))
        }
        "grant ID PAGE+N FRAME RIGHT" if !are_some(frame, count) => {
            let column = pages.len().saturating_add(15);
            let expected = "the first of N frames below 2^64";
            Some(WrongPlace::new(column, frame, expected, form))
        }
        _ if form.starts_with("world F") || form.starts_with("hardware F") => wrong_size(
            line, form,
        ),
        _ => None,
    }
}
