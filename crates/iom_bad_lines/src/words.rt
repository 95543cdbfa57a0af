// The words that stand in forms, and what may stand for them.
use iom_script::words::{address_of, attaching_of, device_of, number_of, right_of};

/// The hexadecimal digits of the most bytes that a line names.
const MOST_DIGITS: usize = 8192;

/// Whether the word is bytes: two digits for each, one at least.
fn is_hex(word: &str) -> bool {
    let digits = word.as_bytes();
    !digits.is_empty()
        && digits.len() % 2 == 0
        && digits.len() <= MOST_DIGITS
        && digits
            .iter()
            .all(|digit| matches!(*digit, b'0'..=b'9' | b'a'..=b'f'))
}

/// Whether so many from this one on are some, and none of them is beyond what 64 bits say.
pub(crate) fn are_some(first: &str, count: &str) -> bool {
    match (number_of(first.as_bytes()), number_of(count.as_bytes())) {
        (Some(first), Some(count)) => count > 0 && first <= u64::MAX - count,
        _ => false,
    }
}

/// Whether the word names pages side by side, as `PAGE+N` does.
fn is_pages(word: &str) -> bool {
    word.split_once('+')
        .is_some_and(|(first, count)| are_some(first, count))
}

/// Whether the word may stand for the one of a form.
pub(crate) fn is_such(word: &str, expected: &str) -> bool {
    match expected {
        "ID" => device_of(word.as_bytes()).is_some(),
        "ADDR" | "DESC" | "AVAIL" | "USED" | "VALUE" => address_of(word.as_bytes()).is_some(),
        "PAGE"
        | "FRAME"
        | "LEN"
        | "SERIAL"
        | "K"
        | "SIZE"
        | "F"
        | "L"
        | "OFFSET"
        | "WIDTH"
        | "T"
        | "SEED"
        | "FIRST"
        | "LAST" => number_of(word.as_bytes()).is_some(),
        "PAGE+N" => is_pages(word),
        "RIGHT" => right_of(word.as_bytes()).is_some(),
        "HEX" => is_hex(word),
        "MODE" => attaching_of(word.as_bytes()).is_some(),
        _ => word == expected,
    }
}
