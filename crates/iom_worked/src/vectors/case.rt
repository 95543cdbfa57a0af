use iom_base::{AccessKind, Cause, DeviceId};
use iom_phys_mem::{Bytes, Memory};

/// What is told of a fault: its cause, and the fourth word of its record (IOMMU specification, section 3.2).
#[derive(Clone, Copy)]
pub(crate) struct Told {
    pub(crate) cause: Cause,
    pub(crate) iotval2: u64,
}

/// Where the access of a case leads: to this address of memory, or to a fault.
pub(crate) type Answer = Result<u64, Told>;

/// A translation, and the answer that is wanted.
#[derive(Clone, Copy)]
pub(crate) struct Case<'a> {
    pub(crate) ddtp: u64,
    pub(crate) device: DeviceId,
    pub(crate) address: u64,
    pub(crate) kind: AccessKind,
    words: &'a str,
    want: &'a str,
}

fn hex(text: &str) -> Option<u64> {
    let digits = match text.strip_prefix("0x") {
        Some(rest) => rest,
        None => text,
    };
    u64::from_str_radix(digits, 16).ok()
}

fn kind_of(letter: &str) -> Option<AccessKind> {
    match letter {
        "r" => Some(AccessKind::Read),
        "w" => Some(AccessKind::Write),
        _ => None,
    }
}

/// Whether the fault is that of `C iotval2 Y`; None where the text has another form.
fn is_fault(told: Told, text: &str) -> Option<bool> {
    let (code, word) = text.split_once(" iotval2 ")?;
    let code = u16::from_str_radix(code, 10).ok()?;
    Some(code == told.cause.code() && hex(word)? == told.iotval2)
}

/// The case of a line; None where it isn't one.
pub(crate) fn parse(line: &str) -> Option<Case<'_>> {
    let mut columns = line.split('\t');
    let _group = columns.next()?;
    let _name = columns.next()?;
    Some(Case {
        ddtp: hex(columns.next()?)?,
        device: u32::from_str_radix(columns.next()?, 16).ok()?,
        address: hex(columns.next()?)?,
        kind: kind_of(columns.next()?)?,
        words: columns.next()?,
        want: columns.next()?,
    })
}

/// Stores the case's words, of which there may be none; with `clear` zero in place of each.
pub(crate) fn store_words(memory: &mut Memory, case: Case<'_>, clear: bool) -> Option<()> {
    if case.words.is_empty() {
        return Some(());
    }
    for word in case.words.split(',') {
        let (address, value) = word.split_once('=')?;
        let value = if clear { 0 } else { hex(value)? };
        memory.store_u64(hex(address)?, value)?;
    }
    Some(())
}

/// Whether this is what is wanted: `at X`, or `cause C iotval2 Y`.
pub(crate) fn is_wanted(answer: Answer, case: Case<'_>) -> bool {
    match answer {
        Ok(place) => match case.want.strip_prefix("at ") {
            Some(wanted) => hex(wanted) == Some(place),
            None => false,
        },
        Err(told) => match case.want.strip_prefix("cause ") {
            Some(text) => is_fault(told, text) == Some(true),
            None => false,
        },
    }
}
