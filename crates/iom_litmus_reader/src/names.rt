//! Names of columns and labels, and what they stand for.
use iom_base::{AccessKind, DeviceId, Sequence};
use iom_litmus_test::{Cell, Column, Glob, GlobPart, Observable, Reach, Spot};
use std::alloc::{AllocError, Global};

/// A copy of the text.
pub(crate) fn copied(alloc: Global, text: &str) -> Result<Sequence<u8>, AllocError> {
    Ok(Sequence::from_vec(Vec::from_slice(alloc, text.as_bytes())?))
}

/// The glob that a text says: `*` stands for anything.
pub(crate) fn glob_of(alloc: Global, text: &str) -> Result<Glob, AllocError> {
    let mut parts = Sequence::new(alloc);
    for byte in text.as_bytes() {
        let part = match *byte {
            b'*' => GlobPart::Anything,
            other => GlobPart::Byte(other),
        };
        parts.push(part)?;
    }
    Ok(Glob { parts })
}

/// Whether it is a label: a letter, and letters and digits behind it.
pub(crate) fn is_label(text: &str) -> bool {
    let [first, rest @ ..] = text.as_bytes() else {
        return false;
    };
    for byte in rest {
        if !byte.is_ascii_lowercase() && !byte.is_ascii_digit() {
            return false;
        }
    }
    first.is_ascii_lowercase()
}

/// The place of the cell with this label.
pub(crate) fn cell_with(cells: &[Cell], label: &str) -> Option<usize> {
    for (place, cell) in cells.iter().enumerate() {
        if let Some(own) = &cell.label {
            if own.as_slice() == label.as_bytes() {
                return Some(place);
            }
        }
    }
    None
}

/// The place of the column with this name.
fn column_of(columns: &[Column], name: &str) -> Option<usize> {
    for (place, column) in columns.iter().enumerate() {
        if column.name.as_slice() == name.as_bytes() {
            return Some(place);
        }
    }
    None
}

/// The cell of `COL:LABEL`.
fn spot_of(columns: &[Column], text: &str) -> Option<Spot> {
    let (name, label) = text.trim().split_once(':')?;
    let column = column_of(columns, name)?;
    let cell = cell_with(columns.get(column)?.cells.as_slice(), label)?;
    Some(Spot { column, cell })
}

/// `ID FRAME`, and `after COL:LABEL` behind it.
fn reach_of(columns: &[Column], kind: Option<AccessKind>, text: &str) -> Option<Observable> {
    let (access, after) = match text.split_once(" after ") {
        Some((access, spot)) => (access, Some(spot_of(columns, spot)?)),
        None => (text, None),
    };
    let (device, frame) = access.trim().split_once(' ')?;
    let device = DeviceId::from_str_radix(device, 16).ok()?;
    let frame = frame.trim().parse::<u64>().ok()?;
    Some(Observable::Touched(Reach {
        device,
        frame,
        kind,
        after,
    }))
}

/// `ADDR]`, and how many bytes from there on.
fn memory_of(text: &str, digits: usize) -> Option<Observable> {
    let (address, _) = text.split_once(']')?;
    let address = u64::from_str_radix(address.strip_prefix("0x")?, 16).ok()?;
    Some(Observable::Memory {
        address,
        length: digits / 2,
    })
}

/// What an atom looks at, without the text that is wanted.
pub(crate) fn observable_of(columns: &[Column], text: &str, digits: usize) -> Option<Observable> {
    if let Some(rest) = text.strip_prefix("touch ") {
        return reach_of(columns, None, rest);
    }
    if let Some(rest) = text.strip_prefix("read ") {
        return reach_of(columns, Some(AccessKind::Read), rest);
    }
    if let Some(rest) = text.strip_prefix("write ") {
        return reach_of(columns, Some(AccessKind::Write), rest);
    }
    if let Some(rest) = text.strip_prefix('[') {
        return memory_of(rest, digits);
    }
    if let Some(name) = text.strip_prefix("stuck ") {
        return Some(Observable::Stuck {
            column: column_of(columns, name.trim())?,
        });
    }
    if let Some((first, then)) = text.split_once(" before ") {
        return Some(Observable::Before {
            first: spot_of(columns, first)?,
            then: spot_of(columns, then)?,
        });
    }
    match text {
        "wrong" => Some(Observable::Wrong),
        "violated" => Some(Observable::Violated),
        _ => Some(Observable::Answer(spot_of(columns, text)?)),
    }
}
