use crate::fault::{Fault, Why};
use std::alloc::{AllocError, Global};

/// The bytes with blanks in place of each comment, `(* .. *)`: line feeds stay, so lines keep their numbers.
pub(crate) fn without_comments(alloc: Global, bytes: &[u8]) -> Result<Vec<u8>, Fault> {
    let mut text = Vec::new(alloc);
    let mut is_comment = false;
    let mut previous = b' ';
    for byte in bytes {
        let mut next = *byte;
        if is_comment {
            if previous == b'*' && next == b')' {
                is_comment = false;
                next = b' ';
            }
            text.push(if *byte == b'\n' { b'\n' } else { b' ' })
                .map_err(AllocError::from)?;
        } else if previous == b'(' && next == b'*' {
            is_comment = true;
            next = b' ';
            text.pop();
            text.extend_from_slice(b"  ")?;
        } else {
            text.push(next).map_err(AllocError::from)?;
        }
        previous = next;
    }
    if is_comment {
        return Err(Fault::Because(Why::OpenComment));
    }
    Ok(text)
}
