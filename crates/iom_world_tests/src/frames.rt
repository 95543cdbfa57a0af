// The bytes of the frames that are granted, one frame after another.

/// The first frame that is granted; the others follow.
pub(crate) const FIRST_FRAME: u64 = 4;

/// How many frames are granted.
pub(crate) const FRAMES: u64 = 8;

/// Where the byte stands among those of the frames; where the frame isn't one of them, past their end.
pub(crate) fn index_of(frame: u64, offset: u64) -> usize {
    frame
        .wrapping_sub(FIRST_FRAME)
        .wrapping_mul(4096)
        .wrapping_add(offset) as usize
}

/// So many bytes are those of the word, again and again.
pub(crate) fn write(bytes: &mut [u8], first: usize, len: u64, word: u64) {
    let given = word.to_le_bytes();
    for at in 0..len {
        if let Some(byte) = bytes.get_mut(first.wrapping_add(at as usize)) {
            *byte = given[(at % 8) as usize];
        }
    }
}

/// So many bytes are those that stand there now, whatever they are.
pub(crate) fn take_over(bytes: &mut [u8], now: &[u8], first: usize, len: u64) {
    for at in 0..len {
        let place = first.wrapping_add(at as usize);
        if let (Some(byte), Some(new)) = (bytes.get_mut(place), now.get(place)) {
            *byte = *new;
        }
    }
}

/// Whether these are the bytes that stand there.
pub(crate) fn gives(bytes: &[u8], first: usize, given: &[u8]) -> bool {
    for at in 0..given.len() {
        if bytes.get(first.wrapping_add(at)) != Some(&given[at]) {
            return false;
        }
    }
    true
}
