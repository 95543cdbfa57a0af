// The lines at which the words of memory were stored.
use iom_base::{ENTRY_SIZE, TABLE_ENTRIES};
use std::alloc::{AllocError, Global};

/// For each word of eight bytes the line at which a byte of it was stored last; 0 where none was.
#[derive(Drop)]
pub(crate) struct WordLines {
    lines: Vec<u64>,
}

impl WordLines {
    /// Of a memory of so many frames, in which nothing was stored.
    pub(crate) fn new(alloc: Global, frames: u32) -> Result<WordLines, AllocError> {
        let count = u64::from(frames) * TABLE_ENTRIES;
        let mut lines = Vec::with_capacity(alloc, count as usize)?;
        for made in 0..count {
            lines.push(0)?;
        }
        Ok(WordLines { lines })
    }

    /// So many bytes from the address on are stored at this line; what is outside memory isn't.
    pub(crate) fn store(&mut self, address: u64, len: u64, line: u64) {
        if len == 0 {
            return;
        }
        let last = address.saturating_add(len - 1) / ENTRY_SIZE;
        let first = (address / ENTRY_SIZE) as usize;
        let end = (last as usize + 1).min(self.lines.len());
        for word in first..end {
            if let Some(stored) = self.lines.get_mut(word) {
                *stored = line;
            }
        }
    }

    /// The line of the word in which the byte at the address is.
    pub(crate) fn at(&self, address: u64) -> u64 {
        match self.lines.get((address / ENTRY_SIZE) as usize) {
            Some(line) => *line,
            None => 0,
        }
    }
}
