// Since when pointers to tables are cached.
use crate::levels::{Stage, Tables};
use crate::since::Since;
use iom_pointers::{MAX_POINTERS, Pointer};
use iom_tlb::Space;
use std::alloc::{AllocError, Global};
use std::mem;

/// The pointers that hardware caches, each since which line.
#[derive(Drop)]
pub(crate) struct PointerLines {
    pub(crate) kept: Vec<Since<Pointer>>,
    /// Those that were there before.
    before: Vec<Since<Pointer>>,
}

/// The tables from there on, where walks know leaves of 64 KiB, or don't.
pub(crate) fn tables_at(pointer: &Pointer, napot: bool) -> Tables {
    Tables {
        stage: Stage::First,
        root: pointer.table.number(),
        levels: pointer.level as usize + 1,
        napot,
    }
}

/// Since when the pointer is among these.
fn since_in(known: &[Since<Pointer>], pointer: Pointer) -> Option<u64> {
    for own in known {
        if own.what == pointer {
            return Some(own.line);
        }
    }
    None
}

impl PointerLines {
    /// None is cached.
    pub(crate) fn new(alloc: Global) -> Result<PointerLines, AllocError> {
        Ok(PointerLines {
            kept: Vec::with_capacity(alloc, MAX_POINTERS)?,
            before: Vec::with_capacity(alloc, MAX_POINTERS)?,
        })
    }

    /// Whether these are known, in this order.
    fn are(&self, pointers: &[Pointer]) -> bool {
        if self.kept.len() != pointers.len() {
            return false;
        }
        for place in 0..pointers.len() {
            match self.kept.get(place) {
                Some(known) if known.what == pointers[place] => {}
                _ => return false,
            }
        }
        true
    }

    /// These are cached now: what is new is since this line.
    pub(crate) fn notice(&mut self, pointers: &[Pointer], line: u64) {
        if self.are(pointers) {
            return;
        }
        mem::swap(&mut self.kept, &mut self.before);
        self.kept.clear();
        for pointer in pointers {
            let since = since_in(&self.before, *pointer).unwrap_or(line);
            let known = Since {
                what: *pointer,
                line: since,
            };
            if self.kept.push(known).is_err() {
                return;
            }
        }
    }

    /// The one at which a walk to the page of the space begins: of the lowest level.
    pub(crate) fn deepest(&self, space: Space, page: u64) -> Option<Since<Pointer>> {
        let mut deepest: Option<Since<Pointer>> = None;
        for own in self.kept.iter() {
            if own.what.is_for(space, page) && is_lower(own, &deepest) {
                deepest = Some(*own);
            }
        }
        deepest
    }
}

/// Whether the table of the one stands lower than that of the other, if there is one.
fn is_lower(own: &Since<Pointer>, other: &Option<Since<Pointer>>) -> bool {
    match other {
        Some(found) => own.what.level < found.what.level,
        None => true,
    }
}
