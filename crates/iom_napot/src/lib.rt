//! Entries of page tables, where walks know leaves of 64 KiB: Svnapot, a leaf of which the N bit is set (RISC-V Privileged
//! Architecture, "Svnapot Standard Extension for NAPOT Translation Contiguity").
//!
//! Sixteen entries that follow one another have one and the same word: its page number ends in 1000, and stands for the
//! sixteen pages that begin where these four bits are 0. [`entry_in`] reads an entry so: a leaf with N is one of 4 KiB, of
//! the page that the entry's own place in its table names, and has order 4 (2^4 pages come from one leaf). It is known at
//! the last level alone; elsewhere, and in each other form, N is reserved, and the entry invalid. The layers above may rely on
//! this: without Svnapot an entry is what `iom_stage_walk` reads there.
#![tactic(auto)]

mod entry;

pub use entry::{SizedEntry, entry_in};
