//! Sets of numbers, a bit for each in words of 64.
ghost use Rattle.std.specs.Prelude.{◌≡◌, ◌↔◌, ◌+◌, ◌-◌, ◌*◌, ◌/◌, ◌^◌, ◌<◌, ◌≤◌, ℕ, IsTrue, OnOk, MatchOption, length, max};
ghost use Rattle.iom_frame_set.specs.Sets.{nth_word, has, room, IsEmpty, HasEachFrame, InsertsFrame, RemovesFrame, common_below};
ghost use Rattle.iom_frame_set.specs.Spans.{KeepsWords, KeepsOtherWords, NoneIsInBoth, IsHighestInBoth};

use crate::bits::{BITS, highest_bit, ones_below, with_bit, without_bit};
use std::alloc::{AllocError, Global};
use std::marker::Model;

/// A set of numbers: the words that are kept, and the word that stands for each beyond them.
#[derive(Drop)]
pub(crate) struct NumberSet {
    words: Vec<u64>,
    beyond: u64,
}

impl Model for NumberSet {
    ghost use Rattle.iom_frame_set.specs.Sets.{Words};

    ghost Value = { Words };

    ghost view = { λ s. record { kept = s.words.items; beyond = s.beyond } };
}

impl NumberSet {
    /// The set of no numbers. Takes no memory.
    pub(crate) fn empty(alloc: Global) -> NumberSet
        ensures empty { IsEmpty result }
        ensures zero { (i : ℕ) → nth_word result i ≡ 0 }
        ensures room { length result.kept ≡ 0 }
    {
        NumberSet {
            words: Vec::new(alloc),
            beyond: 0,
        }
    }

    /// The set of all numbers. Takes no memory.
    pub(crate) fn full(alloc: Global) -> NumberSet
        ensures full { HasEachFrame result }
        ensures ones { (i : ℕ) → nth_word result i ≡ 2 ^ 64 - 1 }
        ensures room { length result.kept ≡ 0 }
    {
        NumberSet {
            words: Vec::new(alloc),
            beyond: u64::MAX,
        }
    }

    /// Makes room for the number and those below it. Where that is refused, the same numbers are in the
    /// set.
    pub(crate) fn make_room(&mut self, number: u32) -> Result<(), AllocError>
        ensures within { OnOk result (number < room self.new) }
        ensures grows { length self.old.kept ≤ length self.new.kept }
        ensures no_further { length self.new.kept ≤ max (length self.old.kept) (number / 64 + 1) }
        ensures same { KeepsWords self.old self.new }
    {
        for counted in self.words.len()..(number / BITS) as usize + 1 {
            self.words.push(self.beyond)?;
        }
        Ok(())
    }

    /// Puts the number into the set.
    pub(crate) fn insert(&mut self, number: u32)
        requires { number < room self.old }
        ensures inserted { InsertsFrame self.old self.new number }
        ensures others { KeepsOtherWords self.old self.new (number / 64) }
        ensures length { length self.new.kept ≡ length self.old.kept }
    {
        let index = (number / BITS) as usize;
        self.words[index] = with_bit(self.words[index], number % BITS);
    }

    /// Takes the number out of the set, if it is there.
    pub(crate) fn remove(&mut self, number: u32)
        requires { number < room self.old }
        ensures removed { RemovesFrame self.old self.new number }
        ensures others { KeepsOtherWords self.old self.new (number / 64) }
        ensures length { length self.new.kept ≡ length self.old.kept }
    {
        let index = (number / BITS) as usize;
        self.words[index] = without_bit(self.words[index], number % BITS);
    }

    /// The bits of the numbers from 64 times the index on.
    pub(crate) fn word(&self, index: u32) -> u64
        ensures { result ≡ nth_word self.now index }
    {
        self.words
            .get(index as usize)
            .copied()
            .unwrap_or(self.beyond)
    }

    /// Whether the number is in the set.
    pub(crate) fn contains(&self, number: u32) -> bool
        ensures { result ≡ has self.now number }
    {
        (self.word(number / BITS) >> (number % BITS)) & 1 == 1
    }

    /// The highest number, of the first so many of a word, that is in both sets. Looks at this word.
    pub(crate) fn highest_in_word(&self, other: &NumberSet, index: u32, places: u32) -> Option<u32>
        requires within { places ≤ 64 }
        requires fits { 64 * index + places < 2 ^ 32 }
        ensures { let first = 64 * index in
            MatchOption result (NoneIsInBoth self.now other.now first (first + places))
            (IsHighestInBoth self.now other.now first (first + places)) }
    {
        match highest_bit(self.word(index) & other.word(index) & ones_below(places)) {
            None => None,
            Some(bit) => Some(index * BITS + bit),
        }
    }

    /// The highest number below the limit that is in both sets. Looks at words from the limit's down to
    /// the one that has it.
    pub(crate) fn highest_in_both(&self, other: &NumberSet, limit: u32) -> Option<u32>
        ensures { MatchOption result (NoneIsInBoth self.now other.now 0 limit) (IsHighestInBoth self.now other.now 0 limit) }
    {
        if let Some(number) = self.highest_in_word(other, limit / BITS, limit % BITS) {
            return Some(number);
        }
        for index in (0..limit / BITS).rev() {
            if let Some(number) = self.highest_in_word(other, index, BITS) {
                return Some(number);
            }
        }
        None
    }

    /// How many numbers, of the first so many of a word, are in both sets. Looks at this word.
    fn count_in_word(&self, other: &NumberSet, index: u32, places: u32) -> u32
        requires { places ≤ 64 }
        ensures counted { let first = 64 * index in
            length (common_below self.now other.now (first + places)) ≡ length (common_below self.now other.now first) + result }
        ensures few { result ≤ places }
    {
        (self.word(index) & other.word(index) & ones_below(places)).count_ones()
    }

    /// How many numbers below the limit are in both sets. Looks at each word up to the limit's.
    pub(crate) fn count_in_both(&self, other: &NumberSet, limit: u32) -> u32
        ensures { result ≡ length (common_below self.now other.now limit) }
    {
        let mut count = 0;
        for index in 0..limit / BITS {
            count += self.count_in_word(other, index, BITS);
        }
        count + self.count_in_word(other, limit / BITS, limit % BITS)
    }

    /// Whether the two have the same words, and the same word stands for each beyond them.
    pub(crate) fn is_same(&self, other: &NumberSet) -> bool
        ensures { IsTrue result ↔ (self.now ≡ other.now) }
    {
        if self.beyond != other.beyond {
            return false;
        }
        self.words.as_slice() == other.words.as_slice()
    }
}
