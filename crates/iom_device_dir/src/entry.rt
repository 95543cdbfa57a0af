use crate::fields::field;
use iom_base::{Cause, Ppn};

/// A lawful non-leaf entry of the directory: it names the next page of the directory, one level down.
#[derive(Clone, Copy, PartialEq, Eq)]
pub struct NonLeafEntry {
    pub next: Ppn,
}

impl NonLeafEntry {
    ghost use Rattle.std.specs.Prelude.{◌≡◌, ◌↔◌, Ok, Err};
    ghost use Rattle.iom_base.specs.declared.cause.Cause.{Cause};
    ghost use Rattle.iom_device_dir.specs.declared.entry.NonLeafEntry.{NonLeafEntry};
    ghost use Rattle.iom_device_dir.specs.Formats.{IsNonLeafEntry, IsNonLeafEntryRefused};
    ghost use Rattle.iom_device_dir.specs.Decoded.{decoded_non_leaf_entry};
    ghost use Rattle.iom_device_dir.specs.Encoded.{encoded_non_leaf_entry};

    /// The entry that a word is. Exactly where it is none, the cause: `DirectoryEntryNotValid` where V is 0, else
    /// `DirectoryEntryMisconfigured`.
    pub fn decode(word: u64) -> Result<NonLeafEntry, Cause>
        ensures entry { (entry : NonLeafEntry) → (result ≡ Ok entry) ↔ IsNonLeafEntry word entry }
        ensures refused { (cause : Cause) → (result ≡ Err cause) ↔ IsNonLeafEntryRefused word cause }

        // What the clauses above say one by one, as one equation.
        ensures value { result ≡ decoded_non_leaf_entry word }
    {
        if field(word, 0, 0) == 0 {
            return Err(Cause::DirectoryEntryNotValid);
        }
        if field(word, 9, 1) != 0 || field(word, 63, 54) != 0 {
            return Err(Cause::DirectoryEntryMisconfigured);
        }
        Ok(NonLeafEntry {
            next: Ppn::from_word(word, 10),
        })
    }

    /// The word of the entry: V and PPN, and nothing else.
    pub fn encode(self) -> u64
        ensures entry { IsNonLeafEntry result self }

        // Which word it is.
        ensures value { result ≡ encoded_non_leaf_entry self }
    {
        (self.next.number() << 10) + 1
    }
}
