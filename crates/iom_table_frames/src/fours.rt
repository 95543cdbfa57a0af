// Runs of four frames, for the root of a second stage (RISC-V Privileged Architecture, "Sv39x4" and "Sv48x4": the
// root of a guest physical address space has 16 KiB and is aligned to that).
ghost use Rattle.std.specs.Prelude.{◌≡◌, ◌↔◌, ◌+◌, ◌^◌, ◌<◌, ◌≤◌, length, IsTrue, MatchOption, Some};
ghost use Rattle.std.specs.Option.{option_map_or};
ghost use Rattle.iom_phys_mem.specs.Words.{zeroed};
ghost use Rattle.iom_table_frames.specs.Fours.{AreFourFree, NoFourAreFree, IsHighestFour, with_four};

use crate::table_frames::TableFrames;
use iom_base::Owner;
use iom_ledger::Ledger;
use iom_phys_mem::{Bytes, Memory};

/// How many frames the root of a second stage has.
const RUN: u32 = 4;

impl TableFrames {
    /// Whether the four frames from the first on are free.
    fn are_four_free(&self, ledger: &Ledger, first: u32) -> bool
        requires inside { first + 4 ≤ length self.now }
        requires fits { first + 4 < 2 ^ 32 }
        ensures { IsTrue result ↔ AreFourFree self.now ledger.now first }
    {
        self.is_free(ledger, first)
            && self.is_free(ledger, first + 1)
            && self.is_free(ledger, first + 2)
            && self.is_free(ledger, first + 3)
    }

    /// The first of the highest four free frames below the limit of which the first is a multiple of four.
    pub fn highest_four(&self, ledger: &Ledger, limit: u32) -> Option<u32>
        requires { limit ≤ length self.now }
        ensures { MatchOption result (NoFourAreFree self.now ledger.now 0 limit) (IsHighestFour self.now ledger.now limit) }
    {
        let mut below = limit / RUN * RUN;
        while let Some(frame) = self.highest_free(ledger, below, None) {
            let first = frame / RUN * RUN;
            if self.are_four_free(ledger, first) {
                return Some(first);
            }
            below = first;
        }
        None
    }

    /// The highest four free frames of which the first is a multiple of four become the owner's, and their
    /// bytes zero: the first of them. Where there are none, nothing changes.
    pub fn take_four(&mut self, memory: &mut Memory, ledger: &Ledger, owner: Owner) -> Option<u32>
        requires { length self.old ≡ length memory.old }
        ensures found { MatchOption result (NoFourAreFree self.old ledger.now 0 (length self.old))
            (IsHighestFour self.old ledger.now (length self.old)) }
        ensures owners { self.new ≡ option_map_or (λ first. with_four self.old first (Some owner)) result self.old }
        ensures memory { memory.new ≡ option_map_or (λ first. with_four memory.old first zeroed) result memory.old }
        ensures size { (length self.new ≡ length self.old) × (length memory.new ≡ length memory.old) }
    {
        let first = self.highest_four(ledger, memory.frames())?;
        self.reserve(memory, first, owner);
        self.reserve(memory, first + 1, owner);
        self.reserve(memory, first + 2, owner);
        self.reserve(memory, first + 3, owner);
        Some(first)
    }
}
