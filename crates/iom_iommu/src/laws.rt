//! Laws of fetches: functions that do nothing, whose contracts are proved. Each speaks of any memory `m` and
//! IOMMU `i` before a fetch, over any cache of translations, and of what it leaves: `n` and `j`.
ghost use Rattle.std.specs.Prelude.{◌≡◌, ◌↔◌, ◌+◌, ◌≤◌, ℕ, List, true, false, [], ◌∷◌, length, slice_get};
ghost use Rattle.iom_registers.specs.Queues.{command_base, command_entries, command_tail, is_command_queue_on, is_processing_commands, directory_mode, directory_root};
ghost use Rattle.iom_command_queue.specs.declared.command.Command.{Command};
ghost use Rattle.iom_command_queue.specs.Waiting.{commands_in};
ghost use Rattle.iom_iommu.specs.declared.fetched.Fetched.{Fetched as Answer};
ghost use Rattle.iom_iommu.specs.declared.iommu.Iommu.{Iommu};
ghost use Rattle.iom_iommu.specs.Parts.{registers_of, slots_of};
ghost use Rattle.iom_iommu.specs.Timeouts.{TimesFenceOut};
ghost use Rattle.iom_iommu.specs.Fetches.{FetchesCommand};
ghost use Rattle.iom_iommu.specs.Effects.{FetchesByAnswer, AreAlike, store_of, IsStoredIn, IsOffRing, LeavesFaultQueue};

use crate::fetched::Fetched;
use iom_command_queue::QueueEntry;
use iom_tlb::TransCache;

/// What a fetch leaves, by its answer, and of a command effect by effect.
pub fn by_answer<C: TransCache>()
    ensures { (m n : List (List ℕ)) (i j : Iommu C C.TransCache) (answer : Answer)
        → FetchesCommand m i answer n j → FetchesByAnswer m i answer n j }
{}

/// Memory and IOMMU decide what a fetch answers and leaves.
pub fn one_fetch<C: TransCache>()
    ensures { (m n o : List (List ℕ)) (i j k : Iommu C C.TransCache) (one other : Answer)
        → FetchesCommand m i one n j → FetchesCommand m i other o k → (one ≡ other) × (n ≡ o) × AreAlike j k }
{}

/// The command that is done was the first of those that waited, and the rest still wait: where no frame
/// of the ring is that of the word which the command stores.
pub fn takes_first<C: TransCache>()
    ensures { (m n : List (List ℕ)) (i j : Iommu C C.TransCache) (command : Command)
        → FetchesCommand m i (Fetched.Did command) n j → IsOffRing (registers_of i) (store_of command)
        → commands_in m (registers_of i) ≡ QueueEntry.Command command ∷ commands_in n (registers_of j) }
{}

/// Any other answer leaves memory, and the commands that wait.
pub fn leaves_list<C: TransCache>()
    ensures { (m n : List (List ℕ)) (i j : Iommu C C.TransCache) (answer : Answer) → FetchesCommand m i answer n j
        → ((command : Command) → ¬ (answer ≡ Fetched.Did command))
        → (n ≡ m) × (commands_in n (registers_of j) ≡ commands_in m (registers_of i)) }
{}

/// `Empty` comes exactly where commands are processed and none waits.
pub fn finds_empty<C: TransCache>()
    ensures { (m n : List (List ℕ)) (i j : Iommu C C.TransCache) (answer : Answer) → FetchesCommand m i answer n j
        → (answer ≡ Fetched.Empty)
        ↔ ((is_processing_commands (registers_of i) ≡ true) × (commands_in m (registers_of i) ≡ [])) }
{}

/// `Stopped` comes exactly where commands aren't processed afterwards. Where they weren't before, nothing
/// changes.
pub fn stops<C: TransCache>()
    ensures after { (m n : List (List ℕ)) (i j : Iommu C C.TransCache) (answer : Answer) → FetchesCommand m i answer n j
        → (answer ≡ Fetched.Stopped) ↔ (is_processing_commands (registers_of j) ≡ false) }
    ensures unchanged { (m n : List (List ℕ)) (i j : Iommu C C.TransCache) (answer : Answer) → FetchesCommand m i answer n j
        → is_processing_commands (registers_of i) ≡ false → (n ≡ m) × (j ≡ i) }
{}

/// Each frame but that of the stored word is as it was, and there are as many.
pub fn leaves_frames<C: TransCache>()
    ensures { (m n : List (List ℕ)) (i j : Iommu C C.TransCache) (command : Command)
        → FetchesCommand m i (Fetched.Did command) n j
        → ((k : ℕ) → ¬ IsStoredIn (store_of command) k → slice_get n k ≡ slice_get m k) × (length n ≡ length m) }
{}

/// What software set up stays: where the queue lies and ends, whether it is on, and the directory; and all registers
/// of the fault queue.
pub fn leaves_setup<C: TransCache>()
    ensures commands { (m n : List (List ℕ)) (i j : Iommu C C.TransCache) (answer : Answer) → FetchesCommand m i answer n j
        → let old = registers_of i in let new = registers_of j in
        (command_base new ≡ command_base old) × (command_entries new ≡ command_entries old)
        × (command_tail new ≡ command_tail old) × (is_command_queue_on new ≡ is_command_queue_on old)
        × (directory_mode new ≡ directory_mode old) × (directory_root new ≡ directory_root old) }
    ensures faults { (m n : List (List ℕ)) (i j : Iommu C C.TransCache) (answer : Answer) → FetchesCommand m i answer n j
        → LeavesFaultQueue (registers_of i) (registers_of j) }
{}

/// A fetch gives one number to an invalidation request at most.
pub fn opens_one<C: TransCache>()
    ensures { (m n : List (List ℕ)) (i j : Iommu C C.TransCache) (answer : Answer) → FetchesCommand m i answer n j
        → (slots_of j).last ≤ (slots_of i).last + 1 }
{}

/// After a timeout with an effect no command is taken: the next fetch answers `Stopped`, and so does each until
/// software changes the registers. The commands still wait, the fence that was given up first among them, and its
/// word isn't stored.
pub fn stops_after_timeout<C: TransCache>()
    ensures stopped { (i j : Iommu C C.TransCache) → TimesFenceOut i true j → is_processing_commands (registers_of j) ≡ false }
    ensures list { (m : List (List ℕ)) (i j : Iommu C C.TransCache) → TimesFenceOut i true j
        → commands_in m (registers_of j) ≡ commands_in m (registers_of i) }
    ensures fetch { (m n : List (List ℕ)) (i j k : Iommu C C.TransCache) (answer : Answer) → TimesFenceOut i true j
        → FetchesCommand m j answer n k → (answer ≡ Fetched.Stopped) × (n ≡ m) × (k ≡ j) }
{}
