//! Laws of commands and of the ring: functions that do nothing, whose contracts are proved.
ghost use Rattle.std.specs.Prelude.{◌≡◌, ◌≢◌, ◌↔◌, ◌+◌, ◌/◌, ◌<◌, ℕ, [], ◌∷◌, ◌++◌, Ok, length, slice_get};
ghost use Rattle.iom_registers.specs.declared.register.Register.TheVariants.{Cqt};
ghost use Rattle.iom_registers.specs.Queues.{command_base, command_entries, command_head, command_tail, next_index, with_command_done};
ghost use Rattle.iom_registers.specs.Table.{written};
ghost use Rattle.iom_command_queue.specs.Formats.{IsCommand, first_of, second_of};
ghost use Rattle.iom_command_queue.specs.Legal.{decoded};
ghost use Rattle.iom_command_queue.specs.Encoded.{encoded, first_word, second_word};
ghost use Rattle.iom_command_queue.specs.Waiting.{commands_in, first_entry, how_many, place_of, WritesCommand};

use crate::bytes::COMMAND_SIZE;
use crate::command::Command;
use crate::entry::QueueEntry;
use iom_phys_mem::Memory;
use iom_registers::Registers;

/// No bytes have two meanings.
pub fn one_meaning(bytes: &[u8; COMMAND_SIZE], one: Command, other: Command)
    requires one { IsCommand bytes.now one }
    requires other { IsCommand bytes.now other }
    ensures { one ≡ other }
{}

/// What is written for a command is decoded to it: its words, and so its bytes.
pub fn reads_back(command: Command)
    ensures words { decoded (first_word command) (second_word command) ≡ Ok command }
    ensures bytes { decoded (first_of (encoded command)) (second_of (encoded command)) ≡ Ok command }
{}

/// A command whose bytes are written at the tail is, once the tail moved on by one, the last of the list.
pub fn appends(old: &Memory, registers: &Registers, command: Command, new: &Memory)
    requires room { how_many registers.now + 1 < command_entries registers.now }
    requires written { WritesCommand old.now (place_of registers.now (command_tail registers.now)) command new.now }
    ensures { let next = next_index (command_entries registers.now) (command_tail registers.now) in
        commands_in new.now (written registers.now Cqt next)
        ≡ commands_in old.now registers.now ++ QueueEntry.Command command ∷ [] }
{}

/// The head moved on by one drops the first of the list.
pub fn drops(memory: &Memory, registers: &Registers)
    requires { command_head registers.now ≢ command_tail registers.now }
    ensures { commands_in memory.now registers.now
        ≡ first_entry memory.now registers.now ∷ commands_in memory.now (with_command_done registers.now) }
{}

/// A change of memory outside the ring's frames leaves the list.
pub fn unchanged(old: &Memory, registers: &Registers, new: &Memory)
    requires { (j : ℕ) → j < command_entries registers.now →
        slice_get new.now (place_of registers.now j / 4096) ≡ slice_get old.now (place_of registers.now j / 4096) }
    ensures { commands_in new.now registers.now ≡ commands_in old.now registers.now }
{}

/// A change of the registers that leaves where the ring lies, and its head and tail, leaves the list.
pub fn same_ring(memory: &Memory, one: &Registers, other: &Registers)
    requires base { command_base one.now ≡ command_base other.now }
    requires entries { command_entries one.now ≡ command_entries other.now }
    requires head { command_head one.now ≡ command_head other.now }
    requires tail { command_tail one.now ≡ command_tail other.now }
    ensures { commands_in memory.now one.now ≡ commands_in memory.now other.now }
{}

/// How long the list is: fewer than the ring has entries, and none where head and tail are the same.
pub fn counts(memory: &Memory, registers: &Registers)
    ensures count { length (commands_in memory.now registers.now) ≡ how_many registers.now }
    ensures below { how_many registers.now < command_entries registers.now }
    ensures empty { (commands_in memory.now registers.now ≡ []) ↔ (command_head registers.now ≡ command_tail registers.now) }
{}
