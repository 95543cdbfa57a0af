// The ring of commands in memory, as the registers place it (IOMMU specification, section 3.1,
// "Command-Queue (CQ)").
ghost use Rattle.std.specs.Prelude.{◌≡◌, ◌≢◌, ◌↔◌, ◌<◌, ◌≤◌, ◌+◌, ◌%◌, ◌/◌, ◌^◌, ℕ, List, length, IsTrue, ◌∷◌, ◌++◌, [], slice_get};
ghost use Rattle.iom_registers.specs.Queues.{command_base, command_entries, command_head, command_tail, next_index, with_command_done};
ghost use Rattle.iom_registers.specs.Table.{value_of};
ghost use Rattle.iom_registers.specs.declared.register.Register.TheVariants.{Cqt};
ghost use Rattle.iom_command_queue.specs.Waiting.{commands_in, entry_at, place_of, how_many, first_entry, IsIndexOf, WritesCommand};

use crate::bytes::COMMAND_SIZE;
use crate::command::Command;
use crate::decode::decode_words;
use crate::encode;
use crate::entry::QueueEntry;
use iom_phys_mem::{Bytes, Memory};
use iom_registers::{Mmio, Register, Registers, index_after};

/// The ring that the command queue is, in memory between `cqh` and `cqt`: software puts commands into it,
/// and the IOMMU takes them out.
pub struct CommandRing;

/// What stands in the 16 bytes at the address.
#[tactic(auto, unfolding(crate::specs::Waiting::entry_at))]
fn entry_at(memory: &Memory, address: u64) -> QueueEntry
    requires { address < 2 ^ 60 }
    ensures { result ≡ entry_at memory.now address }
{
    let Some(first) = memory.load_u64(address) else {
        return QueueEntry::Outside;
    };
    let Some(second) = memory.load_u64(address + 8) else {
        return QueueEntry::Outside;
    };
    match decode_words(first, second) {
        Ok(command) => QueueEntry::Command(command),
        Err(reason) => QueueEntry::Illegal(reason),
    }
}

/// Writes the command's 16 bytes at the address.
#[inline(always)]
fn put(memory: &mut Memory, address: u64, command: Command)
    requires aligned { address % 16 ≡ 0 }
    requires inside { address / 4096 < length memory.old }
    ensures { WritesCommand memory.old address command memory.new }
{
    let first = encode::first_word(&command);
    let second = encode::second_word(&command);
    memory.store_u64(address, first);
    memory.store_u64(address + 8, second);
}

/// The value of a register.
fn read<M: Mmio>(io: &M, register: Register) -> u64
    ensures { result ≡ value_of (M.registers io.now) register }
{
    io.read(register.offset(), register.width()).unwrap()
}

/// Where software finds the queue.
#[derive(Clone, Copy)]
struct Place {
    /// The address of the first entry.
    base: u64,
    /// How many entries there are.
    entries: u64,
}

/// The place of the queue, as the value of `cqb` has it.
fn place_by_cqb<M: Mmio>(io: &M) -> Place
    ensures base { result.base ≡ command_base (M.registers io.now) }
    ensures entries { result.entries ≡ command_entries (M.registers io.now) }
    ensures few { result.entries ≤ 2 ^ 32 }
    ensures low { result.base < 2 ^ 56 }
{
    let cqb = read(io, Register::Cqb);
    Place {
        base: cqb / (1 << 10) % (1 << 44) * 4096,
        entries: 2 << (cqb % 32),
    }
}

/// The index after the last command.
fn tail<M: Mmio>(io: &M) -> u32
    ensures value { result ≡ command_tail (M.registers io.now) }
    ensures below { result < command_entries (M.registers io.now) }
{
    read(io, Register::Cqt) as u32
}

/// Rings the doorbell: `cqt` is the index after the tail, and the IOMMU may fetch what stands at the tail's
/// place. Whoever rings is lent the memory, in which the command stands there already.
#[inline(always)]
fn ring<M: Mmio>(memory: &Memory, io: &mut M, command: &Command, after: u32)
    requires stands { let r = M.registers io.old in
        entry_at memory.now (place_of r (command_tail r)) ≡ QueueEntry.Command command.now }
    requires next { after ≡ next_index (command_entries (M.registers io.old)) (command_tail (M.registers io.old)) }
    ensures { io.new ≡ M.after io.old Cqt after }
{
    let _ = io.write(
        Register::Cqt.offset(),
        Register::Cqt.width(),
        u64::from(after),
    );
}

/// The index in the ring of the command at this place of those that wait, the head's at 0.
fn index_of(registers: &Registers, place: u32) -> u64
    requires { place < how_many registers.now }
    ensures index { IsIndexOf registers.now place result }
    ensures small { result < 2 ^ 32 }
{
    let index = u64::from(registers.command_head()) + u64::from(place);
    let entries = registers.command_entries();
    if index < entries {
        index
    } else {
        index - entries
    }
}

impl CommandRing {
    /// The index of the next command.
    pub fn head(registers: &Registers) -> u32
        ensures { result ≡ command_head registers.now }
    {
        registers.command_head()
    }

    /// The index after the last command.
    pub fn tail(registers: &Registers) -> u32
        ensures { result ≡ command_tail registers.now }
    {
        registers.command_tail()
    }

    /// What stands at the head, where a command waits.
    #[inline(always)]
    pub fn first(memory: &Memory, registers: &Registers) -> QueueEntry
        requires waits { command_head registers.now ≢ command_tail registers.now }
        ensures { slice_get (commands_in memory.now registers.now) 0 ≡ Some result }
    {
        let head = registers.command_head();
        let place = registers.command_base() + COMMAND_SIZE as u64 * head as u64;
        entry_at(memory, place)
    }

    /// What stands at the head: the first of the commands that wait. None exactly where none waits.
    pub fn next(memory: &Memory, registers: &Registers) -> Option<QueueEntry>
        ensures { result ≡ slice_get (commands_in memory.now registers.now) 0 }
    {
        if registers.command_head() == registers.command_tail() {
            return None;
        }
        Some(CommandRing::first(memory, registers))
    }

    /// How many commands wait between head and tail, by the registers.
    pub fn count(registers: &Registers) -> u32
        ensures { result ≡ how_many registers.now }
    {
        let head = registers.command_head();
        let tail = registers.command_tail();
        if head <= tail {
            return tail - head;
        }
        (registers.command_entries() - u64::from(head) + u64::from(tail)) as u32
    }

    /// What stands at this place of the commands that wait, the head's at 0. None exactly where as many don't wait.
    pub fn at(memory: &Memory, registers: &Registers, place: u32) -> Option<QueueEntry>
        ensures { result ≡ slice_get (commands_in memory.now registers.now) place }
    {
        if place >= CommandRing::count(registers) {
            return None;
        }
        let index = index_of(registers, place);
        Some(entry_at(
            memory,
            registers.command_base() + COMMAND_SIZE as u64 * index,
        ))
    }

    /// The command at the head is done, and no more waits.
    pub fn advance(registers: &mut Registers)
        requires { command_head registers.old ≢ command_tail registers.old }
        ensures list { (memory : List (List ℕ)) →
            commands_in memory registers.old ≡ first_entry memory registers.old ∷ commands_in memory registers.new }
        ensures registers { registers.new ≡ with_command_done registers.old }
    {
        registers.advance_command_head();
    }

    /// Whether there is no room for another command: one entry stays free, since a queue whose head and
    /// tail are the same is empty.
    pub fn is_full<M: Mmio>(io: &M) -> bool
        ensures { IsTrue result ↔ (how_many (M.registers io.now) + 1 ≡ command_entries (M.registers io.now)) }
    {
        let place = place_by_cqb(io);
        let after = index_after(tail(io), place.entries);
        u64::from(after) == read(io, Register::Cqh)
    }

    /// Software puts a command at the end: its 16 bytes at the tail's place, and then the next index into
    /// `cqt`.
    // Written into its caller, which knows what kind of command it is.
    #[inline(always)]
    pub fn append<M: Mmio>(memory: &mut Memory, io: &mut M, command: Command)
        requires room { how_many (M.registers io.old) + 1 < command_entries (M.registers io.old) }
        requires inside { place_of (M.registers io.old) (command_tail (M.registers io.old)) / 4096 < length memory.old }
        ensures list { commands_in memory.new (M.registers io.new)
            ≡ commands_in memory.old (M.registers io.old) ++ QueueEntry.Command command ∷ [] }
        ensures written { let place = place_of (M.registers io.old) (command_tail (M.registers io.old)) in
            WritesCommand memory.old place command memory.new }
        ensures rung { let r = M.registers io.old in
            io.new ≡ M.after io.old Cqt (next_index (command_entries r) (command_tail r)) }
    {
        let place = place_by_cqb(io);
        let tail = tail(io);
        let address = place.base + COMMAND_SIZE as u64 * tail as u64;
        put(memory, address, command);
        ring(memory, io, &command, index_after(tail, place.entries));
    }
}
