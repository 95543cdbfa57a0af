// The frames of the queues, and of the words that waiting fences store.
use iom_base::{FRAME_SIZE, PAGE_SIZE};
use iom_board::Board;
use iom_command_queue::{COMMAND_SIZE, Command};
use iom_phys_mem::Memory;
use iom_registers::Registers;

/// The bytes of a fault record.
const RECORD_SIZE: u64 = 32;

/// Commands in a frame.
const COMMANDS: usize = FRAME_SIZE / COMMAND_SIZE;

/// Whether a ring of so many entries of that size, from an address on, has bytes in the frame.
fn has_frame(base: u64, entries: u64, size: u64, frame: u32) -> bool {
    let first = base / PAGE_SIZE;
    let last = base.saturating_add(entries.saturating_mul(size).saturating_sub(1)) / PAGE_SIZE;
    first <= u64::from(frame) && u64::from(frame) <= last
}

/// Whether the frame is of the command queue, and that is on.
pub(crate) fn is_of_commands(registers: &Registers, frame: u32) -> bool {
    registers.is_command_queue_on()
        && has_frame(
            registers.command_base(),
            registers.command_entries(),
            COMMAND_SIZE as u64,
            frame,
        )
}

/// Whether the frame is of the fault queue, and that is on.
pub(crate) fn is_of_faults(registers: &Registers, frame: u32) -> bool {
    registers.is_fault_queue_on()
        && has_frame(
            registers.fault_base(),
            registers.fault_entries(),
            RECORD_SIZE,
            frame,
        )
}

/// How far an index is behind another, in a ring of so many entries.
fn distance(from: u64, to: u64, entries: u64) -> u64 {
    if to >= from {
        to - from
    } else {
        entries.saturating_sub(from).saturating_add(to)
    }
}

/// Whether the entry of the ring at this address waits: it stands between head and tail.
fn is_waiting(registers: &Registers, address: u64) -> bool {
    let base = registers.command_base();
    let entries = registers.command_entries();
    if !registers.is_command_queue_on() || address < base {
        return false;
    }
    let index = (address - base) / COMMAND_SIZE as u64;
    let head = u64::from(registers.command_head());
    let tail = u64::from(registers.command_tail());
    index < entries && distance(head, index, entries) < distance(head, tail, entries)
}

/// The address of a place for a command in a frame.
fn place_address(frame: u32, place: usize) -> u64 {
    let offset = (place as u64).saturating_mul(COMMAND_SIZE as u64);
    (u64::from(frame) * PAGE_SIZE).saturating_add(offset)
}

/// Whether a command that waits stands in the frame.
pub(crate) fn has_waiting(registers: &Registers, frame: u32) -> bool {
    for place in 0..COMMANDS {
        if is_waiting(registers, place_address(frame, place)) {
            return true;
        }
    }
    false
}

/// The frame into which the command at a place of a frame stores its word, if it is a fence that stores one.
fn word_frame(memory: &Memory, frame: u32, place: usize) -> Option<u64> {
    let bytes = memory.frame(frame)?;
    let (commands, _) = bytes.as_chunks::<COMMAND_SIZE>();
    let command = commands.get(place)?;
    match Command::decode(command) {
        Ok(
            Command::IofenceC {
                store: Some(store),
                ..
            },
        ) => Some(store.address.address() / PAGE_SIZE),
        _ => None,
    }
}

/// Whether a fence that waits in one frame stores its word into another.
fn stores_from(hardware: &Board, from: u32, into: u32) -> bool {
    let registers = hardware.iommu.registers();
    for place in 0..COMMANDS {
        if is_waiting(registers, place_address(from, place))
            && word_frame(&hardware.memory, from, place) == Some(u64::from(into))
        {
            return true;
        }
    }
    false
}

/// Whether a fence that waits stores its word into the frame.
pub(crate) fn has_word(hardware: &Board, frame: u32) -> bool {
    for from in 0..hardware.iommu.frames() {
        if stores_from(hardware, from, frame) {
            return true;
        }
    }
    false
}
