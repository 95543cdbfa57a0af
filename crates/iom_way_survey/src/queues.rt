// The frames of the queues: those of commands that wait, those of fault records, and those of the words of fences.
ghost use Rattle.iom_table_survey.specs.Rows.{GrowsBy};
ghost use Rattle.iom_way_survey.specs.Queues.{StoresWord, IsFrameAmong, IsWordAmong, IsOfFaults};
ghost use Rattle.iom_hardware_ways.specs.Scenes.{waiting_places};

use iom_base::PAGE_SIZE;
use iom_command_queue::{COMMAND_SIZE, Command, CommandRing, QueueEntry};
use iom_fault_queue::RECORD_SIZE;
use iom_phys_mem::Memory;
use iom_registers::Registers;
use iom_table_survey::FrameRow;

/// The frames of fault records.
pub(crate) fn survey_faults(registers: &Registers, stored: &mut FrameRow)
    ensures { GrowsBy stored.old stored.new (IsOfFaults registers.now) }
{
    if registers.is_fault_queue_on() {
        let first = registers.fault_base() / PAGE_SIZE;
        let end = registers.fault_base() + RECORD_SIZE as u64 * (registers.fault_entries() - 1);
        stored.insert_run(first, end / PAGE_SIZE - first + 1);
    }
}

/// The frame of the word that a fence stores.
fn survey_word(entry: QueueEntry, stored: &mut FrameRow)
    ensures { GrowsBy stored.old stored.new (StoresWord entry) }
{
    if let QueueEntry::Command(
        Command::IofenceC {
            store: Some(store),
            ..
        },
    ) = entry
    {
        stored.insert(store.address.address() / PAGE_SIZE);
    }
}

/// The commands that wait, the next one first. Each is looked at and then passed over, on a copy of the registers.
pub(crate) fn survey_queue(
    memory: &Memory,
    registers: &Registers,
    read: &mut FrameRow,
    stored: &mut FrameRow,
)
    ensures frames { GrowsBy read.old read.new (IsFrameAmong (waiting_places registers.now)) }
    ensures words { GrowsBy stored.old stored.new (IsWordAmong memory.now (waiting_places registers.now)) }
{
    if !registers.is_command_queue_on() {
        return;
    }
    let mut left = *registers;
    while let Some(entry) = CommandRing::next(memory, &left) {
        let place = left.command_base() + COMMAND_SIZE as u64 * u64::from(left.command_head());
        read.insert(place / PAGE_SIZE);
        survey_word(entry, stored);
        CommandRing::advance(&mut left);
    }
}
