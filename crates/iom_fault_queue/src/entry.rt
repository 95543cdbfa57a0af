ghost use Rattle.std.specs.Prelude.{◌≡◌, ◌%◌};
ghost use Rattle.iom_fault_queue.specs.Ring.{record_at};

use crate::bytes::RECORD_SIZE;
use crate::record::Record;
use iom_phys_mem::{Bytes, Memory};

/// What stands at a place of the queue.
///
/// The IOMMU writes records alone, and only where there is memory. The other two are there for a
/// queue that somebody else wrote into, or whose base was set to a place outside memory.
#[derive(Clone, Copy, PartialEq, Eq)]
pub enum Entry {
    /// A record.
    Record(Record),
    /// Bytes that are no record.
    Illegal,
    /// No bytes: the place is outside memory.
    Outside,
}

impl Entry {
    ghost use Rattle.iom_fault_queue.specs.Ring.{record_of_entry};

    /// The record, where it is one.
    pub fn record(self) -> Option<Record>
        ensures { result ≡ record_of_entry self }
    {
        match self {
            Entry::Record(record) => Some(record),
            Entry::Illegal | Entry::Outside => None,
        }
    }
}

/// What stands in the 32 bytes at the address.
pub(crate) fn record_at(memory: &Memory, address: u64) -> Entry
    requires { address % 32 ≡ 0 }
    ensures { result ≡ record_at memory.now address }
{
    if address / 4096 >= u64::from(memory.frames()) {
        return Entry::Outside;
    }
    let Some(frame) = memory.frame((address / 4096) as u32) else {
        return Entry::Outside;
    };
    let offset = (address % 4096) as usize;
    let mut bytes = [0; RECORD_SIZE];
    bytes.copy_from_slice(&frame[offset..offset + RECORD_SIZE]);
    match Record::decode(&bytes) {
        Some(record) => Entry::Record(record),
        None => Entry::Illegal,
    }
}
