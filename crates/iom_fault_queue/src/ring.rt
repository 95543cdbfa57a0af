ghost use Rattle.std.specs.Prelude.{◌≡◌, ◌+◌, ◌*◌, ◌/◌, ◌%◌, ◌^◌, ◌<◌, ◌≤◌, ◌↔◌, ◌++◌, nat_lt, length};
ghost use Rattle.std.specs.Bool.{OnTrue, OnFalse};
ghost use Rattle.std.specs.Option.{option_to_list};
ghost use Rattle.iom_base.specs.Bytes.{with_bytes};
ghost use Rattle.iom_registers.specs.Queues.{fault_base, fault_entries, fault_head, fault_tail, next_index, with_record_written};
ghost use Rattle.iom_registers.specs.declared.register.Register.TheVariants.{Fqh};
ghost use Rattle.iom_registers.specs.Table.{value_of};
ghost use Rattle.iom_fault_queue.specs.Ring.{records_in, record_at, record_place, is_full, StoresRecord};
ghost use Rattle.iom_fault_queue.specs.Calls.{PutsRecord, after_put, TakesEntry};

use crate::bytes::RECORD_SIZE;
use crate::entry::{Entry, record_at};
use crate::record::Record;
use iom_base::FRAME_SIZE;
use iom_phys_mem::{Bytes, Memory};
use iom_registers::{Mmio, Register, Registers, index_after};

/// What became of a record.
#[derive(Clone, Copy, PartialEq, Eq)]
pub enum Put {
    /// It is the newest of the queue.
    Written,
    /// It was dropped: `fqof` or `fqmf` was 1, or is now.
    Overflow,
    /// It was dropped, since the queue is off.
    Off,
}

/// The ring that the fault queue is, in memory between `fqh` and `fqt`: the IOMMU puts records into it,
/// and software takes them out.
pub struct FaultRing;

/// Writes a record's bytes into the frame.
fn put_bytes(frame: &mut [u8; FRAME_SIZE], offset: usize, bytes: &[u8; RECORD_SIZE])
    requires { offset + 32 ≤ 4096 }
    ensures whole { length frame.old ≡ 4096 }
    ensures replaced { frame.new ≡ with_bytes frame.old offset bytes.now }
{
    frame[offset..offset + RECORD_SIZE].copy_from_slice(bytes);
}

/// Writes the record's bytes at the address. False where it is outside memory: then nothing changes.
fn store(memory: &mut Memory, address: u64, record: Record) -> bool
    requires { address % 32 ≡ 0 }
    ensures inside { result ≡ nat_lt (address / 4096) (length memory.old) }
    ensures stored { OnTrue result (StoresRecord memory.old address «record» memory.new) }
    ensures refused { OnFalse result (memory.new ≡ memory.old) }
{
    if address / 4096 >= u64::from(memory.frames()) {
        return false;
    }
    let Some(frame) = memory.frame_mut((address / 4096) as u32) else {
        return false;
    };
    put_bytes(frame, (address % 4096) as usize, &record.encode());
    true
}

/// Hands the place at the tail over: the next record comes after it, and software may take this one. Whoever
/// does so is lent the memory, in which the record stands there already.
#[inline(always)]
fn hand_over(memory: &Memory, registers: &mut Registers, reported: &Record)
    requires { let r = registers.old in
        record_at memory.now (record_place r (fault_tail r)) ≡ Entry.Record reported.now }
    ensures { registers.new ≡ with_record_written registers.old }
{
    registers.advance_fault_tail();
}

/// Whether the tail is one before the head.
fn is_full(registers: &Registers) -> bool
    ensures { result ≡ is_full registers.now }
{
    index_after(registers.fault_tail(), registers.fault_entries()) == registers.fault_head()
}

/// The value of a register.
fn read<M: Mmio>(io: &M, register: Register) -> u64
    ensures { result ≡ value_of (M.registers io.now) register }
{
    io.read(register.offset(), register.width()).unwrap()
}

/// Where software finds the queue.
#[derive(Clone, Copy)]
struct Place {
    /// The address of the first place.
    address: u64,
    /// How many places there are.
    entries: u64,
}

/// Where the queue is, as `fqb` says: PPN 53:10, LOG2SZ-1 4:0.
fn place_by_fqb<M: Mmio>(io: &M) -> Place
    ensures address { result.address ≡ fault_base (M.registers io.now) }
    ensures entries { result.entries ≡ fault_entries (M.registers io.now) }
    ensures few { result.entries ≤ 2 ^ 32 }
    ensures low { result.address < 2 ^ 56 }
{
    let fqb = read(io, Register::Fqb);
    Place {
        address: fqb / (1 << 10) % (1 << 44) * 4096,
        entries: 2 << (fqb % 32),
    }
}

/// The index at the head.
fn head<M: Mmio>(io: &M) -> u32
    ensures value { result ≡ fault_head (M.registers io.now) }
    ensures below { result < fault_entries (M.registers io.now) }
{
    read(io, Register::Fqh) as u32
}

/// Hands the place at the head back: `fqh` is the index after it, and the IOMMU may write another record
/// there. Whoever does so is lent the memory, and has the entry that stands there.
#[inline(always)]
fn hand_back<M: Mmio>(memory: &Memory, io: &mut M, taken: &Entry, after: u32)
    requires read { let r = M.registers io.old in record_at memory.now (record_place r (fault_head r)) ≡ taken.now }
    requires next { after ≡ next_index (fault_entries (M.registers io.old)) (fault_head (M.registers io.old)) }
    ensures { io.new ≡ M.after io.old Fqh after }
{
    let _ = io.write(
        Register::Fqh.offset(),
        Register::Fqh.width(),
        u64::from(after),
    );
}

impl FaultRing {
    /// The IOMMU reports a fault. `Off` exactly while the queue is off, and then nothing changes. While
    /// `fqof` or `fqmf` is 1 no record is written, and nothing changes. A record for a full queue is
    /// dropped and `fqof` set; one whose place is outside memory is dropped and `fqmf` set. Else it is
    /// written at the tail, the tail moves on, and `fip` is set where `fie` is 1.
    pub fn put(memory: &mut Memory, registers: &mut Registers, record: Record) -> Put
        ensures effect { PutsRecord memory.old registers.old «record» result memory.new registers.new }
        ensures list { records_in memory.new registers.new ≡ after_put result «record» (records_in memory.old registers.old) }
    {
        if !registers.is_fault_queue_on() {
            return Put::Off;
        }
        if registers.is_fault_queue_marked() {
            return Put::Overflow;
        }
        if is_full(registers) {
            registers.set_fqof();
            return Put::Overflow;
        }
        let address = registers.fault_base()
            + RECORD_SIZE as u64 * u64::from(registers.fault_tail());
        if !store(memory, address, record) {
            registers.set_fqmf();
            return Put::Overflow;
        }
        hand_over(memory, registers, &record);
        Put::Written
    }

    /// Software takes the oldest entry. None exactly where the queue is empty, and then nothing changes.
    /// Else `fqh` is written with the next index, and nothing else. What stands there is answered as it
    /// is: also where it is no record, or outside memory, the head moves on, so that such a place blocks
    /// nothing.
    pub fn take<M: Mmio>(memory: &Memory, io: &mut M) -> Option<Entry>
        ensures effect { TakesEntry M.registers M.after memory.now io.old result io.new }
        ensures list { records_in memory.now (M.registers io.old) ≡ option_to_list result ++ records_in memory.now (M.registers io.new) }
    {
        let head = head(io);
        if u64::from(head) == read(io, Register::Fqt) {
            return None;
        }
        let place = place_by_fqb(io);
        let address = place.address + RECORD_SIZE as u64 * u64::from(head);
        let entry = record_at(memory, address);
        hand_back(memory, io, &entry, index_after(head, place.entries));
        Some(entry)
    }
}
