ghost use Rattle.std.specs.Prelude.{◌≡◌, ◌<◌, ◌≤◌, ◌^◌};
ghost use Rattle.iom_registers.specs.Queues.{fault_base, fault_entries, fault_head, fault_tail, is_fault_queue_on, is_fault_queue_marked, next_index, with_record_written, with_fqmf, with_fqof};

use crate::indices::{index_after, index_in};
use crate::registers::Registers;

/// The fault queue, as the registers have it (IOMMU specification, section 3.2, "Fault/Event-Queue (FQ)").
impl Registers {
    /// The physical address of the fault queue's first entry.
    pub fn fault_base(&self) -> u64
        ensures value { result ≡ fault_base self.now }
        ensures range { result < 2 ^ 56 }
    {
        self.fqb.address()
    }

    /// How many entries the fault queue has: a power of two.
    pub fn fault_entries(&self) -> u64
        ensures value { result ≡ fault_entries self.now }
        ensures range { (2 ≤ result) × (result ≤ 2 ^ 32) }
    {
        self.fqb.entries()
    }

    /// The index of the next record to be read.
    pub fn fault_head(&self) -> u32
        ensures value { result ≡ fault_head self.now }
        ensures below { result < fault_entries self.now }
    {
        index_in(self.fqh as u64, self.fault_entries())
    }

    /// The index at which the next record is written.
    pub fn fault_tail(&self) -> u32
        ensures value { result ≡ fault_tail self.now }
        ensures below { result < fault_entries self.now }
    {
        index_in(self.fqt as u64, self.fault_entries())
    }

    /// Whether the fault queue is on.
    pub fn is_fault_queue_on(&self) -> bool
        ensures { result ≡ is_fault_queue_on self.now }
    {
        self.fqcsr.fqen
    }

    /// Whether `fqmf` or `fqof` is 1, so that no record is written.
    pub fn is_fault_queue_marked(&self) -> bool
        ensures { result ≡ is_fault_queue_marked self.now }
    {
        self.fqcsr.fqmf || self.fqcsr.fqof
    }

    /// A record was written at the tail: the next one comes after it, and `fip` is set where `fie` is 1.
    pub fn advance_fault_tail(&mut self)
        ensures value { self.new ≡ with_record_written self.old }
        ensures tail { fault_tail self.new ≡ next_index (fault_entries self.old) (fault_tail self.old) }
    {
        self.fqt = index_after(self.fault_tail(), self.fault_entries());
        self.ipsr.fip = self.ipsr.fip || self.fqcsr.fie;
    }

    /// Sets `fqmf`, since a record couldn't be stored.
    pub fn set_fqmf(&mut self)
        ensures { self.new ≡ with_fqmf self.old }
    {
        self.fqcsr.fqmf = true;
        self.raise_interrupts();
    }

    /// Sets `fqof`, since a record found the queue full.
    pub fn set_fqof(&mut self)
        ensures { self.new ≡ with_fqof self.old }
    {
        self.fqcsr.fqof = true;
        self.raise_interrupts();
    }
}
