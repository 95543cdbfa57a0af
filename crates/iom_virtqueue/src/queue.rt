ghost use Rattle.std.specs.Prelude.{◌≡◌, ◌≢◌, ◌<◌, ◌++◌, length, MatchResult, Some, None};
ghost use Rattle.iom_virtqueue.specs.Chains.{IsChain};
ghost use Rattle.iom_virtqueue.specs.Queues.{QueueState, wanted, chain_fault_of, after, fresh_queue, IsChainSoFar, wanted_in, after_in, ring_entry, used_element};
ghost use Rattle.iom_virtqueue.specs.Layouts.{IsLayout};
ghost use Rattle.iom_virtqueue.specs.Accesses.{nothing, AreOf, LiesInPage, wanted_access_of, cut};
ghost use Rattle.byteorder.specs.Endian.{little_bytes};
ghost use Rattle.iom_virtqueue.specs.declared.phase.Phase.TheVariants.{Served, UsedElement};

use crate::buffers::Buffers;
use crate::descriptor::{Descriptor, Link};
use crate::fault::ChainFault;
use crate::layout::Layout;
use crate::numbers::le16;
use crate::phase::Phase;
use crate::want::Want;
use byteorder::{ByteOrder, LittleEndian};
use std::marker::Model;

/// The device's side of a split queue.
#[derive(Drop)]
pub struct Queue {
    layout: Layout,
    finished: u16,
    phase: Phase,
    head: u16,
    chain: Buffers,
    written: u32,
}

impl Model for Queue {
    ghost use Rattle.std.specs.Prelude.{◌≡◌, ◌<◌, ◌≤◌, ◌^◌};
    ghost use Rattle.iom_virtqueue.specs.Queues.{QueueState, IsChainSoFar};
    ghost use Rattle.iom_virtqueue.specs.Layouts.{IsLayout};

    ghost Value = { QueueState };

    ghost view = { λ q. record { layout = q.layout; finished = q.finished; phase = q.phase; head = q.head; chain = q.chain; written = q.written } };

    ghost invariant = { λ q. IsLayout q.layout
        × IsChainSoFar (record { layout = q.layout; finished = q.finished; phase = q.phase; head = q.head; chain = q.chain; written = q.written }) };
}

/// How many of these bytes lie in one page.
fn cut(address: u64, len: u64) -> u64
    ensures { result ≡ cut address len }
{
    len.min(4096 - address % 4096)
}

/// The bytes of a used element (virtio 1.2, section 2.7.8).
fn element_bytes(head: u16, written: u32) -> [u8; 8]
    ensures { result ≡ little_bytes 4 head ++ little_bytes 4 written }
{
    let mut bytes = [0; 8];
    LittleEndian::write_u32(&mut bytes, u32::from(head));
    LittleEndian::write_u32(&mut bytes[4..], written);
    bytes
}

/// The two bytes of an idx.
fn idx_bytes(count: u16) -> [u8; 2]
    ensures { result ≡ little_bytes 2 count }
{
    let mut bytes = [0; 2];
    LittleEndian::write_u16(&mut bytes, count);
    bytes
}

impl Queue {
    /// A queue that was just set: nothing of it was read yet.
    pub fn new(layout: Layout) -> Queue
        requires { IsLayout layout }
        ensures { result ≡ fresh_queue layout }
    {
        Queue {
            layout,
            finished: 0,
            phase: Phase::AvailableIndex,
            head: 0,
            chain: Buffers::new(),
            written: 0,
        }
    }

    /// Where the queue is with the request in work.
    pub fn phase(&self) -> Phase
        ensures { result ≡ self.now.phase }
    {
        self.phase
    }

    /// The head of the chain in work.
    pub fn head(&self) -> u16
        ensures { result ≡ self.now.head }
    {
        self.head
    }

    /// How many bytes were written for the request in work.
    pub fn written(&self) -> u32
        ensures { result ≡ self.now.written }
    {
        self.written
    }

    /// The chain that is being served: it was read exactly.
    pub fn chain(&self) -> &Buffers
        requires { self.now.phase ≡ Served }
        ensures value { result.now ≡ self.now.chain }
        ensures chain { IsChain self.now.layout.size self.now.head self.now.chain }
    {
        &self.chain
    }

    /// Does nothing: what holds of every queue. What was read of the request in work is the beginning of a
    /// chain, and from the time that it is served the whole of one; what is wanted lies in one page.
    pub fn facts(&self)
        ensures layout { IsLayout self.now.layout }
        ensures invariants { IsChainSoFar self.now }
        ensures within { wanted self.now ≢ nothing → LiesInPage (wanted self.now) }
    {
        let _phase = self.phase;
    }

    /// Which access is wanted.
    #[inline(always)]
    pub fn next(&self) -> Want
        ensures { wanted_access_of result ≡ wanted self.now }
    {
        match self.phase {
            Phase::AvailableIndex => Want::Read {
                address: self.layout.available_ring.wrapping_add(2),
                len: 2,
            },
            Phase::RingEntry => Want::Read {
                address: self.ring_entry(),
                len: 2,
            },
            Phase::Table(index) => Want::Read {
                address: self
                    .layout
                    .descriptor_table
                    .wrapping_add(16 * u64::from(index)),
                len: 16,
            },
            Phase::UsedElement(done) => self.element_piece(u64::from(done)),
            Phase::UsedIndex => Want::write(
                self.layout.used_ring.wrapping_add(2),
                &idx_bytes(self.finished.wrapping_add(1)),
            ),
            Phase::Served => Want::Nothing,
            Phase::Faulted => Want::Nothing,
        }
    }

    fn ring_entry(&self) -> u64
        ensures { result ≡ ring_entry self.now }
    {
        let slot = u64::from(self.finished % self.layout.size);
        self.layout.available_ring.wrapping_add(4 + 2 * slot)
    }

    fn used_element(&self, done: u64) -> u64
        requires { done < 8 }
        ensures { result ≡ used_element self.now done }
    {
        let slot = u64::from(self.finished % self.layout.size);
        self.layout.used_ring.wrapping_add(4 + 8 * slot + done)
    }

    fn element_piece(&self, done: u64) -> Want
        requires { done < 8 }
        ensures { wanted_access_of result ≡ wanted_in (UsedElement done) self.now }
    {
        let address = self.used_element(done);
        let len = cut(address, 8 - done);
        let bytes = element_bytes(self.head, self.written);
        Want::write(address, &bytes[done as usize..(done + len) as usize])
    }

    /// The access that was wanted was made: its bytes, or none where it was a write.
    ///
    /// After a fault nothing is wanted any more.
    pub fn took(&mut self, bytes: &[u8]) -> Result<(), ChainFault>
        requires { AreOf bytes.now (wanted self.old) }
        ensures fault { MatchResult result (λ _. chain_fault_of self.old bytes.now ≡ None) (λ fault. chain_fault_of self.old bytes.now ≡ Some fault) }
        ensures after { self.new ≡ after self.old bytes.now }
    {
        match self.fault_of(bytes) {
            Some(fault) => {
                self.phase = Phase::Faulted;
                Err(fault)
            }
            None => {
                self.advance(bytes);
                Ok(())
            }
        }
    }

    fn fault_of(&self, bytes: &[u8]) -> Option<ChainFault>
        requires { AreOf bytes.now (wanted self.now) }
        ensures { result ≡ chain_fault_of self.now bytes.now }
    {
        match self.phase {
            Phase::AvailableIndex => {
                let new = le16(bytes, 0).wrapping_sub(self.finished);
                if self.layout.size < new {
                    Some(ChainFault::BadIndex)
                } else {
                    None
                }
            }
            Phase::RingEntry => {
                if self.layout.size <= le16(bytes, 0) {
                    Some(ChainFault::BadIndex)
                } else {
                    None
                }
            }
            Phase::Table(index) => {
                let descriptor = Descriptor::decode(bytes);
                self.chain
                    .fault_at(self.layout.size, Link { index, descriptor })
            }
            _ => None,
        }
    }

    fn advance(&mut self, bytes: &[u8])
        requires bytes { AreOf bytes.now (wanted self.old) }
        requires none { chain_fault_of self.old bytes.now ≡ None }
        ensures { self.new ≡ after_in self.old.phase self.old bytes.now }
    {
        match self.phase {
            Phase::AvailableIndex => {
                let new = le16(bytes, 0).wrapping_sub(self.finished);
                if new != 0 {
                    self.phase = Phase::RingEntry;
                }
            }
            Phase::RingEntry => {
                self.head = le16(bytes, 0);
                self.chain.clear();
                self.phase = Phase::Table(self.head);
            }
            Phase::Table(index) => {
                let descriptor = Descriptor::decode(bytes);
                self.chain.push(Link { index, descriptor });
                self.phase = if descriptor.has_next() {
                    Phase::Table(descriptor.next)
                } else {
                    Phase::Served
                };
            }
            Phase::UsedElement(done) => {
                let done = u64::from(done);
                let written = done + cut(self.used_element(done), 8 - done);
                self.phase = if written == 8 {
                    Phase::UsedIndex
                } else {
                    Phase::UsedElement(written as u8)
                };
            }
            Phase::UsedIndex => {
                self.finished = self.finished.wrapping_add(1);
                self.phase = Phase::AvailableIndex;
            }
            _ => {}
        }
    }

    /// The chain was served, and so many bytes were written into its buffers: its used element comes next.
    pub fn finish(&mut self, written: u32)
        requires { self.old.phase ≡ Served }
        ensures { self.new ≡ record self.old { phase = UsedElement 0; written = written } }
    {
        self.phase = Phase::UsedElement(0);
        self.written = written;
    }
}
