// What the driver learns of its fences.
ghost use Rattle.std.specs.Prelude.{◌≡◌, ◌+◌, ◌-◌, ◌≤◌, ◌<◌, ◌*◌, Some, length, map};
ghost use Rattle.iom_base.specs.Sizes.{page_size};
ghost use Rattle.iom_ledger.specs.Confirmations.{ConfirmsFrom};
ghost use Rattle.iom_ledger.specs.History.{History, confirmed_from};
ghost use Rattle.iom_ledger.specs.Shown.{Agrees};
ghost use Rattle.iom_phys_mem.specs.Words.{word_at};
ghost use Rattle.iom_driver.specs.Confirmed.{driven_once_confirmed, owner_given_back, ClearsGone};
ghost use Rattle.iom_driver.specs.Devices.{HaveOwnIds};
ghost use Rattle.iom_driver.specs.Polling.{AnswersPoll};
ghost use Rattle.iom_driver.specs.Ready.{IsReady};
ghost use Rattle.iom_driver.specs.StateOf.{state_of};

use crate::access::has_timed_out;
use crate::answers::Polled;
use crate::device::{Attachment, Device};
use crate::driver::Driver;
use crate::layout::completion_frame;
use byteorder::{ByteOrder, LittleEndian};
use iom_base::{Owner, Refusal};
use iom_ledger::Ledger;
use iom_phys_mem::Memory;
use iom_registers::Mmio;
use iom_table_frames::TableFrames;

/// The number in the first four bytes of the frame.
pub(crate) fn first_word(memory: &Memory, frame: u32) -> u32
    requires { frame < length memory.now }
    ensures { word_at 4 memory.now (page_size * frame) ≡ Some result }
{
    match memory.frame(frame) {
        Some(bytes) => LittleEndian::read_u32(&bytes[..]),
        None => 0,
    }
}

/// Confirms the tickets after the one up to the other, one after another.
fn confirm_after(ledger: &mut Ledger, confirmed: u32, done: u32)
    requires { confirmed ≤ done }
    ensures agrees { (h : History) → Agrees ledger.old h
        → Agrees ledger.new (confirmed_from (confirmed + 1) (done - confirmed) h) }
    ensures shown { ConfirmsFrom ledger.old ledger.new (confirmed + 1) (done - confirmed) }
{
    for before in confirmed..done {
        ledger.confirm(before + 1);
    }
}

/// Each device that leaves under a ticket up to this one is attached to nothing from now on; its frames have
/// no owner any more, and are zero.
fn let_go(devices: &mut Vec<Device>, owners: &mut TableFrames, memory: &mut Memory, done: u32)
    requires ids { HaveOwnIds devices.old.items }
    requires size { length owners.old ≡ length memory.old }
    ensures devices { devices.new.items ≡ map (driven_once_confirmed done) devices.old.items }
    ensures owners { owners.new ≡ map (owner_given_back done devices.old.items) owners.old }
    ensures memory { ClearsGone done devices.old.items owners.old memory.old memory.new }
{
    for place in 0..devices.len() {
        let device = devices[place];
        if device.attachment.has_left(done) {
            owners.give_back(memory, Owner::OneDevice(device.id));
            devices[place].attachment = Attachment::Detached;
        }
    }
}

impl Driver {
    /// Reads the completion word, confirms each ticket whose fence isn't above it, from the oldest on, and says
    /// whether the IOMMU gave a fence up. A device that leaves under one of them is attached to nothing from
    /// then on, and its frames and its number are given back: devices are looked at only where something is
    /// confirmed. `NotStarted` is its one refusal, and then nothing changes. Takes no memory.
    pub fn poll<M: Mmio>(&mut self, memory: &mut Memory, io: &M) -> Result<Polled, Refusal>
        requires ready { IsReady (state_of self.old) memory.old (M.registers io.now) }
        ensures effect { AnswersPoll (M.registers io.now) (state_of self.old) memory.old result (state_of self.new) memory.new }
        ensures ready { IsReady (state_of self.new) memory.new (M.registers io.now) }
    {
        if !self.started {
            return Err(Refusal::NotStarted);
        }
        let timed_out = has_timed_out(io);
        let word = first_word(memory, completion_frame(self.frames));
        let done = self.last_done(word);
        if done == self.confirmed {
            return Ok(Polled {
                first: 0,
                count: 0,
                timed_out,
            });
        }
        let first = self.confirmed + 1;
        let count = done - self.confirmed;
        confirm_after(&mut self.ledger, self.confirmed, done);
        let_go(&mut self.devices, &mut self.owners, memory, done);
        self.confirmed = done;
        Ok(Polled {
            first,
            count,
            timed_out,
        })
    }
}
