ghost use Rattle.std.specs.Prelude.{◌≡◌, ◌<◌, ◌≤◌, ◌^◌};
ghost use Rattle.iom_registers.specs.Queues.{command_base, command_entries, command_head, command_tail, is_command_queue_on, is_processing_commands, next_index, with_command_done, with_cqmf, with_cmd_to, with_cmd_ill, with_fence_w_ip};

use crate::indices::{index_after, index_in};
use crate::registers::Registers;

/// The command queue, as the registers have it (IOMMU specification, section 3.1, "Command-Queue (CQ)").
impl Registers {
    /// The physical address of the command queue's first entry.
    pub fn command_base(&self) -> u64
        ensures value { result ≡ command_base self.now }
        ensures range { result < 2 ^ 56 }
    {
        self.cqb.address()
    }

    /// How many entries the command queue has: a power of two.
    pub fn command_entries(&self) -> u64
        ensures value { result ≡ command_entries self.now }
        ensures range { (2 ≤ result) × (result ≤ 2 ^ 32) }
    {
        self.cqb.entries()
    }

    /// The index of the next command.
    pub fn command_head(&self) -> u32
        ensures value { result ≡ command_head self.now }
        ensures below { result < command_entries self.now }
    {
        index_in(self.cqh as u64, self.command_entries())
    }

    /// The index after the last command.
    pub fn command_tail(&self) -> u32
        ensures value { result ≡ command_tail self.now }
        ensures below { result < command_entries self.now }
    {
        index_in(self.cqt as u64, self.command_entries())
    }

    /// Whether the command queue is on.
    pub fn is_command_queue_on(&self) -> bool
        ensures { result ≡ is_command_queue_on self.now }
    {
        self.cqcsr.cqen
    }

    /// Whether commands are processed: the queue is on, and none of `cqmf`, `cmd_to` and `cmd_ill` is 1.
    pub fn is_processing_commands(&self) -> bool
        ensures { result ≡ is_processing_commands self.now }
    {
        self.cqcsr.cqen && !(self.cqcsr.cqmf || self.cqcsr.cmd_to || self.cqcsr.cmd_ill)
    }

    /// The command at the head is done: the next one is that after it.
    pub fn advance_command_head(&mut self)
        ensures value { self.new ≡ with_command_done self.old }
        ensures head { command_head self.new ≡ next_index (command_entries self.old) (command_head self.old) }
    {
        self.cqh = index_after(self.command_head(), self.command_entries());
    }

    /// Sets `cqmf`, since a command couldn't be loaded or a fence's word not be stored.
    pub fn set_cqmf(&mut self)
        ensures { self.new ≡ with_cqmf self.old }
    {
        self.cqcsr.cqmf = true;
        self.raise_interrupts();
    }

    /// Sets `cmd_to`, since a command took too long.
    pub fn set_cmd_to(&mut self)
        ensures { self.new ≡ with_cmd_to self.old }
    {
        self.cqcsr.cmd_to = true;
        self.raise_interrupts();
    }

    /// Sets `cmd_ill`, since the command at the head is illegal.
    pub fn set_cmd_ill(&mut self)
        ensures { self.new ≡ with_cmd_ill self.old }
    {
        self.cqcsr.cmd_ill = true;
        self.raise_interrupts();
    }

    /// Sets `fence_w_ip`, since a fence that asked for an interrupt is done.
    pub fn set_fence_w_ip(&mut self)
        ensures { self.new ≡ with_fence_w_ip self.old }
    {
        self.cqcsr.fence_w_ip = true;
        self.raise_interrupts();
    }
}
