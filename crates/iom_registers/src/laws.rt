//! Laws of the table: functions that do nothing, whose contracts are the laws.

ghost use Rattle.std.specs.Prelude.{◌≡◌, ◌<◌, ℕ};
ghost use Rattle.iom_registers.specs.Fields.{cqcsr_bits, fqcsr_bits, ipsr_bits};
ghost use Rattle.iom_registers.specs.Interrupts.{AreRaised};
ghost use Rattle.iom_registers.specs.Queues.{command_entries, command_head, command_tail, command_status, fault_entries, fault_head, fault_tail, fault_status, pending_interrupts, next_index, with_command_done, with_cqmf, with_cmd_to, with_cmd_ill, with_fence_w_ip, with_record_written, with_fqmf, with_fqof};
ghost use Rattle.iom_registers.specs.Table.{at_power_on, value_of, written};
ghost use Rattle.iom_registers.specs.declared.register.Register.{Register};
ghost use Rattle.iom_registers.specs.declared.registers.Registers.{Registers};

/// A pending bit is 1 whenever its interrupt is due: at power-on, and after whatever software writes.
pub fn interrupts_are_raised()
    ensures power_on { AreRaised at_power_on }
    ensures written { (r : Registers) (register : Register) (value : ℕ)
        → AreRaised r → AreRaised (written r register value) }
{}

/// The same after whatever the hardware changes.
pub fn interrupts_stay_raised()
    ensures done { (r : Registers) → AreRaised r → AreRaised (with_command_done r) }
    ensures cqmf { (r : Registers) → AreRaised r → AreRaised (with_cqmf r) }
    ensures cmd_to { (r : Registers) → AreRaised r → AreRaised (with_cmd_to r) }
    ensures cmd_ill { (r : Registers) → AreRaised r → AreRaised (with_cmd_ill r) }
    ensures fence_w_ip { (r : Registers) → AreRaised r → AreRaised (with_fence_w_ip r) }
    ensures record { (r : Registers) → AreRaised r → AreRaised (with_record_written r) }
    ensures fqmf { (r : Registers) → AreRaised r → AreRaised (with_fqmf r) }
    ensures fqof { (r : Registers) → AreRaised r → AreRaised (with_fqof r) }
{}

/// The bits of a status register that is read are those that it holds.
pub fn status_reads_back()
    ensures cqcsr { (r : Registers) → cqcsr_bits (value_of r Register.Cqcsr) ≡ command_status r }
    ensures fqcsr { (r : Registers) → fqcsr_bits (value_of r Register.Fqcsr) ≡ fault_status r }
    ensures ipsr { (r : Registers) → ipsr_bits (value_of r Register.Ipsr) ≡ pending_interrupts r }
{}

/// An index below the queue's size is where the queue then stands: the one that software writes, and the
/// next one of the IOMMU.
pub fn indices_read_back()
    ensures tail { (r : Registers) (index : ℕ) → index < command_entries r
        → command_tail (written r Register.Cqt index) ≡ index }
    ensures head { (r : Registers)
        → command_head (with_command_done r) ≡ next_index (command_entries r) (command_head r) }
    ensures fault_head { (r : Registers) (index : ℕ) → index < fault_entries r
        → fault_head (written r Register.Fqh index) ≡ index }
    ensures fault_tail { (r : Registers)
        → fault_tail (with_record_written r) ≡ next_index (fault_entries r) (fault_tail r) }
{}
