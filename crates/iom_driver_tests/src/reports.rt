use crate::bench::{Run, Start, Step, follow};
use crate::expect::expect;
use iom_base::{Cause, Refusal};
use iom_driver::Driver;
use iom_driver::laws::ready_after_record;
use iom_fault_queue::{Fault, FaultRing, FaultedRequest, Put, Record, Transaction};
use iom_phys_mem::{MemError, Memory};
use iom_registers::{Register, Registers};
use std::alloc::Global;
use std::marker::Model;
use std::process::Abort;
use std::test::Fail;

// A driver that was started, with memory and registers of its own, to which faults are reported.
#[derive(Drop)]
struct Desk {
    memory: Memory,
    registers: Registers,
    driver: Driver,
}

impl Model for Desk {
    ghost use Rattle.std.specs.Prelude.{◌≡◌, ℕ, true};
    ghost use Rattle.iom_driver.specs.Ready.{IsReady};
    ghost use Rattle.iom_driver.specs.StateOf.{state_of};

    ghost Value = { ℕ };

    ghost view = { λ desk. 0 };

    ghost invariant = { λ desk. ((state_of desk.driver).started ≡ true) × IsReady (state_of desk.driver) desk.memory desk.registers };
}

impl Desk {
    fn new(alloc: Global) -> Result<Box<Desk>, Fail> {
        let desk = Desk::in_place(alloc)?;
        Ok(Box::new(alloc, desk)?)
    }

    fn in_place(alloc: Global) -> Result<Desk, MemError> {
        let mut memory = Memory::new(alloc, 64)?;
        let mut registers = Registers::new();
        let mut driver = Driver::new(alloc, 64, 1)?;
        driver.start(&mut memory, &mut registers);
        Ok(Desk {
            memory,
            registers,
            driver,
        })
    }

    // The IOMMU reports a fault.
    fn report(&mut self, record: Record) -> Put {
        ready_after_record();
        FaultRing::put(&mut self.memory, &mut self.registers, record)
    }

    fn faults(&mut self) -> Result<Option<Record>, Refusal> {
        self.driver.faults(&self.memory, &mut self.registers)
    }

    fn register(&self, register: Register) -> u64 {
        self.registers.value(register)
    }

    fn expect_report(&mut self, rt: &impl Abort, address: u64, expected: Put) {
        expect(rt, self.report(fault_at(address)) == expected);
    }

    // The fault of this address is told.
    fn expect_fault(&mut self, rt: &impl Abort, address: u64) {
        let reply = self.faults();
        expect(rt, reply == Ok(Some(fault_at(address))));
    }

    // There is none.
    fn expect_none(&mut self, rt: &impl Abort) {
        let reply = self.faults();
        expect(rt, reply == Ok(None));
    }

    fn expect_register(&self, rt: &impl Abort, register: Register, expected: u64) {
        expect(rt, self.register(register) == expected);
    }

    // So many faults fit into the queue and come out in their order, and one more is lost.
    fn overflows(&mut self, rt: &impl Abort, room: u64) {
        for at in 0..room {
            self.expect_report(rt, at, Put::Written);
        }
        self.expect_report(rt, room, Put::Overflow);
        for at in 0..room {
            self.expect_fault(rt, at);
        }
    }

    // When the queue is found empty, fqof is cleared, and the queue stays on.
    fn opens_again(&mut self, rt: &impl Abort) {
        self.expect_register(rt, Register::Fqcsr, 0x1_0201);
        self.expect_report(rt, 0, Put::Overflow);
        self.expect_none(rt);
        self.expect_register(rt, Register::Fqcsr, 0x1_0001);
    }
}

// The record of device 1's read at an address, which no page maps.
fn fault_at(address: u64) -> Record {
    let request = FaultedRequest {
        device: 1,
        transaction: Transaction::UntranslatedRead,
        address,
    };
    let fault = Fault {
        cause: Cause::ReadPageFault,
        guest_address: 0,
        implicit: false,
    };
    Record::new(request, fault)
}

/// Before the start.
static RUNS: [Run; 1] = [
    // Before the start no fault is told.
    (
        "before the start there are none",
        Start::Off,
        &[Step::FaultsRefused(Refusal::NotStarted)],
    ),
];

// Each step is answered as its run says.
#[test]
fn no_fault_is_told_before_the_start(rt: HostRuntime) {
    follow(&rt, rt.alloc(), &RUNS);
}

// A fault is told once, and the head moves on behind it.
#[test]
fn a_fault_is_told_once(rt: HostRuntime) -> Result<(), Fail> {
    let mut desk = Desk::new(rt.alloc())?;
    desk.expect_none(&rt);
    desk.expect_report(&rt, 0x4000, Put::Written);
    desk.expect_fault(&rt, 0x4000);
    desk.expect_register(&rt, Register::Fqh, 1);
    desk.expect_none(&rt);
    desk.expect_register(&rt, Register::Fqh, 1);
    Ok(())
}

// The queue holds 127 records. The next sets fqof, bit 9 of fqcsr, and while that is 1 none is written, though
// there is room; when the queue is found empty it is cleared, and the queue stays on.
#[test]
fn an_empty_queue_is_open_again(rt: HostRuntime) -> Result<(), Fail> {
    let mut desk = Desk::new(rt.alloc())?;
    for round in 0..3 {
        desk.overflows(&rt, 127);
        desk.opens_again(&rt);
    }
    Ok(())
}
