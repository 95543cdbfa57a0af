// What walks answer, from the root tables that the device's context names.
ghost use Rattle.std.specs.Prelude.{◌≢◌};
ghost use Rattle.iom_registers.specs.declared.directory.DirectoryMode.TheVariants.{Bare};

use crate::vectors::case::{Answer, Case, Told};
use iom_base::{Cause, PAGE_SIZE};
use iom_device_dir::{Context, FirstStage, SecondStage, locate};
use iom_phys_mem::{Bytes, Memory};
use iom_registers::{DirectoryMode, DirectoryPointer, Register, Registers};
use iom_stage_walk::{WalkFault, Walked, walk_both, walk_first, walk_second};

/// What `ddtp` holds after a write of the value.
fn pointer_of(value: u64) -> DirectoryPointer {
    let mut registers = Registers::new();
    registers.set(Register::Ddtp, value);
    DirectoryPointer {
        mode: registers.directory_mode(),
        ppn: registers.directory_root(),
    }
}

/// A fault that isn't a guest page fault, of which iotval2 tells nothing.
fn plain(cause: Cause) -> Told {
    Told { cause, iotval2: 0 }
}

/// What is told of a walk's fault: the guest physical address but for bits 1:0, in whose place bit 0 is set where a
/// walk's own read failed.
fn told(fault: WalkFault) -> Told {
    Told {
        cause: fault.cause,
        iotval2: fault.gpa / 4 * 4 + u64::from(fault.implicit),
    }
}

/// The address itself, where it is in memory.
fn untranslated(memory: &Memory, case: Case<'_>) -> Answer {
    if case.address / PAGE_SIZE < u64::from(memory.frames()) {
        Ok(case.address)
    } else {
        Err(plain(Cause::access_fault(case.kind)))
    }
}

/// Where the walk leads that ended so.
fn led(walked: Result<Walked, WalkFault>, case: Case<'_>) -> Answer {
    match walked {
        Ok(walked) => Ok(PAGE_SIZE * u64::from(walked.frame) + case.address % PAGE_SIZE),
        Err(fault) => Err(told(fault)),
    }
}

/// Where the address leads by the context's stages.
fn translate(memory: &Memory, context: &Context, case: Case<'_>) -> Answer {
    let (address, kind) = (case.address, case.kind);
    match (context.first_stage, context.second_stage) {
        (FirstStage::Bare, SecondStage::Bare) => untranslated(memory, case),
        (FirstStage::Tables { size, root }, SecondStage::Bare) => {
            led(walk_first(memory, size, root.number(), address, kind), case)
        }
        (FirstStage::Bare, SecondStage::Tables { size, root }) => {
            led(
                walk_second(memory, size, root.number(), address, kind),
                case,
            )
        }
        (
            FirstStage::Tables { size, root },
            SecondStage::Tables {
                size: guest_size,
                root: guest_root,
            },
        ) => {
            let number = guest_root.number();
            led(
                walk_both(memory, size, root, guest_size, number, address, kind),
                case,
            )
        }
    }
}

/// Where the address leads by the context of the device.
fn located(memory: &Memory, ddtp: DirectoryPointer, case: Case<'_>) -> Answer
    requires { ddtp.mode ≢ Bare }
{
    match locate(memory, ddtp, case.device) {
        Ok(context) => translate(memory, &context, case),
        Err(cause) => Err(plain(cause)),
    }
}

/// What a walk answers.
pub(crate) fn walked(memory: &Memory, case: Case<'_>) -> Answer {
    let ddtp = pointer_of(case.ddtp);
    if ddtp.mode == DirectoryMode::Bare {
        return untranslated(memory, case);
    }
    located(memory, ddtp, case)
}
