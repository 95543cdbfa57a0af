//! The steps among which those are that can be taken.
ghost use Rattle.std.specs.Prelude.{◌≡◌, ℕ, ◌<◌, length, IfOk, OnOk};
ghost use Rattle.iom_litmus.specs.Listed.{IsListed, KeepsListed};
ghost use Rattle.iom_litmus.specs.Candidates.{ListsColumns, ListsDeviceSteps, ListsMessageSteps, ListsCandidates, ListsOnce, PutsOnce};

use crate::listed::is_step_among;
use crate::place::Place;
use crate::step::{HardwareStep, Step};
use crate::system::System;
use iom_base::{DeviceId, Sequence};
use iom_litmus_test::Test;
use std::alloc::{AllocError, Global};

fn add_columns(steps: &mut Sequence<Step>, columns: usize) -> Result<(), AllocError>
    ensures keeps { OnOk result (KeepsListed steps.old steps.new) }
    ensures lists { OnOk result (ListsColumns columns steps.new) }
{
    for column in 0..columns {
        steps.push(Step::Column(column))?;
    }
    Ok(())
}

fn add_device_steps(steps: &mut Sequence<Step>, devices: &[DeviceId]) -> Result<(), AllocError>
    ensures keeps { OnOk result (KeepsListed steps.old steps.new) }
    ensures lists { OnOk result (ListsDeviceSteps devices.now steps.new) }
{
    for device in devices {
        steps.push(Step::Hardware(HardwareStep::Commit(*device)))?;
        steps.push(Step::Hardware(HardwareStep::Load(*device)))?;
    }
    Ok(())
}

fn add_message_steps(steps: &mut Sequence<Step>, messages: usize) -> Result<(), AllocError>
    ensures keeps { OnOk result (KeepsListed steps.old steps.new) }
    ensures lists { OnOk result (ListsMessageSteps messages steps.new) }
{
    for message in 0..messages {
        steps.push(Step::Hardware(HardwareStep::Deliver(message)))?;
        steps.push(Step::Hardware(HardwareStep::Drop(message)))?;
        steps.push(Step::Hardware(HardwareStep::Repeat(message)))?;
    }
    Ok(())
}

/// All steps that there can be at a place, the columns' first.
pub(crate) fn candidates<S: System>(
    alloc: Global,
    test: &Test,
    place: &Place<S>,
) -> Result<Sequence<Step>, AllocError>
    ensures { IfOk result (ListsCandidates S.readings test.now place.now) }
{
    let mut steps = Sequence::new(alloc);
    add_columns(&mut steps, test.columns.as_slice().len())?;
    steps.push(Step::Hardware(HardwareStep::Fetch))?;
    steps.push(Step::Hardware(HardwareStep::Timeout))?;
    add_device_steps(&mut steps, place.system.devices())?;
    add_message_steps(&mut steps, place.system.messages())?;
    Ok(steps)
}

/// Puts the step behind the others where it isn't there.
fn put_once(once: &mut Sequence<Step>, step: Step) -> Result<(), AllocError>
    ensures { OnOk result (PutsOnce step once.old once.new) }
{
    if is_step_among(once.as_slice(), step) {
        return Ok(());
    }
    once.push(step)?;
    Ok(())
}

/// The same steps, each once: a device may be there twice.
pub(crate) fn each_once(alloc: Global, steps: &[Step]) -> Result<Sequence<Step>, AllocError>
    ensures { IfOk result (λ new. ListsOnce steps.now new) }
{
    let mut once = Sequence::new(alloc);
    for step in steps {
        put_once(&mut once, *step)?;
    }
    Ok(once)
}
