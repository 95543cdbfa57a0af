use iom_board::Board;
use iom_device::Device;
use iom_fabric::{Message, OnLink};

/// The number with one more mixed in. Nothing rests on which number it is but time.
pub fn mixed(number: u64, next: u64) -> u64 {
    (number.rotate_left(5) ^ next).wrapping_mul(0x517c_c1b7_2722_0a95)
}

/// Of a device: its accesses in flight and those that were accepted, and what its cache has.
fn of_device(number: u64, hardware: &Board, device: &Device) -> u64 {
    let in_flight = mixed(number, hardware.iommu.in_flight(device.id) as u64);
    let accepted = mixed(in_flight, hardware.iommu.accepted(device.id));
    let context = hardware.iommu.cached_context(device.id).is_some();
    let mut number = mixed(accepted, context as u64);
    if let Some(cache) = &device.cache {
        number = mixed(number, cache.epoch());
        number = mixed(number, cache.entries().len() as u64);
    }
    number
}

/// Of a message: who sends or gets it, its kind, and its number.
fn of_message(number: u64, on_link: OnLink) -> u64 {
    let number = mixed(number, u64::from(on_link.device));
    match on_link.message {
        Message::Ask { epoch, .. } => mixed(mixed(number, 0), epoch),
        Message::Answer { epoch, .. } => mixed(mixed(number, 1), epoch),
        Message::InvReq { serial, .. } => mixed(mixed(number, 2), serial),
        Message::InvDone { serial } => mixed(mixed(number, 3), serial),
    }
}

fn of_messages(mut number: u64, hardware: &Board) -> u64 {
    let messages = hardware.messages();
    for place in 0..messages.len() {
        if let Some(on_link) = messages.get(place) {
            number = of_message(number, on_link);
        }
    }
    number
}

/// A number by which equal hardware is looked for. Nothing rests on it but time.
pub fn fingerprint_of(hardware: &Board) -> u64 {
    let registers = hardware.iommu.registers();
    let mut number = mixed(0, u64::from(registers.command_head()));
    number = mixed(number, u64::from(registers.command_tail()));
    number = mixed(number, u64::from(registers.fault_tail()));
    number = mixed(number, hardware.iommu.slots().last());
    number = mixed(number, hardware.iommu.slots().len() as u64);
    for device in hardware.devices.iter() {
        number = of_device(number, hardware, device);
    }
    of_messages(number, hardware)
}
