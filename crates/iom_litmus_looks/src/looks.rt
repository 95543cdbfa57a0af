ghost use Rattle.std.specs.Prelude.{◌≡◌, ◌<◌, IfOk};
ghost use Rattle.iom_litmus_looks.specs.Looks.{memory_text};
ghost use Rattle.iom_litmus_looks.specs.Places.{ids_of};
ghost use Rattle.iom_script.specs.Digits.{hex_digit, hex_of};

use iom_base::{DeviceId, FRAME_SIZE, PAGE_SIZE, Sequence};
use iom_device::Device;
use iom_phys_mem::{Bytes, Memory};
use std::alloc::{AllocError, Global};

/// The ids of the devices, in their order.
pub fn ids_of(alloc: Global, devices: &[Device]) -> Result<Sequence<DeviceId>, AllocError>
    ensures { IfOk result (λ ids. ids ≡ ids_of devices.now) }
{
    let mut ids = Sequence::new(alloc);
    for device in devices {
        ids.push(device.id)?;
    }
    Ok(ids)
}

/// The lower-case hexadecimal digit of a number below 16.
fn digit_of(number: u8) -> u8
    requires { number < 16 }
    ensures { result ≡ hex_digit number }
{
    let beyond_nine = if number > 9 { b'a' - b'9' - 1 } else { 0 };
    b'0' + number + beyond_nine
}

/// Two hexadecimal digits for each byte.
fn hex_of(alloc: Global, bytes: &[u8]) -> Result<Sequence<u8>, AllocError>
    ensures { IfOk result (λ text. text ≡ hex_of bytes.now) }
{
    let mut text = Sequence::new(alloc);
    for byte in bytes {
        text.push(digit_of(*byte / 16))?;
        text.push(digit_of(*byte % 16))?;
    }
    Ok(text)
}

/// So many bytes of memory from the address on, in hexadecimal digits. None where they leave their frame, or memory has no
/// such frame.
pub fn memory_text(
    alloc: Global,
    memory: &Memory,
    address: u64,
    len: usize,
) -> Result<Sequence<u8>, AllocError>
    ensures { IfOk result (λ text. text ≡ memory_text memory.now address len) }
{
    let offset = (address % PAGE_SIZE) as usize;
    if len > FRAME_SIZE - offset {
        return Ok(Sequence::new(alloc));
    }
    let number = address / PAGE_SIZE;
    if number >= u64::from(memory.frames()) {
        return Ok(Sequence::new(alloc));
    }
    match memory.frame(number as u32) {
        Some(frame) => hex_of(alloc, &frame[offset..offset + len]),
        None => Ok(Sequence::new(alloc)),
    }
}
