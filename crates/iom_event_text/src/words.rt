// The words of which the lines of events are made.
ghost use Rattle.std.specs.Prelude.{◌≡◌, ◌+◌, ◌*◌, ◌/◌, ◌%◌, ◌<◌, ◌≤◌, ◌++◌, [], ◌∷◌, All, length};
ghost use Rattle.std.specs.Fmt.{decimal};
ghost use Rattle.iom_script.specs.Digits.{hex_digit, hex_of};
ghost use Rattle.iom_event_text.specs.Texts.{device_text, address_text, right_text, mode_text, attaching_text, kind_text, HasDiskInRange};

use iom_base::{DeviceId, GrantRights, Mode, NewDevice, Size};
use iom_script::{BUFFER_SIZE, LineBuffer};

/// The lower-case hexadecimal digit of a number below 16.
fn glyph(digit: u8) -> u8
    requires { digit < 16 }
    ensures { result ≡ hex_digit digit }
{
    if digit < 10 {
        b'0' + digit
    } else {
        b'a' + (digit - 10)
    }
}

/// The lowest hexadecimal digit of the number.
fn lowest_digit(number: u32) -> u8
    ensures { result ≡ hex_digit (number % 16) }
{
    glyph((number % 16) as u8)
}

/// Appends a space, and the device's six hexadecimal digits.
#[tactic(auto, using(crate::proofs::TextLemmas::six_digits))]
pub(crate) fn append_device(out: &mut LineBuffer, device: DeviceId)
    requires { length out.old + 7 ≤ BUFFER_SIZE }
    ensures text { out.new ≡ out.old ++ 32 ∷ device_text device }
    ensures short { length out.new ≤ length out.old + 7 }
{
    let second = device / 16;
    let third = second / 16;
    let fourth = third / 16;
    let fifth = fourth / 16;
    let sixth = fifth / 16;
    out.append(&[
        b' ',
        lowest_digit(sixth),
        lowest_digit(fifth),
        lowest_digit(fourth),
        lowest_digit(third),
        lowest_digit(second),
        lowest_digit(device),
    ]);
}

/// Appends a space, and the number in decimal.
pub(crate) fn append_number(out: &mut LineBuffer, number: u64)
    requires { length out.old + 21 ≤ BUFFER_SIZE }
    ensures text { out.new ≡ out.old ++ 32 ∷ decimal number }
    ensures short { length out.new ≤ length out.old + 21 }
{
    out.append(b" ");
    out.append_decimal(number);
}

/// Appends a space, and the address.
pub(crate) fn append_address(out: &mut LineBuffer, address: u64)
    requires { length out.old + 19 ≤ BUFFER_SIZE }
    ensures text { out.new ≡ out.old ++ 32 ∷ address_text address }
    ensures short { length out.new ≤ length out.old + 19 }
{
    out.append(b" ");
    out.append_hex_number(address);
}

/// Appends the two hexadecimal digits of a byte.
fn append_byte(out: &mut LineBuffer, byte: u8)
    requires { length out.old + 2 ≤ BUFFER_SIZE }
    ensures { out.new ≡ out.old ++ hex_of (byte ∷ []) }
{
    out.append(&[glyph(byte / 16), glyph(byte % 16)]);
}

/// Appends a space, and two hexadecimal digits for each byte.
pub(crate) fn append_bytes(out: &mut LineBuffer, bytes: &[u8])
    requires few { length bytes.now ≤ 4096 }
    requires room { length out.old + 8193 ≤ BUFFER_SIZE }
    ensures text { out.new ≡ out.old ++ 32 ∷ hex_of bytes.now }
    ensures range { All (λ byte. byte < 256) bytes.now }
    ensures short { length out.new ≤ length out.old + 8193 }
{
    out.append(b" ");
    for byte in bytes {
        append_byte(out, *byte);
    }
}

/// Appends a space, and the right.
pub(crate) fn append_right(out: &mut LineBuffer, rights: GrantRights)
    requires { length out.old + 3 ≤ BUFFER_SIZE }
    ensures text { out.new ≡ out.old ++ 32 ∷ right_text rights }
    ensures short { length out.new ≤ length out.old + 3 }
{
    match rights {
        GrantRights::ReadOnly => out.append(b" r"),
        GrantRights::ReadWrite => out.append(b" rw"),
    }
}

/// The word for a mode.
fn mode_word(mode: Mode) -> &'static [u8]
    ensures text { result.now ≡ 32 ∷ mode_text mode }
    ensures short { length result.now ≤ 9 }
{
    match mode {
        Mode::First(Size::Sv39) => b" first",
        Mode::First(Size::Sv48) => b" first48",
        Mode::Second(Size::Sv39) => b" second",
        Mode::Second(Size::Sv48) => b" second48",
        Mode::Both(Size::Sv39) => b" both",
        Mode::Both(Size::Sv48) => b" both48",
    }
}

/// Appends a space, and how a device is attached.
pub(crate) fn append_attaching(out: &mut LineBuffer, mode: Mode, ats: bool)
    requires { length out.old + 13 ≤ BUFFER_SIZE }
    ensures text { out.new ≡ out.old ++ 32 ∷ attaching_text mode ats }
    ensures short { length out.new ≤ length out.old + 13 }
{
    out.append(mode_word(mode));
    if ats {
        out.append(b" ats");
    }
}

/// Appends a space, and what is plugged in.
pub(crate) fn append_kind(out: &mut LineBuffer, new: NewDevice)
    requires { length out.old + 26 ≤ BUFFER_SIZE }
    ensures text { out.new ≡ out.old ++ 32 ∷ kind_text new }
    ensures range { HasDiskInRange new }
    ensures short { length out.new ≤ length out.old + 26 }
{
    match new {
        NewDevice::Raw => out.append(b" raw"),
        NewDevice::Ats => out.append(b" ats"),
        NewDevice::Block { disk } => {
            out.append(b" blk");
            append_number(out, disk);
        }
        NewDevice::CachedBlock { disk } => {
            out.append(b" ablk");
            append_number(out, disk);
        }
    }
}
