//! The words of a line, each with what it says: for whoever reads lines of this language, or of one beside it.
ghost use Rattle.std.specs.Prelude.{◌≡◌, ◌/◌, ◌%◌, ◌^◌, ◌*◌, ◌<◌, ◌≤◌, ◌++◌, ◌∷◌, ◌↔◌, [], All, length, take, IfOk, IsTrue, None};
ghost use Rattle.std.specs.Bool.{MatchBool};
ghost use Rattle.memchr.specs.Find.{IsFirstByte, is_byte};
ghost use Rattle.iom_script.specs.Digits.{hex_digit, hex_digits, hex_of};
ghost use Rattle.iom_script.specs.Words.{IsDevice, IsNumber, IsPage, IsAddress, IsRight, IsMode, IsAttaching, IsKind, IsHex};
ghost use Rattle.iom_script.specs.Reading.{Reads};
ghost use Rattle.iom_script.specs.Cuts.{shown, shown_rest, with_rest, IsCut, BeginsWithWord, LeadsWithHex, LeadsWithDecimal, LeadsWithNumber, SaysFirst};

use crate::buffer::write_at;
pub use crate::lanes::eight_bytes;
use crate::lanes::{put_64, sixteen_bytes};
use iom_base::{DeviceId, GrantRights, Mode, NewDevice, Sequence, Size};
use iom_fabric::PageNumber;
use memchr::{memchr, memchr_iter};
use std::alloc::{AllocError, Global};

/// Where the byte first is. The iterator looks near at hand first, and lines are short.
#[inline(always)]
fn first_place(byte: u8, bytes: &[u8]) -> Option<usize>
    ensures { IsFirstByte (is_byte byte) bytes.now result }
{
    memchr_iter(byte, bytes).next()
}

/// The bytes before the first separator, and those behind it.
#[inline(always)]
pub fn cut(bytes: &[u8], separator: u8) -> Option<(&[u8], &[u8])>
    ensures { Reads (shown result) (λ parts. IsCut bytes.now separator parts.0 parts.1) }
{
    let place = first_place(separator, bytes)?;
    Some((&bytes[..place], &bytes[place + 1..]))
}

/// What follows, where the text begins so.
#[inline(always)]
pub fn after<'a>(text: &'a [u8], start: &[u8]) -> Option<&'a [u8]>
    ensures { Reads (shown_rest result) (λ rest. text.now ≡ start.now ++ rest) }
{
    text.strip_prefix(start)
}

/// Whether the text is the word. Written into its caller, where the word is known: a comparison of slices is a call.
#[inline(always)]
pub fn is_word(text: &[u8], word: &[u8]) -> bool
    ensures { IsTrue result ↔ (text.now ≡ word.now) }
{
    text.len() == word.len() && after(text, word).is_some()
}

/// No digit's value: more than six digits say.
const NO: u64 = 16777216;

/// The value of each byte as a lower-case hexadecimal digit, or none.
#[rattlefmt::skip]
const HEX_VALUES: [u64; 256] = [
    NO, NO, NO, NO, NO, NO, NO, NO, NO, NO, NO, NO, NO, NO, NO, NO,
    NO, NO, NO, NO, NO, NO, NO, NO, NO, NO, NO, NO, NO, NO, NO, NO,
    NO, NO, NO, NO, NO, NO, NO, NO, NO, NO, NO, NO, NO, NO, NO, NO,
    0, 1, 2, 3, 4, 5, 6, 7, 8, 9, NO, NO, NO, NO, NO, NO, // 0 to ?
    NO, NO, NO, NO, NO, NO, NO, NO, NO, NO, NO, NO, NO, NO, NO, NO, // @ to O
    NO, NO, NO, NO, NO, NO, NO, NO, NO, NO, NO, NO, NO, NO, NO, NO,
    NO, 10, 11, 12, 13, 14, 15, NO, NO, NO, NO, NO, NO, NO, NO, NO, // ` to o
    NO, NO, NO, NO, NO, NO, NO, NO, NO, NO, NO, NO, NO, NO, NO, NO,
    NO, NO, NO, NO, NO, NO, NO, NO, NO, NO, NO, NO, NO, NO, NO, NO,
    NO, NO, NO, NO, NO, NO, NO, NO, NO, NO, NO, NO, NO, NO, NO, NO,
    NO, NO, NO, NO, NO, NO, NO, NO, NO, NO, NO, NO, NO, NO, NO, NO,
    NO, NO, NO, NO, NO, NO, NO, NO, NO, NO, NO, NO, NO, NO, NO, NO,
    NO, NO, NO, NO, NO, NO, NO, NO, NO, NO, NO, NO, NO, NO, NO, NO,
    NO, NO, NO, NO, NO, NO, NO, NO, NO, NO, NO, NO, NO, NO, NO, NO,
    NO, NO, NO, NO, NO, NO, NO, NO, NO, NO, NO, NO, NO, NO, NO, NO,
    NO, NO, NO, NO, NO, NO, NO, NO, NO, NO, NO, NO, NO, NO, NO, NO,
];

/// The value of a lower-case hexadecimal digit.
fn hex_value(digit: u8) -> Option<u8>
    ensures { Reads result (λ value. (value < 16) × (digit ≡ hex_digit value)) }
{
    let value = HEX_VALUES[usize::from(digit)];
    if value < 16 { Some(value as u8) } else { None }
}

/// The number that so many hexadecimal digits say.
fn hex_number(text: &[u8]) -> Option<u64>
    requires { length text.now ≤ 16 }
    ensures { Reads result (λ number. (number < 16 ^ length text.now) × (text.now ≡ hex_digits (length text.now) number)) }
{
    let mut number = 0u64;
    for digit in text {
        number = number * 16 + u64::from(hex_value(*digit)?);
    }
    Some(number)
}

/// The number that the first hexadecimal digits say, 16 at most, and how many they are.
fn leading_hex(text: &[u8]) -> (u64, usize)
    ensures { LeadsWithHex text.now result.0 result.1 }
{
    let most = text.len().min(16);
    let mut number = 0u64;
    for count in 0..most {
        match hex_value(text[count]) {
            Some(value) => number = number * 16 + u64::from(value),
            None => return (number, count),
        }
    }
    (number, most)
}

/// The number that six hexadecimal digits say. That each byte is one shows in the end alone: where one is none,
/// the number is more than six digits say.
fn six_digits(text: &[u8]) -> Option<u64>
    requires { length text.now ≡ 6 }
    ensures { Reads result (λ number. (number < 16 ^ length text.now) × (text.now ≡ hex_digits (length text.now) number)) }
{
    let mut number = 0u64;
    for digit in text {
        number = number * 16 + HEX_VALUES[usize::from(*digit)];
    }
    if number < NO { Some(number) } else { None }
}

/// The device that the word names.
pub fn device_of(text: &[u8]) -> Option<DeviceId>
    ensures { Reads result (IsDevice text.now) }
{
    if text.len() != 6 {
        return None;
    }
    let number = six_digits(text)?;
    Some(number as u32)
}

/// The number below 2^64 that the first decimal digits say, as many as there are, and how many they are.
/// None where that number is too large.
fn leading_decimal(text: &[u8]) -> Option<(u64, usize)>
    ensures { Reads result (λ read. LeadsWithDecimal text.now read.0 read.1) }
{
    let mut number = 0u64;
    // So few digits are always below 2^64.
    let few = text.len().min(19);
    for count in 0..few {
        let digit = text[count];
        if !digit.is_ascii_digit() {
            return Some((number, count));
        }
        number = number * 10 + u64::from(digit - b'0');
    }
    for place in few..text.len() {
        let digit = text[place];
        if !digit.is_ascii_digit() {
            return Some((number, place));
        }
        number = number
            .checked_mul(10)?
            .checked_add(u64::from(digit - b'0'))?;
    }
    Some((number, text.len()))
}

/// The same, where the digits are those of a number: there are some, and no zero stands before others.
pub fn leading_number(text: &[u8]) -> Option<(u64, usize)>
    ensures { Reads result (λ read. LeadsWithNumber text.now read.0 read.1) }
{
    let (number, count) = leading_decimal(text)?;
    if count == 0 || (text[0] == b'0' && count > 1) {
        return None;
    }
    Some((number, count))
}

/// The number that a decimal digit says.
fn one_digit(digit: u8) -> Option<u64>
    ensures { Reads result (IsNumber (digit ∷ [])) }
{
    if digit.is_ascii_digit() {
        Some(u64::from(digit - b'0'))
    } else {
        None
    }
}

/// The number that the word says.
// A call: written into the readers of all events, the loop would carry what their lines say.
#[inline(never)]
pub fn number_of(text: &[u8]) -> Option<u64>
    ensures { Reads result (IsNumber text.now) }
{
    if text.len() == 1 {
        return one_digit(text[0]);
    }
    let (number, count) = leading_number(text)?;
    if count != text.len() {
        return None;
    }
    Some(number)
}

/// The page that the word says.
pub fn page_of(text: &[u8]) -> Option<PageNumber>
    ensures { Reads result (IsPage text.now) }
{
    let number = number_of(text)?;
    PageNumber::new(number)
}

/// The right that the word says.
pub fn right_of(text: &[u8]) -> Option<GrantRights>
    ensures { Reads result (IsRight text.now) }
{
    if is_word(text, b"r") {
        Some(GrantRights::ReadOnly)
    } else if is_word(text, b"rw") {
        Some(GrantRights::ReadWrite)
    } else {
        None
    }
}

/// The mode that the word says.
fn mode_of(text: &[u8]) -> Option<Mode>
    ensures { Reads result (IsMode text.now) }
{
    if text == b"first".as_slice() {
        Some(Mode::First(Size::Sv39))
    } else if text == b"second".as_slice() {
        Some(Mode::Second(Size::Sv39))
    } else if text == b"both".as_slice() {
        Some(Mode::Both(Size::Sv39))
    } else if text == b"first48".as_slice() {
        Some(Mode::First(Size::Sv48))
    } else if text == b"second48".as_slice() {
        Some(Mode::Second(Size::Sv48))
    } else if text == b"both48".as_slice() {
        Some(Mode::Both(Size::Sv48))
    } else {
        None
    }
}

/// The word before the first space, and what is behind it. For short texts: `cut` is for whole scripts, and is
/// fast since it is called there alone.
fn first_word(text: &[u8]) -> Option<(&[u8], &[u8])>
    ensures { Reads (shown result) (λ parts. IsCut text.now 32 parts.0 parts.1) }
{
    let place = memchr(b' ', text)?;
    Some((&text[..place], &text[place + 1..]))
}

/// The mode, and whether `ats` follows it.
pub fn attaching_of(text: &[u8]) -> Option<(Mode, bool)>
    ensures { Reads result (λ read. IsAttaching text.now read.0 read.1) }
{
    if let Some(mode) = mode_of(text) {
        return Some((mode, false));
    }
    let (word, rest) = first_word(text)?;
    if !is_word(rest, b"ats") {
        return None;
    }
    let mode = mode_of(word)?;
    Some((mode, true))
}

/// What the words say that is plugged in.
pub fn kind_of(text: &[u8]) -> Option<NewDevice>
    ensures { Reads result (IsKind text.now) }
{
    if is_word(text, b"raw") {
        return Some(NewDevice::Raw);
    }
    if is_word(text, b"ats") {
        return Some(NewDevice::Ats);
    }
    if let Some(number) = after(text, b"blk ") {
        let disk = number_of(number)?;
        return Some(NewDevice::Block { disk });
    }
    let number = after(text, b"ablk ")?;
    let disk = number_of(number)?;
    Some(NewDevice::CachedBlock { disk })
}

/// The byte that two hexadecimal digits say.
// Written into the loops over digits of its readers.
#[inline(always)]
pub fn byte_of(high: u8, low: u8) -> Option<u8>
    ensures { Reads result (λ byte. (byte < 256) × (high ≡ hex_digit (byte / 16)) × (low ≡ hex_digit (byte % 16))) }
{
    let high = hex_value(high)?;
    let low = hex_value(low)?;
    Some(high * 16 + low)
}

/// Writes the bytes that whole groups of 128 digits say. False where they don't.
// Written into its caller, as its loop is most of that.
#[inline(always)]
fn put_wide(places: &mut [u8], text: &[u8]) -> bool
    requires { length text.now ≡ 2 * length places.old }
    ensures len { length places.new ≡ length places.old }
    ensures said { MatchBool result (SaysFirst text.now (64 * (length text.now / 128)) (take (64 * (length text.now / 128)) places.new)) (Reads None (IsHex text.now)) }
{
    for group in 0..text.len() / 128 {
        if !put_64(places, 64 * group, &text[128 * group..128 * group + 128]) {
            return false;
        }
    }
    true
}

/// Writes the bytes that whole groups of 32 digits say, four groups at a time where there are four. False where they don't.
// Written into its caller, as its loop is most of that.
#[inline(always)]
fn put_groups(places: &mut [u8], text: &[u8]) -> bool
    requires { length text.now ≡ 2 * length places.old }
    ensures len { length places.new ≡ length places.old }
    ensures said { MatchBool result (SaysFirst text.now (16 * (length text.now / 32)) (take (16 * (length text.now / 32)) places.new)) (Reads None (IsHex text.now)) }
{
    if !put_wide(places, text) {
        return false;
    }
    for group in 4 * (text.len() / 128)..text.len() / 32 {
        match sixteen_bytes(&text[32 * group..32 * group + 32]) {
            Some(sixteen) => write_at(places, 16 * group, &sixteen),
            None => return false,
        }
    }
    true
}

/// Writes the bytes that the digits say, two of them for each place. False where they don't.
pub fn put_bytes(places: &mut [u8], text: &[u8]) -> bool
    requires { length text.now ≡ 2 * length places.old }
    ensures len { length places.new ≡ length places.old }
    ensures said { MatchBool result (All (λ byte. byte < 256) places.new × (text.now ≡ hex_of places.new)) (Reads None (IsHex text.now)) }
{
    if !put_groups(places, text) {
        return false;
    }
    for i in 16 * (text.len() / 32)..places.len() {
        match byte_of(text[2 * i], text[2 * i + 1]) {
            Some(byte) => write_at(places, i, &[byte]),
            None => return false,
        }
    }
    true
}

/// The bytes that the word says. They take memory once, as much as they need.
pub fn bytes_of(alloc: Global, text: &[u8]) -> Result<Option<Sequence<u8>>, AllocError>
    ensures { IfOk result (λ bytes. Reads bytes (IsHex text.now)) }
{
    if text.len() < 2 || text.len() > 8192 || text.len() % 2 != 0 {
        return Ok(None);
    }
    let mut bytes = vec![in alloc; 0u8; text.len() / 2]?;
    if !put_bytes(bytes.as_mut_slice(), text) {
        return Ok(None);
    }
    Ok(Some(Sequence::from_vec(bytes)))
}

/// The device that the first word names, and what follows it.
pub fn device_and(text: &[u8]) -> Option<(DeviceId, &[u8])>
    ensures { Reads (with_rest result) (λ found. BeginsWithWord IsDevice text.now found.0 found.1) }
{
    if text.len() < 7 || text[6] != b' ' {
        return None;
    }
    let device = device_of(&text[..6])?;
    Some((device, &text[7..]))
}

/// The number that the first word says, and what follows it.
// Written into its few readers: what it answers would go through memory.
#[inline(always)]
pub fn number_and(text: &[u8]) -> Option<(u64, &[u8])>
    ensures { Reads (with_rest result) (λ found. BeginsWithWord IsNumber text.now found.0 found.1) }
{
    let (number, count) = leading_number(text)?;
    if count == text.len() || text[count] != b' ' {
        return None;
    }
    Some((number, &text[count + 1..]))
}

/// Whether an address can have so many digits.
fn is_digit_count(digits: usize) -> bool
    ensures { IsTrue result ↔ ((1 ≤ digits) × (digits ≤ 16)) }
{
    (1..=16).contains(&digits)
}

/// The address that the word says.
pub fn address_of(text: &[u8]) -> Option<u64>
    ensures { Reads result (IsAddress text.now) }
{
    let digits = after(text, b"0x")?;
    if !is_digit_count(digits.len()) {
        return None;
    }
    hex_number(digits)
}

/// The address that the first word says, and what follows it.
pub fn address_and(text: &[u8]) -> Option<(u64, &[u8])>
    ensures { Reads (with_rest result) (λ found. BeginsWithWord IsAddress text.now found.0 found.1) }
{
    let digits = after(text, b"0x")?;
    let (address, count) = leading_hex(digits);
    if count == 0 || count == digits.len() || digits[count] != b' ' {
        return None;
    }
    Some((address, &digits[count + 1..]))
}
