// The two little-endian words of 16 bytes.
ghost use Rattle.std.specs.Prelude.{◌≡◌};
ghost use Rattle.iom_command_queue.specs.Formats.{first_of, second_of, two_words};

use byteorder::{ByteOrder, LittleEndian};

/// How many bytes a command has.
pub const COMMAND_SIZE: usize = 16;

/// The first of the two words.
#[tactic(auto, unfolding(crate::specs::Formats::first_of))]
pub(crate) fn first_of(bytes: &[u8; COMMAND_SIZE]) -> u64
    ensures { result ≡ first_of bytes.now }
{
    LittleEndian::read_u64(bytes)
}

/// The second of the two words.
#[tactic(auto, unfolding(crate::specs::Formats::second_of))]
pub(crate) fn second_of(bytes: &[u8; COMMAND_SIZE]) -> u64
    ensures { result ≡ second_of bytes.now }
{
    LittleEndian::read_u64(&bytes[8..])
}

/// The bytes of the two words.
#[tactic(auto, unfolding(crate::specs::Formats::two_words))]
pub(crate) fn bytes_of(first: u64, second: u64) -> [u8; COMMAND_SIZE]
    ensures { result ≡ two_words first second }
{
    let mut bytes = [0; COMMAND_SIZE];
    LittleEndian::write_u64(&mut bytes, first);
    LittleEndian::write_u64(&mut bytes[8..], second);
    bytes
}
