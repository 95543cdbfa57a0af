// Words of 8 bytes, the least byte first, and the 32 bytes of a record.
ghost use Rattle.std.specs.Prelude.{◌≡◌, ◌≤◌, ◌+◌, ◌++◌, ◌∷◌, [], take, drop, length};
ghost use Rattle.byteorder.specs.Endian.{little_bytes};
ghost use Rattle.iom_fault_queue.specs.Grammar.{word_of, word_bytes};

use byteorder::{ByteOrder, LittleEndian};

/// The bytes of a record.
pub const RECORD_SIZE: usize = 32;

/// The four words of a record's bytes.
#[tactic(auto, unfolding(crate::specs::Grammar::word_of))]
pub(crate) fn to_words(bytes: &[u8; RECORD_SIZE]) -> [u64; 4]
    ensures { result ≡ word_of bytes.now 0 ∷ word_of bytes.now 1 ∷ word_of bytes.now 2 ∷ word_of bytes.now 3 ∷ [] }
{
    [
        LittleEndian::read_u64(bytes),
        LittleEndian::read_u64(&bytes[8..]),
        LittleEndian::read_u64(&bytes[16..]),
        LittleEndian::read_u64(&bytes[24..]),
    ]
}

/// The bytes of four words.
pub(crate) fn to_bytes(words: [u64; 4]) -> [u8; RECORD_SIZE]
    ensures { result ≡ word_bytes words }
{
    let mut bytes = [0; RECORD_SIZE];
    for place in 0..4 {
        LittleEndian::write_u64(&mut bytes[8 * place..], words[place]);
    }
    bytes
}
