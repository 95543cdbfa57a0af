// The four words of a context, and its bytes.
ghost use Rattle.std.specs.Prelude.{◌≡◌, ◌≤◌, ◌+◌, ◌++◌, ◌∷◌, ◌==◌, [], take, drop, length};
ghost use Rattle.byteorder.specs.Endian.{little_bytes};
ghost use Rattle.iom_device_dir.specs.Words.{context_word, context_words, words_as_bytes, context_bytes};
ghost use Rattle.iom_device_dir.specs.Decoded.{decoded_context, sets_only_offered_bits};
ghost use Rattle.iom_device_dir.specs.Encoded.{encoded_context_words};

use crate::context::{CONTEXT_SIZE, Context};
use crate::fields::field;
use crate::stages::{FirstStage, SecondStage};
use crate::values::Pscid;
use byteorder::{ByteOrder, LittleEndian};
use iom_base::{Cause, Ppn};

/// The words of a context of the base format, under the standard's names.
#[derive(Clone, Copy)]
pub(crate) struct ContextWords {
    /// Translation control.
    pub(crate) tc: u64,
    /// The second stage.
    pub(crate) iohgatp: u64,
    /// Translation attributes.
    pub(crate) ta: u64,
    /// The first stage.
    pub(crate) fsc: u64,
}

impl ContextWords {
    /// The words that 32 bytes are.
    #[tactic(auto, unfolding(crate::specs::Words::context_word))]
    pub(crate) fn from_bytes(bytes: &[u8; CONTEXT_SIZE]) -> ContextWords
        ensures { result ≡ context_words bytes.now }
    {
        ContextWords {
            tc: LittleEndian::read_u64(bytes),
            iohgatp: LittleEndian::read_u64(&bytes[8..]),
            ta: LittleEndian::read_u64(&bytes[16..]),
            fsc: LittleEndian::read_u64(&bytes[24..]),
        }
    }

    /// The bytes of the words.
    pub(crate) fn to_bytes(self) -> [u8; CONTEXT_SIZE]
        ensures { result ≡ context_bytes self }
    {
        bytes_of_words([self.tc, self.iohgatp, self.ta, self.fsc])
    }

    // Whether no reserved bit is set, nor one that asks for what isn't offered.
    fn sets_only_offered_bits(self) -> bool
        ensures { result ≡ sets_only_offered_bits self }
    {
        field(self.tc, 63, 2) == 0
            && field(self.ta, 11, 0) == 0
            && field(self.ta, 63, 32) == 0
            && field(self.fsc, 59, 44) == 0
    }

    /// The context that the words are; exactly where they are none, the cause.
    #[tactic(auto, unfolding(crate::specs::Decoded::decoded_context))]
    pub(crate) fn context(self) -> Result<Context, Cause>
        ensures { result ≡ decoded_context self }
    {
        if field(self.tc, 0, 0) == 0 {
            return Err(Cause::DirectoryEntryNotValid);
        }
        if !self.sets_only_offered_bits() {
            return Err(Cause::DirectoryEntryMisconfigured);
        }
        let first = FirstStage::at(field(self.fsc, 63, 60), Ppn::from_word(self.fsc, 0));
        let second = SecondStage::at(field(self.iohgatp, 63, 60), field(self.iohgatp, 43, 0));
        match (first, second) {
            (Some(first_stage), Some(second_stage)) => Ok(Context {
                en_ats: field(self.tc, 1, 1) == 1,
                first_stage,
                second_stage,
                pscid: Pscid::from_word(self.ta, 12),
                gscid: field(self.iohgatp, 59, 44) as u16,
            }),
            _ => Err(Cause::DirectoryEntryMisconfigured),
        }
    }

    /// The words that are written for a context.
    #[tactic(auto, unfolding(crate::specs::Encoded::encoded_context_words))]
    pub(crate) fn of(context: Context) -> ContextWords
        ensures { result ≡ encoded_context_words context }
    {
        ContextWords {
            tc: 1 + (u64::from(context.en_ats) << 1),
            iohgatp: context.second_stage.word() + (u64::from(context.gscid) << 44),
            ta: u64::from(context.pscid.number()) << 12,
            fsc: context.first_stage.word(),
        }
    }
}

fn bytes_of_words(words: [u64; 4]) -> [u8; CONTEXT_SIZE]
    ensures { result ≡ words_as_bytes words }
{
    let mut bytes = [0; CONTEXT_SIZE];
    for place in 0..4 {
        LittleEndian::write_u64(&mut bytes[8 * place..], words[place]);
    }
    bytes
}
