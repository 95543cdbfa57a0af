use crate::stages::{FirstStage, SecondStage};
use crate::values::Pscid;
use crate::words::ContextWords;
use iom_base::Cause;

/// The bytes of a context of the base format.
pub const CONTEXT_SIZE: usize = 32;

/// What a lawful device context says, one that is valid and in which nothing is misconfigured.
#[derive(Clone, Copy, PartialEq, Eq)]
pub struct Context {
    /// Whether the device may ask for translations, and make translated requests (EN_ATS).
    pub en_ats: bool,
    pub first_stage: FirstStage,
    pub second_stage: SecondStage,
    /// The number of the device's address space (PSCID).
    pub pscid: Pscid,
    /// The number of the guest (GSCID).
    pub gscid: u16,
}

impl Context {
    ghost use Rattle.std.specs.Prelude.{◌≡◌, ◌↔◌, IsTrue, Ok, Err};
    ghost use Rattle.iom_base.specs.declared.cause.Cause.{Cause};
    ghost use Rattle.iom_device_dir.specs.declared.context.Context.{Context};
    ghost use Rattle.iom_device_dir.specs.Words.{context_words};
    ghost use Rattle.iom_device_dir.specs.Formats.{IsContext, IsContextRefused};
    ghost use Rattle.iom_device_dir.specs.Decoded.{decoded_context};
    ghost use Rattle.iom_device_dir.specs.Encoded.{encoded_context, RootsOfBareStagesAreZero};

    /// The context that 32 bytes are. Exactly where they are none, the cause: `DirectoryEntryNotValid` where V
    /// is 0, else `DirectoryEntryMisconfigured`.
    pub fn decode(bytes: &[u8; CONTEXT_SIZE]) -> Result<Context, Cause>
        ensures context { (context : Context) → (result ≡ Ok context) ↔ IsContext bytes.now context }
        ensures refused { (cause : Cause) → (result ≡ Err cause) ↔ IsContextRefused (context_words bytes.now) cause }

        // What the clauses above say one by one, as one equation.
        ensures value { result ≡ decoded_context (context_words bytes.now) }
    {
        ContextWords::from_bytes(bytes).context()
    }

    // Whether the two say the same.
    pub(crate) fn is_same(&self, other: &Context) -> bool
        ensures { IsTrue result ↔ (self.now ≡ other.now) }
    {
        self == other
    }

    /// The 32 bytes that are written for the context: fields that it doesn't use are zero.
    pub fn encode(self) -> [u8; CONTEXT_SIZE]
        ensures context { IsContext result self }
        ensures unused { RootsOfBareStagesAreZero self (context_words result) }

        // Which bytes they are.
        ensures value { result ≡ encoded_context self }
    {
        ContextWords::of(self).to_bytes()
    }
}
