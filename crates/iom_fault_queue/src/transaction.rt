ghost use Rattle.std.specs.Prelude.{◌≡◌};
ghost use Rattle.iom_fault_queue.specs.Fields.{type_of, transaction_of, untranslated_of, translated_of};

use iom_base::AccessKind;

/// What a device asked for (IOMMU specification, section 3.2, encodings of TTYP): those types that the
/// model's devices make.
#[derive(Clone, Copy, PartialEq, Eq)]
pub enum Transaction {
    /// An untranslated request that reads, and doesn't execute.
    UntranslatedRead,
    /// An untranslated request that writes.
    UntranslatedWrite,
    /// A translated request that reads, and doesn't execute.
    TranslatedRead,
    /// A translated request that writes.
    TranslatedWrite,
    /// A PCIe ATS translation request.
    AtsRequest,
}

impl Transaction {
    /// An untranslated request of this kind of access.
    pub fn untranslated(kind: AccessKind) -> Transaction
        ensures { result ≡ untranslated_of kind }
    {
        match kind {
            AccessKind::Read => Transaction::UntranslatedRead,
            AccessKind::Write => Transaction::UntranslatedWrite,
        }
    }

    /// A translated request of this kind of access.
    pub fn translated(kind: AccessKind) -> Transaction
        ensures { result ≡ translated_of kind }
    {
        match kind {
            AccessKind::Read => Transaction::TranslatedRead,
            AccessKind::Write => Transaction::TranslatedWrite,
        }
    }

    /// The number that stands in a record as TTYP.
    pub fn code(self) -> u8
        ensures { result ≡ type_of self }
    {
        match self {
            Transaction::UntranslatedRead => 2,
            Transaction::UntranslatedWrite => 3,
            Transaction::TranslatedRead => 6,
            Transaction::TranslatedWrite => 7,
            Transaction::AtsRequest => 8,
        }
    }

    /// The type with this number. None for the numbers of types that no device of the model makes.
    pub(crate) fn from_code(code: u64) -> Option<Transaction>
        ensures { result ≡ transaction_of code }
    {
        match code {
            2 => Some(Transaction::UntranslatedRead),
            3 => Some(Transaction::UntranslatedWrite),
            6 => Some(Transaction::TranslatedRead),
            7 => Some(Transaction::TranslatedWrite),
            8 => Some(Transaction::AtsRequest),
            _ => None,
        }
    }
}
