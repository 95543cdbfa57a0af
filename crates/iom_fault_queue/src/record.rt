ghost use Rattle.std.specs.Prelude.{◌≡◌, ◌<◌, ◌^◌, ◌↔◌, ℕ, List, All, [], ◌∷◌, Some, IsSome, IfSome, IfNone, length, slice_index};
ghost use Rattle.iom_base.specs.declared.cause.Cause.{Cause};
ghost use Rattle.iom_fault_queue.specs.Fields.{Fields, AreLawful, is_guest_page_fault, is_iotval2, cause_of};
ghost use Rattle.iom_fault_queue.specs.Records.{record_of};
ghost use Rattle.iom_fault_queue.specs.Grammar.{IsRecord, decoded_record, encoded_record, words, record_of_words};

use crate::bytes::{RECORD_SIZE, to_bytes, to_words};
use crate::transaction::Transaction;
use iom_base::{Cause, DeviceId};
use std::marker::Model;

/// CAUSE has bits 11:0 of the first word.
const CAUSE_BITS: u32 = 12;

/// PID, PV and PRIV, of requests with a process id, have bits 33:12.
const PROCESS_BITS: u32 = 22;

/// The lowest bit of TTYP, which has bits 39:34.
const TTYP: u32 = 34;

const TTYP_BITS: u32 = 6;

/// The lowest bit of DID, which has bits 63:40.
const DID: u32 = 40;

/// A fault record, by its fields (IOMMU specification, section 3.2): of a transaction with a process id
/// there is none, since the model has none.
///
/// Each record has its bytes: its device id has 24 bits, and iotval2 is one that can stand beside its
/// cause.
#[derive(Clone, Copy, PartialEq, Eq)]
pub struct Record {
    cause: Cause,
    transaction: Transaction,
    device: DeviceId,
    iotval: u64,
    iotval2: u64,
}

impl Model for Record {
    ghost use Rattle.std.specs.Prelude.{◌≡◌, ◌<◌, ◌^◌, true};
    ghost use Rattle.iom_fault_queue.specs.Fields.{Fields, is_iotval2};

    ghost Value = { Fields };

    ghost view = { λ r. record { cause = r.cause; transaction = r.transaction; device = r.device; iotval = r.iotval; iotval2 = r.iotval2 } };

    ghost invariant = { λ r. (r.device < 2 ^ 24) × (is_iotval2 r.cause r.iotval2 ≡ true) };

    ghost inverse = { λ f. record { cause = f.cause; transaction = f.transaction; device = f.device; iotval = f.iotval; iotval2 = f.iotval2 } };
}

/// A request that faulted.
#[derive(Clone, Copy, PartialEq, Eq)]
pub struct FaultedRequest {
    /// Who asked: below 2^24.
    pub device: DeviceId,
    pub transaction: Transaction,
    /// The address that was asked for.
    pub address: u64,
}

/// Why a request faulted.
#[derive(Clone, Copy, PartialEq, Eq, Debug)]
pub struct Fault {
    pub cause: Cause,
    /// The guest physical address that has no translation, where the cause is a guest page fault; else it
    /// means nothing.
    pub guest_address: u64,
    /// Whether that address is one of a first-stage table, which the walk itself reads.
    pub implicit: bool,
}

/// Whether iotval2 tells of this cause.
fn is_guest_page_fault(cause: Cause) -> bool
    ensures { result ≡ is_guest_page_fault cause }
{
    match cause {
        Cause::ReadGuestPageFault | Cause::WriteGuestPageFault => true,
        Cause::ReadAccessFault
        | Cause::WriteAccessFault
        | Cause::ReadPageFault
        | Cause::WritePageFault
        | Cause::AllInboundDisallowed
        | Cause::DirectoryLoadFault
        | Cause::DirectoryEntryNotValid
        | Cause::DirectoryEntryMisconfigured
        | Cause::TransactionTypeDisallowed => false,
    }
}

/// Whether the number can stand as iotval2 beside the cause.
fn is_iotval2(cause: Cause, iotval2: u64) -> bool
    ensures { result ≡ is_iotval2 cause iotval2 }
{
    if is_guest_page_fault(cause) {
        iotval2 / 2 % 2 == 0
    } else {
        iotval2 == 0
    }
}

/// The cause with this number. None for the numbers of causes that the model doesn't have.
fn cause_from_code(code: u64) -> Option<Cause>
    ensures { result ≡ cause_of code }
{
    match code {
        5 => Some(Cause::ReadAccessFault),
        7 => Some(Cause::WriteAccessFault),
        13 => Some(Cause::ReadPageFault),
        15 => Some(Cause::WritePageFault),
        21 => Some(Cause::ReadGuestPageFault),
        23 => Some(Cause::WriteGuestPageFault),
        256 => Some(Cause::AllInboundDisallowed),
        257 => Some(Cause::DirectoryLoadFault),
        258 => Some(Cause::DirectoryEntryNotValid),
        259 => Some(Cause::DirectoryEntryMisconfigured),
        260 => Some(Cause::TransactionTypeDisallowed),
        _ => None,
    }
}

impl Record {
    /// The record of a request's fault.
    pub fn new(request: FaultedRequest, fault: Fault) -> Record
        requires { request.device < 2 ^ 24 }
        ensures { result ≡ record_of request fault }
    {
        let iotval2 = if is_guest_page_fault(fault.cause) {
            fault.guest_address / 4 * 4 + u64::from(fault.implicit)
        } else {
            0
        };
        Record {
            cause: fault.cause,
            transaction: request.transaction,
            device: request.device,
            iotval: request.address,
            iotval2,
        }
    }

    /// CAUSE.
    pub fn cause(self) -> Cause
        ensures { result ≡ self.cause }
    {
        self.cause
    }

    /// TTYP.
    pub fn transaction(self) -> Transaction
        ensures { result ≡ self.transaction }
    {
        self.transaction
    }

    /// DID, below 2^24.
    pub fn device(self) -> DeviceId
        ensures value { result ≡ self.device }
        ensures range { result < 2 ^ 24 }
    {
        self.device
    }

    /// The address that was asked for.
    pub fn iotval(self) -> u64
        ensures { result ≡ self.iotval }
    {
        self.iotval
    }

    /// What is known of the guest physical address.
    pub fn iotval2(self) -> u64
        ensures { result ≡ self.iotval2 }
    {
        self.iotval2
    }

    /// The record's four 64-bit words.
    pub fn words(self) -> [u64; 4]
        ensures value { result ≡ words self }
        ensures lawful { AreLawful self }
    {
        let first = u64::from(self.cause.code())
            + (u64::from(self.transaction.code()) << TTYP)
            + (u64::from(self.device) << DID);
        [first, 0, self.iotval, self.iotval2]
    }

    /// The record's bytes.
    pub fn encode(self) -> [u8; RECORD_SIZE]
        ensures is { IsRecord result self }
        ensures only { (other : List ℕ) → length other ≡ 32 → ((i : ℕ) → slice_index other i < 256) → IsRecord other self → other ≡ result }
        ensures value { result ≡ encoded_record self }
        ensures reads_back { decoded_record result ≡ Some self }
    {
        to_bytes(self.words())
    }

    /// The record that four words are. None exactly where they are none.
    fn from_words(words: [u64; 4]) -> Option<Record>
        ensures { (first second third fourth : ℕ) → words ≡ first ∷ second ∷ third ∷ fourth ∷ [] → result ≡ record_of_words first second third fourth }
    {
        let [first, second, iotval, iotval2] = words;
        if (first >> CAUSE_BITS) % (1 << PROCESS_BITS) != 0 || second != 0 {
            return None;
        }
        let cause = cause_from_code(first % (1 << CAUSE_BITS))?;
        let transaction = Transaction::from_code((first >> TTYP) % (1 << TTYP_BITS))?;
        if !is_iotval2(cause, iotval2) {
            return None;
        }
        Some(Record {
            cause,
            transaction,
            device: (first >> DID) as u32,
            iotval,
            iotval2,
        })
    }

    /// The record that the bytes are. None exactly where they are none.
    pub fn decode(bytes: &[u8; RECORD_SIZE]) -> Option<Record>
        ensures is { IfSome result (IsRecord bytes.now) }
        ensures only { IfSome result (λ r. (other : Fields) → IsRecord bytes.now other → other ≡ r) }
        ensures none { IfNone result ((other : Fields) → ¬ IsRecord bytes.now other) }
        ensures value { result ≡ decoded_record bytes.now }
    {
        Record::from_words(to_words(bytes))
    }
}
