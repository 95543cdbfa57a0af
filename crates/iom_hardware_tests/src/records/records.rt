use crate::expect::expect;
use iom_base::{Cause, DeviceId};
use iom_fault_queue::{Fault, FaultedRequest, RECORD_SIZE, Record, Transaction};
use std::process::Abort;

// The bytes of four words, the least byte of each first.
fn bytes_of(words: [u64; 4]) -> [u8; RECORD_SIZE] {
    let mut bytes = [0; RECORD_SIZE];
    for place in 0..4 {
        bytes[8 * place..8 * place + 8].copy_from_slice(&words[place].to_le_bytes());
    }
    bytes
}

fn asked(device: DeviceId, transaction: Transaction, address: u64) -> FaultedRequest {
    FaultedRequest {
        device,
        transaction,
        address,
    }
}

// A fault of the second stage, at a guest physical address.
fn guest_fault(cause: Cause, guest_address: u64, implicit: bool) -> Fault {
    Fault {
        cause,
        guest_address,
        implicit,
    }
}

// The record has these words, and they are this record.
fn both_ways(rt: &impl Abort, request: FaultedRequest, fault: Fault, words: [u64; 4]) {
    assert!(rt; request.device < 1 << 24);
    let record = Record::new(request, fault);
    expect(rt, record.words() == words);
    let bytes = bytes_of(words);
    expect(rt, record.encode() == bytes);
    expect(rt, Record::decode(&bytes) == Some(record));
    is_of(rt, &record, request, fault.cause);
    has_values(rt, &record, words[2], words[3]);
}

fn is_of(rt: &impl Abort, record: &Record, request: FaultedRequest, cause: Cause) {
    expect(rt, record.device() == request.device);
    expect(rt, record.transaction() == request.transaction);
    expect(rt, record.cause() == cause);
}

fn has_values(rt: &impl Abort, record: &Record, iotval: u64, iotval2: u64) {
    expect(rt, record.iotval() == iotval);
    expect(rt, record.iotval2() == iotval2);
}

/// What is asked and refused without a guest physical address, and its record's first word: a write of device 1
/// to a page that it doesn't hold; its read of one; a translated read of device 3, which may make none; a
/// question of device 2 while all is disallowed; the last address of the last device.
#[rattlefmt::skip]
static PLAIN_FAULTS: [(u32, Transaction, u64, Cause, u64); 5] = [
    (1, Transaction::UntranslatedWrite, 0x3010, Cause::WritePageFault, 0x0000_010c_0000_000f),
    (1, Transaction::UntranslatedRead, 0x4000, Cause::ReadPageFault, 0x0000_0108_0000_000d),
    (3, Transaction::TranslatedRead, 0x5000, Cause::TransactionTypeDisallowed, 0x0000_0318_0000_0104),
    (2, Transaction::AtsRequest, 0x3000, Cause::AllInboundDisallowed, 0x0000_0220_0000_0100),
    (0xff_ffff, Transaction::TranslatedWrite, u64::MAX, Cause::WriteAccessFault, 0xffff_ff1c_0000_0007),
];

// What is said of a guest physical address means nothing.
#[test]
fn records_without_a_guest_address(rt: HostRuntime) {
    for (device, transaction, address, cause, first) in PLAIN_FAULTS.iter() {
        let request = asked(*device, *transaction, *address);
        let fault = guest_fault(*cause, 0x9010, true);
        both_ways(&rt, request, fault, [*first, 0, *address, 0]);
    }
}

/// The address of a read, the guest physical address and whether it is a guest table's, and iotval2.
static READS: [(u64, u64, bool, u64); 4] = [
    (0x3010, 0x9010, false, 0x9010),
    (0x4000_0000, 0x7000, true, 0x7001),
    (0x200_0000_0000, 0x200_0000_0000, false, 0x200_0000_0000),
    (0x3013, 0x9013, false, 0x9010),
];

// Guest page faults: the guest physical address stands in iotval2 from bit 2 on, and bit 0 tells that it is
// a guest table's.
#[test]
fn records_with_a_guest_address(rt: HostRuntime) {
    for (address, guest_address, implicit, iotval2) in READS.iter() {
        let request = asked(1, Transaction::UntranslatedRead, *address);
        let fault = guest_fault(Cause::ReadGuestPageFault, *guest_address, *implicit);
        let words = [0x0000_0108_0000_0015, 0, *address, *iotval2];
        both_ways(&rt, request, fault, words);
    }
}

// The same of a write.
#[test]
fn a_record_of_a_guests_write(rt: HostRuntime) {
    let write = asked(1, Transaction::UntranslatedWrite, 0x4000);
    let fault = guest_fault(Cause::WriteGuestPageFault, 0x4000, false);
    both_ways(
        &rt,
        write,
        fault,
        [0x0000_010c_0000_0017, 0, 0x4000, 0x4000],
    );
}

/// One word changed: a process id, its valid bit, privileged mode, causes and types that the model hasn't,
/// the second word, and iotval2 where there is no guest address, or with bit 1 where there is one.
static OTHER: [[u64; 4]; 11] = [
    [0x0000_010c_0000_100f, 0, 0x3010, 0],
    [0x0000_010d_0000_000f, 0, 0x3010, 0],
    [0x0000_010e_0000_000f, 0, 0x3010, 0],
    [0x0000_010c_0000_0001, 0, 0x3010, 0],
    [0x0000_010c_0000_0105, 0, 0x3010, 0],
    [0x0000_0100_0000_000f, 0, 0x3010, 0],
    [0x0000_0104_0000_000f, 0, 0x3010, 0],
    [0x0000_0124_0000_000f, 0, 0x3010, 0],
    [0x0000_010c_0000_000f, 1, 0x3010, 0],
    [0x0000_010c_0000_000f, 0, 0x3010, 1],
    [0x0000_0108_0000_0015, 0, 0x3010, 0x9012],
];

#[test]
fn other_words_are_no_records(rt: HostRuntime) {
    for words in OTHER.iter() {
        expect(&rt, Record::decode(&bytes_of(*words)).is_none());
    }
}
