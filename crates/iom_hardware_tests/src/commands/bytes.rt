use crate::expect::expect;
use byteorder::{ByteOrder, LittleEndian};
use iom_command_queue::{
    AtsRange, Command, DeviceNumber, FenceAddress, FenceStore, PageNumber, Pscid,
};
use std::process::Abort;

// The bytes of two words.
pub(crate) fn bytes_of(first: u64, second: u64) -> [u8; 16] {
    let mut bytes = [0; 16];
    LittleEndian::write_u64(&mut bytes, first);
    LittleEndian::write_u64(&mut bytes[8..], second);
    bytes
}

// The command has these words, and they are this command.
fn both_ways(rt: &impl Abort, command: &Command, first: u64, second: u64) {
    let bytes = bytes_of(first, second);
    expect(rt, command.encode() == bytes);
    expect(rt, Command::decode(&bytes) == Ok(*command));
}

fn is_decoded(rt: &impl Abort, first: u64, second: u64, command: Command) {
    let decoded = Command::decode(&bytes_of(first, second));
    expect(rt, decoded == Ok(command));
}

fn page(rt: &impl Abort) -> PageNumber {
    PageNumber::new(3).expect(rt, "52 bits")
}

fn device(rt: &impl Abort, number: u32) -> DeviceNumber {
    DeviceNumber::new(number).expect(rt, "24 bits")
}

fn vma(rt: &impl Abort, page: Option<PageNumber>) -> Command {
    Command::IotinvalVma {
        gscid: None,
        pscid: Some(Pscid::new(1).expect(rt, "20 bits")),
        page,
    }
}

fn gvma(page: Option<PageNumber>) -> Command {
    Command::IotinvalGvma {
        gscid: Some(1),
        page,
    }
}

// A fence that stores 1 at the beginning of frame 61, and waits for reads and writes.
fn fence_one(rt: &impl Abort) -> Command {
    let address = FenceAddress::new(0x3_d000).expect(rt, "a multiple of 4");
    Command::IofenceC {
        store: Some(FenceStore { address, data: 1 }),
        wsi: false,
        pr: true,
        pw: true,
    }
}

// What a driver writes for device 000002, whose address space has number 1, and its page 3. By the figures
// of section 3.1 of the IOMMU specification.
#[test]
fn a_drivers_commands_have_their_bytes(rt: HostRuntime) {
    let of_page = vma(&rt, Some(page(&rt)));
    both_ways(&rt, &of_page, 0x0000_0001_0000_1401, 0xc00);
    both_ways(&rt, &vma(&rt, None), 0x0000_0001_0000_1001, 0);
    let of_page = gvma(Some(page(&rt)));
    both_ways(&rt, &of_page, 0x0000_1002_0000_0481, 0xc00);
    both_ways(&rt, &gvma(None), 0x0000_1002_0000_0081, 0);
    both_ways(&rt, &fence_one(&rt), 0x0000_0001_0000_3402, 0xf400);
}

// Those that name the device: its context, its page, and everything.
#[test]
fn commands_of_a_device_have_their_bytes(rt: HostRuntime) {
    let device = device(&rt, 2);
    let context = Command::IodirInvalDdt {
        device: Some(device),
    };
    both_ways(&rt, &context, 0x0000_0202_0000_0003, 0);
    let range = AtsRange::Page(page(&rt));
    let of_page = Command::AtsInval { device, range };
    both_ways(&rt, &of_page, 0x0000_0202_0000_0004, 0x3000);
    let range = AtsRange::Everything;
    let everything = Command::AtsInval { device, range };
    both_ways(&rt, &everything, 0x0000_0202_0000_0004, 0x800);
}

// The 32 bytes of a ring after one page's release: an invalidation and a fence.
#[test]
fn a_releases_bytes_are_its_commands(rt: HostRuntime) {
    let invalidation = b"\x01\x14\x00\x00\x01\x00\x00\x00\x00\x0c\x00\x00\x00\x00\x00\x00";
    let fence = b"\x02\x34\x00\x00\x01\x00\x00\x00\x00\xf4\x00\x00\x00\x00\x00\x00";
    let command = vma(&rt, Some(page(&rt)));
    expect(&rt, command.encode() == *invalidation);
    expect(&rt, fence_one(&rt).encode() == *fence);
}

// Fields that a valid bit leaves unused are ignored: each in turn has all its bits set.
#[test]
fn unused_fields_are_ignored(rt: HostRuntime) {
    let everything = Command::IotinvalVma {
        gscid: None,
        pscid: None,
        page: None,
    };
    let second = 0x3fff_ffff_ffff_fc00;
    is_decoded(&rt, 0x0fff_f000_ffff_f001, second, everything);
    let all_guests = Command::IotinvalGvma {
        gscid: None,
        page: None,
    };
    is_decoded(&rt, 0x0fff_f000_ffff_f081, second, all_guests);
    let directory = Command::IodirInvalDdt { device: None };
    is_decoded(&rt, 0xffff_ff00_0000_0003, 0, directory);
}

// The same of a fence that stores nothing, and of a segment of devices.
#[test]
fn unused_fields_of_others_are_ignored(rt: HostRuntime) {
    let fence = Command::IofenceC {
        store: None,
        wsi: true,
        pr: false,
        pw: false,
    };
    is_decoded(&rt, 0xffff_ffff_0000_0802, 0x3fff_ffff_ffff_ffff, fence);
    let segment_zero = Command::AtsInval {
        device: device(&rt, 0xffff),
        range: AtsRange::Everything,
    };
    is_decoded(
        &rt,
        0xffff_ff00_0000_0004,
        0xffff_ffff_ffff_f800,
        segment_zero,
    );
}

// The widest of each field.
#[test]
fn fields_have_their_widths(rt: HostRuntime) {
    expect(&rt, Pscid::new(0xf_ffff).is_some());
    expect(&rt, Pscid::new(0x10_0000).is_none());
    expect(&rt, PageNumber::new(0xf_ffff_ffff_ffff).is_some());
    expect(&rt, PageNumber::new(0x10_0000_0000_0000).is_none());
    expect(&rt, DeviceNumber::new(0xff_ffff).is_some());
    expect(&rt, DeviceNumber::new(0x100_0000).is_none());
    expect(&rt, FenceAddress::new(0xffff_ffff_ffff_fffc).is_some());
    expect(&rt, FenceAddress::new(0x3_d002).is_none());
}
