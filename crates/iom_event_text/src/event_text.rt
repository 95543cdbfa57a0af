// The lines of events.
ghost use Rattle.std.specs.Prelude.{◌≡◌, ◌+◌, ◌<◌, ◌≤◌, ◌++◌, All, length};
ghost use Rattle.std.specs.Fmt.{decimal};
ghost use Rattle.iom_script.specs.Words.{◌␣◌};
ghost use Rattle.iom_event_text.specs.Texts.{named_text, pair_text, read_text, write_text, event_text, IsSayable, IsInRange};

use crate::words::{
    append_address, append_attaching, append_bytes, append_device, append_kind, append_number,
    append_right,
};
use iom_base::DeviceId;
use iom_machine::Event;
use iom_script::{BUFFER_SIZE, LineBuffer};

/// The bytes of the longest line of an event, and some more.
pub const EVENT_ROOM: usize = 8300;

/// Appends a word, and a device.
fn append_named(out: &mut LineBuffer, word: &[u8], device: DeviceId)
    requires word { length word.now ≤ 10 }
    requires room { length out.old + 17 ≤ BUFFER_SIZE }
    ensures text { out.new ≡ out.old ++ named_text word.now device }
    ensures short { length out.new ≤ length out.old + 17 }
{
    out.append(word);
    append_device(out, device);
}

/// Appends a word, and a number.
fn append_counted(out: &mut LineBuffer, word: &[u8], number: u64)
    requires word { length word.now ≤ 10 }
    requires room { length out.old + 31 ≤ BUFFER_SIZE }
    ensures text { out.new ≡ out.old ++ (word.now ␣ decimal number) }
    ensures short { length out.new ≤ length out.old + 31 }
{
    out.append(word);
    append_number(out, number);
}

/// Appends a word, a device and a number.
fn append_pair(out: &mut LineBuffer, word: &[u8], device: DeviceId, number: u64)
    requires word { length word.now ≤ 10 }
    requires room { length out.old + 38 ≤ BUFFER_SIZE }
    ensures text { out.new ≡ out.old ++ pair_text word.now device number }
    ensures short { length out.new ≤ length out.old + 38 }
{
    append_named(out, word, device);
    append_number(out, number);
}

/// Appends the line of a read of so many bytes.
fn append_read(out: &mut LineBuffer, word: &[u8], device: DeviceId, address: u64, len: u64)
    requires word { length word.now ≤ 10 }
    requires room { length out.old + 57 ≤ BUFFER_SIZE }
    ensures text { out.new ≡ out.old ++ read_text word.now device address len }
    ensures short { length out.new ≤ length out.old + 57 }
{
    append_named(out, word, device);
    append_address(out, address);
    append_number(out, len);
}

/// Appends the line of a write of the bytes.
fn append_write(out: &mut LineBuffer, word: &[u8], device: DeviceId, address: u64, bytes: &[u8])
    requires word { length word.now ≤ 10 }
    requires few { length bytes.now ≤ 4096 }
    requires room { length out.old + 8229 ≤ BUFFER_SIZE }
    ensures text { out.new ≡ out.old ++ write_text word.now device address bytes.now }
    ensures range { All (λ byte. byte < 256) bytes.now }
    ensures short { length out.new ≤ length out.old + 8229 }
{
    append_named(out, word, device);
    append_address(out, address);
    append_bytes(out, bytes);
}

/// Appends the line of an event, without its line feed.
pub(crate) fn append_event(out: &mut LineBuffer, event: &Event)
    requires sayable { IsSayable event.now }
    requires room { length out.old + EVENT_ROOM ≤ BUFFER_SIZE }
    ensures text { out.new ≡ out.old ++ event_text event.now }
    ensures range { IsInRange event.now }
    ensures short { length out.new ≤ length out.old + EVENT_ROOM }
{
    match event {
        Event::Plug { device, new } => {
            append_named(out, b"device", *device);
            append_kind(out, *new);
        }
        Event::Medium { device, disk } => append_pair(out, b"medium", *device, *disk),
        Event::Attach { device, mode, ats } => {
            append_named(out, b"attach", *device);
            append_attaching(out, *mode, *ats);
        }
        Event::Detach { device } => append_named(out, b"detach", *device),
        Event::Grant {
            device,
            page,
            frame,
            rights,
        } => {
            append_pair(out, b"grant", *device, *page);
            append_number(out, *frame);
            append_right(out, *rights);
        }
        Event::Release { device, page } => append_pair(out, b"release", *device, *page),
        Event::Quarantine { device } => append_named(out, b"quarantine", *device),
        Event::Revive { device } => append_named(out, b"revive", *device),
        Event::Restart => out.append(b"restart"),
        Event::Fetch => out.append(b"fetch"),
        Event::Timeout => out.append(b"timeout"),
        Event::Poll => out.append(b"poll"),
        Event::Faults => out.append(b"faults"),
        Event::Read {
            device,
            address,
            len,
        } => append_read(out, b"read", *device, *address, *len),
        Event::Write {
            device,
            address,
            bytes,
        } => append_write(out, b"write", *device, *address, bytes.as_slice()),
        Event::ReadTranslated {
            device,
            address,
            len,
        } => append_read(out, b"tread", *device, *address, *len),
        Event::WriteTranslated {
            device,
            address,
            bytes,
        } => append_write(out, b"twrite", *device, *address, bytes.as_slice()),
        Event::ReadThroughCache {
            device,
            address,
            len,
        } => append_read(out, b"aread", *device, *address, *len),
        Event::WriteThroughCache {
            device,
            address,
            bytes,
        } => append_write(out, b"awrite", *device, *address, bytes.as_slice()),
        Event::Ask { device, page } => append_pair(out, b"ask", *device, page.number()),
        Event::Forge { device, serial } => append_pair(out, b"forge", *device, *serial),
        Event::Deliver { place } => append_counted(out, b"deliver", *place),
        Event::Drop { place } => append_counted(out, b"drop", *place),
        Event::Repeat { place } => append_counted(out, b"repeat", *place),
        Event::Reset { device } => append_named(out, b"reset", *device),
        Event::Queue {
            device,
            size,
            descriptors,
            available,
            used,
        } => {
            append_pair(out, b"queue", *device, *size);
            append_address(out, *descriptors);
            append_address(out, *available);
            append_address(out, *used);
        }
        Event::Step { device } => append_named(out, b"step", *device),
        Event::Status { device } => append_named(out, b"status", *device),
        Event::Commit { device } => append_named(out, b"commit", *device),
        Event::Poke { address, bytes } => {
            out.append(b"poke");
            append_address(out, *address);
            append_bytes(out, bytes.as_slice());
        }
        Event::Peek { address, len } => {
            out.append(b"peek");
            append_address(out, *address);
            append_number(out, *len);
        }
        Event::Free { frame } => append_counted(out, b"free", *frame),
    }
}
