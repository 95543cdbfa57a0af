// Bytes of a frame, looked at and replaced.
ghost use Rattle.std.specs.Prelude.{◌≡◌, ◌<◌, ◌≤◌, ◌+◌, ◌^◌, ◌↔◌, IfOk, OnOk, IsTrue, take, drop, length, replicate, slice_range};
ghost use Rattle.iom_kept_state.specs.Words.{with_bytes, page_size};

use iom_base::FRAME_SIZE;
use std::alloc::AllocError;

/// The first so many of the bytes, or all.
fn first_bytes(bytes: &[u8], count: u64) -> &[u8]
    ensures { result.now ≡ take count bytes.now }
{
    if count < bytes.len() as u64 {
        &bytes[..count as usize]
    } else {
        bytes
    }
}

/// The bytes without the first so many.
fn later_bytes(bytes: &[u8], count: u64) -> &[u8]
    ensures { result.now ≡ drop count bytes.now }
{
    if count < bytes.len() as u64 {
        &bytes[count as usize..]
    } else {
        &[]
    }
}

/// Whether these are the bytes in all of these from the offset on, so many or all that there are.
pub(crate) fn stand_in(all: &[u8], offset: u64, len: u64, bytes: &[u8]) -> bool
    ensures { IsTrue result ↔ (bytes.now ≡ slice_range all.now offset (offset + len)) }
{
    bytes == first_bytes(later_bytes(all, offset), len)
}

/// Whether so many bytes from the offset on end within so many.
fn ends_within(offset: u64, len: usize, limit: usize) -> bool
    ensures { IsTrue result ↔ (offset + len ≤ limit) }
{
    len <= limit && offset <= (limit - len) as u64
}

/// A frame of zeros.
static ZEROS: [u8; FRAME_SIZE] = [0; FRAME_SIZE];

/// The bytes of a frame of zeros, lent.
pub(crate) fn zeros_lent() -> &'static [u8]
    ensures { result.now ≡ replicate page_size 0 }
{
    &ZEROS
}

/// The bytes, where those from the offset on are replaced.
fn with_bytes(bytes: &Vec<u8>, offset: u64, replacement: &[u8]) -> Result<Vec<u8>, AllocError>
    ensures { IfOk result (λ new. new.items ≡ with_bytes bytes.now.items offset replacement.now) }
{
    let later = later_bytes(later_bytes(bytes, offset), replacement.len() as u64);
    let mut items = Vec::from_slice(*bytes.allocator(), first_bytes(bytes, offset))?;
    items.extend_from_slice(replacement)?;
    items.extend_from_slice(later)?;
    Ok(items)
}

/// The bytes stand in all of these, from the offset on, where they fit there.
fn put_within(all: &mut [u8], offset: usize, bytes: &[u8])
    requires { offset + length bytes.now ≤ length all.old }
    ensures { all.new ≡ with_bytes all.old offset bytes.now }
{
    all[offset..offset + bytes.len()].copy_from_slice(bytes);
}

/// Those from the offset on are replaced by the bytes: in place, where they fit there.
pub(crate) fn put(all: &mut Vec<u8>, offset: u64, bytes: &[u8]) -> Result<(), AllocError>
    ensures { OnOk result (all.new.items ≡ with_bytes all.old.items offset bytes.now) }
{
    if ends_within(offset, bytes.len(), all.len()) {
        put_within(all, offset as usize, bytes);
    } else {
        *all = with_bytes(all, offset, bytes)?;
    }
    Ok(())
}
