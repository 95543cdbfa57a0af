// Whether two rings hold the same items: where in its block a ring begins is no matter.
ghost use Rattle.std.specs.Prelude.{◌≡◌, ◌↔◌, IsTrue};

use crate::header::AccessHeader;
use circular_buffer::HeapCircularBuffer;

/// Whether the rings hold equal accesses, in the same order.
pub(crate) fn have_same_accesses(
    one: &HeapCircularBuffer<AccessHeader>,
    other: &HeapCircularBuffer<AccessHeader>,
) -> bool
    ensures { IsTrue result ↔ (one.now.items ≡ other.now.items) }
{
    if one.len() != other.len() {
        return false;
    }
    for place in 0..one.len() {
        if one.get(place) != other.get(place) {
            return false;
        }
    }
    true
}

/// Whether the rings hold the same bytes, in the same order.
pub(crate) fn have_same_bytes(one: &HeapCircularBuffer<u8>, other: &HeapCircularBuffer<u8>) -> bool
    ensures { IsTrue result ↔ (one.now.items ≡ other.now.items) }
{
    if one.len() != other.len() {
        return false;
    }
    for place in 0..one.len() {
        if one.get(place) != other.get(place) {
            return false;
        }
    }
    true
}
