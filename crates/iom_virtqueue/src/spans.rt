ghost use Rattle.std.specs.Prelude.{◌≡◌, ◌<◌, ◌≤◌, ◌+◌, ◌%◌, ◌^◌, ◌↔◌, length, IsSome, IfSome};
ghost use Rattle.iom_virtqueue.specs.Chains.{byte_count};
ghost use Rattle.iom_virtqueue.specs.Spans.{rest_of, piece_of};

use crate::descriptor::Link;

/// So many bytes from an address on.
#[derive(Clone, Copy, PartialEq, Eq)]
pub struct Piece {
    pub address: u64,
    pub len: u32,
}

/// Where byte number `n` of the buffers lies, with the rest of its buffer.
fn rest_of(links: &[Link], n: u64) -> Option<Piece>
    ensures { result ≡ rest_of links.now n }
{
    let mut left = n;
    for link in links {
        let len = u64::from(link.descriptor.len);
        if left < len {
            return Some(Piece {
                address: link.descriptor.address.wrapping_add(left),
                len: (len - left) as u32,
            });
        }
        left -= len;
    }
    None
}

/// The piece of the buffers that begins at byte number `n`: at most so many bytes, cut at the end of the
/// buffer and of the page.
pub fn piece_of(links: &[Link], n: u64, most: u32) -> Option<Piece>
    ensures { result ≡ piece_of links.now n most }
{
    match rest_of(links, n) {
        Some(piece) => {
            let len = piece.len.min((4096 - piece.address % 4096) as u32);
            Some(Piece {
                address: piece.address,
                len: most.min(len),
            })
        }
        None => None,
    }
}
