ghost use Rattle.std.specs.Prelude.{◌≡◌, ◌≤◌, ◌↔◌, ℕ, List, IsTrue};
ghost use Rattle.iom_virtqueue.specs.Accesses.{AreOf, reads};
ghost use Rattle.iom_virtqueue.specs.Chains.{byte_count};
ghost use Rattle.iom_virtio_blk.specs.Wants.{access_wanted};
ghost use Rattle.iom_virtio_blk.specs.Serving.{piece_in, access_in, unread, IsUnderWay};

use crate::request::RequestStatus;
use crate::want::WantedAccess;
use iom_virtqueue::{Buffers, Piece, Want, piece_of};

/// What is read or written next for a request (virtio 1.2, section 5.2.6).
#[derive(Clone, Copy, PartialEq, Eq)]
pub(crate) enum Job {
    /// The header is read.
    Header,
    /// The sector in the buffer, which came from the disk, is written to memory.
    Reading,
    /// A sector for the disk is read from memory.
    Writing,
    /// This status is written.
    Ending(RequestStatus),
}

/// How far a request is served.
#[derive(Clone, Copy, PartialEq, Eq)]
pub(crate) struct Serving {
    pub(crate) job: Job,
    /// The first sector of the request.
    pub(crate) sector: u64,
    /// How many readable bytes were read, the header's 16 among them.
    pub(crate) read: u64,
    /// How many data bytes were written.
    pub(crate) wrote: u64,
}

impl Serving {
    /// A request of which nothing was read.
    pub(crate) fn new() -> Serving
        ensures { result ≡ unread }
    {
        Serving {
            job: Job::Header,
            sector: 0,
            read: 0,
            wrote: 0,
        }
    }

    /// The piece of the request's buffers that is read or written next.
    #[inline(always)]
    pub(crate) fn piece(&self, chain: &Buffers) -> Option<Piece>
        requires under_way { IsUnderWay self.now chain.now }
        requires status { 1 ≤ byte_count chain.now.writable }
        ensures { result ≡ piece_in self.now.job self.now chain.now }
    {
        match self.job {
            Job::Header => piece_of(chain.readable(), self.read, (16 - self.read) as u32),
            Job::Reading => piece_of(
                chain.writable(),
                self.wrote,
                (512 - self.wrote % 512) as u32,
            ),
            Job::Writing => piece_of(
                chain.readable(),
                self.read,
                (512 - (self.read - 16) % 512) as u32,
            ),
            Job::Ending(_) => piece_of(chain.writable(), chain.writable_bytes() - 1, 1),
        }
    }

    /// Whether these bytes are those of the access that comes next: as many as it reads, and none where it writes.
    pub(crate) fn takes(&self, bytes: &[u8], chain: &Buffers) -> bool
        requires under_way { IsUnderWay self.now chain.now }
        requires status { 1 ≤ byte_count chain.now.writable }
        ensures { (sector : List ℕ) → IsTrue result ↔ AreOf bytes.now (access_in self.now sector chain.now) }
    {
        match self.piece(chain) {
            Some(piece) => match self.job {
                Job::Header | Job::Writing => bytes.len() == piece.len as usize,
                Job::Reading | Job::Ending(_) => bytes.is_empty(),
            },
            None => false,
        }
    }

    /// The access that comes next: what is written is part of the sector at hand, or the status.
    // Written into its callers: what it answers would go through memory.
    #[inline(always)]
    pub(crate) fn access(&self, chain: &Buffers) -> WantedAccess
        requires under_way { IsUnderWay self.now chain.now }
        requires status { 1 ≤ byte_count chain.now.writable }
        ensures { (sector : List ℕ) → access_wanted sector result ≡ access_in self.now sector chain.now }
    {
        match self.piece(chain) {
            Some(piece) => match self.job {
                Job::Header => read(piece),
                Job::Reading => WantedAccess::OfSector {
                    address: piece.address,
                    from: (self.wrote % 512) as u16,
                    len: piece.len as u16,
                },
                Job::Writing => read(piece),
                Job::Ending(status) => {
                    WantedAccess::Small(Want::write(piece.address, &[status.code()]))
                }
            },
            None => WantedAccess::Small(Want::Nothing),
        }
    }
}

fn read(piece: Piece) -> WantedAccess
    requires { piece.len ≤ 512 }
    ensures { (sector : List ℕ) → access_wanted sector result ≡ reads piece.address piece.len }
{
    WantedAccess::Small(Want::Read {
        address: piece.address,
        len: piece.len as u16,
    })
}
