ghost use Rattle.std.specs.Prelude.{◌≡◌};
ghost use Rattle.iom_virtio_blk.specs.Requests.{fits, plan_of, status_byte};

/// How a request ended (virtio 1.2, section 5.2.6).
#[derive(Clone, Copy, PartialEq, Eq)]
pub enum RequestStatus {
    Ok,
    IoError,
    Unsupported,
}

impl RequestStatus {
    /// The byte that is written: VIRTIO_BLK_S_OK 0, VIRTIO_BLK_S_IOERR 1, VIRTIO_BLK_S_UNSUPP 2.
    pub fn code(self) -> u8
        ensures { result ≡ status_byte self }
    {
        match self {
            RequestStatus::Ok => 0,
            RequestStatus::IoError => 1,
            RequestStatus::Unsupported => 2,
        }
    }
}

/// What is done with a request.
#[derive(Clone, Copy, PartialEq, Eq)]
pub(crate) enum Plan {
    /// Sectors of the disk are written to memory.
    ReadDisk,
    /// Sectors that stand in memory are written to the disk.
    WriteDisk,
    /// The disk makes last what was written.
    FlushDisk,
    /// The request ends so, without a call of the disk.
    End(RequestStatus),
}

/// The data is whole sectors, none of which lies past the end of the disk.
fn fits(sector: u64, bytes: u64, sectors: Option<u64>) -> bool
    ensures { result ≡ fits sector bytes sectors }
{
    match sectors {
        Some(sectors) => bytes % 512 == 0 && sector <= sectors && bytes / 512 <= sectors - sector,
        None => false,
    }
}

/// What is done with a request of this type, of which so many bytes are readable after the header and
/// writable before the status.
pub(crate) fn plan_of(
    kind: u32,
    sector: u64,
    readable: u64,
    writable: u64,
    sectors: Option<u64>,
    flush: bool,
) -> Plan
    ensures { result ≡ plan_of kind sector readable writable sectors flush }
{
    let bytes = if kind == 0 { writable } else { readable };
    match kind {
        0 | 1 if !fits(sector, bytes, sectors) => Plan::End(RequestStatus::IoError),
        0 => Plan::ReadDisk,
        1 => Plan::WriteDisk,
        4 if flush => Plan::FlushDisk,
        _ => Plan::End(RequestStatus::Unsupported),
    }
}
