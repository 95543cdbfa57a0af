use iom_virtqueue::Want;

/// An access to the driver's memory that a block device wants, within one page.
#[derive(Drop)]
pub enum WantedAccess {
    /// A read, or a write of the few bytes that stand here.
    Small(Want),
    /// A write of these bytes of the sector at hand, which [`Blk::sector_part`](crate::Blk::sector_part) lends.
    OfSector { address: u64, from: u16, len: u16 },
}
