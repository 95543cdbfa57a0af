/// What is to be read or written next, in the order of one request (virtio 1.2, sections 2.7.6 to 2.7.8).
#[derive(Clone, Copy, PartialEq, Eq)]
pub enum Phase {
    /// The driver's `idx` of the available ring.
    AvailableIndex,
    /// The ring entry of the next request.
    RingEntry,
    /// The descriptor that stands there in the table.
    Table(u16),
    /// Nothing: the whole chain was read, and is being served.
    Served,
    /// The used element, of which so many bytes were written.
    UsedElement(u8),
    /// The device's `idx` of the used ring.
    UsedIndex,
    /// Nothing any more: a fault was named.
    Faulted,
}
