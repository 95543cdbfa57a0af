// The order of a request's accesses, and the element of the used ring that ends it.
ghost use Rattle.iom_virtio_blk.specs.Elements.{StepsWriteElements};
ghost use Rattle.iom_virtio_blk.specs.Order.{FinishesLast, StepsFollowOrder};

/// A device makes the accesses of a request in one order (virtio 1.2, sections 2.7 and 5.2.6): the avail idx, the entry
/// of its ring, the descriptors, the header, the data, the status, the used element and the used idx. A step that goes
/// on to another access goes on in this order, whatever the driver's memory holds; and a request is finished with its last
/// access, after which the first is wanted again.
pub fn accesses_keep_their_order()
    ensures follows { StepsFollowOrder }
    ensures finishes { FinishesLast }
{}

/// What a device writes into its used ring are the elements of the requests that it finishes, one for each, whole, in their
/// order, each with the head and the length that its step tells; and what is begun of the element of the request in work
/// (virtio 1.2, section 2.7.8).
pub fn steps_write_elements()
    ensures { StepsWriteElements }
{}
