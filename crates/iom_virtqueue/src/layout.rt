ghost use Rattle.std.specs.Prelude.{◌≡◌, ◌↔◌, IsSome, IfSome};
ghost use Rattle.iom_virtqueue.specs.Layouts.{IsLayout, layout_of};

/// The most descriptors of a queue, and the most entries of its rings: a limit of this model's own.
pub const MAX_QUEUE_SIZE: u64 = 256;

/// Where the three parts of a split virtqueue lie, and how many descriptors and ring entries it has
/// (virtio 1.2, section 2.7). Addresses are those that the device uses, and wrap modulo 2^64.
#[derive(Clone, Copy, PartialEq, Eq)]
pub struct Layout {
    pub size: u16,
    pub descriptor_table: u64,
    pub available_ring: u64,
    pub used_ring: u64,
}

impl Layout {
    /// A queue of `size` descriptors with its parts at these addresses. None exactly where the size is no
    /// power of two from 1 to 256, or a part hasn't its alignment: 16, 2 and 4 bytes.
    pub fn new(
        size: u64,
        descriptor_table: u64,
        available_ring: u64,
        used_ring: u64,
    ) -> Option<Layout>
        ensures found { IsSome result ↔ IsLayout (layout_of size descriptor_table available_ring used_ring) }
        ensures value { IfSome result (λ layout. layout ≡ layout_of size descriptor_table available_ring used_ring) }
    {
        // The divisors of 256 are the powers of two up to it.
        let is_size = 1 <= size && size <= MAX_QUEUE_SIZE && MAX_QUEUE_SIZE % size == 0;
        let is_aligned = descriptor_table % 16 == 0
            && available_ring % 2 == 0
            && used_ring % 4 == 0;
        if !is_size || !is_aligned {
            return None;
        }
        Some(Layout {
            size: size as u16,
            descriptor_table,
            available_ring,
            used_ring,
        })
    }
}
