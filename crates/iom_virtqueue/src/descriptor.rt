ghost use Rattle.std.specs.Prelude.{◌≡◌, length};
ghost use Rattle.iom_virtqueue.specs.Descriptors.{descriptor_of, has_next, is_writable, is_indirect};

use crate::numbers::{le16, le32, le64};

/// A buffer of the driver (virtio 1.2, section 2.7.5).
#[derive(Clone, Copy, PartialEq, Eq, Default)]
pub struct Descriptor {
    pub address: u64,
    pub len: u32,
    pub flags: u16,
    pub next: u16,
}

/// A descriptor of a chain, and where it stands in the descriptor table.
#[derive(Clone, Copy, PartialEq, Eq, Default)]
pub struct Link {
    pub index: u16,
    pub descriptor: Descriptor,
}

impl Descriptor {
    /// The descriptor that 16 bytes of the table hold.
    pub fn decode(bytes: &[u8]) -> Descriptor
        requires { length bytes.now ≡ 16 }
        ensures { result ≡ descriptor_of bytes.now }
    {
        Descriptor {
            address: le64(bytes, 0),
            len: le32(bytes, 8),
            flags: le16(bytes, 12),
            next: le16(bytes, 14),
        }
    }

    /// The chain goes on.
    pub fn has_next(self) -> bool
        ensures { result ≡ has_next self }
    {
        self.flags & 1 == 1
    }

    /// The device writes the buffer; else it reads it.
    pub fn is_writable(self) -> bool
        ensures { result ≡ is_writable self }
    {
        self.flags & 2 == 2
    }

    /// The buffer is a table of descriptors.
    pub fn is_indirect(self) -> bool
        ensures { result ≡ is_indirect self }
    {
        self.flags & 4 == 4
    }
}
