ghost use Rattle.std.specs.Prelude.{◌≡◌, ◌≤◌, length};
ghost use Rattle.iom_virtqueue.specs.Accesses.{wanted_access_of, writes};

use arrayvec::ArrayVec;

/// An access to the driver's memory that is wanted, within one page; a write carries its bytes, which are a used
/// element's at most.
#[derive(Drop)]
pub enum Want {
    Nothing,
    Read {
        address: u64,
        len: u16,
    },
    Write {
        address: u64,
        bytes: ArrayVec<u8, 8>,
    },
}

impl Want {
    /// A write of at most eight bytes.
    pub fn write(address: u64, bytes: &[u8]) -> Want
        requires { length bytes.now ≤ 8 }
        ensures { wanted_access_of result ≡ writes address bytes.now }
    {
        let mut held = ArrayVec::new();
        held.try_extend_from_slice(bytes).unwrap();
        Want::Write {
            address,
            bytes: held,
        }
    }
}
