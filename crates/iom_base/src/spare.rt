// Memory in which bytes of a write stood, for those of the next one.
ghost use Rattle.std.specs.Prelude.{◌≡◌, IfOk};

use crate::sequence::Sequence;
use std::alloc::{AllocError, Global};
use std::marker::Model;
use std::mem;

/// Memory that bytes had, and that others may have. A contract sees nothing of it.
#[derive(Drop)]
pub struct Spare {
    memory: Sequence<u8>,
}

impl Model for Spare {
    ghost use Rattle.std.specs.Prelude.{⊤};

    ghost Value = { ⊤ };

    ghost view = { λ _. tt };
}

impl Spare {
    /// No memory.
    pub fn new(alloc: Global) -> Spare {
        Spare {
            memory: Sequence::new(alloc),
        }
    }

    /// A copy of the bytes, in the memory that is spare.
    fn filled(&mut self, alloc: Global, bytes: &[u8]) -> Result<Sequence<u8>, AllocError>
        ensures { IfOk result (λ copy. copy ≡ bytes.now) }
    {
        let mut copy = mem::replace(&mut self.memory, Sequence::new(alloc));
        copy.overwrite(bytes)?;
        Ok(copy)
    }

    /// A copy of the bytes, in the memory that is spare. No bytes need none.
    #[inline(always)]
    pub fn copy_of(&mut self, alloc: Global, bytes: &[u8]) -> Result<Sequence<u8>, AllocError>
        ensures { IfOk result (λ copy. copy ≡ bytes.now) }
    {
        if bytes.is_empty() {
            return Ok(Sequence::new(alloc));
        }
        self.filled(alloc, bytes)
    }

    /// The memory of these bytes is spare from here on.
    pub fn put_back(&mut self, bytes: Sequence<u8>) {
        self.memory = bytes;
    }
}
