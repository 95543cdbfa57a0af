use std::alloc::{AllocError, Global};

/// Text that grows.
#[derive(Drop)]
pub(crate) struct Page {
    alloc: Global,
    pub(crate) bytes: Vec<u8>,
}

impl Page {
    pub(crate) fn new(alloc: Global) -> Page {
        Page {
            alloc,
            bytes: Vec::new(alloc),
        }
    }

    pub(crate) fn text(&mut self, bytes: &[u8]) -> Result<(), AllocError> {
        self.bytes.extend_from_slice(bytes)
    }

    pub(crate) fn number(&mut self, number: u64) -> Result<(), AllocError> {
        let digits = format!(in self.alloc; "{number}")?;
        self.text(digits.as_bytes())
    }

    /// A device in six hexadecimal digits.
    pub(crate) fn device(&mut self, device: u32) -> Result<(), AllocError> {
        let digits = format!(in self.alloc; "{device:06x}")?;
        self.text(digits.as_bytes())
    }

    /// An address in hexadecimal digits, behind `0x`.
    pub(crate) fn address(&mut self, address: u64) -> Result<(), AllocError> {
        let digits = format!(in self.alloc; "{address:x}")?;
        self.text(b"0x")?;
        self.text(digits.as_bytes())
    }
}
