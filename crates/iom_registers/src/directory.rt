ghost use Rattle.std.specs.Prelude.{◌<◌, ◌^◌};

use crate::fields::field;

/// How a transaction finds its device context (`iommu_mode` of `ddtp`).
#[derive(Clone, Copy, PartialEq, Eq)]
pub enum DirectoryMode {
    /// No transaction is allowed.
    Off,
    /// No translation: addresses are physical.
    Bare,
    /// A device directory of one level.
    OneLevel,
    /// A device directory of two levels.
    TwoLevels,
    /// A device directory of three levels.
    ThreeLevels,
}

impl DirectoryMode {
    ghost use Rattle.std.specs.Prelude.{◌≡◌};
    ghost use Rattle.iom_registers.specs.Fields.{mode_with_code, mode_code};

    // None where no mode has that number.
    pub(crate) fn decode(code: u64) -> Option<DirectoryMode>
        ensures { result ≡ mode_with_code code }
    {
        match code {
            0 => Some(DirectoryMode::Off),
            1 => Some(DirectoryMode::Bare),
            2 => Some(DirectoryMode::OneLevel),
            3 => Some(DirectoryMode::TwoLevels),
            4 => Some(DirectoryMode::ThreeLevels),
            _ => None,
        }
    }

    pub(crate) fn encode(self) -> u64
        ensures { result ≡ mode_code self }
    {
        match self {
            DirectoryMode::Off => 0,
            DirectoryMode::Bare => 1,
            DirectoryMode::OneLevel => 2,
            DirectoryMode::TwoLevels => 3,
            DirectoryMode::ThreeLevels => 4,
        }
    }
}

/// What `ddtp` holds (IOMMU specification, chapter 5, "Device-directory-table pointer (ddtp)").
#[derive(Clone, Copy, PartialEq, Eq)]
pub struct DirectoryPointer {
    pub mode: DirectoryMode,
    /// The page of the directory's root, below 2^44.
    pub ppn: u64,
    ghost in_range: { ppn < 2 ^ 44 },
}

impl DirectoryPointer {
    ghost use Rattle.iom_registers.specs.declared.directory.DirectoryPointer.{DirectoryPointer};
    ghost use Rattle.std.specs.Prelude.{◌≡◌};
    ghost use Rattle.iom_registers.specs.Fields.{pointer_to, ddtp_value, ddtp_written};

    // No directory.
    pub(crate) fn off() -> DirectoryPointer
        ensures { result ≡ pointer_to DirectoryMode.Off 0 }
    {
        DirectoryPointer {
            mode: DirectoryMode::Off,
            ppn: 0,
        }
    }

    /// What `ddtp` reads where it holds this. Written, it is held.
    pub fn value(self) -> u64
        ensures value { result ≡ ddtp_value self }
        ensures held { (old : DirectoryPointer) → ddtp_written old result ≡ self }
    {
        self.mode.encode() + (self.ppn << 10)
    }

    // What a write leaves: a mode that doesn't exist is ignored.
    pub(crate) fn written(self, value: u64) -> DirectoryPointer
        ensures { result ≡ ddtp_written self value }
    {
        match DirectoryMode::decode(field(value, 3, 0)) {
            Some(mode) => DirectoryPointer {
                mode,
                ppn: field(value, 53, 10),
            },
            None => self,
        }
    }
}
