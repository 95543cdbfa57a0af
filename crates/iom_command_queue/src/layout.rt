//! Where the fields of commands stand (IOMMU specification, section 3.1, the figures of the commands).

use crate::field::Field;

pub(crate) const OPCODE: Field = Field { high: 6, low: 0 };

pub(crate) const FUNC3: Field = Field { high: 9, low: 7 };

/// IOTINVAL.VMA and IOTINVAL.GVMA.
pub(crate) mod iotinval {
    use crate::field::{Bit, Field};

    pub(crate) const AV: Bit = Bit(10);

    pub(crate) const PSCID: Field = Field { high: 31, low: 12 };

    pub(crate) const PSCV: Bit = Bit(32);

    pub(crate) const GV: Bit = Bit(33);

    pub(crate) const GSCID: Field = Field { high: 59, low: 44 };

    // In the second word.
    pub(crate) const ADDR: Field = Field { high: 61, low: 10 };
}

/// IOFENCE.C.
pub(crate) mod iofence {
    use crate::field::{Bit, Field};

    pub(crate) const AV: Bit = Bit(10);

    pub(crate) const WSI: Bit = Bit(11);

    pub(crate) const PR: Bit = Bit(12);

    pub(crate) const PW: Bit = Bit(13);

    pub(crate) const DATA: Field = Field { high: 63, low: 32 };

    // In the second word.
    pub(crate) const ADDR: Field = Field { high: 61, low: 0 };
}

/// IODIR.INVAL_DDT.
pub(crate) mod iodir {
    use crate::field::{Bit, Field};

    pub(crate) const DV: Bit = Bit(33);

    pub(crate) const DID: Field = Field { high: 63, low: 40 };
}

/// ATS.INVAL. Its second word is the payload of PCI Express's Invalidate Request.
pub(crate) mod ats {
    use crate::field::{Bit, Field};

    pub(crate) const DSV: Bit = Bit(33);

    pub(crate) const RID: Field = Field { high: 55, low: 40 };

    pub(crate) const DSEG: Field = Field { high: 63, low: 56 };

    // In the second word.
    pub(crate) const G: Bit = Bit(0);

    pub(crate) const S: Bit = Bit(11);

    pub(crate) const PAGE: Field = Field { high: 63, low: 12 };
}
