/// The address space of a page, by the stages that translate it. PSCID and GSCID are those of the device's
/// context (IOMMU specification, section 2.1.3).
#[derive(Clone, Copy, PartialEq, Eq, Hash)]
pub enum Space {
    /// A host address space: the first stage translates alone. A PSCID has 20 bits.
    First { pscid: u32 },
    /// The guest physical addresses of a VM: the second stage translates alone.
    Second { gscid: u16 },
    /// An address space within a VM: the first stage translates to guest physical addresses, and the second
    /// translates these.
    Both { gscid: u16, pscid: u32 },
}
