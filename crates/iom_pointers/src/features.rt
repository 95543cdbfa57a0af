/// What walks of hardware do beside those of the model's own IOMMU.
#[derive(Clone, Copy, PartialEq, Eq)]
pub struct Features {
    /// Pointers to tables are cached, at which walks may begin (IOMMU specification, section 2.8).
    pub nonleaf: bool,
    /// Walks know leaves of 64 KiB (Privileged Architecture, "Svnapot").
    pub napot: bool,
}
