use crate::way_cache::WayCache;

/// The cache that the IOMMU of a world has (IOATC). The layers above name no other, so that another takes its
/// place here.
pub type Ioatc = WayCache;
