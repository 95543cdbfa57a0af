use crate::space::Space;
use crate::trans_cache::Translation;

/// A translation that is cached, with the page of the address space that it is of.
#[derive(Clone, Copy, PartialEq, Eq)]
pub struct CachedPage {
    pub space: Space,
    pub page: u64,
    pub translation: Translation,
}
