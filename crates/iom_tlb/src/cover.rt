ghost use Rattle.std.specs.Prelude.{◌≡◌, ◌≢◌, IfSome, false};
ghost use Rattle.iom_tlb.specs.Content.{Key};
ghost use Rattle.iom_tlb.specs.Covers.{covers, is_same_leaf, named_page, named_key};
ghost use Rattle.iom_tlb.specs.Entries.{is_key};
ghost use Rattle.iom_tlb.specs.declared.trans_cache.Translation.{Translation};

use crate::space::Space;
use crate::trans_cache::Translation;

/// Which translations are taken out: of the address spaces of one kind, and of these of the one with that
/// GSCID or PSCID, or of all (None); those that came from the leaf in which that page lies, or all (None).
#[derive(Clone, Copy, PartialEq, Eq)]
pub enum Cover {
    First {
        pscid: Option<u32>,
        page: Option<u64>,
    },
    Second {
        gscid: Option<u16>,
        page: Option<u64>,
    },
    Both {
        gscid: Option<u16>,
        pscid: Option<u32>,
        page: Option<u64>,
    },
}

/// Whether two pages lie in one leaf of this order. One of 64 or more would span every page there is.
fn is_same_leaf(order: u16, page: u64, other: u64) -> bool
    ensures { result ≡ is_same_leaf order page other }
{
    order >= 64 || page >> order == other >> order
}

impl Cover {
    /// Whether the translation of this page of an address space is among them.
    pub fn covers(&self, space: Space, number: u64, cached: Translation) -> bool
        ensures { result ≡ covers self.now (space, number) cached }
    {
        let order = cached.order;
        match (*self, space) {
            (Cover::First { pscid, page }, Space::First { pscid: own }) => {
                pscid.is_none_or(|asked| asked == own)
                    && page.is_none_or(|asked| is_same_leaf(order, asked, number))
            }
            (Cover::Second { gscid, page }, Space::Second { gscid: own }) => {
                gscid.is_none_or(|asked| asked == own)
                    && page.is_none_or(|asked| is_same_leaf(order, asked, number))
            }
            (
                Cover::Both { gscid, pscid, page },
                Space::Both {
                    gscid: guest,
                    pscid: own,
                },
            ) => {
                gscid.is_none_or(|asked| asked == guest)
                    && pscid.is_none_or(|asked| asked == own)
                    && page.is_none_or(|asked| is_same_leaf(order, asked, number))
            }
            (Cover::First { .. } | Cover::Second { .. } | Cover::Both { .. }, _) => false,
        }
    }

    /// The one key of which a translation from a leaf of 4 KiB is covered, where the cover leaves nothing of it open.
    pub(crate) fn only_key(&self) -> Option<(Space, u64)>
        ensures named { result ≡ named_key self.now }
        ensures only { IfSome result (λ key. (other : Key) (cached : Translation) → cached.order ≡ 0
            → covers self.now other cached ≡ is_key key other) }
    {
        match *self {
            Cover::First {
                pscid: Some(pscid),
                page: Some(page),
            } => Some((Space::First { pscid }, page)),
            Cover::Second {
                gscid: Some(gscid),
                page: Some(page),
            } => Some((Space::Second { gscid }, page)),
            Cover::Both {
                gscid: Some(gscid),
                pscid: Some(pscid),
                page: Some(page),
            } => Some((Space::Both { gscid, pscid }, page)),
            Cover::First { .. } | Cover::Second { .. } | Cover::Both { .. } => None,
        }
    }

    /// The one page of which translations from leaves of 4 KiB are covered, where the cover names it.
    pub(crate) fn only_page(&self) -> Option<u64>
        ensures named { result ≡ named_page self.now }
        ensures only { IfSome result (λ page. (key : Key) (cached : Translation) → cached.order ≡ 0 → key.1 ≢ page
            → covers self.now key cached ≡ false) }
    {
        match *self {
            Cover::First { page, .. } | Cover::Second { page, .. } | Cover::Both { page, .. } =>
                page,
        }
    }
}
