// Of which address spaces a translation may be there that came from a leaf above 4 KiB.
ghost use Rattle.std.specs.Prelude.{◌≡◌, false};
ghost use Rattle.iom_tlb.specs.Covers.{may_be_large, may_cover_large, nowhere_large, also_large, with_kept};
ghost use Rattle.iom_tlb.specs.declared.space.Space.{Space};

use crate::cover::Cover;
use crate::space::Space;

/// Whether a translation from a leaf above 4 KiB may be there, for each kind of address spaces.
#[derive(Clone, Copy)]
pub(crate) struct LargeLeaves {
    pub(crate) first: bool,
    pub(crate) second: bool,
    pub(crate) both: bool,
}

impl LargeLeaves {
    /// Nowhere.
    pub(crate) fn none() -> LargeLeaves
        ensures { result ≡ nowhere_large }
    {
        LargeLeaves {
            first: false,
            second: false,
            both: false,
        }
    }

    /// Whether there may be one among those that a cover covers.
    pub(crate) fn may_be_among(&self, cover: &Cover) -> bool
        ensures { result ≡ may_cover_large self.now cover.now }
    {
        match cover {
            Cover::First { .. } => self.first,
            Cover::Second { .. } => self.second,
            Cover::Both { .. } => self.both,
        }
    }

    /// From now on there may be one of this address space too, if what is kept there came from such a leaf.
    pub(crate) fn note_kept(&mut self, space: Space, order: u16)
        ensures noted { self.new ≡ with_kept space order self.old }
        ensures marked { may_be_large self.new space ≡ false → order ≡ 0 }
        ensures others { (other : Space) → may_be_large self.new other ≡ false → may_be_large self.old other ≡ false }
    {
        if order > 0 {
            self.mark(space);
        }
    }

    // One may be of this address space.
    fn mark(&mut self, space: Space)
        ensures { self.new ≡ also_large space self.old }
    {
        match space {
            Space::First { .. } => self.first = true,
            Space::Second { .. } => self.second = true,
            Space::Both { .. } => self.both = true,
        }
    }
}
