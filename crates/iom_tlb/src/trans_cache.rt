ghost use Rattle.std.specs.Prelude.{◌≡◌, ◌↔◌, Bool, IsTrue};
ghost use Rattle.iom_tlb.specs.Content.{Translations, TranslationsUnchanged, Keeps, DropsWhere, HasNothing};
ghost use Rattle.iom_tlb.specs.Covers.{covers};

use crate::cover::Cover;
use crate::space::Space;
use iom_base::Rights;

/// Where a page is translated to: its frame of 4 KiB, and what may be done there; and from which leaf that came.
#[derive(Clone, Copy, PartialEq, Eq)]
pub struct Translation {
    pub frame: u32,
    pub rights: Rights,
    /// The leaf from which it came spans 2^order pages: 0 for a page of 4 KiB, 9 for a superpage of 2 MiB, 18 for one of
    /// 1 GiB, 4 for a NAPOT leaf of 64 KiB (Privileged Architecture, "Svnapot"). Through both stages it is the first
    /// stage's leaf.
    pub order: u16,
}

impl Translation {
    // Whether the two are one.
    pub(crate) fn is_same(&self, other: &Translation) -> bool
        ensures { IsTrue result ↔ (self.now ≡ other.now) }
    {
        self == other
    }
}

/// A cache of translations, seen as its content: what it has for each page of each address space.
pub trait TransCache {
    /// Whether each keep keeps: it takes no memory, and never refuses.
    const SURE: bool;

    ghost SURE: { Bool };

    ghost content: { Self → Translations };

    /// Whether the two are equal: in what they have, and in what each later call will do. It changes nothing.
    fn is_same(&self, other: &Self) -> bool
        ensures { IsTrue result ↔ (self.now ≡ other.now) };

    /// What is cached for the page, if something is. The content stays.
    fn look(&mut self, space: Space, page: u64) -> Option<Translation>
        ensures found { result ≡ content self.old (space, page) }
        ensures unchanged { TranslationsUnchanged (content self.old) (content self.new) };

    /// Caches a translation, in place of the page's old one, and takes out at most one other. Or it is refused, and
    /// all stays: never in a cache that is `SURE`, nor where the page has a translation already.
    fn keep(&mut self, space: Space, page: u64, translation: Translation)
        ensures kept { Keeps SURE (content self.old) (space, page) translation (content self.new) };

    /// Takes out what is covered, and nothing else.
    fn drop_where(&mut self, cover: &Cover)
        ensures dropped { DropsWhere (covers cover.now) (content self.old) (content self.new) };

    /// Takes out everything.
    fn drop_all(&mut self)
        ensures empty { HasNothing (content self.new) };
}
