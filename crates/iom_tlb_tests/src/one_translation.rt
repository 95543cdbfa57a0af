ghost use Rattle.std.specs.Prelude.{true};
ghost use Rattle.iom_tlb.specs.Content.{Sets, HasNothing};
ghost use Rattle.iom_tlb_tests.specs.One.{content_of_one};

use iom_tlb::{Cover, Space, TransCache, Translation};

/// A translation, and the page that it is of.
#[derive(Clone, Copy, PartialEq, Eq)]
pub struct Kept {
    pub space: Space,
    pub page: u64,
    pub translation: Translation,
}

/// A cache of one translation, the one that was kept last.
#[derive(Drop)]
pub struct OneTranslation {
    pub only: Option<Kept>,
}

impl OneTranslation {
    /// A cache that has nothing.
    pub fn new() -> OneTranslation
        ensures { HasNothing (content_of_one result) }
    {
        OneTranslation { only: None }
    }

    fn set(&mut self, kept: Kept)
        ensures { Sets (content_of_one self.old) (kept.space, kept.page) kept.translation
            (content_of_one self.new) }
    {
        self.only = Some(kept);
    }
}

impl TransCache for OneTranslation {
    const SURE: bool = true;

    ghost SURE = { true };

    ghost content = { content_of_one };

    fn is_same(&self, other: &OneTranslation) -> bool {
        self.only == other.only
    }

    fn look(&mut self, space: Space, page: u64) -> Option<Translation> {
        match &self.only {
            Some(kept) if space == kept.space && page == kept.page => Some(kept.translation),
            _ => None,
        }
    }

    fn keep(&mut self, space: Space, page: u64, translation: Translation) {
        let kept = Kept {
            space,
            page,
            translation,
        };
        self.set(kept);
    }

    fn drop_where(&mut self, cover: &Cover) {
        if let Some(kept) = self.only {
            if cover.covers(kept.space, kept.page, kept.translation) {
                self.only = None;
            }
        }
    }

    fn drop_all(&mut self) {
        self.only = None;
    }
}
