// The entries of a plain cache: the least-recently-used cache below it, by what it has at each key. A call asks for
// the length first, since from there on it is known that no two entries have one key.
ghost use Rattle.std.specs.Prelude.{◌≡◌, ◌↔◌, false, IsTrue, option_map};
ghost use Rattle.std.specs.List.{find as first_of};
ghost use Rattle.iom_tlb.specs.Content.{TranslationsUnchanged, Keeps, DropsWhere};
ghost use Rattle.iom_tlb.specs.Covers.{covers};
ghost use Rattle.iom_tlb.specs.Entries.{content_of, after_look, KeepsInOrder, after_drop};

use crate::cover::Cover;
use crate::space::Space;
use crate::trans_cache::Translation;
use lru::LruCache;

/// Whether both have the same translations of the same pages, in the same order of use.
pub(crate) fn are_same(
    one: &LruCache<(Space, u64), Translation>,
    other: &LruCache<(Space, u64), Translation>,
) -> bool
    ensures { IsTrue result ↔ (one.now.entries ≡ other.now.entries) }
{
    if one.len() != other.len() {
        return false;
    }
    let mut others = other.iter();
    for (key, translation) in one.iter() {
        let Some((other_key, other_translation)) = others.next() else {
            return false;
        };
        if !is_same_key(key, other_key) || !translation.is_same(other_translation) {
            return false;
        }
    }
    true
}

// Whether the two are the same page of the same address space.
fn is_same_key(one: &(Space, u64), other: &(Space, u64)) -> bool
    ensures { IsTrue result ↔ (one.now ≡ other.now) }
{
    one == other
}

/// The translation at a key, which becomes the most recently used.
pub(crate) fn find(
    entries: &mut LruCache<(Space, u64), Translation>,
    key: (Space, u64),
) -> Option<Translation>
    ensures found { result ≡ content_of entries.old.entries key }
    ensures unchanged { TranslationsUnchanged (content_of entries.old.entries) (content_of entries.new.entries) }
    ensures order { entries.new.entries ≡ after_look key entries.old.entries }
    ensures capacity { entries.new.cap ≡ entries.old.cap }
{
    let _ = entries.len();
    let found = entries.peek(&key).copied();
    entries.promote(&key);
    found
}

/// Keeps a translation as the most recently used, in place of the least recently used where the cache is full.
/// Keeps nothing where there is no memory for a new one.
pub(crate) fn put(
    entries: &mut LruCache<(Space, u64), Translation>,
    key: (Space, u64),
    translation: Translation,
)
    requires { entries.old.cap ≡ 64 }
    ensures kept { Keeps false (content_of entries.old.entries) key translation
        (content_of entries.new.entries) }
    ensures order { KeepsInOrder entries.old.entries key translation entries.new.entries }
    ensures capacity { entries.new.cap ≡ entries.old.cap }
{
    let _ = entries.len();
    let _ = entries.put(key, translation);
}

/// Takes out what is covered, one entry after the other.
pub(crate) fn remove_covered(entries: &mut LruCache<(Space, u64), Translation>, cover: &Cover)
    ensures dropped { DropsWhere (covers cover.now) (content_of entries.old.entries)
        (content_of entries.new.entries) }
    ensures order { entries.new.entries ≡ after_drop (covers cover.now) entries.old.entries }
    ensures capacity { entries.new.cap ≡ entries.old.cap }
{
    let _ = entries.len();
    while let Some(key) = first_covered(entries, cover) {
        let _ = entries.len();
        entries.pop(&key);
    }
}

// The key of the first entry that is covered, from the most recently used on.
fn first_covered(
    entries: &LruCache<(Space, u64), Translation>,
    cover: &Cover,
) -> Option<(Space, u64)>
    ensures { result ≡ option_map (λ entry. entry.0)
        (first_of (λ entry. covers cover.now entry.0 entry.1) entries.now.entries) }
{
    for (key, translation) in entries.iter() {
        if cover.covers(key.0, key.1, *translation) {
            return Some(*key);
        }
    }
    None
}
