//! Globs, by which answers are asked for.
ghost use Rattle.std.specs.Prelude.{◌≡◌, ◌↔◌, IsTrue};
ghost use Rattle.iom_litmus_test.specs.Globs.{Matches, is_match};

use iom_base::Sequence;

/// One part of a glob.
#[derive(Clone, Copy, PartialEq, Eq)]
pub enum GlobPart {
    /// `*`: any bytes, or none.
    Anything,
    /// This byte.
    Byte(u8),
}

/// A text in which `*` stands for anything.
#[derive(Drop)]
pub struct Glob {
    pub parts: Sequence<GlobPart>,
}

impl Glob {
    /// Whether the text is one of those that it stands for. It takes no memory.
    pub fn matches(&self, text: &[u8]) -> bool
        ensures matches { IsTrue result ↔ Matches self.now.parts text.now }
        ensures test { result ≡ is_match self.now.parts text.now }
    {
        parts_match(self.parts.as_slice(), text)
    }
}

/// Whether the parts, one after another, are the text.
fn parts_match(parts: &[GlobPart], text: &[u8]) -> bool
    ensures { IsTrue result ↔ Matches parts.now text.now }
{
    match parts.split_first() {
        None => text.is_empty(),
        Some((GlobPart::Byte(byte), rest)) => match text.split_first() {
            Some((first, others)) => *first == *byte && parts_match(rest, others),
            None => false,
        },
        Some((GlobPart::Anything, rest)) => {
            for left_out in 0..=text.len() {
                if parts_match(rest, &text[left_out..]) {
                    return true;
                }
            }
            false
        }
    }
}
