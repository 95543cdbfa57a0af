//! The hardware that a script begins with.
ghost use Rattle.std.specs.Prelude.{◌↔◌, IsTrue};
ghost use Rattle.iom_script.specs.Reading.{Reads};
ghost use Rattle.iom_hardware_script.specs.Grammar.{IsFrameCount, IsSetupLine};
ghost use Rattle.iom_hardware_script.specs.Parts.{IsPaceWord, IsSizeAndPace};

use crate::script::{Pace, Setup};
use iom_script::words::{after, is_word, number_and, number_of};

/// The frames of the smallest memory.
const FEWEST_FRAMES: u64 = 64;

/// The frames of the largest memory.
const MOST_FRAMES: u64 = 4096;

/// Whether a memory can have so many frames.
fn is_frame_count(frames: u64) -> bool
    ensures { IsTrue result ↔ IsFrameCount frames }
{
    (FEWEST_FRAMES..=MOST_FRAMES).contains(&frames)
}

/// The pace that a word names, or two words.
fn pace_of(word: &[u8]) -> Option<Pace>
    ensures { Reads result (IsPaceWord word.now) }
{
    if is_word(word, b"stepped") {
        return Some(Pace::Stepped);
    }
    if is_word(word, b"nonleaf") {
        return Some(Pace::Pointed);
    }
    if is_word(word, b"napot") {
        return Some(Pace::Napot);
    }
    if is_word(word, b"nonleaf napot") {
        return Some(Pace::PointedNapot);
    }
    None
}

/// The number and the pace that the words behind `hardware` say, whether or not a memory can have so many frames.
fn size_and_pace(words: &[u8]) -> Option<(u64, Pace)>
    ensures { Reads result (λ said. IsSizeAndPace words.now said.0 said.1) }
{
    if let Some(size) = number_of(words) {
        return Some((size, Pace::Whole));
    }
    let (size, rest) = number_and(words)?;
    let pace = pace_of(rest)?;
    Some((size, pace))
}

/// The hardware that a line says.
pub fn setup_of(line: &[u8]) -> Option<Setup>
    ensures { Reads result (IsSetupLine line.now) }
{
    let words = after(line, b"hardware ")?;
    let (size, pace) = size_and_pace(words)?;
    if !is_frame_count(size) {
        return None;
    }
    Some(Setup {
        frames: size as u32,
        pace,
    })
}
