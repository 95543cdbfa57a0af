//! The answer to a test, but for its schedule.
use crate::cells::{append_lines, are_same_lines, lines_at};
use crate::page::Page;
use crate::values::append_outcome;
use iom_litmus::{Histogram, Row};
use iom_litmus_test::{QuestionKind, Spot, Test};
use std::alloc::{AllocError, Global};

/// How many schedules the proposition holds of.
#[derive(Clone, Copy, PartialEq, Eq)]
pub struct Verdict {
    pub positive: u64,
    pub negative: u64,
    /// The question is answered as the test says.
    pub is_validated: bool,
}

/// Counts the schedules of which the proposition holds, and those of which it doesn't.
pub fn verdict_on(test: &Test, rows: &[Row]) -> Verdict {
    let mut positive = 0u64;
    let mut negative = 0u64;
    for row in rows {
        if test.question.proposition.holds(row.outcome.as_slice()) {
            positive = positive.saturating_add(row.count);
        } else {
            negative = negative.saturating_add(row.count);
        }
    }
    Verdict {
        positive,
        negative,
        is_validated: match test.question.kind {
            QuestionKind::Exists => positive > 0,
            QuestionKind::NotExists => positive == 0,
            QuestionKind::ForAll => negative == 0,
        },
    }
}

fn word_of(kind: QuestionKind) -> &'static [u8] {
    match kind {
        QuestionKind::Exists => b"exists",
        QuestionKind::NotExists => b"~exists",
        QuestionKind::ForAll => b"forall",
    }
}

/// That lines like this one change what is under test where they are answered otherwise than awaited, each line once.
fn append_notes(page: &mut Page, test: &Test, changing: &[Spot]) -> Result<(), AllocError> {
    for (place, spot) in changing.iter().enumerate() {
        let lines = lines_at(test, *spot);
        let is_noted = changing[..place]
            .iter()
            .any(|earlier| are_same_lines(lines_at(test, *earlier), lines));
        if !is_noted {
            page.text(
                b"Note: where it is answered otherwise this changes the world, and isn't run: ",
            )?;
            append_lines(page, lines)?;
            page.text(b"\n")?;
        }
    }
    Ok(())
}

/// `Test NAME Allowed`, `Forbidden` or `Required`
fn append_head(page: &mut Page, test: &Test) -> Result<(), AllocError> {
    page.text(b"Test ")?;
    page.text(test.name.as_slice())?;
    page.text(match test.question.kind {
        QuestionKind::Exists => b" Allowed\n",
        QuestionKind::NotExists => b" Forbidden\n",
        QuestionKind::ForAll => b" Required\n",
    })
}

/// How many outcomes there are, and each with the number of its schedules. `*` marks those of which the proposition
/// holds.
fn append_histogram(page: &mut Page, test: &Test, rows: &[&Row]) -> Result<(), AllocError> {
    page.text(b"Histogram (")?;
    page.number(rows.len() as u64)?;
    page.text(b" states)\n")?;
    for row in rows {
        page.number(row.count)?;
        page.text(if test.question.proposition.holds(row.outcome.as_slice()) {
            b" *>"
        } else {
            b" :>"
        })?;
        append_outcome(page, test, row.outcome.as_slice())?;
        page.text(b"\n")?;
    }
    Ok(())
}

/// Whether the question is answered as the test says, and by how many schedules.
fn append_verdict(page: &mut Page, test: &Test, verdict: Verdict) -> Result<(), AllocError> {
    page.text(if verdict.is_validated {
        b"Ok\n"
    } else {
        b"No\n"
    })?;
    page.text(b"Witnesses\nPositive: ")?;
    page.number(verdict.positive)?;
    page.text(b" Negative: ")?;
    page.number(verdict.negative)?;
    page.text(b"\nCondition ")?;
    page.text(word_of(test.question.kind))?;
    page.text(if verdict.is_validated {
        b" is validated\n".as_slice()
    } else {
        b" is not validated\n".as_slice()
    })?;
    page.text(b"Observation ")?;
    page.text(test.name.as_slice())?;
    page.text(match (verdict.positive, verdict.negative) {
        (0, _) => b" Never ".as_slice(),
        (_, 0) => b" Always ".as_slice(),
        _ => b" Sometimes ".as_slice(),
    })?;
    page.number(verdict.positive)?;
    page.text(b" ")?;
    page.number(verdict.negative)?;
    page.text(b"\n")
}

/// How many places there are, and how many schedules through them.
fn append_size(page: &mut Page, places: usize, verdict: Verdict) -> Result<(), AllocError> {
    page.text(b"Places ")?;
    page.number(places as u64)?;
    page.text(b", schedules ")?;
    page.number(verdict.positive.saturating_add(verdict.negative))?;
    page.text(b"\n")
}

/// The answer to a test, outcomes with most schedules first. Before it stands a note of each awaited cell that changed
/// what is under test where it was answered otherwise: `changing`, as [`Graph::changing`](iom_litmus::Graph::changing)
/// has them.
pub fn report(
    alloc: Global,
    test: &Test,
    changing: &[Spot],
    histogram: &Histogram,
) -> Result<Vec<u8>, AllocError> {
    let rows = histogram.rows.as_slice();
    let mut sorted: Vec<&Row> = rows.iter().collect(alloc)?;
    sorted.sort_by_key(|row| u64::MAX - row.count)?;
    let mut page = Page::new(alloc);
    append_notes(&mut page, test, changing)?;
    append_head(&mut page, test)?;
    append_histogram(&mut page, test, &sorted)?;
    let verdict = verdict_on(test, rows);
    append_verdict(&mut page, test, verdict)?;
    append_size(&mut page, histogram.places, verdict)?;
    Ok(page.bytes)
}

/// What is told of a test that has more places than may be looked at, or more schedules than can be counted.
pub fn undecided(alloc: Global, test: &Test) -> Result<Vec<u8>, AllocError> {
    let mut page = Page::new(alloc);
    append_head(&mut page, test)?;
    page.text(b"Undecided\n")?;
    Ok(page.bytes)
}
