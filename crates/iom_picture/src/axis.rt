// The lines' numbers, the grid, and the lines' words.
use crate::layout::Layout;
use crate::scale::Scale;
use crate::symbol::Symbol;
use iom_svg::{Part, Svg};
use iom_timeline::{LineText, MarkKind, Timeline};
use std::alloc::AllocError;

/// The most bytes of a line that are shown; of a longer one the most of what is said, and of the arrow and the answer.
const MOST_BYTES: usize = 42;

const MOST_SAID: usize = 24;

const MOST_ANSWERED: usize = 20;

/// The room of a number of the axis: of one with two digits, and of a longer one.
const SHORT_ROOM: u64 = 18;

const LONG_ROOM: u64 = 30;

/// How many lines lie between two numbers.
static INTERVALS: [u64; 14] = [
    1, 2, 5, 10, 20, 50, 100, 200, 500, 1_000, 2_000, 5_000, 10_000, 20_000,
];

/// The look of the line at a poll.
pub(crate) const POLL_LINE: &str = "stroke=\"#0072b2\" stroke-dasharray=\"2 3\"";

fn interval_of(scale: &Scale) -> u64 {
    let room = if scale.last < 100 {
        SHORT_ROOM
    } else {
        LONG_ROOM
    };
    for interval in &INTERVALS {
        if interval.saturating_mul(scale.step) >= room {
            return *interval;
        }
    }
    50_000
}

/// A number of the axis, with the line of the grid below it.
fn append_number(svg: &mut Svg, layout: &Layout, line: u64, top: u64) -> Result<(), AllocError> {
    let x = layout.scale.middle(line);
    svg.line(
        (x, top.saturating_add(4)),
        (x, layout.bottom),
        "stroke=\"#e4e4e4\"",
    )?;
    svg.begin_text(
        x,
        top,
        " text-anchor=\"middle\" fill=\"#555555\" font-size=\"11\"",
    )?;
    svg.append(&[Part::Number(line), Part::Markup("</text>\n")])
}

/// The ground of each fold, with the number of its lines above it.
pub(crate) fn append_folds(svg: &mut Svg, layout: &Layout, top: u64) -> Result<(), AllocError> {
    let height = layout.bottom.saturating_sub(layout.driver.top);
    for fold in &layout.scale.folds {
        svg.rectangle(
            fold.left,
            layout.driver.top,
            fold.width(),
            height,
            Symbol::Folded.fill(),
        )?;
        svg.markup("/>\n")?;
        svg.begin_text(
            fold.middle(),
            top,
            " text-anchor=\"middle\" fill=\"#555555\" font-size=\"11\"",
        )?;
        svg.append(&[Part::Number(fold.count()), Part::Markup(" lines</text>\n")])?;
    }
    Ok(())
}

/// The numbers of lines, and the grid.
pub(crate) fn append_axis(svg: &mut Svg, layout: &Layout, top: u64) -> Result<(), AllocError> {
    let scale = &layout.scale;
    let interval = interval_of(scale).max(1);
    let first = scale.first / interval;
    let last = scale.last / interval;
    for turn in first..last.saturating_add(1) {
        let line = turn.saturating_mul(interval);
        if scale.first <= line && line <= scale.last && !scale.is_folded(line) {
            append_number(svg, layout, line, top)?;
        }
    }
    Ok(())
}

/// A dashed line through all rows at each poll that confirms a ticket.
pub(crate) fn append_polls(
    svg: &mut Svg,
    layout: &Layout,
    timeline: &Timeline,
) -> Result<(), AllocError> {
    for mark in &timeline.marks {
        let MarkKind::Confirmed { .. } = mark.kind else {
            continue;
        };
        if layout.choice.has_line(mark.line) {
            let x = layout.scale.middle(mark.line);
            svg.line((x, layout.driver.top), (x, layout.bottom), POLL_LINE)?;
        }
    }
    Ok(())
}

/// A text, and two dots for what is beyond so many bytes of it.
fn append_cut(svg: &mut Svg, text: &[u8], most: usize) -> Result<(), AllocError> {
    if text.len() <= most {
        return svg.text(text);
    }
    let shown = text.get(..most).unwrap_or(&[]);
    svg.append(&[Part::Text(shown), Part::Markup("..")])
}

/// Where the answer of a line begins, with the arrow before it; at its end, where it has none.
fn answer_in(words: &[u8]) -> usize {
    for place in 0..words.len() {
        let rest = words.get(place..).unwrap_or(&[]);
        if rest.starts_with(b" => ") {
            return place;
        }
    }
    words.len()
}

/// A line's words. Of a long one its beginning and that of its answer are shown.
fn append_shown(svg: &mut Svg, words: &[u8]) -> Result<(), AllocError> {
    if words.len() <= MOST_BYTES {
        return svg.text(words);
    }
    let place = answer_in(words);
    append_cut(svg, words.get(..place).unwrap_or(&[]), MOST_SAID)?;
    append_cut(svg, words.get(place..).unwrap_or(&[]), MOST_ANSWERED)
}

/// The words of a line, slanted below its column.
fn append_line_words(
    svg: &mut Svg,
    layout: &Layout,
    timeline: &Timeline,
    line: LineText,
) -> Result<(), AllocError> {
    svg.append(&[
        Part::Markup("<text transform=\"translate("),
        Part::Number(layout.scale.middle(line.line).saturating_sub(3)),
        Part::Markup(" "),
        Part::Number(layout.bottom.saturating_add(14)),
        Part::Markup(")rotate(60)\">"),
        Part::Number(line.line),
        Part::Markup(" "),
    ])?;
    append_shown(svg, timeline.text_of(line))?;
    svg.markup("</text>\n")
}

/// The words of all lines, where they aren't too many.
pub(crate) fn append_words(
    svg: &mut Svg,
    layout: &Layout,
    timeline: &Timeline,
) -> Result<(), AllocError> {
    if !layout.scale.has_words() {
        return Ok(());
    }
    svg.markup("<g font-size=\"11\">\n")?;
    for line in &timeline.lines {
        if layout.choice.has_line(line.line) && !layout.scale.is_folded(line.line) {
            append_line_words(svg, layout, timeline, *line)?;
        }
    }
    svg.markup("</g>\n")
}

/// How many letters of a line's words are shown, at most.
fn shown_letters(words: &[u8]) -> usize {
    if words.len() <= MOST_BYTES {
        return words.len();
    }
    let said = answer_in(words);
    let answered = words.len().saturating_sub(said);
    let letters = said
        .min(MOST_SAID)
        .saturating_add(answered.min(MOST_ANSWERED));
    letters.saturating_add(4)
}

/// The height that the words of the lines take.
pub(crate) fn height_of_words(layout: &Layout, timeline: &Timeline) -> u64 {
    if !layout.scale.has_words() {
        return 8;
    }
    let mut longest: usize = 0;
    for line in &timeline.lines {
        if layout.choice.has_line(line.line) && !layout.scale.is_folded(line.line) {
            longest = longest.max(shown_letters(timeline.text_of(*line)));
        }
    }
    let letters = longest.saturating_add(6) as u64;
    letters.saturating_mul(5).saturating_add(24)
}
