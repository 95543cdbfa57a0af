// What the bars and signs mean.
ghost use Rattle.std.specs.Prelude.{◌<◌};

use crate::axis::POLL_LINE;
use crate::layout::Layout;
use crate::marks::append_sign;
use crate::rows::{BAR, THIN};
use crate::symbol::{SYMBOLS, Symbol};
use iom_svg::{Part, Svg};
use std::alloc::AllocError;

/// The room of an entry.
const ENTRY_WIDTH: u64 = 186;

const ENTRY_HEIGHT: u64 = 20;

const LEFT: u64 = 12;

/// How many entries stand side by side: at least one.
fn columns(layout: &Layout) -> u64
    ensures { 0 < result }
{
    (layout.scale.width().saturating_sub(LEFT) / ENTRY_WIDTH).max(1)
}

/// The height of the legend.
pub(crate) fn height_of_legend(layout: &Layout) -> u64 {
    let count = layout.shown.len() as u64;
    let rows = count.saturating_add(columns(layout).saturating_sub(1)) / columns(layout);
    rows.saturating_mul(ENTRY_HEIGHT)
}

/// A bar of the legend.
fn append_bar_of(svg: &mut Svg, symbol: Symbol, left: u64, top: u64) -> Result<(), AllocError> {
    let (space, height) = match symbol {
        Symbol::Held | Symbol::Lingering | Symbol::Quarantined | Symbol::Folded => (0, BAR),
        _ => (5, THIN),
    };
    svg.rectangle(left, top.saturating_add(space), 24, height, symbol.fill())?;
    svg.append(&[Part::Markup(symbol.outline()), Part::Markup("/>")])
}

/// A sign of the legend, that of a poll on its line.
fn append_sign_of(svg: &mut Svg, symbol: Symbol, left: u64, top: u64) -> Result<(), AllocError> {
    let middle = left.saturating_add(12);
    if symbol == Symbol::Confirmed {
        svg.line((middle, top), (middle, top.saturating_add(18)), POLL_LINE)?;
    }
    append_sign(svg, symbol, middle, top.saturating_add(BAR / 2))
}

/// An entry: the bar or the sign, and its words.
fn append_entry(svg: &mut Svg, symbol: Symbol, left: u64, top: u64) -> Result<(), AllocError> {
    if symbol.is_bar() {
        append_bar_of(svg, symbol, left, top)?;
    } else {
        append_sign_of(svg, symbol, left, top)?;
    }
    svg.begin_text(left.saturating_add(31), top.saturating_add(11), "")?;
    let more = if symbol == Symbol::Lingering {
        " (T: its ticket)"
    } else {
        ""
    };
    svg.append(&[
        Part::Markup(symbol.words()),
        Part::Markup(more),
        Part::Markup("</text>\n"),
    ])
}

/// The legend, which explains what is drawn and nothing else.
pub(crate) fn append_legend(svg: &mut Svg, layout: &Layout, top: u64) -> Result<(), AllocError> {
    let columns = columns(layout);
    let mut place: u64 = 0;
    for symbol in &SYMBOLS {
        if !layout.shown.contains(symbol) {
            continue;
        }
        let left = (place % columns).saturating_mul(ENTRY_WIDTH);
        let below = (place / columns).saturating_mul(ENTRY_HEIGHT);
        append_entry(
            svg,
            *symbol,
            left.saturating_add(LEFT),
            below.saturating_add(top),
        )?;
        place = place.saturating_add(1);
    }
    Ok(())
}
