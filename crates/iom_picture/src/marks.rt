// The signs of what happened at single lines.
use crate::bars::append_place;
use crate::layout::Layout;
use crate::symbol::Symbol;
use iom_base::AccessKind;
use iom_svg::{Part, Svg};
use iom_timeline::{Mark, MarkKind, Place, Timeline};
use std::alloc::AllocError;

/// A circle in the middle.
fn append_circle(svg: &mut Svg, x: u64, y: u64, look: &str) -> Result<(), AllocError> {
    svg.append(&[
        Part::Markup("<circle cx=\""),
        Part::Number(x),
        Part::Markup("\" cy=\""),
        Part::Number(y),
        Part::Markup("\""),
        Part::Markup(look),
        Part::Markup("/>"),
    ])
}

/// A path that begins so far left of the middle and above it, and goes on as the text says.
fn append_path(svg: &mut Svg, x: u64, y: u64, rest: &str) -> Result<(), AllocError> {
    svg.append(&[
        Part::Markup("<path d=\"M"),
        Part::Number(x),
        Part::Markup(" "),
        Part::Number(y),
        Part::Markup(rest),
        Part::Markup("/>"),
    ])
}

/// The circle of a sign, as attributes, if it has one.
fn circle_of(symbol: Symbol) -> Option<&'static str> {
    match symbol {
        Symbol::Accepted => {
            Some(" r=\"4\" fill=\"#ffffff\" stroke=\"#000000\" stroke-width=\"2\"")
        }
        Symbol::Made => Some(" r=\"4\" fill=\"#000000\" stroke=\"#ffffff\""),
        Symbol::Fault => Some(" r=\"6\" fill=\"#ffffff\""),
        Symbol::Free | Symbol::NotFree => Some(" r=\"5\" fill=\"#ffffff\" stroke=\"#222222\""),
        _ => None,
    }
}

/// The rest of the path of a sign, which begins in the middle, if it has one.
fn path_of(symbol: Symbol) -> Option<&'static str> {
    match symbol {
        Symbol::Fault => {
            Some("m-4 -4l8 8m0-8l-8 8\" stroke=\"#d55e00\" stroke-width=\"2\" fill=\"none\"")
        }
        Symbol::FenceDone => Some("m0-6l6 6l-6 6l-6-6z\" fill=\"#f0e442\" stroke=\"#222222\""),
        Symbol::Confirmed => Some("m-6-5h12l-6 11z\" fill=\"#0072b2\" stroke=\"#222222\""),
        Symbol::TimedOut => Some("m-5-6h10l-10 12h10z\" fill=\"#d55e00\" stroke=\"#222222\""),
        Symbol::Restarted => {
            Some("m-5-5h10v10h-10z\" fill=\"#ffffff\" stroke=\"#222222\" stroke-width=\"2\"")
        }
        Symbol::Lost => {
            Some("m-6-4h12v8h-12zm0 0l12 8m0-8l-12 8\" fill=\"#ffffff\" stroke=\"#222222\"")
        }
        Symbol::Free => Some("m-3 0l3 3l5-8\" stroke=\"#009e73\" stroke-width=\"2\" fill=\"none\""),
        Symbol::NotFree => Some("m-3 0h6\" stroke=\"#d55e00\" stroke-width=\"3\" fill=\"none\""),
        Symbol::HandedOff => {
            Some("m-6-2h5v-4l7 6l-7 6v-4h-5z\" fill=\"#cc79a7\" stroke=\"#222222\"")
        }
        _ => None,
    }
}

/// The sign of a symbol that is no bar, around the point: its circle, and its path on that.
pub(crate) fn append_sign(svg: &mut Svg, symbol: Symbol, x: u64, y: u64) -> Result<(), AllocError> {
    if let Some(look) = circle_of(symbol) {
        append_circle(svg, x, y, look)?;
    }
    match path_of(symbol) {
        None => Ok(()),
        Some(rest) => append_path(svg, x, y, rest),
    }
}

/// What happened, in words.
fn append_words(svg: &mut Svg, kind: MarkKind) -> Result<(), AllocError> {
    match kind {
        MarkKind::Accepted(AccessKind::Read) => svg.markup("read accepted"),
        MarkKind::Accepted(AccessKind::Write) => svg.markup("write accepted"),
        MarkKind::AcceptedStep => svg.markup("access accepted"),
        MarkKind::Made => svg.markup("access made"),
        MarkKind::Fault(cause) => svg.append(&[
            Part::Markup("refused, cause "),
            Part::Number(u64::from(cause.code())),
        ]),
        MarkKind::Confirmed { first, last } => svg.append(&[
            Part::Markup("tickets "),
            Part::Number(u64::from(first)),
            Part::Markup(" to "),
            Part::Number(u64::from(last)),
            Part::Markup(" confirmed"),
        ]),
        _ => svg.markup(Symbol::of_mark(kind).words()),
    }
}

/// Words beside a sign, where columns are wide.
fn append_beside(
    svg: &mut Svg,
    layout: &Layout,
    x: u64,
    y: u64,
    letter: &str,
    number: u64,
) -> Result<(), AllocError> {
    if !layout.scale.is_wide() {
        return Ok(());
    }
    svg.begin_text(x.saturating_add(7), y.saturating_add(4), " font-size=\"9\"")?;
    svg.append(&[
        Part::Markup(letter),
        Part::Number(number),
        Part::Markup("</text>"),
    ])
}

/// What a sign of the driver's row is about: the frame, where that has no row of its own; or the ticket that a poll confirms, where it is
/// one.
fn append_subject(
    svg: &mut Svg,
    layout: &Layout,
    mark: &Mark,
    x: u64,
    y: u64,
) -> Result<(), AllocError> {
    match (mark.place, mark.kind) {
        (Place::Frame(frame), _) if !layout.has_row_of_frame(frame) => {
            append_beside(svg, layout, x, y, "", frame)
        }
        (Place::Driver, MarkKind::Confirmed { first, last }) if first == last => {
            append_beside(svg, layout, x, y, "T", u64::from(first))
        }
        _ => Ok(()),
    }
}

fn append_mark(
    svg: &mut Svg,
    layout: &Layout,
    timeline: &Timeline,
    mark: &Mark,
) -> Result<(), AllocError> {
    let Some(row) = layout.row(mark.place) else {
        return Ok(());
    };
    svg.append(&[
        Part::Markup("<g><title>line "),
        Part::Number(mark.line),
        Part::Markup(", "),
    ])?;
    append_place(svg, timeline, mark.place)?;
    svg.markup(": ")?;
    append_words(svg, mark.kind)?;
    svg.markup("</title>")?;
    let (x, y) = (layout.scale.middle(mark.line), row.middle());
    append_sign(svg, Symbol::of_mark(mark.kind), x, y)?;
    append_subject(svg, layout, mark, x, y)?;
    svg.markup("</g>\n")
}

/// The signs of all marks that are chosen.
pub(crate) fn append_marks(
    svg: &mut Svg,
    layout: &Layout,
    timeline: &Timeline,
) -> Result<(), AllocError> {
    for mark in &timeline.marks {
        if layout.choice.has_line(mark.line)
            && layout.choice.has_place(timeline, mark.place)
            && !layout.scale.is_folded(mark.line)
        {
            append_mark(svg, layout, timeline, mark)?;
        }
    }
    Ok(())
}
