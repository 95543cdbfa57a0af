// The bars of held and lingering pages, and of what keeps their frames from being free.
use crate::layout::Layout;
use crate::rows::{BAR, THIN};
use crate::symbol::Symbol;
use iom_base::GrantRights;
use iom_svg::{Part, Svg};
use iom_timeline::{NEVER, PageCopy, Period, Place, Stay, Timeline};
use std::alloc::AllocError;

/// The width from which a bar has words in it.
const ROOM_FOR_RIGHTS: u64 = 22;

/// The lines from one to another: the tip of a bar.
fn append_lines(svg: &mut Svg, period: Period) -> Result<(), AllocError> {
    if period.until == NEVER {
        return svg.append(&[
            Part::Markup(" from line "),
            Part::Number(period.from),
            Part::Markup(" on"),
        ]);
    }
    svg.append(&[
        Part::Markup(" from line "),
        Part::Number(period.from),
        Part::Markup(" to "),
        Part::Number(period.until),
    ])
}

/// A page of a device on a frame: of the tip of a bar.
pub(crate) fn append_place(
    svg: &mut Svg,
    timeline: &Timeline,
    place: Place,
) -> Result<(), AllocError> {
    match place {
        Place::Lane(lane) => {
            let Some(lane) = timeline.lanes.get(lane) else {
                return Ok(());
            };
            svg.append(&[
                Part::Device(lane.device),
                Part::Markup(" page "),
                Part::Number(lane.page),
                Part::Markup(", frame "),
                Part::Number(lane.frame),
            ])
        }
        Place::Device(id) => svg.device(id),
        Place::Frame(frame) => svg.append(&[Part::Markup("frame "), Part::Number(frame)]),
        Place::Driver => svg.markup("driver and IOMMU"),
    }
}

/// The letters of a right.
fn letters(rights: GrantRights) -> &'static str {
    match rights {
        GrantRights::ReadOnly => "r",
        GrantRights::ReadWrite => "rw",
    }
}

/// A bar, with what its tip says.
#[derive(Clone, Copy)]
pub(crate) struct Bar {
    pub(crate) place: Place,
    pub(crate) period: Period,
    pub(crate) top: u64,
    pub(crate) height: u64,
    pub(crate) symbol: Symbol,
    pub(crate) ticket: Option<u32>,
    /// From which line on the frame is free, if it is with the end of the bar.
    pub(crate) free_from: Option<u64>,
}

/// What the tip of a bar says.
fn append_tip(svg: &mut Svg, timeline: &Timeline, bar: &Bar) -> Result<(), AllocError> {
    append_place(svg, timeline, bar.place)?;
    svg.append(&[Part::Markup(": "), Part::Markup(bar.symbol.words())])?;
    if let Some(ticket) = bar.ticket {
        let ticket = u64::from(ticket);
        svg.append(&[Part::Markup(" under ticket "), Part::Number(ticket)])?;
    }
    append_lines(svg, bar.period)?;
    match bar.free_from {
        None => Ok(()),
        Some(line) => svg.append(&[Part::Markup(", frame free from line "), Part::Number(line)]),
    }
}

pub(crate) fn append_bar(
    svg: &mut Svg,
    layout: &Layout,
    timeline: &Timeline,
    bar: &Bar,
) -> Result<(), AllocError> {
    let (left, width) = layout.scale.bar(bar.period);
    svg.rectangle(left, bar.top, width, bar.height, bar.symbol.fill())?;
    svg.append(&[Part::Markup(bar.symbol.outline()), Part::Markup("><title>")])?;
    append_tip(svg, timeline, bar)?;
    svg.markup("</title></rect>\n")
}

/// The right in the bar of a held page.
fn append_rights(
    svg: &mut Svg,
    layout: &Layout,
    period: Period,
    top: u64,
    rights: GrantRights,
) -> Result<(), AllocError> {
    let (left, width) = layout.scale.bar(period);
    if width < ROOM_FOR_RIGHTS || !layout.scale.is_wide() {
        return Ok(());
    }
    svg.begin_text(
        left.saturating_add(4),
        top.saturating_add(11),
        " font-size=\"10\" fill=\"#ffffff\"",
    )?;
    svg.append(&[Part::Markup(letters(rights)), Part::Markup("</text>\n")])
}

/// The width of a ticket's number behind its letter.
fn ticket_width(ticket: u32) -> u64 {
    match ticket {
        0..=9 => 15,
        10..=99 => 21,
        100..=999 => 27,
        _ => 33,
    }
}

/// The ticket in the bar of a lingering page, where it stands clear of the next line's sign.
fn append_ticket(
    svg: &mut Svg,
    layout: &Layout,
    period: Period,
    top: u64,
    ticket: u32,
) -> Result<(), AllocError> {
    let (left, width) = layout.scale.bar(period);
    let room = ticket_width(ticket);
    if width < room || layout.scale.step < room.saturating_add(7) {
        return Ok(());
    }
    svg.rectangle(
        left.saturating_add(1),
        top.saturating_add(1),
        room,
        BAR - 2,
        "#ffffff",
    )?;
    svg.markup("/>")?;
    svg.begin_text(
        left.saturating_add(2),
        top.saturating_add(11),
        " font-size=\"10\"",
    )?;
    svg.append(&[
        Part::Markup("T"),
        Part::Number(u64::from(ticket)),
        Part::Markup("</text>\n"),
    ])
}

/// The width of the words behind a bar, and of their short form.
const FREE_ROOM: u64 = 78;

const SHORT_FREE_ROOM: u64 = 34;

const NOT_FREE_ROOM: u64 = 52;

/// From which line on the frame is free, behind the end of the lingering page's bar, where nothing else stands there.
fn append_free(
    svg: &mut Svg,
    layout: &Layout,
    stay: &Stay,
    line: u64,
    top: u64,
) -> Result<(), AllocError> {
    let left = layout.scale.middle(line).saturating_add(4);
    let room = layout.scale.room(line, stay.quiet_until);
    if room < SHORT_FREE_ROOM {
        return Ok(());
    }
    svg.begin_text(
        left,
        top.saturating_add(11),
        " font-size=\"11\" font-weight=\"bold\" fill=\"#005a43\"",
    )?;
    if room < FREE_ROOM {
        return svg.markup("free</text>\n");
    }
    svg.append(&[
        Part::Markup("free from "),
        Part::Number(line),
        Part::Markup("</text>\n"),
    ])
}

/// That the frame isn't free yet, behind the bar of a page that lingers to the last line.
fn append_not_free(svg: &mut Svg, layout: &Layout, top: u64) -> Result<(), AllocError> {
    let left = layout.scale.end().saturating_add(4);
    if layout.scale.width().saturating_sub(left) < NOT_FREE_ROOM {
        return Ok(());
    }
    svg.begin_text(
        left,
        top.saturating_add(11),
        " font-size=\"11\" font-weight=\"bold\" fill=\"#a04000\"",
    )?;
    svg.markup("not free</text>\n")
}

/// The words behind the bars of a stay.
fn append_end(svg: &mut Svg, layout: &Layout, stay: &Stay) -> Result<(), AllocError> {
    let Some(row) = layout.row(Place::Lane(stay.lane)) else {
        return Ok(());
    };
    if let Some(line) = stay.free_from() {
        if layout.choice.has_line(line) {
            append_free(svg, layout, stay, line, row.top)?;
        }
    }
    let Some(period) = stay.lingering() else {
        return Ok(());
    };
    if period.until > layout.choice.to && layout.choice.has_period(period) {
        append_not_free(svg, layout, row.top)?;
    }
    Ok(())
}

/// The words behind the bars of all stays that are chosen.
pub(crate) fn append_ends(
    svg: &mut Svg,
    layout: &Layout,
    timeline: &Timeline,
) -> Result<(), AllocError> {
    for stay in &timeline.stays {
        if layout.choice.has_place(timeline, Place::Lane(stay.lane)) {
            append_end(svg, layout, stay)?;
        }
    }
    Ok(())
}

/// The bar of a page as long as it is held.
fn append_held(
    svg: &mut Svg,
    layout: &Layout,
    timeline: &Timeline,
    stay: &Stay,
    top: u64,
) -> Result<(), AllocError> {
    let period = stay.held();
    if !layout.choice.has_period(period) {
        return Ok(());
    }
    let bar = Bar {
        place: Place::Lane(stay.lane),
        period,
        top,
        height: BAR,
        symbol: Symbol::Held,
        ticket: None,
        free_from: None,
    };
    append_bar(svg, layout, timeline, &bar)?;
    append_rights(svg, layout, period, top, stay.rights)
}

/// The bar of a page as long as it lingers.
fn append_lingering(
    svg: &mut Svg,
    layout: &Layout,
    timeline: &Timeline,
    stay: &Stay,
    top: u64,
) -> Result<(), AllocError> {
    let Some(period) = stay.lingering() else {
        return Ok(());
    };
    if !layout.choice.has_period(period) {
        return Ok(());
    }
    let bar = Bar {
        place: Place::Lane(stay.lane),
        period,
        top,
        height: BAR,
        symbol: Symbol::Lingering,
        ticket: stay.ticket,
        free_from: stay.free_from(),
    };
    append_bar(svg, layout, timeline, &bar)?;
    match stay.ticket {
        None => Ok(()),
        Some(ticket) => append_ticket(svg, layout, period, top, ticket),
    }
}

/// The bars of a stay.
fn append_stay(
    svg: &mut Svg,
    layout: &Layout,
    timeline: &Timeline,
    stay: &Stay,
) -> Result<(), AllocError> {
    let Some(row) = layout.row(Place::Lane(stay.lane)) else {
        return Ok(());
    };
    append_held(svg, layout, timeline, stay, row.top)?;
    append_lingering(svg, layout, timeline, stay, row.top)
}

/// The bars of all stays that are chosen.
pub(crate) fn append_stays(
    svg: &mut Svg,
    layout: &Layout,
    timeline: &Timeline,
) -> Result<(), AllocError> {
    for stay in &timeline.stays {
        if layout.choice.has_place(timeline, Place::Lane(stay.lane)) {
            append_stay(svg, layout, timeline, stay)?;
        }
    }
    Ok(())
}

/// A thin bar of a copy, if there is anything to be drawn of it.
fn append_thin(
    svg: &mut Svg,
    layout: &Layout,
    timeline: &Timeline,
    at: (Place, u64),
    symbol: Symbol,
    period: Option<Period>,
) -> Result<(), AllocError> {
    let (place, top) = at;
    let Some(period) = period else {
        return Ok(());
    };
    if !layout.choice.has_period(period) {
        return Ok(());
    }
    let bar = Bar {
        place,
        period,
        top,
        height: THIN,
        symbol,
        ticket: None,
        free_from: None,
    };
    append_bar(svg, layout, timeline, &bar)
}

/// The thin bars of a copy: up to where it is of use, and from there on.
fn append_copy(
    svg: &mut Svg,
    layout: &Layout,
    timeline: &Timeline,
    copy: &PageCopy,
    track: u64,
) -> Result<(), AllocError> {
    let Some(row) = layout.row(copy.place) else {
        return Ok(());
    };
    let at = (copy.place, row.top_of(copy.kind, track));
    let symbol = Symbol::of_copy(copy.kind);
    append_thin(svg, layout, timeline, at, symbol, copy.of_use())?;
    append_thin(svg, layout, timeline, at, Symbol::OfNoUse, copy.of_no_use())
}

/// The thin bars of all copies that are chosen.
pub(crate) fn append_copies(
    svg: &mut Svg,
    layout: &Layout,
    timeline: &Timeline,
) -> Result<(), AllocError> {
    for (copy, track) in timeline.copies.iter().zip(layout.tracks.iter()) {
        if layout.choice.has_period(copy.period) && layout.choice.has_place(timeline, copy.place) {
            append_copy(svg, layout, timeline, copy, *track)?;
        }
    }
    Ok(())
}
