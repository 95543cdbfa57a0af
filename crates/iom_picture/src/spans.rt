// The spans in which a device is quarantined, and what the command queue waits for.
use crate::bars::{Bar, append_bar};
use crate::layout::Layout;
use crate::rows::THIN;
use crate::symbol::Symbol;
use iom_svg::Svg;
use iom_timeline::{Place, Quarantine, Timeline};
use std::alloc::AllocError;

/// The span of one row.
fn append_quarantine(
    svg: &mut Svg,
    layout: &Layout,
    timeline: &Timeline,
    quarantine: Quarantine,
) -> Result<(), AllocError> {
    let Some(row) = layout.row(quarantine.place) else {
        return Ok(());
    };
    if !row.is_shown {
        return Ok(());
    }
    let top = row.top.saturating_sub(2);
    let bar = Bar {
        place: quarantine.place,
        period: quarantine.period,
        top,
        height: row.end().saturating_sub(top).saturating_sub(4),
        symbol: Symbol::Quarantined,
        ticket: None,
        free_from: None,
    };
    append_bar(svg, layout, timeline, &bar)
}

/// The spans in which devices are quarantined, behind the bars of the same rows.
pub(crate) fn append_quarantines(
    svg: &mut Svg,
    layout: &Layout,
    timeline: &Timeline,
) -> Result<(), AllocError> {
    for quarantine in &timeline.quarantines {
        if layout.choice.has_period(quarantine.period)
            && layout.choice.has_place(timeline, quarantine.place)
        {
            append_quarantine(svg, layout, timeline, *quarantine)?;
        }
    }
    Ok(())
}

/// What the command queue waits for, below its signs.
pub(crate) fn append_waits(
    svg: &mut Svg,
    layout: &Layout,
    timeline: &Timeline,
) -> Result<(), AllocError> {
    for wait in &timeline.waits {
        if !layout.choice.has_period(wait.period) {
            continue;
        }
        let bar = Bar {
            place: Place::Driver,
            period: wait.period,
            top: layout.driver.first_thin(),
            height: THIN,
            symbol: Symbol::of_wait(wait.cause),
            ticket: None,
            free_from: None,
        };
        append_bar(svg, layout, timeline, &bar)?;
    }
    Ok(())
}
