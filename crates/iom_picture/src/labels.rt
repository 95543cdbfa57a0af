// The names of the rows.
use crate::layout::Layout;
use crate::rows::Row;
use iom_svg::{Part, Svg};
use iom_timeline::Timeline;
use std::alloc::AllocError;

/// Where the names begin: of frames and of their lanes.
const OUTER: u64 = 12;

const INNER: u64 = 24;

/// Where the letters of a row's name stand.
fn base_of(row: Row) -> u64 {
    row.top.saturating_add(12)
}

fn append_lanes(svg: &mut Svg, layout: &Layout, timeline: &Timeline) -> Result<(), AllocError> {
    for (lane, row) in timeline.lanes.iter().zip(layout.lanes.iter()) {
        if !row.is_shown {
            continue;
        }
        svg.begin_text(INNER, base_of(*row), "")?;
        svg.append(&[
            Part::Device(lane.device),
            Part::Markup(" page "),
            Part::Number(lane.page),
            Part::Markup("</text>\n"),
        ])?;
    }
    Ok(())
}

fn append_frames(svg: &mut Svg, layout: &Layout) -> Result<(), AllocError> {
    let end = layout.scale.end();
    for (frame, top) in &layout.frames {
        svg.line((OUTER, *top), (end, *top), "stroke=\"#cccccc\"")?;
        svg.begin_text(OUTER, top.saturating_add(15), " font-weight=\"bold\"")?;
        svg.append(&[
            Part::Markup("frame "),
            Part::Number(*frame),
            Part::Markup("</text>\n"),
        ])?;
    }
    Ok(())
}

fn append_devices(svg: &mut Svg, layout: &Layout) -> Result<(), AllocError> {
    let end = layout.scale.end();
    for (id, row) in &layout.devices {
        let top = row.top.saturating_sub(4);
        svg.line((OUTER, top), (end, top), "stroke=\"#cccccc\"")?;
        svg.begin_text(OUTER, base_of(*row), "")?;
        svg.append(&[Part::Device(*id), Part::Markup(" elsewhere</text>\n")])?;
    }
    Ok(())
}

/// The names of all rows.
pub(crate) fn append_labels(
    svg: &mut Svg,
    layout: &Layout,
    timeline: &Timeline,
) -> Result<(), AllocError> {
    svg.begin_text(OUTER, base_of(layout.driver), "")?;
    svg.markup("driver and IOMMU</text>\n")?;
    append_frames(svg, layout)?;
    append_lanes(svg, layout, timeline)?;
    append_devices(svg, layout)
}
