// A timeline as a picture.
use crate::axis::{append_axis, append_folds, append_polls, append_words, height_of_words};
use crate::bars::{append_copies, append_ends, append_stays};
use crate::choice::Choice;
use crate::labels::append_labels;
use crate::layout::Layout;
use crate::legend::{append_legend, height_of_legend};
use crate::marks::append_marks;
use crate::patterns::append_patterns;
use crate::spans::{append_quarantines, append_waits};
use iom_svg::{Part, Svg};
use iom_timeline::Timeline;
use std::alloc::{AllocError, Global};

/// Where the title's letters stand, and where the legend begins.
const TITLE_BASE: u64 = 22;

const LEGEND_TOP: u64 = 34;

/// What is said of the whole.
const DESCRIPTION: &str =
    "Time goes from left to right, a column for each line of the trace. For each frame stand the pages \
that devices were granted there: a solid bar while a page is held, a hatched one while it lingers until its ticket is \
confirmed. Thin bars below show what could still reach the frame. Those at the top show what the command queue waits for.";

/// The look of the first tag.
const LOOK: &str = "\" role=\"img\" aria-labelledby=\"title description\" \
font-family=\"system-ui, Segoe UI, Roboto, Helvetica, Arial, sans-serif\" font-size=\"12\" fill=\"#222222\">\n";

/// Where the letters of the lines' numbers stand, below the legend.
fn base_of_numbers(layout: &Layout) -> u64 {
    height_of_legend(layout).saturating_add(LEGEND_TOP + 20)
}

/// Which lines of how many are drawn.
fn append_title(svg: &mut Svg, layout: &Layout, timeline: &Timeline) -> Result<(), AllocError> {
    svg.append(&[
        Part::Markup("Trace of an IOMMU, lines "),
        Part::Number(layout.scale.first),
        Part::Markup(" to "),
        Part::Number(layout.scale.last),
        Part::Markup(" of "),
        Part::Number(timeline.last_line),
    ])
}

fn append_first_tag(svg: &mut Svg, width: u64, height: u64) -> Result<(), AllocError> {
    svg.append(&[
        Part::Markup("<svg xmlns=\"http://www.w3.org/2000/svg\" width=\""),
        Part::Number(width),
        Part::Markup("\" height=\""),
        Part::Number(height),
        Part::Markup("\" viewBox=\"0 0 "),
        Part::Number(width),
        Part::Markup(" "),
        Part::Number(height),
        Part::Markup(LOOK),
    ])
}

/// The words for readers that show no picture.
fn append_meaning(svg: &mut Svg, layout: &Layout, timeline: &Timeline) -> Result<(), AllocError> {
    svg.markup("<title id=\"title\">")?;
    append_title(svg, layout, timeline)?;
    svg.append(&[
        Part::Markup("</title>\n<desc id=\"description\">"),
        Part::Markup(DESCRIPTION),
        Part::Markup("</desc>\n"),
    ])
}

/// The first tag, the words for readers that show no picture, and the ground.
fn append_head(
    svg: &mut Svg,
    layout: &Layout,
    timeline: &Timeline,
    height: u64,
) -> Result<(), AllocError> {
    let width = layout.scale.width();
    append_first_tag(svg, width, height)?;
    append_meaning(svg, layout, timeline)?;
    append_patterns(svg)?;
    svg.rectangle(0, 0, width, height, "#ffffff")?;
    svg.markup("/>\n")?;
    svg.begin_text(12, TITLE_BASE, " font-size=\"14\" font-weight=\"bold\"")?;
    append_title(svg, layout, timeline)?;
    svg.markup("</text>\n")
}

/// What stands above the rows, and behind them.
fn append_frame(svg: &mut Svg, layout: &Layout, timeline: &Timeline) -> Result<(), AllocError> {
    let numbers = base_of_numbers(layout);
    let words = height_of_words(layout, timeline);
    append_head(svg, layout, timeline, layout.bottom.saturating_add(words))?;
    append_legend(svg, layout, LEGEND_TOP)?;
    append_axis(svg, layout, numbers)?;
    append_folds(svg, layout, numbers)?;
    append_labels(svg, layout, timeline)
}

/// What stands in the rows, the signs last, and the words below them.
fn append_rows(svg: &mut Svg, layout: &Layout, timeline: &Timeline) -> Result<(), AllocError> {
    append_quarantines(svg, layout, timeline)?;
    append_waits(svg, layout, timeline)?;
    append_stays(svg, layout, timeline)?;
    append_copies(svg, layout, timeline)?;
    append_polls(svg, layout, timeline)?;
    append_ends(svg, layout, timeline)?;
    append_marks(svg, layout, timeline)?;
    append_words(svg, layout, timeline)
}

/// The layout of what is chosen, with a place for each row.
fn lay_out(alloc: Global, choice: Choice, timeline: &Timeline) -> Result<Layout, AllocError> {
    let mut layout = Layout::new(alloc, choice.within(timeline.last_line), timeline)?;
    let top = base_of_numbers(&layout).saturating_add(8);
    layout.place_rows(alloc, timeline, top)?;
    Ok(layout)
}

/// All of it.
fn append_picture(svg: &mut Svg, layout: &Layout, timeline: &Timeline) -> Result<(), AllocError> {
    append_frame(svg, layout, timeline)?;
    append_rows(svg, layout, timeline)?;
    svg.markup("</svg>\n")
}

/// The picture of what is chosen of a timeline: one SVG.
pub fn draw(alloc: Global, choice: Choice, timeline: &Timeline) -> Result<Vec<u8>, AllocError> {
    let layout = lay_out(alloc, choice, timeline)?;
    let mut svg = Svg::new(alloc);
    append_picture(&mut svg, &layout, timeline)?;
    Ok(svg.into_bytes())
}
