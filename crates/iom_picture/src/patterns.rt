// The patterns of bars that aren't solid.
use iom_svg::{Part, Svg};
use std::alloc::AllocError;

/// A pattern: a ground of one colour, with a stripe of another.
struct Stripes {
    name: &'static str,
    /// How it is turned or stretched, as an attribute.
    turned: &'static str,
    ground: &'static str,
    stripe: &'static str,
}

/// Slanted stripes, upright ones, and dashes.
static PATTERNS: [Stripes; 6] = [
    Stripes {
        name: "lingering",
        turned: " patternTransform=\"rotate(45)\"",
        ground: "#ffffff",
        stripe: "#6aaed6",
    },
    Stripes {
        name: "kept",
        turned: "",
        ground: "#b9e6d8",
        stripe: "#009e73",
    },
    Stripes {
        name: "answer",
        turned: " patternTransform=\"scale(2 1)\"",
        ground: "#ffffff",
        stripe: "#cc79a7",
    },
    Stripes {
        name: "cut",
        turned: " patternTransform=\"rotate(-45)\"",
        ground: "#ffffff",
        stripe: "#f3e4da",
    },
    Stripes {
        name: "waits",
        turned: "",
        ground: "#ffffff",
        stripe: "#222222",
    },
    Stripes {
        name: "asks",
        turned: " patternTransform=\"scale(3 1)\"",
        ground: "#ffffff",
        stripe: "#009e73",
    },
];

/// The pattern, of six by six.
fn append_pattern(svg: &mut Svg, stripes: &Stripes) -> Result<(), AllocError> {
    svg.append(&[
        Part::Markup("<pattern id=\""),
        Part::Markup(stripes.name),
        Part::Markup("\" width=\"6\" height=\"6\" patternUnits=\"userSpaceOnUse\""),
        Part::Markup(stripes.turned),
        Part::Markup("><rect x=\"0\" y=\"0\" width=\"6\" height=\"6\" fill=\""),
        Part::Markup(stripes.ground),
        Part::Markup("\"/><rect x=\"0\" y=\"0\" width=\"3\" height=\"6\" fill=\""),
        Part::Markup(stripes.stripe),
        Part::Markup("\"/></pattern>\n"),
    ])
}

/// All of them.
pub(crate) fn append_patterns(svg: &mut Svg) -> Result<(), AllocError> {
    svg.markup("<defs>\n")?;
    for stripes in &PATTERNS {
        append_pattern(svg, stripes)?;
    }
    svg.markup("</defs>\n")
}
