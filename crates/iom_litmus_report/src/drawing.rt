//! The places of a test as a graph, in the language of graphviz.
use crate::cells::{append_lines, column_at, lines_at};
use crate::page::Page;
use crate::script::{append_act, is_telling};
use crate::values::append_outcome;
use iom_base::Sequence;
use iom_litmus::{Deed, Edge, Graph, Step, System};
use iom_litmus_test::{Spot, Test};
use std::alloc::{AllocError, Global};

/// The way of a schedule through the places.
#[derive(Clone, Copy)]
struct Way<'a> {
    /// Its steps.
    steps: &'a [Step],
    /// The number of the place from which each of them is taken.
    from: &'a [usize],
}

impl Way<'_> {
    /// Whether it leads over this edge of this place.
    fn has(&self, number: usize, edge: &Edge) -> bool {
        self.steps
            .iter()
            .zip(self.from)
            .any(|(step, from)| *from == number && *step == edge.step)
    }
}

/// The text within quotation marks, as graphviz reads it.
fn append_quoted(page: &mut Page, bytes: &[u8]) -> Result<(), AllocError> {
    page.text(b"\"")?;
    for byte in bytes {
        if *byte == b'"' || *byte == b'\\' {
            page.text(b"\\")?;
        }
        page.text(&[*byte])?;
    }
    page.text(b"\"")
}

/// `COL: LINE & LINE`
fn append_cell(page: &mut Page, test: &Test, spot: Spot) -> Result<(), AllocError> {
    if let Some(column) = column_at(test, spot.column) {
        page.text(column.name.as_slice())?;
        page.text(b": ")?;
    }
    append_lines(page, lines_at(test, spot))
}

/// What the step does at this place.
fn label_of<S: System>(
    alloc: Global,
    test: &Test,
    graph: &Graph<S>,
    number: usize,
    step: Step,
) -> Result<Vec<u8>, AllocError> {
    let mut page = Page::new(alloc);
    match graph.deed(test, number, step) {
        Some(Deed::Cell(spot)) => append_cell(&mut page, test, spot)?,
        Some(Deed::Hardware(act)) => append_act(&mut page, act)?,
        None => {}
    }
    Ok(page.bytes)
}

/// An end of schedules: a box with what is seen there. Where that answers the question by itself it is drawn bold.
fn append_end<S: System>(
    page: &mut Page,
    alloc: Global,
    test: &Test,
    graph: &Graph<S>,
    number: usize,
) -> Result<(), AllocError> {
    let Some(outcome) = graph.outcome(number) else {
        return Ok(());
    };
    let mut label = Page::new(alloc);
    append_outcome(&mut label, test, outcome)?;
    page.text(b"  ")?;
    page.number(number as u64)?;
    page.text(b" [shape=box, label=")?;
    append_quoted(page, &label.bytes)?;
    page.text(if is_telling(test, outcome) {
        b", style=bold, color=red];\n".as_slice()
    } else {
        b"];\n".as_slice()
    })
}

/// A step from the place with this number, bold where the schedule takes it.
fn append_edge(
    page: &mut Page,
    number: usize,
    edge: &Edge,
    label: &[u8],
    is_bold: bool,
) -> Result<(), AllocError> {
    page.text(b"  ")?;
    page.number(number as u64)?;
    page.text(b" -> ")?;
    page.number(edge.to as u64)?;
    page.text(b" [label=")?;
    append_quoted(page, label)?;
    page.text(if is_bold {
        b", style=bold, color=red];\n".as_slice()
    } else {
        b"];\n".as_slice()
    })
}

/// The step by which the place with this number is left.
fn edge_by(edges: &[Sequence<Edge>], number: usize, step: Step) -> Option<&Edge> {
    edges
        .get(number)?
        .as_slice()
        .iter()
        .find(|edge| edge.step == step)
}

/// The number of the place from which each step of the schedule is taken.
fn places_along(
    alloc: Global,
    edges: &[Sequence<Edge>],
    schedule: &[Step],
) -> Result<Vec<usize>, AllocError> {
    let mut along = Vec::new(alloc);
    let mut number = 0;
    for step in schedule {
        along.push(number)?;
        match edge_by(edges, number, *step) {
            Some(edge) => number = edge.to,
            None => break,
        }
    }
    Ok(along)
}

/// The place with this number, and the steps from it.
fn append_place<S: System>(
    page: &mut Page,
    alloc: Global,
    test: &Test,
    graph: &Graph<S>,
    number: usize,
    way: Way<'_>,
) -> Result<(), AllocError> {
    let Some(edges) = graph.edges().get(number) else {
        return Ok(());
    };
    if edges.as_slice().is_empty() {
        return append_end(page, alloc, test, graph, number);
    }
    for edge in edges.as_slice() {
        let label = label_of(alloc, test, graph, number, edge.step)?;
        append_edge(page, number, edge, &label, way.has(number, edge))?;
    }
    Ok(())
}

/// The graph of the places that a search found, in the language of graphviz: an arrow for each step, a box for each end,
/// with what is seen there. The way of the schedule is drawn bold, and so are the ends that answer the question by
/// themselves.
pub fn dot<S: System>(
    alloc: Global,
    test: &Test,
    graph: &Graph<S>,
    schedule: &[Step],
) -> Result<Vec<u8>, AllocError> {
    let from = places_along(alloc, graph.edges(), schedule)?;
    let way = Way {
        steps: schedule,
        from: &from,
    };
    let mut page = Page::new(alloc);
    page.text(b"digraph ")?;
    append_quoted(&mut page, test.name.as_slice())?;
    page.text(b" {\n  node [shape=circle];\n  0 [shape=doublecircle];\n")?;
    for number in 0..graph.edges().len() {
        append_place(&mut page, alloc, test, graph, number, way)?;
    }
    page.text(b"}\n")?;
    Ok(page.bytes)
}
