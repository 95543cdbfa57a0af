use crate::mailbox::Mailbox;
use iom_litmus::{Explored, Row, Search, Watch};
use iom_litmus_reader::read;
use iom_litmus_report::{answers_of, dot, report, script_of, telling_row};
use iom_litmus_test::Test;
use std::alloc::Global;
use std::process::Abort;

const LOST: &[u8] = b"VIZKRUN mail
\"A message may be lost\"
{
mailbox
}
 SENDER | READER ;
 send   | l: await look = \"came\" ;
hardware deliver, drop 1
locations [READER:l;]
exists (stuck READER)
";

const ANSWER: &[u8] = b"Test mail Allowed
Histogram (2 states)
1 *>READER:l=\"\"; stuck READER=1;
1 :>READER:l=\"came\"; stuck READER=0;
Ok
Witnesses
Positive: 1 Negative: 1
Condition exists is validated
Observation mail Sometimes 1 1
Places 5, schedules 2
";

const SCRIPT: &[u8] = b"# mail: READER:l=\"\"; stuck READER=1;
mailbox
# SENDER
send
# hardware
drop 0
";

const GRAPH: &[u8] = b"digraph \"mail\" {
  node [shape=circle];
  0 [shape=doublecircle];
  0 -> 1 [label=\"SENDER: send\", style=bold, color=red];
  1 -> 2 [label=\"deliver 0\"];
  1 -> 3 [label=\"drop 0\", style=bold, color=red];
  2 -> 4 [label=\"READER: look\"];
  3 [shape=box, label=\"READER:l=\\\"\\\"; stuck READER=1;\", style=bold, color=red];
  4 [shape=box, label=\"READER:l=\\\"came\\\"; stuck READER=0;\"];
}
";

const CHANGING: &[u8] = b"VIZKRUN mail
{
mailbox
}
 SENDER                  | OTHER ;
 await send = \"nothing\" | await send = \"nothing\" ;
locations [stuck SENDER;]
exists (stuck SENDER)
";

const NOTED: &[u8] =
    b"Note: where it is answered otherwise this changes the world, and isn't run: send
Test mail Allowed
Histogram (1 states)
1 *>stuck SENDER=1;
Ok
Witnesses
Positive: 1 Negative: 0
Condition exists is validated
Observation mail Always 1 0
Places 1, schedules 1
";

fn expect(rt: &impl Abort, holds: bool) {
    assert!(rt; holds);
}

/// Counts the places of which a search says that it goes on from them.
#[derive(Default, Drop)]
struct Counter {
    calls: usize,
    deepest: usize,
}

impl Watch for Counter {
    fn at(&mut self, _places: usize, depth: usize) {
        self.calls = self.calls.saturating_add(1);
        self.deepest = depth;
    }
}

/// The report of what was explored is this.
fn expect_report(
    rt: &impl Abort,
    alloc: Global,
    test: &Test,
    explored: &Explored<Mailbox>,
    answer: &[u8],
) {
    let changing = explored.graph.changing();
    let written = report(alloc, test, changing, &explored.histogram).expect(rt, "memory for it");
    expect(rt, written.as_slice() == answer);
}

/// What was asked on the way to this row is the script, and is answered so.
fn expect_script(rt: &impl Abort, search: &Search<Mailbox>, row: &Row) {
    let script = script_of(search, row).expect(rt, "it can be run once more");
    expect(rt, script.as_slice() == SCRIPT);
    let answers = answers_of(search, row).expect(rt, "it can be run once more");
    expect(rt, answers.as_slice() == b"sent\n\n".as_slice());
}

/// The picture of what was explored, with the way to this row, is the graph.
fn expect_graph(
    rt: &impl Abort,
    alloc: Global,
    test: &Test,
    explored: &Explored<Mailbox>,
    row: &Row,
) {
    let way = row.schedule.as_slice();
    let graph = dot(alloc, test, &explored.graph, way).expect(rt, "memory for it");
    expect(rt, graph.as_slice() == GRAPH);
}

/// What a search of the test comes to, of which this hears.
fn explored(rt: &impl Abort, search: &Search<Mailbox>, watch: &mut Counter) -> Explored<Mailbox> {
    search.explore(10, watch).expect(rt, "there are few places")
}

// A test from its file to its answer, the schedule of what was asked, and the graph of its places.
#[test]
fn a_test_is_answered(rt: HostRuntime) {
    let alloc = rt.alloc();
    let test = read(alloc, LOST).expect(&rt, "it is a test");
    let search = Search::<Mailbox> {
        alloc,
        test: &test,
        opening: &(),
    };
    let mut counter = Counter::default();
    let explored = explored(&rt, &search, &mut counter);
    expect(&rt, counter.calls == 5 && counter.deepest == 3);
    expect(&rt, search.is_validated(&explored.histogram));
    expect_report(&rt, alloc, &test, &explored, ANSWER);
    let row = telling_row(&test, explored.histogram.rows.as_slice()).expect(&rt, "one is stuck");
    expect_script(&rt, &search, row);
    expect_graph(&rt, alloc, &test, &explored, row);
}

// A line that does something though it isn't answered as awaited: the answer says so, once for all cells like it.
#[test]
fn a_try_that_changes_something_is_noted(rt: HostRuntime) {
    let alloc = rt.alloc();
    let test = read(alloc, CHANGING).expect(&rt, "it is a test");
    let search = Search::<Mailbox> {
        alloc,
        test: &test,
        opening: &(),
    };
    let explored = explored(&rt, &search, &mut Counter::default());
    expect_report(&rt, alloc, &test, &explored, NOTED);
}
