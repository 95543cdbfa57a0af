//! Answers worked litmus tests, and prints how the answers compare with those of a simulator that shares no code with this
//! repository; the gate compares these lines. A schedule of each outcome is run once more, as a script of `iommu-run` or
//! `iommu-hw`, and is to be answered as in the search.
//!
//! `data/tests` has each test with its answer, up to how many places were looked at: that is the program's own. What is
//! compared is each outcome with the number of its schedules, and what follows from these.
#![tactic(auto)]

mod replaying;

use crate::replaying::replayed;
use iom_litmus_runner::{Answer, Asked, Finding, answer_test};
use std::fs;

/// The places that may be looked at are so many, and all schedules are run once more.
const ASKED: Asked = Asked {
    most: 200_000,
    graph: false,
    replays: true,
};

/// The tests of `data/tests`. A new one is its two files and a line here.
static TESTS: [&str; 16] = [
    "drain",
    "forged",
    "guest-tables",
    "hw-ats",
    "hw-ats-first",
    "hw-ats-first-grouped",
    "hw-ats-grouped",
    "hw-clears-late",
    "hw-no-drain",
    "hw-unmap",
    "late-answer",
    "lost",
    "poll-before-commit",
    "recovery",
    "repeated",
    "too-early",
];

/// The number of the first line that differs, counted from 1. None where all that is wanted was printed, and then what
/// begins with `Places`.
fn first_difference(printed: &str, wanted: &str) -> Option<usize> {
    let mut others = printed.lines();
    let mut number = 0usize;
    for line in wanted.lines() {
        number = number.saturating_add(1);
        if others.next() != Some(line) {
            return Some(number);
        }
    }
    match others.next() {
        Some(line) if line.starts_with("Places ") => None,
        _ => Some(number.saturating_add(1)),
    }
}

fn words_of(finding: Finding) -> &'static str {
    match finding {
        Finding::Ok => "Ok",
        Finding::No => "No",
        Finding::Undecided => "Undecided",
    }
}

/// How the answer compares with the one that is wanted.
fn compared(rt: &HostRuntime, printed: &str, wanted: &str) -> anyhow::Result<String> {
    let alloc = rt.alloc();
    match first_difference(printed, wanted) {
        None => Ok(format!(in alloc; "as counted")?),
        Some(line) => {
            let shown = printed
                .lines()
                .nth(line.saturating_sub(1))
                .unwrap_or("nothing");
            Ok(format!(in alloc; "line {line} differs: {shown}")?)
        }
    }
}

/// That, whether the answer is the one that the test says, and how many outcomes have a schedule that runs as a script.
fn told(rt: &HostRuntime, answer: Answer, wanted: &str) -> anyhow::Result<String> {
    let printed = String::from_utf8(answer.text)?;
    let compared = compared(rt, &printed, wanted)?;
    let found = words_of(answer.finding);
    let outcomes = answer.replays.len();
    let replayed = replayed(rt, answer.replays)?;
    Ok(format!(in rt.alloc(); "{compared}; {found}; {replayed} of {outcomes} replayed")?)
}

fn tell(rt: &HostRuntime, name: &str) -> anyhow::Result<()> {
    let alloc = rt.alloc();
    let test = fs::read_to_string(rt, format!(in alloc; "tests/{name}.litmus")?.as_str())?;
    let wanted = fs::read_to_string(rt, format!(in alloc; "tests/{name}.out")?.as_str())?;
    match answer_test(alloc, test.as_bytes(), ASKED, &mut ()) {
        Ok(answer) => {
            let found = told(rt, answer, &wanted)?;
            println!(rt; "{name}: {found}")?;
        }
        Err(_) => println!(rt; "{name}: no answer")?,
    }
    Ok(())
}

fn main(rt: HostRuntime) -> anyhow::Result<()> {
    for name in &TESTS {
        tell(&rt, name)?;
    }
    Ok(())
}
