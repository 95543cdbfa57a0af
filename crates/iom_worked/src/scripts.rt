// Scripts with the lines that they have to print, and what the judge finds of both as a trace.
use crate::traces::trace_of;
use iom_judge::{Finding, Verdict, judge_trace};
use iom_runner::run_words;
use std::alloc::Global;
use std::fs;

/// The worked scripts of `data/rows`. A new one is its two files and a line here.
pub(crate) static ROWS: [&str; 60] = [
    "empty-script",
    "first-path",
    "grant-boundaries",
    "busy",
    "too-many-tickets",
    "read-only-serves-no-write",
    "script-fault",
    "missing-line-feed",
    "queue-bytes",
    "drain",
    "bytes-in-memory",
    "widest-id",
    "id-too-wide",
    "detach",
    "stale-but-lawful",
    "fence-waits-for-first-alone",
    "second-stage",
    "guest-tables",
    "drain-then-record",
    "fault-queue-overflow",
    "guest-table-changes",
    "frame-granted-twice",
    "late-answer",
    "repeated-completion",
    "forged-completion",
    "question-between-invalidations",
    "translated-request-record",
    "loss-timeout-restart",
    "reset-between",
    "quarantine-and-revival",
    "self-pointing-descriptor",
    "failing-disk",
    "same-head-again",
    "block-device-with-cache",
    "chain-fault-1-badindex",
    "chain-fault-2-badindex",
    "chain-fault-3-badindex",
    "chain-fault-4-indirect",
    "chain-fault-5-toolong",
    "chain-fault-6-short",
    "chain-fault-7-order",
    "lost-message-to-quarantine",
    "plugged-and-attached-once",
    "a-disk-is-used-once",
    "queue-sizes",
    "steps-begin-accesses",
    "steps-and-statuses",
    "own-bytes-after-a-reset",
    "index-far-ahead",
    "counts-of-a-block-device",
    "full-fabric",
    "sv48-first",
    "sv48-second",
    "two-sizes",
    "three-tables",
    "tables-shared",
    "guest-sizes",
    "guests-of-both-sizes",
    "another-size",
    "example-of-the-front-page",
];

/// Those whose scripts have a line `settle`, which a trace hasn't: these aren't judged.
pub(crate) static SETTLING: [&str; 4] = [
    "settle-nothing",
    "settle-eight",
    "settle-after-timeout",
    "quarantine-with-lost-message",
];

/// The rows that are run with `--trace`.
static COUNTED: [&str; 3] = [
    "lost-message-to-quarantine",
    "counts-of-a-block-device",
    "quarantine-with-lost-message",
];

/// The scripts of `data/examples`, in the order in which they are best read.
pub(crate) static EXAMPLES: [&str; 20] = [
    "first-path",
    "stale-read",
    "draining",
    "later-access",
    "commands-in-memory",
    "too-early",
    "busy",
    "double-grant",
    "no-frames",
    "detach-lingering",
    "guest-tables",
    "guest-rewrites",
    "fault-storm",
    "late-answer",
    "lost-invalidation",
    "no-answer",
    "quarantine",
    "revival",
    "block-device",
    "buffer-taken-back",
];

/// The number of the first line that differs, counted from 1.
pub(crate) fn first_difference(printed: &str, wanted: &str) -> usize {
    let lines = printed.lines().zip(wanted.lines());
    let same = lines.take_while(|(line, other)| line == other).count();
    same.saturating_add(1)
}

/// The words of a command line that asks for counts.
static ASKS_FOR_COUNTS: [&str; 1] = ["--trace"];

/// How what the program prints for the script, on its input, compares with what is wanted, and the fault that it ends with.
fn compared(rt: &HostRuntime, script: &str, wanted: &str, trace: bool) -> anyhow::Result<String> {
    let alloc = rt.alloc();
    let mut lines = Vec::new(alloc);
    let count = if trace { 1 } else { 0 };
    let words = &ASKS_FOR_COUNTS[..count];
    let done = run_words(rt, alloc, words, &mut script.as_bytes(), &mut lines);
    let printed = String::from_utf8(lines)?;
    let compared = if printed.as_str() == wanted {
        format!(in alloc; "as written")?
    } else {
        let line = first_difference(&printed, wanted);
        format!(in alloc; "line {line} differs")?
    };
    match done {
        Ok(()) => Ok(compared),
        Err(fault) => Ok(format!(in alloc; "{compared}; {fault}")?),
    }
}

/// The lines but those of counts.
fn outcomes_of(alloc: Global, wanted: &str) -> anyhow::Result<String> {
    let mut outcomes = String::new(alloc);
    for line in wanted.lines() {
        if !line.starts_with("= ") {
            outcomes.push_str(line)?;
            outcomes.push('\n')?;
        }
    }
    Ok(outcomes)
}

/// What is found of the script with what is wanted of it, as a trace: without the cause, where it isn't certified.
fn judged(alloc: Global, script: &str, wanted: &str) -> anyhow::Result<String> {
    let outcomes = outcomes_of(alloc, wanted)?;
    let trace = trace_of(alloc, script, &outcomes)?;
    Ok(match judge_trace(alloc, &mut trace.as_bytes())? {
        Verdict::Stops {
            finding: Finding::Uncertified(_),
            ..
        } => format!(in alloc; "not certified")?,
        verdict => format!(in alloc; "{verdict}")?,
    })
}

/// Runs a script, and tells how what it prints compares with what is wanted, and what is found of both.
fn tell(rt: &HostRuntime, name: &str, script: &str, wanted: &str) -> anyhow::Result<()> {
    let compared = compared(rt, script, wanted, COUNTED.contains(&name))?;
    let judged = judged(rt.alloc(), script, wanted)?;
    println!(rt; "{name}: {compared}; {judged}")?;
    Ok(())
}

/// Runs the worked scripts.
pub(crate) fn tell_rows(rt: &HostRuntime) -> anyhow::Result<()> {
    for name in &ROWS {
        let script = fs::read_to_string(rt, format!(in rt.alloc(); "rows/{name}.script")?)?;
        let wanted = fs::read_to_string(rt, format!(in rt.alloc(); "rows/{name}.out")?)?;
        tell(rt, name, &script, &wanted)?;
    }
    for name in &SETTLING {
        let script = fs::read_to_string(rt, format!(in rt.alloc(); "rows/{name}.script")?)?;
        let wanted = fs::read_to_string(rt, format!(in rt.alloc(); "rows/{name}.out")?)?;
        let compared = compared(rt, &script, &wanted, COUNTED.contains(name))?;
        println!(rt; "{name}: {compared}")?;
    }
    Ok(())
}

/// Runs the examples.
pub(crate) fn tell_examples(rt: &HostRuntime) -> anyhow::Result<()> {
    for name in &EXAMPLES {
        let script = fs::read_to_string(rt, format!(in rt.alloc(); "examples/{name}.iommu")?)?;
        let wanted = fs::read_to_string(rt, format!(in rt.alloc(); "examples/{name}.out")?)?;
        tell(rt, name, &script, &wanted)?;
    }
    Ok(())
}
