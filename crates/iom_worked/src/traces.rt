// Traces, and what the judge finds of each.
use iom_judge::judge_trace;
use iom_script::is_spoken;
use std::alloc::{AllocError, Global};
use std::fs;

/// The trace of a script of which this was printed: each line that says something, with its answer behind it. Lines without an answer are
/// left out, and so are answers without a line.
pub(crate) fn trace_of(alloc: Global, script: &str, output: &str) -> Result<String, AllocError> {
    let mut trace = String::new(alloc);
    let spoken = script.lines().filter(|line| is_spoken(line.as_bytes()));
    for (said, answered) in spoken.zip(output.lines()) {
        trace.push_str(said)?;
        trace.push_str(" => ")?;
        trace.push_str(answered)?;
        trace.push_str("\n")?;
    }
    Ok(trace)
}

/// Judges each trace that `data/traces/index.txt` names, and prints what is found of it.
pub(crate) fn tell(rt: &HostRuntime) -> anyhow::Result<()> {
    let index = fs::read_to_string(rt, "traces/index.txt")?;
    for name in index.as_str().lines() {
        let trace = fs::read(rt, format!(in rt.alloc(); "traces/{name}.trace")?)?;
        let verdict = judge_trace(rt.alloc(), &mut trace.as_slice())?;
        println!(rt; "{name}: {verdict}")?;
    }
    Ok(())
}
