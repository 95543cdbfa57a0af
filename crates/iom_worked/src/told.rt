// Scripts told as traces, as `iommu-tell` does it, and what the judge finds of each.
use crate::scripts::{EXAMPLES, ROWS, SETTLING, first_difference};
use iom_judge::judge_trace;
use iom_runner::program_disks;
use iom_script::parse;
use iom_telling::tell as tell_script;
use std::fs;

/// The traces of `data/told`, which were written by hand: those of two examples, and that of a script with a line `settle`.
static WRITTEN: [(&str, &str); 3] = [
    ("first-path", "examples/first-path.iommu"),
    ("block-device", "examples/block-device.iommu"),
    ("settling", "told/settling.iommu"),
];

/// The scripts that are told with their answers explained, and the traces of `data/explained` that have to come of them: two that
/// were written for it, and others in which calls are refused, or requests fault, for other reasons.
static EXPLAINED: [(&str, &str); 17] = [
    ("answers", "explained/answers.iommu"),
    ("no-room", "explained/no-room.iommu"),
    ("too-many-tickets", "rows/too-many-tickets.script"),
    ("grant-boundaries", "rows/grant-boundaries.script"),
    ("detach", "rows/detach.script"),
    ("id-too-wide", "rows/id-too-wide.script"),
    (
        "plugged-and-attached-once",
        "rows/plugged-and-attached-once.script",
    ),
    ("steps-and-statuses", "rows/steps-and-statuses.script"),
    ("a-disk-is-used-once", "rows/a-disk-is-used-once.script"),
    ("queue-sizes", "rows/queue-sizes.script"),
    ("second-stage", "rows/second-stage.script"),
    ("guest-tables", "rows/guest-tables.script"),
    ("guest-table-changes", "rows/guest-table-changes.script"),
    (
        "quarantine-and-revival",
        "rows/quarantine-and-revival.script",
    ),
    ("no-frames", "examples/no-frames.iommu"),
    ("late-answer", "examples/late-answer.iommu"),
    ("lost-invalidation", "examples/lost-invalidation.iommu"),
];

/// The script as a trace, with its answers explained or not, or why there is none.
pub(crate) fn told(
    rt: &HostRuntime,
    script: &[u8],
    explains: bool,
) -> anyhow::Result<Result<Vec<u8>, String>> {
    let alloc = rt.alloc();
    let parsed = match parse(alloc, script) {
        Ok(parsed) => parsed,
        Err(fault) => return Ok(Err(format!(in alloc; "{fault}")?)),
    };
    let mut trace = Vec::new(alloc);
    match tell_script(alloc, &parsed, explains, program_disks(alloc)?, &mut trace) {
        Ok(()) => Ok(Ok(trace)),
        Err(fault) => Ok(Err(format!(in alloc; "{fault}")?)),
    }
}

/// Tells the script in the file, and prints what is found of it.
fn judge(rt: &HostRuntime, name: &str, file: &str) -> anyhow::Result<()> {
    let script = fs::read(rt, file)?;
    match told(rt, &script, false)? {
        Err(fault) => println!(rt; "{name}, told: {fault}")?,
        Ok(trace) => {
            let verdict = judge_trace(rt.alloc(), &mut trace.as_slice())?;
            println!(rt; "{name}, told: {verdict}")?;
        }
    }
    Ok(())
}

/// Tells the script in the file, and compares its trace with the one that was written.
fn compare(rt: &HostRuntime, name: &str, file: &str) -> anyhow::Result<()> {
    let script = fs::read(rt, file)?;
    let wanted = fs::read_to_string(rt, format!(in rt.alloc(); "told/{name}.trace")?)?;
    match told(rt, &script, false)? {
        Err(fault) => println!(rt; "{name}, told: {fault}")?,
        Ok(trace) => {
            let trace = String::from_utf8(trace)?;
            if trace.as_str() == wanted.as_str() {
                println!(rt; "{name}, told: as written")?;
            } else {
                let line = first_difference(&trace, &wanted);
                println!(rt; "{name}, told: line {line} differs")?;
            }
        }
    }
    Ok(())
}

/// The lines that are no notes.
fn without_notes(rt: &HostRuntime, trace: &str) -> anyhow::Result<String> {
    let mut kept = String::new(rt.alloc());
    for line in trace.lines() {
        if !line.starts_with("# ") {
            kept.push_str(line)?;
            kept.push('\n')?;
        }
    }
    Ok(kept)
}

/// What is found of a trace whose answers are explained: whether it is as it was written, and without its notes what is told of the
/// script else.
fn finding(rt: &HostRuntime, explained: &str, wanted: &str, plain: &str) -> anyhow::Result<String> {
    if explained != wanted {
        let line = first_difference(explained, wanted);
        return Ok(format!(in rt.alloc(); "line {line} differs")?);
    }
    if without_notes(rt, explained)?.as_str() != plain {
        return Ok(format!(in rt.alloc(); "its lines differ from those without notes")?);
    }
    Ok(format!(in rt.alloc(); "as written")?)
}

/// Tells the script in the file with its answers explained, and compares.
fn compare_explained(rt: &HostRuntime, name: &str, file: &str) -> anyhow::Result<()> {
    let script = fs::read(rt, file)?;
    let wanted = fs::read_to_string(rt, format!(in rt.alloc(); "explained/{name}.trace")?)?;
    let (Ok(explained), Ok(plain)) = (told(rt, &script, true)?, told(rt, &script, false)?) else {
        println!(rt; "{name}, explained: no trace")?;
        return Ok(());
    };
    let (explained, plain) = (String::from_utf8(explained)?, String::from_utf8(plain)?);
    let found = finding(rt, &explained, &wanted, &plain)?;
    println!(rt; "{name}, explained: {found}")?;
    Ok(())
}

/// Tells all worked scripts and examples.
pub(crate) fn tell(rt: &HostRuntime) -> anyhow::Result<()> {
    for name in ROWS.iter().chain(SETTLING.iter()) {
        judge(rt, name, &format!(in rt.alloc(); "rows/{name}.script")?)?;
    }
    for name in &EXAMPLES {
        judge(rt, name, &format!(in rt.alloc(); "examples/{name}.iommu")?)?;
    }
    for (name, file) in &WRITTEN {
        compare(rt, name, file)?;
    }
    for (name, file) in &EXPLAINED {
        compare_explained(rt, name, file)?;
    }
    Ok(())
}
