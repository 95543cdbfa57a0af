//! Runs worked scripts of drivers under test, and prints how their answers compare with those that were worked out by a
//! simulator that shares no code with this repository; the gate compares these lines.
//!
//! `data/drivers` has each script with its answers: correct drivers, drivers with one mistake each, scripts in which
//! something is certain only as long as nobody but the driver writes what hardware reads, some in which a block device
//! serves its queue, some in which each load of a walk is an event of its own, some in which hardware caches pointers to tables, some in which
//! it knows leaves of 64 KiB, some in which it acts by itself, and the model's own driver as lines of hardware. A script's own text is run as `iommu-hw` runs
//! it.
#![tactic(auto)]

use iom_hardware_runner::run;
use std::{fs, io};

/// The scripts of `data/drivers`. A new one is its two files and a line here.
static DRIVERS: [&str; 74] = [
    "correct-first",
    "correct-second",
    "correct-ats",
    "correct-in-flight",
    "correct-timeout",
    "correct-split",
    "fence-first",
    "wrong-pscid",
    "wrong-gscid",
    "vma-for-second-stage",
    "no-ats-inval",
    "ats-inval-first",
    "table-freed",
    "word-too-early",
    "no-drain",
    "queue-wraps",
    "timeout-ignored",
    "no-iodir",
    "split-without",
    "split-base-only",
    "split-beside",
    "clears-late",
    "trusts-all",
    "ready-early",
    "grants-a-table",
    "shared-space",
    "stale-context-of-reused-number",
    "passthrough-writes-table",
    "directory-writable",
    "queue-writable",
    "word-in-queue",
    "dormant-translation",
    "dormant-entry",
    "plug-later",
    "frame-used-later",
    "certain-no-more",
    "trusted-writes",
    "trusted-quiesce",
    "hardwired-registers",
    "block-forges",
    "block-correct",
    "block-no-inval",
    "block-no-drain",
    "block-no-ats-inval",
    "large-leaf",
    "ready-in-both",
    "table-freed-in-walk",
    "stepped-begun-anew",
    "stepped-block-no-drain",
    "pointer-table-freed",
    "pointer-dropped",
    "pointer-second-stage",
    "pointer-ats",
    "pointer-reused-number",
    "pointer-replaced-table",
    "napot-leaf",
    "napot-forms",
    "napot-pointer",
    "napot-unknown",
    "napot-ats",
    "napot-second-stage",
    "auto-correct-first",
    "auto-correct-ats",
    "auto-fence-first",
    "auto-no-ats-inval",
    "auto-block",
    "quiesce",
    "ours-draining",
    "ours-second-stage",
    "ours-guest-rewrites",
    "ours-late-answer",
    "ours-no-answer",
    "ours-revival",
    "ours-detach-lingering",
];

/// The number of the first line that differs, counted from 1.
fn first_difference(printed: &str, wanted: &str) -> usize {
    let lines = printed.lines().zip(wanted.lines());
    let same = lines.take_while(|(line, other)| line == other).count();
    same.saturating_add(1)
}

/// How the answers to the script compare with those that are wanted, and whether something was wrong.
fn compared(rt: &HostRuntime, script: &str, wanted: &str) -> anyhow::Result<String> {
    let alloc = rt.alloc();
    let mut lines = Vec::new(alloc);
    let ended = run(alloc, &mut script.as_bytes(), &mut lines, &mut io::sink());
    let printed = String::from_utf8(lines)?;
    let compared = if printed.as_str() == wanted {
        format!(in alloc; "as written")?
    } else {
        let line = first_difference(&printed, wanted);
        let shown = printed
            .lines()
            .nth(line.saturating_sub(1))
            .unwrap_or("nothing");
        format!(in alloc; "line {line} differs: {shown}")?
    };
    match ended {
        Ok(true) => Ok(format!(in alloc; "{compared}; wrong")?),
        Ok(false) => Ok(format!(in alloc; "{compared}; clean")?),
        Err(fault) => Ok(format!(in alloc; "{compared}; {fault}")?),
    }
}

fn tell(rt: &HostRuntime, name: &str) -> anyhow::Result<()> {
    let alloc = rt.alloc();
    let script = fs::read_to_string(rt, format!(in alloc; "drivers/{name}.hw")?.as_str())?;
    let wanted = fs::read_to_string(rt, format!(in alloc; "drivers/{name}.out")?.as_str())?;
    let found = compared(rt, &script, &wanted)?;
    println!(rt; "{name}: {found}")?;
    Ok(())
}

fn main(rt: HostRuntime) -> anyhow::Result<()> {
    for name in &DRIVERS {
        tell(&rt, name)?;
    }
    Ok(())
}
