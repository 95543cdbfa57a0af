// Outputs that another checker judged, held against the judge of traces.
//
// `data/judged/index.tsv` has an output a line: its file, the script that it came of, `lawful` or `unlawful at line N`,
// and the line that was changed to make it unlawful, if one was. Its first line names the columns. Lines of an output
// count from 1, and the first is that of `world`. A judge that decides the machine exactly refuses an output at its
// first unlawful line: never before the changed one, and never after the checker's.
//
// Each is judged with what its answers don't show, as the model tells its script, where the answers agree; and those that the
// checker found lawful as they were printed too.
use crate::annotated::annotated;
use crate::told::told;
use crate::traces::trace_of;
use anyhow::Context;
use iom_judge::{Finding, Verdict, judge_trace};
use std::alloc::Global;
use std::{fmt, fs};

/// What the checker found of an output.
#[derive(Clone, Copy)]
enum Wanted {
    Lawful,
    /// It refused this line, after one was changed.
    Unlawful { line: u64, changed: u64 },
}

/// A line of the index.
#[derive(Clone, Copy)]
struct Row<'a> {
    output: &'a str,
    script: &'a str,
    wanted: Wanted,
}

impl Wanted {
    /// What the two columns say: `lawful` and `-`, or `unlawful at line N` and the line that was changed.
    fn parse(verdict: &str, changed: &str) -> Option<Wanted> {
        if verdict == "lawful" && changed == "-" {
            return Some(Wanted::Lawful);
        }
        Some(Wanted::Unlawful {
            line: verdict.strip_prefix("unlawful at line ")?.parse().ok()?,
            changed: changed.parse().ok()?,
        })
    }
}

impl<'a> Row<'a> {
    /// The row of a line; None where it isn't one.
    fn parse(line: &'a str) -> Option<Row<'a>> {
        let mut columns = line.split('\t');
        Some(Row {
            output: columns.next()?,
            script: columns.next()?,
            wanted: Wanted::parse(columns.next()?, columns.next()?)?,
        })
    }
}

impl fmt::Display for Wanted {
    fn fmt<W: fmt::Write>(&self, f: &mut fmt::Formatter<W>) -> fmt::Result {
        match *self {
            Wanted::Lawful => f.write_str("lawful"),
            Wanted::Unlawful { line, changed } => {
                write!(f, "unlawful at line {line} (changed: {changed})")
            }
        }
    }
}

/// How the verdict on one output stands to what the checker found.
#[derive(Clone, Copy)]
enum Agreement {
    Lawful,
    Uncertified,
    /// At the checker's line.
    Refused,
    /// At the changed line, or behind it, before the checker's.
    Earlier,
    Differs,
}

impl Agreement {
    fn at(at: u64, line: u64, changed: u64) -> Agreement {
        if at == line {
            Agreement::Refused
        } else if changed <= at && at < line {
            Agreement::Earlier
        } else {
            Agreement::Differs
        }
    }

    fn of(wanted: Wanted, verdict: &Verdict) -> Agreement {
        match (wanted, verdict) {
            (Wanted::Lawful, Verdict::Lawful) => Agreement::Lawful,
            (
                _,
                Verdict::Stops {
                    finding: Finding::Uncertified(_),
                    ..
                },
            ) => Agreement::Uncertified,
            (Wanted::Unlawful { line, changed }, Verdict::Stops { line: at, .. }) => {
                Agreement::at(*at, line, changed)
            }
            _ => Agreement::Differs,
        }
    }
}

/// How the outputs went, judged with what their answers don't show.
#[derive(Clone, Copy)]
struct Tally {
    lawful: u32,
    uncertified: u32,
    refused: u32,
    earlier: u32,
    differed: u32,
}

impl Tally {
    fn new() -> Tally {
        Tally {
            lawful: 0,
            uncertified: 0,
            refused: 0,
            earlier: 0,
            differed: 0,
        }
    }

    fn count(&mut self, agreement: Agreement) {
        match agreement {
            Agreement::Lawful => self.lawful = self.lawful.saturating_add(1),
            Agreement::Uncertified => self.uncertified = self.uncertified.saturating_add(1),
            Agreement::Refused => self.refused = self.refused.saturating_add(1),
            Agreement::Earlier => self.earlier = self.earlier.saturating_add(1),
            Agreement::Differs => self.differed = self.differed.saturating_add(1),
        }
    }
}

/// A script, and its trace as the model tells it: those of several outputs.
#[derive(Drop)]
struct Told {
    file: String,
    script: String,
    trace: String,
}

impl Told {
    /// That of no file.
    fn nothing(alloc: Global) -> Told {
        Told {
            file: String::new(alloc),
            script: String::new(alloc),
            trace: String::new(alloc),
        }
    }
}

/// The script in the file, told.
fn tell_script(rt: &HostRuntime, file: &str) -> anyhow::Result<Told> {
    let alloc = rt.alloc();
    let script = fs::read_to_string(rt, format!(in alloc; "judged/{file}")?)?;
    let trace = match told(rt, script.as_bytes(), false)? {
        Ok(told) => String::from_utf8(told)?,
        Err(_) => String::new(alloc),
    };
    Ok(Told {
        file: format!(in alloc; "{file}")?,
        script,
        trace,
    })
}

/// What is found of an output: with what its answers don't show, and without, where the checker found it lawful.
#[derive(Drop)]
struct Found {
    annotated: Verdict,
    plain: Option<Verdict>,
}

/// What is found of the output, line by line beside its script.
fn judge_row(rt: &HostRuntime, row: Row<'_>, told: &Told) -> anyhow::Result<Found> {
    let alloc = rt.alloc();
    let output = fs::read_to_string(rt, format!(in alloc; "judged/{}", row.output)?)?;
    let trace = trace_of(alloc, told.script.as_str(), output.as_str())?;
    let fuller = annotated(alloc, trace.as_str(), told.trace.as_str())?;
    let plain = match row.wanted {
        Wanted::Lawful => Some(judge_trace(alloc, &mut trace.as_bytes())?),
        Wanted::Unlawful { .. } => None,
    };
    Ok(Found {
        annotated: judge_trace(alloc, &mut fuller.as_bytes())?,
        plain,
    })
}

/// What was found, without the reason.
fn in_short(alloc: Global, verdict: &Verdict) -> anyhow::Result<String> {
    let Verdict::Stops { line, finding } = verdict else {
        return Ok(format!(in alloc; "{verdict}")?);
    };
    Ok(match finding {
        Finding::Unlawful(_) => format!(in alloc; "unlawful at line {line}")?,
        Finding::Uncertified(_) => format!(in alloc; "not certified from line {line} on")?,
        Finding::Beyond(_) => format!(in alloc; "beyond the limits at line {line}")?,
        Finding::Bad(_) => format!(in alloc; "line {line} isn't in the grammar")?,
    })
}

/// What is found of each output of the index, printed beside what the checker found, and how many were found so.
fn tell_rows(rt: &HostRuntime, index: &str) -> anyhow::Result<(Tally, Tally)> {
    let (mut tally, mut plain) = (Tally::new(), Tally::new());
    let mut told = Told::nothing(rt.alloc());
    for line in index.lines().skip(1) {
        let row = Row::parse(line).context("index.tsv")?;
        if row.script != told.file.as_str() {
            told = tell_script(rt, row.script)?;
        }
        let found = judge_row(rt, row, &told)?;
        let short = in_short(rt.alloc(), &found.annotated)?;
        println!(rt; "{}: {short}; the checker: {}", row.output, row.wanted)?;
        tally.count(Agreement::of(row.wanted, &found.annotated));
        if let Some(verdict) = &found.plain {
            plain.count(Agreement::of(row.wanted, verdict));
        }
    }
    Ok((tally, plain))
}

/// Judges each output, and prints what is found of it beside what the checker found.
pub(crate) fn tell(rt: &HostRuntime) -> anyhow::Result<()> {
    let index = fs::read_to_string(rt, "judged/index.tsv")?;
    let (tally, plain) = tell_rows(rt, index.as_str())?;
    println!(rt;
        "{} lawful, {} not certified, {} refused at the checker's line, {} at an earlier one, {} differ",
        tally.lawful, tally.uncertified, tally.refused, tally.earlier, tally.differed
    )?;
    println!(rt;
        "the lawful ones as they were printed: {} lawful, {} not certified, {} differ",
        plain.lawful, plain.uncertified, plain.differed
    )?;
    Ok(())
}
