//! `iommu-judge [--help | --version | [--keep-going] [FILE]]` judges the trace in the file, or on standard input: it prints `lawful`, or
//! the first line that can't have come, with the reason, or the first of which that depends on what the trace doesn't show, and
//! how it may show that. With `--keep-going` a line that can't have come is left out, and what stands behind it is judged too.
//! The repository's `docs/JUDGE.md` says how a trace is written, and what the verdicts mean.
//!
//! The exit status is 0 where the trace is lawful, which is proved then, 1 where it isn't, 2 where a line isn't in the grammar,
//! 3 where the command line isn't lawful, 4 where reading, writing or memory failed, 5 where no line was found unlawful, and
//! the trace isn't certified, and 6 where a line may not come by the model's limits alone. What goes wrong is told on
//! standard error, as `iommu-judge: NAME: TEXT`. Where that is a terminal, it also tells every ten million lines how far it is.
#![tactic(auto)]

mod progress;

use iom_judge::{Finding, Findings, Verdict, judge_on};
use iom_programs::{INPUT, cause_of, is_file, why_no_words, words_of};
use progress::Watched;
use std::fs;
use std::io::{self, IsTerminal, Read, Write};
use std::process::ExitCode;

/// The exit statuses, from 0 on.
#[derive(Clone, Copy)]
enum Status {
    Lawful,
    NotLawful,
    NotInGrammar,
    BadCommandLine,
    Failed,
    NotCertified,
    BeyondLimits,
}

/// So many unlawful lines are left out at most.
const MOST_LEFT_OUT: usize = 1000;

const USAGE: &str = "iommu-judge [--help | --version | [--keep-going] [FILE]]";

const NOT_USAGE: &str = "it isn't [--help | --version | [--keep-going] [FILE]]";

const HELP: &str = "\
iommu-judge [--help | --version | [--keep-going] [FILE]]

Judges the trace in the file, or on standard input: prints `lawful`, or the first line that can't have come, with the
reason.

  --help        prints this
  --version     prints the version
  --keep-going  leaves out a line that can't have come, and judges on: at most a thousand are left out
";

/// Tells on standard error what goes wrong with what has this name.
fn complain(rt: &HostRuntime, name: &str, text: &str, status: Status) -> Status {
    iom_programs::complain(rt, "iommu-judge", name, text);
    status
}

/// Prints what is found, and gives the exit status. A line that isn't in the grammar is told on standard error.
fn tell(rt: &HostRuntime, name: &str, verdict: &Verdict) -> io::Result<Status> {
    let status = match verdict {
        Verdict::Lawful => Status::Lawful,
        Verdict::Stops { finding, .. } => match finding {
            Finding::Uncertified(_) => Status::NotCertified,
            Finding::Beyond(_) => Status::BeyondLimits,
            Finding::Unlawful(_) => Status::NotLawful,
            Finding::Bad(_) => {
                eprintln!(rt; "iommu-judge: {name}: {verdict}")?;
                return Ok(Status::NotInGrammar);
            }
        },
    };
    println!(rt; "{verdict}")?;
    Ok(status)
}

/// Prints how many lines were left out, behind which no other was found that can't have come.
fn tell_count(rt: &HostRuntime, count: usize) -> io::Result<Status> {
    let lines = if count == 1 { "line is" } else { "lines are" };
    println!(rt; "{count} {lines} unlawful")?;
    Ok(Status::NotLawful)
}

/// Prints all that is found, one after another, and gives the exit status.
fn tell_all(rt: &HostRuntime, name: &str, found: &Findings) -> io::Result<Status> {
    let mut status = tell(rt, name, &found.first)?;
    for (index, verdict) in found.others.iter().enumerate() {
        status = match verdict {
            Verdict::Lawful => tell_count(rt, index.saturating_add(1))?,
            verdict => tell(rt, name, verdict)?,
        };
    }
    Ok(status)
}

/// Judges what the reader has. Of an empty trace that is said: what should have made it may have failed.
fn judge_read<R: Read + Drop>(
    rt: &HostRuntime,
    name: &str,
    reader: R,
    most: usize,
) -> io::Result<Findings> {
    let mut watched = Watched::new(rt, name, reader);
    let found = judge_on(rt.alloc(), &mut watched, most)?;
    if watched.is_empty() {
        let _ = eprintln!(rt; "iommu-judge: {name}: the trace is empty");
    }
    Ok(found)
}

/// Judges what the opened reader has, and tells what is found of what has this name. It fails where standard output can't be written.
fn judge<R: Read + Drop>(
    rt: &HostRuntime,
    name: &str,
    opened: io::Result<R>,
    most: usize,
) -> io::Result<Status> {
    let found = match opened {
        Ok(reader) => judge_read(rt, name, reader, most),
        Err(error) => Err(error),
    };
    match found {
        Ok(found) => tell_all(rt, name, &found),
        Err(error) => Ok(complain(rt, name, cause_of(&error), Status::Failed)),
    }
}

/// Writes the text, and gives the exit status.
fn print(rt: &HostRuntime, text: &str) -> io::Result<Status> {
    rt.stdout().write_all(text.as_bytes())?;
    Ok(Status::Lawful)
}

/// Judges the trace in the file that the words name, or on standard input. Where that is a terminal, it is said what is wanted.
fn judge_named(rt: &HostRuntime, words: &[String], most: usize) -> io::Result<Status> {
    match words {
        [] if rt.stdin().is_terminal() => {
            let _ = eprintln!(rt; "{USAGE}");
            Ok(Status::BadCommandLine)
        }
        [] => judge(rt, INPUT, Ok(rt.stdin()), most),
        [file] if is_file(file) => judge(rt, file, fs::open(rt, file), most),
        _ => Ok(complain(rt, "command line", NOT_USAGE, Status::BadCommandLine)),
    }
}

/// Does what the words ask for, and gives the exit status. It fails where standard output can't be written.
fn run(rt: &HostRuntime, words: &[String]) -> io::Result<Status> {
    match words {
        [word] if word.as_str() == "--help" => print(rt, HELP),
        [word] if word.as_str() == "--version" => print(rt, "iommu-judge 1.0\n"),
        [flag, words @ ..] if flag.as_str() == "--keep-going" => {
            judge_named(rt, words, MOST_LEFT_OUT)
        }
        words => judge_named(rt, words, 0),
    }
}

fn main(rt: HostRuntime) -> ExitCode {
    let status = match words_of(&rt) {
        Ok(words) => match run(&rt, &words) {
            Ok(status) => status,
            Err(_) => complain(&rt, "standard output", "writing failed", Status::Failed),
        },
        Err(error) => match why_no_words(&error) {
            None => complain(&rt, "command line", "it isn't text", Status::BadCommandLine),
            Some(why) => complain(&rt, "command line", why, Status::Failed),
        },
    };
    ExitCode::from(status as u8)
}
