//! `iommu-litmus [--max N] [--output FILE] [--dot FILE] [--quiet] [FILE ..]` answers the litmus tests in the files, or the
//! one on standard input. The repository's `docs/LITMUS.md` says how a test is written and what its answer means.
//!
//! The exit status is 0 where each question is answered as its test says, 1 where one isn't, 2 where a file isn't a test or a
//! line in it isn't of its language, 3 where the command line isn't lawful, 4 where reading, writing or memory failed, and 5
//! where a test isn't decided. Of several tests it is the first that there is of 4, 2, 1, 5.
#![tactic(auto)]

mod arguments;
mod ending;
mod progress;

use crate::arguments::{ArgumentsFault, Choice, Request, read_words};
use crate::ending::Ending;
use crate::progress::Progress;
use iom_litmus_runner::{Answer, Asked, Finding, TestFault, answer_test};
use iom_programs::{INPUT, cause_of, why_no_words, words_of};
use std::alloc::Global;
use std::fs;
use std::io::{self, Read, Write};
use std::process::ExitCode;

const HELP: &str = "\
iommu-litmus [--max N] [--output FILE] [--dot FILE] [--quiet] [FILE ..]

Answers the litmus tests in the files, or the one on standard input: goes through all orders in which a test's
columns and hardware can take their steps.

  --max N        looks at N places at most, 200000 unless said
  --output FILE  writes the schedule there; of one test alone
  --dot FILE     writes the graph of the places there, for graphviz, the schedule bold; of one test alone
  --quiet        leaves the schedule out where the question is answered as the test says
  --help         prints this
  --version      prints the version
";

/// Bytes of the block by which freed memory is kept.
const LARGEST_BLOCK: usize = 16 << 20;

const VERSION: &str = "iommu-litmus 1.0\n";

/// Tells on standard error what goes wrong with what has this name.
fn complain(rt: &HostRuntime, name: &str, text: &str, ending: Ending) -> Ending {
    iom_programs::complain(rt, "iommu-litmus", name, text);
    ending
}

/// Writes the bytes to standard output.
fn tell(rt: &HostRuntime, bytes: &[u8]) -> Ending {
    match rt.stdout().write_all(bytes) {
        Ok(()) => Ending::Ok,
        Err(_) => complain(rt, "standard output", "writing failed", Ending::Failed),
    }
}

/// Writes the bytes to the file.
fn write(rt: &HostRuntime, file: &str, bytes: &[u8]) -> Ending {
    match fs::write(rt, file, bytes) {
        Ok(()) => Ending::Ok,
        Err(_) => complain(rt, file, "writing failed", Ending::Failed),
    }
}

fn ending_of(finding: Finding) -> Ending {
    match finding {
        Finding::Ok => Ending::Ok,
        Finding::No => Ending::Otherwise,
        Finding::Undecided => Ending::Undecided,
    }
}

/// Writes the schedule to its file, or behind the answer.
fn tell_schedule(rt: &HostRuntime, choice: Choice<'_>, schedule: &[u8]) -> Ending {
    match choice.schedule {
        Some(file) => write(rt, file, schedule),
        None => tell(rt, b"Schedule\n").join(tell(rt, schedule)),
    }
}

/// Writes the answer.
fn tell_answer(rt: &HostRuntime, choice: Choice<'_>, answer: &Answer) -> Ending {
    let found = ending_of(answer.finding);
    let mut ending = found.join(tell(rt, &answer.text));
    if let Some(schedule) = &answer.schedule {
        if !choice.quiet || found != Ending::Ok {
            ending = ending.join(tell_schedule(rt, choice, schedule));
        }
    }
    match (choice.graph, &answer.graph) {
        (Some(file), Some(graph)) => ending.join(write(rt, file, graph)),
        _ => ending,
    }
}

/// Answers the test that the bytes of what has this name say.
fn answer(rt: &HostRuntime, name: &str, choice: Choice<'_>, bytes: &[u8]) -> Ending {
    let asked = Asked {
        most: choice.most,
        graph: choice.graph.is_some(),
        replays: false,
    };
    match answer_test(rt.alloc(), bytes, asked, &mut Progress::new(rt, name)) {
        Ok(answer) => tell_answer(rt, choice, &answer),
        Err(TestFault::Memory) => complain(rt, name, "out of memory", Ending::Failed),
        Err(TestFault::Endless) => {
            complain(rt, name, "hardware can go on for ever", Ending::NotATest)
        }
        Err(TestFault::Line { number, trouble }) => {
            let words = trouble.words();
            let _ = eprintln!(rt; "iommu-litmus: {name}: line {number}: {words}");
            Ending::NotATest
        }
    }
}

/// All bytes that the reader has.
fn read_all<R: Read>(rt: &HostRuntime, reader: &mut R) -> io::Result<Vec<u8>> {
    let mut bytes = Vec::new(rt.alloc());
    reader.read_to_end(&mut bytes)?;
    Ok(bytes)
}

/// Answers the test that was read from what has this name.
fn answer_read(
    rt: &HostRuntime,
    name: &str,
    choice: Choice<'_>,
    read: io::Result<Vec<u8>>,
) -> Ending {
    match read {
        Ok(bytes) => answer(rt, name, choice, &bytes),
        Err(error) => complain(rt, name, cause_of(&error), Ending::Failed),
    }
}

/// Answers the test in the file.
fn answer_file(rt: &HostRuntime, choice: Choice<'_>, file: &str) -> Ending {
    let read = match fs::open(rt, file) {
        Ok(mut opened) => read_all(rt, &mut opened),
        Err(error) => Err(error),
    };
    answer_read(rt, file, choice, read)
}

/// Answers the tests in the files, with an empty line between two answers; or the one on standard input.
fn answer_all(rt: &HostRuntime, choice: Choice<'_>, files: &[&str]) -> Ending {
    let Some((first, others)) = files.split_first() else {
        return answer_read(rt, INPUT, choice, read_all(rt, &mut rt.stdin()));
    };
    let mut ending = answer_file(rt, choice, first);
    for file in others {
        ending = ending.join(tell(rt, b"\n"));
        ending = ending.join(answer_file(rt, choice, file));
    }
    ending
}

/// A search makes system after system. Between two of them the C library would hand the memory of the first to the operating
/// system and ask for it again. It keeps twice as much as the largest block that was ever freed: so one is taken and freed,
/// untouched. Nothing but time depends on it.
fn keep_freed_memory(alloc: Global) {
    let _ = Vec::<u8>::with_capacity(alloc, LARGEST_BLOCK);
}

/// Does what the words ask for.
fn run(rt: &HostRuntime, words: &[String]) -> Ending {
    match read_words(rt.alloc(), words) {
        Ok(Request::Help) => tell(rt, HELP.as_bytes()),
        Ok(Request::Version) => tell(rt, VERSION.as_bytes()),
        Ok(Request::Answer { choice, files }) => {
            keep_freed_memory(rt.alloc());
            answer_all(rt, choice, &files)
        }
        Err(ArgumentsFault::Memory) => {
            complain(rt, "command line", "out of memory", Ending::Failed)
        }
        Err(ArgumentsFault::Overwrites) => complain(
            rt,
            "command line",
            "a file that is to be written is the test itself",
            Ending::BadCommandLine,
        ),
        Err(ArgumentsFault::Bad) => complain(
            rt,
            "command line",
            "it isn't [--max N] [--output FILE] [--dot FILE] [--quiet] [FILE ..], or asks for one file of several tests",
            Ending::BadCommandLine,
        ),
    }
}

fn main(rt: HostRuntime) -> ExitCode {
    let ending = match words_of(&rt) {
        Ok(words) => run(&rt, &words),
        Err(error) => match why_no_words(&error) {
            None => complain(&rt, "command line", "it isn't text", Ending::BadCommandLine),
            Some(why) => complain(&rt, "command line", why, Ending::Failed),
        },
    };
    ExitCode::from(ending.status())
}
