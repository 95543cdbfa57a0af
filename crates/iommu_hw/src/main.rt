//! `iommu-hw [--help | --version | [--live] [--log FILE] [FILE]]` runs the script of a driver under test, in the file or on
//! standard input: each line of a driver, a device or the hardware is answered by a line, each claim by `good` or
//! `wrong: WHY`, and an access that nothing claimed allows is told behind the commit that made it. The repository's
//! `docs/DRIVER.md` says how a script is written, and what the answers mean.
//!
//! With `--live` each line is answered as soon as it is there, for a driver at the other end of a pipe. With `--log` the
//! lines that were run are written to a file, which is a script that is answered alike.
//!
//! The exit status is 0 where no claim was wrong and nothing was violated, 1 where something was, 2 where a line isn't in the
//! grammar, 3 where the command line isn't lawful, and 4 where reading, writing or memory failed. What goes wrong is told on
//! standard error, as `iommu-hw: TEXT`, or `iommu-hw: FILE: TEXT` of a file that can't be opened.
#![tactic(auto)]

ghost use Rattle.std.specs.Prelude.{◌≡◌};
ghost use Rattle.iom_hardware_runner.specs.Statuses.{status_of};

mod arguments;
mod bad_line;

use crate::arguments::{Arguments, Request, read_words};
use crate::bad_line::explain_line;
use iom_hardware_runner::{RunFault, exit_status, run, run_live};
use iom_programs::{cause_of, complain, why_no_words, words_of};
use std::fs;
use std::io::{self, Read, Write};
use std::process::ExitCode;

const PROGRAM: &str = "iommu-hw";

const BAD_COMMAND_LINE: u8 = 3;

const FAILED: u8 = 4;

const HELP: &str = "\
iommu-hw [--help | --version | [--live] [--log FILE] [FILE]]

Runs the script of a driver under test in the file, or on standard input: each line is answered by a line, each claim by
`good` or `wrong: WHY`. The exit status is 1 where something was wrong.

  --live      answers each line as soon as it is there, for a driver at the other end of two pipes
  --log FILE  writes the lines that were run to the file: a script that is answered alike
  --help      prints this
  --version   prints the version
";

const VERSION: &str = "iommu-hw 1.0\n";

/// Tells that the command line isn't lawful, and why.
fn refuse(rt: &HostRuntime, why: &str) -> u8 {
    complain(rt, PROGRAM, "bad command line", why);
    BAD_COMMAND_LINE
}

/// Tells what goes wrong with the file.
fn fail(rt: &HostRuntime, file: &str, why: &str) -> u8 {
    complain(rt, PROGRAM, file, why);
    FAILED
}

/// Writes the text, and gives the exit status.
fn print(rt: &HostRuntime, text: &str) -> u8 {
    match rt.stdout().write_all(text.as_bytes()) {
        Ok(()) => 0,
        Err(_) => fail(rt, "standard output", "writing failed"),
    }
}

/// The exit status of a run that ended so. What went wrong is told on standard error.
fn end(rt: &HostRuntime, ended: Result<bool, RunFault>) -> u8
    ensures { result ≡ status_of ended }
{
    if let Err(fault) = &ended {
        let _ = eprintln!(rt; "iommu-hw: {fault}");
    }
    exit_status(&ended)
}

/// Runs the lines of the reader, live or as a whole script.
fn run_lines<R: Read, L: Write>(
    rt: &HostRuntime,
    live: bool,
    reader: &mut R,
    log: &mut L,
) -> Result<bool, RunFault> {
    if live {
        run_live(rt.alloc(), reader, &mut rt.stdout(), log)
    } else {
        run(rt.alloc(), reader, &mut rt.stdout(), log)
    }
}

/// Runs the lines of the file, and gives the exit status.
fn run_file<L: Write>(rt: &HostRuntime, live: bool, file: &str, log: &mut L) -> u8 {
    let mut opened = match fs::open(rt, file) {
        Ok(opened) => opened,
        Err(error) => return fail(rt, file, cause_of(&error)),
    };
    let ended = run_lines(rt, live, &mut opened, log);
    let status = end(rt, ended);
    if let Err(RunFault::BadScript(number)) = ended {
        explain_line(rt, live, file, number);
    }
    status
}

/// Runs the lines of the file, or else those of standard input, and gives the exit status.
fn run_from<L: Write>(rt: &HostRuntime, arguments: &Arguments<'_>, log: &mut L) -> u8 {
    match arguments.file {
        Some(file) => run_file(rt, arguments.live, file, log),
        None => end(rt, run_lines(rt, arguments.live, &mut rt.stdin(), log)),
    }
}

/// Runs what the command line names, and gives the exit status.
fn start(rt: &HostRuntime, arguments: &Arguments<'_>) -> u8 {
    let Some(log) = arguments.log else {
        return run_from(rt, arguments, &mut io::sink());
    };
    if arguments.file == Some(log) {
        return refuse(rt, "the log is the file that the lines come from");
    }
    match fs::create(rt, log) {
        Ok(mut created) => run_from(rt, arguments, &mut created),
        Err(_) => fail(rt, log, "writing failed"),
    }
}

/// Does what the words ask for, and gives the exit status.
fn answer(rt: &HostRuntime, words: &[String]) -> u8 {
    match read_words(words) {
        Some(Request::Help) => print(rt, HELP),
        Some(Request::Version) => print(rt, VERSION),
        Some(Request::Run(arguments)) => start(rt, &arguments),
        None => refuse(
            rt,
            "it isn't [--help | --version | [--live] [--log FILE] [FILE]]",
        ),
    }
}

fn main(rt: HostRuntime) -> ExitCode {
    let status = match words_of(&rt) {
        Ok(words) => answer(&rt, &words),
        Err(error) => match why_no_words(&error) {
            None => refuse(&rt, "it isn't text"),
            Some(why) => fail(&rt, "command line", why),
        },
    };
    ExitCode::from(status)
}
