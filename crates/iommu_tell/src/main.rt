//! `iommu-tell [--help | --version | [--explain] [FILE]]` runs the script in the file, or on standard input, and writes it as a trace: each line
//! with its answer, and with what that doesn't show. With `--explain`, lines that begin with `# ` stand behind answers of which
//! people ask why; the others are the same. The repository's `docs/LANGUAGE.md` says how a script is written, and
//! `docs/JUDGE.md` how a trace is.
//!
//! The exit status is 0 where it was told, 1 where reading, writing or memory failed, 2 where a line isn't in the grammar, and
//! 3 where the command line isn't lawful. What goes wrong is told on standard error, as `iommu-tell: NAME: TEXT`.
#![tactic(auto)]

ghost use Rattle.std.specs.Prelude.{◌≤◌, length, IfSome};
ghost use Rattle.iom_script.specs.Grammar.{IsWorldSize};

use iom_bad_lines::{explain_script_line, is_first_spoken, is_past_limit, line_at, wrong_end};
use iom_programs::{INPUT, cause_of, is_file, why_no_words, words_of};
use iom_runner::program_disks;
use iom_script::{SCRIPT_LIMIT, Script, ScriptFault, parse};
use iom_script_reading::{ReadFault, read_script};
use iom_telling::{TellingFault, tell};
use std::io::{IsTerminal, Read, Write};
use std::process::ExitCode;
use std::{fs, str};

const FAILED: u8 = 1;

const NOT_IN_GRAMMAR: u8 = 2;

const BAD_COMMAND_LINE: u8 = 3;

const USAGE: &str = "iommu-tell [--help | --version | [--explain] [FILE]]";

const HELP: &str = "\
iommu-tell [--help | --version | [--explain] [FILE]]

Runs the script in the file, or on standard input, and writes it as a trace, which iommu-judge judges: each line with its
answer, and with what that doesn't show. A line `settle` is written as the events that it stands for.

  --explain  writes lines that begin with `# ` behind answers of which people ask why: who holds a frame that isn't free, what a
             ticket or a fence waits for, what has to be done before a refused call, where the walk of a fault stops
  --help     prints this
  --version  prints the version
";

const VERSION: &str = "iommu-tell 1.1\n";

/// Tells on standard error what goes wrong with what has this name.
fn complain(rt: &HostRuntime, name: &str, text: &str, status: u8) -> u8 {
    iom_programs::complain(rt, "iommu-tell", name, text);
    status
}

/// Writes the text, and gives the exit status.
fn print(rt: &HostRuntime, text: &str) -> u8 {
    match rt.stdout().write_all(text.as_bytes()) {
        Ok(()) => 0,
        Err(_) => complain(rt, "standard output", "writing failed", FAILED),
    }
}

/// Tells the script that was read of what has this name, and gives the exit status.
fn tell_script(rt: &HostRuntime, name: &str, script: &Script, explains: bool) -> u8
    requires world { IfSome script.now.world IsWorldSize }
    requires few { length script.now.lines ≤ 1048576 }
{
    let Ok(disks) = program_disks(rt.alloc()) else {
        return complain(rt, name, "out of memory", FAILED);
    };
    match tell(rt.alloc(), script, explains, disks, &mut rt.stdout()) {
        Ok(()) => 0,
        Err(TellingFault::Writing) => complain(rt, "standard output", "writing failed", FAILED),
        Err(fault) => {
            let _ = eprintln!(rt; "iommu-tell: {name}: {fault}");
            FAILED
        }
    }
}

/// Tells what is wrong with the line, which isn't in the grammar.
fn complain_of_line(rt: &HostRuntime, name: &str, bytes: &[u8], number: u64) {
    let place = usize::try_from(number).unwrap_or(usize::MAX);
    let Ok(text) = str::from_utf8(bytes) else {
        let _ = eprintln!(rt; "iommu-tell: {name}: line {number}: bad script: it isn't text");
        return;
    };
    if is_past_limit(text, place) {
        let _ = eprintln!(rt;
            "iommu-tell: {name}: line {number}: bad script: it is longer than {SCRIPT_LIMIT} bytes"
        );
        return;
    }
    let line = line_at(text, place);
    let is_first = is_first_spoken(text, place);
    if line.starts_with("world ") && !is_first {
        let _ = eprintln!(rt;
            "iommu-tell: {name}: line {number}: bad script: `world` is said once, first of all"
        );
        return;
    }
    let wrong = explain_script_line(line, is_first);
    if wrong.found.is_empty() {
        if let Some(end) = wrong_end(text, place) {
            let _ = eprintln!(rt; "iommu-tell: {name}: line {number}: bad script: {end}");
            return;
        }
    }
    let (column, found, expected, form) = (wrong.column, wrong.found, wrong.expected, wrong.form);
    let _ = eprintln!(rt;
        "iommu-tell: {name}: line {number}, column {column}: bad script: `{found}` stands where {expected} was expected ({form})"
    );
}

/// Tells the script that the bytes say, which were read of what has this name, and gives the exit status.
fn tell_bytes(rt: &HostRuntime, name: &str, bytes: &[u8], explains: bool) -> u8 {
    match parse(rt.alloc(), bytes) {
        Ok(script) => tell_script(rt, name, &script, explains),
        Err(ScriptFault::Line(number)) => {
            complain_of_line(rt, name, bytes, number);
            NOT_IN_GRAMMAR
        }
        Err(ScriptFault::Memory) => complain(rt, name, "out of memory", FAILED),
    }
}

/// Tells the script that the reader has, and gives the exit status.
fn tell_read<R: Read>(rt: &HostRuntime, name: &str, reader: &mut R, explains: bool) -> u8 {
    match read_script(rt.alloc(), reader) {
        Ok(bytes) => tell_bytes(rt, name, &bytes, explains),
        Err(ReadFault::Reading) => complain(rt, name, "reading failed", FAILED),
        Err(ReadFault::Memory) => complain(rt, name, "out of memory", FAILED),
    }
}

/// Tells the script on standard input. Where that is a terminal, nobody wrote one there: what is wanted is said.
fn tell_input(rt: &HostRuntime, explains: bool) -> u8 {
    if rt.stdin().is_terminal() {
        let _ = eprintln!(rt; "{USAGE}");
        return BAD_COMMAND_LINE;
    }
    tell_read(rt, INPUT, &mut rt.stdin(), explains)
}

/// Tells the script in the file.
fn tell_file(rt: &HostRuntime, file: &str, explains: bool) -> u8 {
    match fs::open(rt, file) {
        Ok(mut opened) => tell_read(rt, file, &mut opened, explains),
        Err(error) => complain(rt, file, cause_of(&error), FAILED),
    }
}

/// Does what the words ask for, and gives the exit status.
fn run(rt: &HostRuntime, words: &[String]) -> u8 {
    match words {
        [] => tell_input(rt, false),
        [word] if word.as_str() == "--help" => print(rt, HELP),
        [word] if word.as_str() == "--version" => print(rt, VERSION),
        [word] if word.as_str() == "--explain" => tell_input(rt, true),
        [file] if is_file(file) => tell_file(rt, file, false),
        [word, file] if word.as_str() == "--explain" && is_file(file) => tell_file(rt, file, true),
        _ => complain(
            rt,
            "command line",
            "it isn't [--help | --version | [--explain] [FILE]]",
            BAD_COMMAND_LINE,
        ),
    }
}

fn main(rt: HostRuntime) -> ExitCode {
    let status = match words_of(&rt) {
        Ok(words) => run(&rt, &words),
        Err(error) => match why_no_words(&error) {
            None => complain(&rt, "command line", "it isn't text", BAD_COMMAND_LINE),
            Some(why) => complain(&rt, "command line", why, FAILED),
        },
    };
    ExitCode::from(status)
}
