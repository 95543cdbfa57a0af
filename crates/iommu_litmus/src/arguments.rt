// What the command line says.
use clap::error::ErrorKind;
use clap::{Arg, ArgAction, ArgMatches, Command};
use std::alloc::{AllocError, Global};

/// The places that a search may find unless the command line says another number.
const MOST_PLACES: usize = 200_000;

/// How tests are answered.
#[derive(Clone, Copy)]
pub(crate) struct Choice<'a> {
    /// The places that a search may find, from 1.
    pub(crate) most: usize,
    /// Whether a schedule is left out where the question is answered as the test says.
    pub(crate) quiet: bool,
    /// The file that a schedule is written to; standard output where there is none.
    pub(crate) schedule: Option<&'a str>,
    /// The file that the graph of the places is written to, if it is wanted.
    pub(crate) graph: Option<&'a str>,
}

/// What is asked for.
#[derive(Drop)]
pub(crate) enum Request<'a> {
    Help,
    Version,
    /// The answers to the tests in the files; where there is none, to that on standard input.
    Answer {
        choice: Choice<'a>,
        files: Vec<&'a str>,
    },
}

/// Why a command line can't be read.
#[derive(Clone, Copy, PartialEq, Eq, Debug)]
pub(crate) enum ArgumentsFault {
    /// It isn't a lawful one.
    Bad,
    /// It has a test written over.
    Overwrites,
    Memory,
}

/// A word that stands alone.
fn flag<'a>(alloc: Global, name: &'a str) -> Arg<'a> {
    Arg::new(alloc, name).long(name).action(ArgAction::SetTrue)
}

/// A word with a value behind it.
fn option<'a>(alloc: Global, name: &'a str) -> Arg<'a> {
    Arg::new(alloc, name).long(name).action(ArgAction::Set)
}

/// A parser that takes nothing yet, and offers neither help nor a version of its own.
fn bare_parser<'a>(alloc: Global) -> Command<'a> {
    Command::new(alloc, "iommu-litmus")
        .no_binary_name(true)
        .disable_help_flag(true)
        .disable_version_flag(true)
}

/// The parser of the command line.
fn parser<'a>(alloc: Global) -> Result<Command<'a>, AllocError> {
    let flagged = bare_parser(alloc)
        .arg(flag(alloc, "help"))?
        .arg(flag(alloc, "version"))?
        .arg(flag(alloc, "quiet"))?;
    flagged
        .arg(option(alloc, "max"))?
        .arg(option(alloc, "output"))?
        .arg(option(alloc, "dot"))?
        .arg(Arg::new(alloc, "file").action(ArgAction::Append))
}

/// How many places a search may find.
fn most_of(matches: &ArgMatches<'_>) -> Result<usize, ArgumentsFault> {
    match matches.get_str("max") {
        None => Ok(MOST_PLACES),
        Some(text) => match text.parse::<usize>() {
            Ok(0) | Err(_) => Err(ArgumentsFault::Bad),
            Ok(number) => Ok(number),
        },
    }
}

/// The files that are named; an empty word names none.
fn files_of<'a>(alloc: Global, matches: &ArgMatches<'a>) -> Result<Vec<&'a str>, ArgumentsFault> {
    let mut files = Vec::new(alloc);
    let Some(words) = matches.get_strs("file") else {
        return Ok(files);
    };
    for word in words {
        if word.is_empty() {
            return Err(ArgumentsFault::Bad);
        }
        if files.push(*word).is_err() {
            return Err(ArgumentsFault::Memory);
        }
    }
    Ok(files)
}

/// Whether a file that is written is one of the tests.
fn writes_over(choice: Choice<'_>, files: &[&str]) -> bool {
    for file in files {
        if choice.schedule == Some(*file) || choice.graph == Some(*file) {
            return true;
        }
    }
    false
}

/// What the words after the program's name ask for.
pub(crate) fn read_words(alloc: Global, words: &[String]) -> Result<Request<'_>, ArgumentsFault> {
    let Ok(command) = parser(alloc) else {
        return Err(ArgumentsFault::Memory);
    };
    let matches = match command.try_get_matches_from(words) {
        Ok(matches) => matches,
        Err(fault) => {
            return Err(match fault.kind() {
                ErrorKind::OutOfMemory => ArgumentsFault::Memory,
                _ => ArgumentsFault::Bad,
            });
        }
    };
    if matches.get_flag("help") {
        return Ok(Request::Help);
    }
    if matches.get_flag("version") {
        return Ok(Request::Version);
    }
    let files = files_of(alloc, &matches)?;
    let choice = Choice {
        most: most_of(&matches)?,
        quiet: matches.get_flag("quiet"),
        schedule: matches.get_str("output"),
        graph: matches.get_str("dot"),
    };
    if files.len() > 1 && (choice.schedule.is_some() || choice.graph.is_some()) {
        return Err(ArgumentsFault::Bad);
    }
    if writes_over(choice, &files) {
        return Err(ArgumentsFault::Overwrites);
    }
    Ok(Request::Answer { choice, files })
}
