// What the command line says.
use clap::error::ErrorKind;
use clap::{Arg, ArgAction, ArgMatches, Command};
use iom_picture::Choice;
use std::alloc::{AllocError, Global};

/// What is asked for.
#[derive(Clone, Copy)]
pub(crate) enum Request<'a> {
    Help,
    Version,
    /// The picture of what is chosen of the trace in the file; where there is none, of that on standard input.
    Draw {
        choice: Choice,
        file: Option<&'a str>,
    },
}

/// Why a command line can't be read.
#[derive(Clone, Copy)]
pub(crate) enum ArgumentsFault {
    /// It isn't a lawful one.
    Bad,
    Memory,
}

/// A word that stands alone.
fn flag<'a>(alloc: Global, name: &'a str) -> Arg<'a> {
    Arg::new(alloc, name).long(name).action(ArgAction::SetTrue)
}

/// A word with a value behind it.
fn option<'a>(alloc: Global, name: &'a str) -> Arg<'a> {
    Arg::new(alloc, name).long(name).action(ArgAction::Set)
}

/// A parser that takes nothing yet, and offers neither help nor a version of its own.
fn bare_parser<'a>(alloc: Global) -> Command<'a> {
    Command::new(alloc, "iommu-picture")
        .no_binary_name(true)
        .disable_help_flag(true)
        .disable_version_flag(true)
}

/// The parser of the command line.
fn parser<'a>(alloc: Global) -> Result<Command<'a>, AllocError> {
    let flagged = bare_parser(alloc)
        .arg(flag(alloc, "help"))?
        .arg(flag(alloc, "version"))?;
    let ranged = flagged
        .arg(option(alloc, "from"))?
        .arg(option(alloc, "to"))?;
    ranged
        .arg(option(alloc, "frame"))?
        .arg(option(alloc, "device"))?
        .arg(Arg::new(alloc, "file").action(ArgAction::Set))
}

/// The number that is given behind the name, if one is.
fn number_of(matches: &ArgMatches<'_>, name: &str) -> Result<Option<u64>, ArgumentsFault> {
    match matches.get_str(name) {
        None => Ok(None),
        Some(text) => match text.parse::<u64>() {
            Ok(number) => Ok(Some(number)),
            Err(_) => Err(ArgumentsFault::Bad),
        },
    }
}

/// The value of a hexadecimal digit in lower case.
fn digit_of(letter: u8) -> Option<u32> {
    match letter {
        b'0'..=b'9' => Some(u32::from(letter - b'0')),
        b'a'..=b'f' => Some(u32::from(letter - b'a') + 10),
        _ => None,
    }
}

/// The device that six hexadecimal digits name.
fn device_of(text: &str) -> Option<u32> {
    if text.len() != 6 {
        return None;
    }
    let mut id: u32 = 0;
    for letter in text.as_bytes() {
        id = id.wrapping_mul(16) | digit_of(*letter)?;
    }
    Some(id)
}

/// The device that is chosen, if one is.
fn chosen_device(matches: &ArgMatches<'_>) -> Result<Option<u32>, ArgumentsFault> {
    match matches.get_str("device") {
        None => Ok(None),
        Some(text) => match device_of(text) {
            None => Err(ArgumentsFault::Bad),
            Some(id) => Ok(Some(id)),
        },
    }
}

/// What is chosen of the trace. Lines from one on up to an earlier one are none.
fn choice_of(matches: &ArgMatches<'_>) -> Result<Choice, ArgumentsFault> {
    let everything = Choice::everything();
    let from = number_of(matches, "from")?.unwrap_or(everything.from);
    let to = number_of(matches, "to")?.unwrap_or(everything.to);
    if from > to {
        return Err(ArgumentsFault::Bad);
    }
    Ok(Choice {
        from,
        to,
        frame: number_of(matches, "frame")?,
        device: chosen_device(matches)?,
    })
}

/// What the words after the program's name ask for.
pub(crate) fn read_words(alloc: Global, words: &[String]) -> Result<Request<'_>, ArgumentsFault> {
    let Ok(command) = parser(alloc) else {
        return Err(ArgumentsFault::Memory);
    };
    let matches = match command.try_get_matches_from(words) {
        Ok(matches) => matches,
        Err(fault) => {
            return Err(match fault.kind() {
                ErrorKind::OutOfMemory => ArgumentsFault::Memory,
                _ => ArgumentsFault::Bad,
            });
        }
    };
    if matches.get_flag("help") {
        return Ok(Request::Help);
    }
    if matches.get_flag("version") {
        return Ok(Request::Version);
    }
    let file = matches.get_str("file");
    if file == Some("") {
        return Err(ArgumentsFault::Bad);
    }
    Ok(Request::Draw {
        choice: choice_of(&matches)?,
        file,
    })
}
