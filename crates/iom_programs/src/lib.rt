//! What the programs' mains have in common: the words of the command line, why a file can't be read, and what is told on
//! standard error then. No crate of the model stands on it.
#![tactic(auto)]

use std::env;
use std::io::{self, ErrorKind};

/// The name of standard input, where it is what can't be read.
pub const INPUT: &str = "standard input";

/// The words of the command line, after the program's name. It fails where there is no memory for them, or where one isn't text.
pub fn words_of(rt: &HostRuntime) -> io::Result<Vec<String>> {
    let mut words = Vec::new(rt.alloc());
    for word in env::args(rt)?.skip(1) {
        words.push(word)?;
    }
    Ok(words)
}

/// What failed, where there are no words of the command line. None where one of them isn't text.
pub fn why_no_words(error: &io::Error) -> Option<&'static str> {
    match error.kind() {
        ErrorKind::OutOfMemory => Some("out of memory"),
        _ => None,
    }
}

/// Why a file can't be read.
pub fn cause_of(error: &io::Error) -> &'static str {
    match error.kind() {
        ErrorKind::NotFound => "no such file",
        ErrorKind::PermissionDenied => "permission denied",
        ErrorKind::IsADirectory => "it is a directory",
        ErrorKind::OutOfMemory => "out of memory",
        _ => "reading failed",
    }
}

/// Whether the word can name a file: it isn't empty, and doesn't begin with `-`.
pub fn is_file(word: &str) -> bool {
    match word.as_bytes() {
        [] => false,
        [first, ..] => *first != b'-',
    }
}

/// Tells on standard error what goes wrong with what has this name, as `PROGRAM: NAME: TEXT`. Where standard error can't be written
/// nothing is told.
pub fn complain(rt: &HostRuntime, program: &str, name: &str, text: &str) {
    let _ = eprintln!(rt; "{program}: {name}: {text}");
}
