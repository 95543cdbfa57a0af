// What a command line says.
ghost use Rattle.std.specs.Prelude.{◌≡◌, ◌≢◌, true, false, map, option_map, IfOk, Err};
ghost use Rattle.clap.specs.Simple.{app_of};
ghost use Rattle.clap.specs.Walk.{rule_of};
ghost use Rattle.iom_command_line.specs.CommandLine.{is_trace, is_file, is_command_line, wants_trace, named_file, trace_rule, file_rule, bare_command, program_command};

use crate::fault::ArgsFault;
use clap::error::ErrorKind;
use clap::{Arg, ArgAction, Command};
use std::alloc::{AllocError, Global};

/// What a command line says.
#[derive(Drop)]
pub struct Args<'a> {
    /// Whether the counts are to stand behind each line.
    pub trace: bool,
    /// The file that the script is in. None where it is on standard input.
    pub file: Option<&'a str>,
}

/// Whether the word asks for the counts.
fn is_trace(word: &str) -> bool
    ensures { result ≡ is_trace word.now }
{
    word == "--trace"
}

/// Whether the word can name a file: it isn't empty, and doesn't begin with `-`.
fn is_file(word: &str) -> bool
    ensures { result ≡ is_file word.now }
{
    match word.as_bytes() {
        [] => false,
        [first, ..] => *first != b'-',
    }
}

/// Whether the words are a lawful command line: none, `--trace`, a file, or `--trace` and a file.
fn is_lawful(words: &[&str]) -> bool
    ensures { result ≡ is_command_line (map (λ word. word.now) words.now) }
{
    match words {
        [] => true,
        [word] => is_trace(word) || is_file(word),
        [flag, file] => is_trace(flag) && is_file(file),
        _ => false,
    }
}

/// The flag that asks for the counts.
fn trace_flag<'a>(alloc: Global) -> Arg<'a>
    ensures rule { rule_of result ≡ trace_rule }
    ensures local { result.global ≡ false }
{
    Arg::new(alloc, "trace")
        .long("trace")
        .action(ArgAction::SetTrue)
}

/// The file, which may be left out.
fn script_file<'a>(alloc: Global) -> Arg<'a>
    ensures rule { rule_of result ≡ file_rule }
    ensures local { result.global ≡ false }
{
    Arg::new(alloc, "file").action(ArgAction::Set)
}

/// A parser that takes nothing yet, and offers neither help nor a version.
fn bare_parser<'a>(alloc: Global) -> Command<'a>
    ensures { app_of result ≡ bare_command }
{
    Command::new(alloc, "iommu-run")
        .no_binary_name(true)
        .disable_help_flag(true)
        .disable_version_flag(true)
}

/// The parser of the command line: one flag, and one file.
// Its parts have functions of their own: each call of a parser's says much of it, and one function that made them all
// took a quarter of this crate's check.
fn parser<'a>(alloc: Global) -> Result<Command<'a>, AllocError>
    ensures { IfOk result (λ command. app_of command ≡ program_command) }
{
    bare_parser(alloc)
        .arg(trace_flag(alloc))?
        .arg(script_file(alloc))
}

/// What the words after the program's name say: `--trace` or not, and a file or none.
pub fn read_words<'a>(alloc: Global, words: &'a [&'a str]) -> Result<Args<'a>, ArgsFault>
    // The flag is the first word, if it is there; and the file the last that isn't the flag.
    ensures trace { IfOk result (λ args. args.trace ≡ wants_trace (map (λ word. word.now) words.entry.now)) }
    ensures file { IfOk result (λ args. option_map (λ file. file.now) args.file ≡ named_file (map (λ word. word.now) words.entry.now)) }

    // A command line is a bad one exactly where it isn't lawful.
    ensures lawful { is_command_line (map (λ word. word.now) words.entry.now) ≡ true → result ≢ Err ArgsFault.Bad }
    ensures unlawful { is_command_line (map (λ word. word.now) words.entry.now) ≢ true → result ≡ Err ArgsFault.Bad }
{
    if !is_lawful(words) {
        return Err(ArgsFault::Bad);
    }
    let Ok(command) = parser(alloc) else {
        return Err(ArgsFault::Memory);
    };
    match command.try_get_matches_from(words) {
        Ok(matches) => Ok(Args {
            trace: matches.get_flag("trace"),
            file: matches.get_str("file"),
        }),
        Err(fault) => match fault.kind() {
            ErrorKind::OutOfMemory => Err(ArgsFault::Memory),
            _ => Err(ArgsFault::Bad),
        },
    }
}
