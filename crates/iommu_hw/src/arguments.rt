// What the command line says.

use iom_programs::is_file;

/// How the program is to run.
#[derive(Clone, Copy)]
pub(crate) struct Arguments<'a> {
    /// Whether each line is to be answered at once.
    pub(crate) live: bool,
    /// The file that the session is to be written to, as a script. None where nobody wants it.
    pub(crate) log: Option<&'a str>,
    /// The file that the lines are in. None where they come on standard input.
    pub(crate) file: Option<&'a str>,
}

/// What is asked for.
#[derive(Clone, Copy)]
pub(crate) enum Request<'a> {
    Help,
    Version,
    Run(Arguments<'a>),
}

/// What the words say that ask for a run: `[--live] [--log FILE] [FILE]`. None where they say something else.
fn read_run(words: &[String]) -> Option<Arguments<'_>> {
    let (live, words) = match words {
        [flag, rest @ ..] if flag.as_str() == "--live" => (true, rest),
        _ => (false, words),
    };
    let (log, words) = match words {
        [flag, file, rest @ ..] if flag.as_str() == "--log" && is_file(file) => {
            (Some(file.as_str()), rest)
        }
        _ => (None, words),
    };
    let file = match words {
        [] => None,
        [file] if is_file(file) => Some(file.as_str()),
        _ => return None,
    };
    Some(Arguments { live, log, file })
}

/// What the words after the program's name ask for. None where they aren't a lawful command line.
pub(crate) fn read_words(words: &[String]) -> Option<Request<'_>> {
    match words {
        [word] if word.as_str() == "--help" => Some(Request::Help),
        [word] if word.as_str() == "--version" => Some(Request::Version),
        _ => Some(Request::Run(read_run(words)?)),
    }
}
