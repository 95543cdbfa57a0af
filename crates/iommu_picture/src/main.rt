//! `iommu-picture [--from N] [--to N] [--frame F] [--device ID] [FILE]` draws the trace in the file, or on standard input, and
//! writes one SVG to standard output. The repository's `docs/JUDGE.md` says how a trace is written, and `docs/GALLERY.md`
//! how a picture is read.
//!
//! The exit status is 0 where it was drawn, 1 where reading, writing or memory failed, 2 where a line isn't in the grammar, and
//! 3 where the command line isn't lawful. What goes wrong is told on standard error, as `iommu-picture: NAME: TEXT`, and then
//! nothing is drawn. Where the trace has nothing of a frame or a device that is chosen that is told there too, beside the
//! picture.
#![tactic(auto)]

mod arguments;

use crate::arguments::{ArgumentsFault, Request, read_words};
use iom_picture::{Choice, Reading, draw, read_trace};
use iom_programs::{INPUT, cause_of, why_no_words, words_of};
use iom_timeline::Timeline;
use std::fs;
use std::io::{self, Write};
use std::process::ExitCode;

const FAILED: u8 = 1;

const NOT_IN_GRAMMAR: u8 = 2;

const BAD_COMMAND_LINE: u8 = 3;

const HELP: &str = "\
iommu-picture [--from N] [--to N] [--frame F] [--device ID] [FILE]

Draws the trace in the file, or on standard input, and writes one SVG to standard output.

  --from N     from this line on
  --to N       up to this line
  --frame F    of this frame alone
  --device ID  of this device alone: six hexadecimal digits
  --help       prints this
  --version    prints the version
";

const VERSION: &str = "iommu-picture 1.0\n";

/// Tells on standard error what goes wrong with what has this name.
fn complain(rt: &HostRuntime, name: &str, text: &str, status: u8) -> u8 {
    iom_programs::complain(rt, "iommu-picture", name, text);
    status
}

/// Writes the bytes, and gives the exit status.
fn tell(rt: &HostRuntime, bytes: &[u8]) -> u8 {
    match rt.stdout().write_all(bytes) {
        Ok(()) => 0,
        Err(_) => complain(rt, "standard output", "writing failed", FAILED),
    }
}

/// Tells on standard error that a trace has nothing of what was chosen.
fn note_absent(rt: &HostRuntime, name: &str, choice: Choice) {
    let _ = match (choice.frame, choice.device) {
        (Some(frame), Some(device)) => {
            eprintln!(rt;
                "iommu-picture: {name}: it has nothing of device {device:06x} at frame {frame}"
            )
        }
        (Some(frame), None) => eprintln!(rt;
            "iommu-picture: {name}: it has nothing of frame {frame}"
        ),
        (None, Some(device)) => {
            eprintln!(rt; "iommu-picture: {name}: it has nothing of device {device:06x}")
        }
        (None, None) => Ok(()),
    };
}

/// Draws the trace that was read of what has this name, and gives the exit status.
fn draw_trace(rt: &HostRuntime, name: &str, choice: Choice, timeline: &Timeline) -> u8 {
    if !choice.is_in(timeline) {
        note_absent(rt, name, choice);
    }
    match draw(rt.alloc(), choice, timeline) {
        Ok(picture) => tell(rt, &picture),
        Err(_) => complain(rt, name, "out of memory", FAILED),
    }
}

/// Draws what was read of what has this name, and gives the exit status.
fn end(rt: &HostRuntime, name: &str, choice: Choice, read: io::Result<Reading>) -> u8 {
    match read {
        Err(error) => complain(rt, name, cause_of(&error), FAILED),
        Ok(Reading::BadLine(line)) => {
            let _ = eprintln!(rt; "iommu-picture: {name}: line {line} isn't in the grammar");
            NOT_IN_GRAMMAR
        }
        Ok(Reading::Trace(timeline)) => draw_trace(rt, name, choice, &timeline),
    }
}

/// Draws what the file, or else standard input, has.
fn draw_from(rt: &HostRuntime, choice: Choice, file: Option<&str>) -> u8 {
    let Some(file) = file else {
        let read = read_trace(rt.alloc(), &mut rt.stdin());
        return end(rt, INPUT, choice, read);
    };
    let read = match fs::open(rt, file) {
        Ok(mut opened) => read_trace(rt.alloc(), &mut opened),
        Err(error) => Err(error),
    };
    end(rt, file, choice, read)
}

/// Does what the words ask for, and gives the exit status.
fn run(rt: &HostRuntime, words: &[String]) -> u8 {
    match read_words(rt.alloc(), words) {
        Ok(Request::Help) => tell(rt, HELP.as_bytes()),
        Ok(Request::Version) => tell(rt, VERSION.as_bytes()),
        Ok(Request::Draw { choice, file }) => draw_from(rt, choice, file),
        Err(ArgumentsFault::Memory) => complain(rt, "command line", "out of memory", FAILED),
        Err(ArgumentsFault::Bad) => complain(
            rt,
            "command line",
            "it isn't [--from N] [--to N] [--frame F] [--device ID] [FILE]",
            BAD_COMMAND_LINE,
        ),
    }
}

fn main(rt: HostRuntime) -> ExitCode {
    let status = match words_of(&rt) {
        Ok(words) => run(&rt, &words),
        Err(error) => match why_no_words(&error) {
            None => complain(&rt, "command line", "it isn't text", BAD_COMMAND_LINE),
            Some(why) => complain(&rt, "command line", why, FAILED),
        },
    };
    ExitCode::from(status)
}
