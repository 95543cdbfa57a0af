// The program `iommu-run`, from its command line to its exit status.
ghost use Rattle.std.specs.Prelude.{◌≡◌, ◌≢◌, ℕ, List, true, map, Err, None};
ghost use Rattle.std.specs.Io.KnownBytes.{Keeps};
ghost use Rattle.std.specs.Process.{exit_status};
ghost use Rattle.iom_command_line.specs.CommandLine.{is_command_line, wants_trace, named_file};
ghost use Rattle.iom_runner.specs.Disks.{program_setting};
ghost use Rattle.iom_script_reading.specs.Reading.{ConsumesAtMost};
ghost use Rattle.iom_runner.specs.Runs.{RunsProgram, AreLeft};
ghost use Rattle.iom_runner.specs.Statuses.{status_at_end};

use crate::disks::run_with_disks;
use crate::faults::{ProgramFault, RunFault};
use iom_command_line::{ArgsFault, read_words, words_of};
use std::alloc::Global;
use std::fs::{self, Files};
use std::io::{Read, Write};
use std::process::ExitCode;

/// Runs the script in the file that the words name, or the one on the input where they name none, with the
/// program's disks, and writes its lines to the output, with the counts where the words ask for these. A file
/// that can't be opened can't be read.
pub fn run_words<F: Files, R: Read, W: Write>(
    files: &F,
    alloc: Global,
    words: &[&str],
    input: &mut R,
    output: &mut W,
) -> Result<(), ProgramFault>
    // A command line that isn't lawful is told as a bad one, and nothing is written.
    ensures unlawful { is_command_line (map (λ word. word.now) words.entry.now) ≢ true
        → (result ≡ Err (ProgramFault.Args ArgsFault.Bad)) × Keeps (W.contents output.old) (W.contents output.new) }

    // A lawful one is run: where it names no file the input is the script, and else a file is, of some bytes.
    ensures ran { is_command_line (map (λ word. word.now) words.entry.now) ≡ true → (bytes : List ℕ)
        × (named_file (map (λ word. word.now) words.entry.now) ≡ None → AreLeft bytes (R.remaining input.old))
        × RunsProgram (program_setting (wants_trace (map (λ word. word.now) words.entry.now))) bytes result (W.contents output.old) (W.contents output.new) }

    // Of the input at most one byte more is taken than a script may have.
    ensures consumed { ConsumesAtMost 1048577 (R.remaining input.old) (R.remaining input.new) }

    // Where the words name a file, or are no command line, nothing is read from the input.
    ensures unread { named_file (map (λ word. word.now) words.entry.now) ≢ None → Keeps (R.remaining input.old) (R.remaining input.new) }
{
    let args = read_words(alloc, words)?;
    match args.file {
        None => run_with_disks(alloc, input, output, args.trace)?,
        Some(path) => match fs::open(files, path) {
            Ok(mut file) => run_with_disks(alloc, &mut file, output, args.trace)?,
            Err(_) => return Err(ProgramFault::Run(RunFault::Reading)),
        },
    }
    Ok(())
}

fn run_command_line(rt: &HostRuntime) -> Result<(), ProgramFault> {
    let words = words_of(rt)?;
    let mut texts = Vec::new(rt.alloc());
    for word in &words {
        texts.push(word.as_str()).map_err(|_| ArgsFault::Memory)?;
    }
    run_words(rt, rt.alloc(), &texts, &mut rt.stdin(), &mut rt.stdout())
}

/// The exit status of a run that ended so: 0 where it ended well, and else that of its fault, whose text goes to
/// standard error, as `iommu-run: TEXT`.
fn end(rt: &HostRuntime, ended: Result<(), ProgramFault>) -> ExitCode
    ensures { exit_status result ≡ status_at_end ended }
{
    match ended {
        Ok(()) => ExitCode::SUCCESS,
        Err(fault) => {
            let _ = eprintln!(rt; "iommu-run: {fault}");
            ExitCode::from(fault.status())
        }
    }
}

/// The whole program: it runs the script that its command line names, tells on standard error what went
/// wrong, as `iommu-run: TEXT`, and gives the exit status.
pub fn start(rt: &HostRuntime) -> ExitCode {
    end(rt, run_command_line(rt))
}
