//! `iommu-run [--trace] [FILE]` runs the script in the file, or on standard input, and writes its lines to
//! standard output; with `--trace` each is followed by the counts that stand there, as
//! `= tickets P flight A messages M free F`. The script has four disks, in memory and zero at the start: 0 and 1
//! have 64 sectors, 2 has 2, and 3 has 64 and fails at its second call.
//!
//! What goes wrong is told on standard error, as `iommu-run: TEXT`. The exit status is then 1 where
//! reading, writing or memory failed, 2 where the script isn't in the grammar, and 3 where the command
//! line isn't lawful. The gate runs it on a script on standard input.
#![tactic(auto)]

use std::process::ExitCode;

fn main(rt: HostRuntime) -> ExitCode {
    iom_runner::start(&rt)
}
