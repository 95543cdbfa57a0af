// All that is found of a trace, where judging goes on behind a line that is unlawful.
ghost use Rattle.std.specs.Prelude.{IfOk, IfSome};
ghost use Rattle.iom_judge.specs.Certificates.{IsSoOf};

use crate::judging::Judge;
use crate::verdict::{Finding, Verdict};
use std::alloc::Global;
use std::io::{self, Read};

/// What the judge finds of a trace: first, and behind lines that are left out.
#[derive(Drop)]
pub struct Findings {
    /// What [`judge_trace`](crate::judge_trace) finds.
    pub first: Verdict,
    /// What is found next, one after another, where that is a line which is left out.
    pub others: Vec<Verdict>,
}

/// Whether the judging may go on behind what was found: a line is left out that is unlawful, and no other.
fn is_left_out(verdict: &Verdict) -> bool {
    match verdict {
        Verdict::Stops { finding, .. } => matches!(finding, Finding::Unlawful(_)),
        Verdict::Lawful => false,
    }
}

/// Adds what is found behind a line that was left out, until so many more are.
fn judge_rest<R: Read>(
    judge: &mut Judge,
    reader: &mut R,
    most: usize,
    found: &mut Vec<Verdict>,
) -> io::Result<()> {
    for _ in 0..most {
        let verdict = judge.judge_lines(reader)?;
        let goes_on = is_left_out(&verdict);
        found.push(verdict)?;
        if !goes_on {
            break;
        }
    }
    Ok(())
}

/// What the judge finds of the trace that the reader has. A line that is unlawful is left out, and those behind it are judged
/// as if it weren't there, until so many were left out; any other verdict ends the judging. Of a line of several events those
/// that came before the unlawful one aren't left out. Nothing is certified of what stands behind a line that was left out.
pub fn judge_on<R: Read>(alloc: Global, reader: &mut R, most: usize) -> io::Result<Findings>
    ensures { IfOk result (λ found. IfSome (R.remaining reader.old) (IsSoOf found.first)) }
{
    let mut judge = Judge::new(alloc)?;
    let mut found = Findings {
        first: judge.judge_lines(reader)?,
        others: Vec::new(alloc),
    };
    let most = if is_left_out(&found.first) { most } else { 0 };
    judge_rest(&mut judge, reader, most, &mut found.others)?;
    Ok(found)
}
