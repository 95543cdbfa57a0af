// Schedules that were found, run once more by the programs for which they are scripts.
use iom_litmus_runner::Replay;
use iom_runner::program_disks;
use std::io;

/// What a script's lines are answered: by a world where that is its first line, and else by hardware.
fn lines_of(rt: &HostRuntime, script: &str) -> anyhow::Result<Option<String>> {
    let alloc = rt.alloc();
    let mut lines = Vec::new(alloc);
    let is_world = script.lines().any(|line| line.starts_with("world "));
    let has_run = if is_world {
        let disks = program_disks(alloc)?;
        iom_runner::run(alloc, &mut script.as_bytes(), &mut lines, disks, false).is_ok()
    } else {
        iom_hardware_runner::run(alloc, &mut script.as_bytes(), &mut lines, &mut io::sink()).is_ok()
    };
    match has_run {
        true => Ok(Some(String::from_utf8(lines)?)),
        false => Ok(None),
    }
}

/// An answer up to its first `;` or `:`.
fn front_of(line: &str) -> &str {
    match line.find([';', ':'].as_slice()) {
        Some(end) => line.get(..end).unwrap_or(line),
        None => line,
    }
}

/// Whether the last of these lines are answered as the search says.
fn are_answered(printed: &str, answers: &str) -> bool {
    let behind = printed
        .lines()
        .count()
        .saturating_sub(answers.lines().count());
    let pairs = printed.lines().skip(behind).zip(answers.lines());
    printed.lines().count() > answers.lines().count()
        && pairs
            .into_iter()
            .all(|(line, answer)| answer == "*" || front_of(line) == answer)
}

/// Whether the schedule, run once more as a script, is answered as in the search.
fn is_replayed(rt: &HostRuntime, replay: Replay) -> anyhow::Result<bool> {
    let script = String::from_utf8(replay.script)?;
    let answers = String::from_utf8(replay.answers)?;
    match lines_of(rt, &script)? {
        Some(printed) => Ok(are_answered(&printed, &answers)),
        None => Ok(false),
    }
}

/// How many of the schedules, each run once more, are answered as in the search.
pub(crate) fn replayed(rt: &HostRuntime, replays: Vec<Replay>) -> anyhow::Result<usize> {
    let mut count = 0usize;
    for replay in replays {
        if is_replayed(rt, replay)? {
            count = count.saturating_add(1);
        }
    }
    Ok(count)
}
