// What a reader has, as a timeline.
use iom_base::Access;
use iom_machine::{Event, Outcome};
use iom_timeline::{Follower, Shown, Timeline};
use iom_trace_lines::{
    GrantedPages, KeptOutcomes, Lines, NextLine, ReleasedPages, TraceLine, read_line,
};
use std::alloc::{AllocError, Global};
use std::io::{self, ErrorKind, Read};

/// What a reader has.
#[derive(Drop)]
pub enum Reading {
    /// A trace.
    Trace(Timeline),
    /// The line with this number isn't in the grammar of traces.
    BadLine(u64),
}

/// Nothing is shown behind an answer.
const NOTHING: Shown<'static> = Shown {
    on: None,
    began: None,
};

/// Tells grants of pages side by side.
fn tell_grants(
    follower: &mut Follower,
    line: &[u8],
    granted: GrantedPages,
) -> Result<(), AllocError> {
    follower.begin(line)?;
    let done = Outcome::Done;
    for index in 0..granted.count {
        let event = Event::Grant {
            device: granted.device,
            page: granted.page.saturating_add(index),
            frame: granted.frame.saturating_add(index),
            rights: granted.rights,
        };
        follower.tell(line, &event, &done, NOTHING)?;
    }
    Ok(())
}

/// Tells releases of pages side by side.
fn tell_releases(
    follower: &mut Follower,
    line: &[u8],
    released: ReleasedPages,
    ticket: u32,
) -> Result<(), AllocError> {
    follower.begin(line)?;
    let given = Outcome::Ticket(ticket);
    for index in 0..released.count {
        let event = Event::Release {
            device: released.device,
            page: released.page.saturating_add(index),
        };
        follower.tell(line, &event, &given, NOTHING)?;
    }
    Ok(())
}

/// Tells a line that says something else than an event with its outcome.
fn tell_other(
    follower: &mut Follower,
    line: &[u8],
    read: &TraceLine<'_>,
) -> Result<(), AllocError> {
    match read {
        TraceLine::World(_, _) | TraceLine::Take(_) | TraceLine::TablesFreed => {
            follower.begin(line)
        }
        TraceLine::Joins {
            device,
            with,
            ats,
            ..
        } => follower.join(line, *device, *with, *ats),
        TraceLine::Made { device, .. } => {
            let event = Event::Commit { device: *device };
            follower.take(line, &event, &Outcome::Wrote(0), NOTHING)
        }
        TraceLine::Grants(granted, _) => tell_grants(follower, line, *granted),
        TraceLine::Releases(released, ticket) => tell_releases(follower, line, *released, *ticket),
        TraceLine::Handoff(frame) => {
            let event = Event::Free { frame: *frame };
            follower.take(line, &event, &Outcome::Free(true), NOTHING)
        }
        TraceLine::Nothing => {
            follower.pass();
            Ok(())
        }
        // They are told already.
        TraceLine::Step { .. } | TraceLine::Bad => Ok(()),
    }
}

/// Tells the line. False where it isn't in the grammar.
fn tell_line(
    follower: &mut Follower,
    line: &[u8],
    read: &TraceLine<'_>,
) -> Result<bool, AllocError> {
    match read {
        TraceLine::Bad => return Ok(false),
        TraceLine::Step {
            event,
            outcome,
            on,
            began,
            ..
        } => {
            let shown = Shown {
                on: *on,
                began: *began,
            };
            follower.take(line, event, outcome, shown)?;
        }
        other => tell_other(follower, line, other)?,
    }
    Ok(true)
}

/// What the reading of lines takes, for line after line.
#[derive(Drop)]
struct Desk {
    alloc: Global,
    kept: KeptOutcomes,
    tables: Vec<u64>,
    began: Option<Access>,
    has_world: bool,
}

impl Desk {
    fn new(alloc: Global) -> io::Result<Desk> {
        Ok(Desk {
            alloc,
            kept: KeptOutcomes::new(alloc)?,
            tables: Vec::new(alloc),
            began: None,
            has_world: false,
        })
    }

    /// Reads the line, and tells it. False where it isn't in the grammar.
    fn tell(&mut self, follower: &mut Follower, line: &[u8]) -> Result<bool, AllocError> {
        let read = read_line(
            self.alloc,
            &mut self.kept,
            &mut self.tables,
            &mut self.began,
            self.has_world,
            line,
        )?;
        if let TraceLine::World(_, _) = read {
            self.has_world = true;
        }
        tell_line(follower, line, &read)
    }
}

/// Reads the next line, and tells it. None where there is no other; false where it isn't in the grammar.
fn tell_next<R: Read>(
    desk: &mut Desk,
    follower: &mut Follower,
    lines: &mut Lines,
    reader: &mut R,
) -> io::Result<Option<bool>> {
    match lines.next_line(reader)? {
        NextLine::End => Ok(None),
        NextLine::Broken => Ok(Some(false)),
        NextLine::Line(start, end) => {
            let is_read = desk.tell(follower, lines.between(start, end))?;
            Ok(Some(is_read))
        }
    }
}

/// Tells each line up to the end. The number of the first that isn't in the grammar, if one isn't.
fn tell_lines<R: Read>(
    desk: &mut Desk,
    follower: &mut Follower,
    lines: &mut Lines,
    reader: &mut R,
) -> io::Result<Option<u64>> {
    for number in 1..u64::MAX {
        match tell_next(desk, follower, lines, reader)? {
            None => return Ok(None),
            Some(false) => return Ok(Some(number)),
            Some(true) => {}
        }
    }
    Err(io::Error::from(ErrorKind::Other))
}

/// The follower is told all lines of the reader. The number of the first that isn't in the grammar, if one isn't.
fn follow<R: Read>(
    alloc: Global,
    follower: &mut Follower,
    reader: &mut R,
) -> io::Result<Option<u64>> {
    let mut lines = Lines::new(alloc)?;
    let mut desk = Desk::new(alloc)?;
    tell_lines(&mut desk, follower, &mut lines, reader)
}

/// What was read, where this is the number of the first line that isn't in the grammar, if one isn't.
fn reading_of(follower: Follower, bad: Option<u64>) -> Reading {
    match bad {
        None => Reading::Trace(follower.finish()),
        Some(number) => Reading::BadLine(number),
    }
}

/// Reads a trace to its end, or to its first line that isn't in the grammar.
pub fn read_trace<R: Read>(alloc: Global, reader: &mut R) -> io::Result<Reading> {
    let mut follower = Follower::new(alloc);
    let bad = follow(alloc, &mut follower, reader)?;
    Ok(reading_of(follower, bad))
}
