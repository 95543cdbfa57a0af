// Which lines have a column of their own: in a long run of lines the picture doesn't change, and the run is folded.
use crate::choice::Choice;
use iom_timeline::{Mark, MarkKind, Period, Timeline};
use std::alloc::{AllocError, Global};

/// How many lines without a change are folded, at least.
const LEAST_RUN: u64 = 24;

/// How many of them keep their columns at either end of the fold.
const EDGE: u64 = 2;

/// For each line that is drawn, how far it is from the lines at which the picture changes.
#[derive(Drop)]
pub(crate) struct Changes {
    first: u64,
    /// Whether the picture changes there; and then the lines since the last change before.
    distances: Vec<u64>,
}

/// Whether a mark shows the same as the one before: again something is refused there.
fn is_repeat(before: Option<&Mark>, mark: &Mark) -> bool {
    let Some(before) = before else {
        return false;
    };
    match (before.kind, mark.kind) {
        (MarkKind::Fault(_), MarkKind::Fault(_)) => before.place == mark.place,
        _ => false,
    }
}

impl Changes {
    /// The lines that are chosen, of which none changes anything.
    fn none(alloc: Global, choice: Choice) -> Result<Changes, AllocError> {
        let mut distances = Vec::new(alloc);
        for _line in choice.from..choice.to.saturating_add(1) {
            distances.push(u64::MAX)?;
        }
        Ok(Changes {
            first: choice.from,
            distances,
        })
    }

    /// The picture changes at the line, if it is drawn.
    fn note(&mut self, line: u64) {
        if line < self.first {
            return;
        }
        let Ok(place) = usize::try_from(line.saturating_sub(self.first)) else {
            return;
        };
        if let Some(distance) = self.distances.get_mut(place) {
            *distance = 0;
        }
    }

    fn note_period(&mut self, period: Period) {
        self.note(period.from);
        self.note(period.until);
    }

    fn note_stays(&mut self, choice: Choice, timeline: &Timeline) {
        for stay in &timeline.stays {
            let lane = timeline.lanes.get(stay.lane);
            if lane.is_some_and(|lane| choice.has_lane(lane)) {
                self.note_period(stay.held());
                self.note(stay.confirmed);
            }
        }
    }

    fn note_copies(&mut self, choice: Choice, timeline: &Timeline) {
        for copy in &timeline.copies {
            if choice.has_place(timeline, copy.place) {
                self.note_period(copy.period);
                self.note(copy.useless_from);
            }
        }
    }

    fn note_marks(&mut self, choice: Choice, timeline: &Timeline) {
        let mut before: Option<&Mark> = None;
        for mark in &timeline.marks {
            if choice.has_place(timeline, mark.place) {
                if !is_repeat(before, mark) {
                    self.note(mark.line);
                }
                before = Some(mark);
            }
        }
    }

    fn note_spans(&mut self, choice: Choice, timeline: &Timeline) {
        for quarantine in &timeline.quarantines {
            if choice.has_place(timeline, quarantine.place) {
                self.note_period(quarantine.period);
            }
        }
    }

    fn note_waits(&mut self, timeline: &Timeline) {
        for wait in &timeline.waits {
            self.note_period(wait.period);
        }
    }

    /// Counts the lines since the last change, or since the first line.
    fn count_distances(&mut self) {
        let mut since: u64 = 0;
        for distance in self.distances.iter_mut() {
            if *distance == 0 {
                since = 0;
            } else {
                *distance = since.saturating_add(1);
                since = *distance;
            }
        }
    }

    /// The changes of what is chosen of the timeline.
    pub(crate) fn of(
        alloc: Global,
        choice: Choice,
        timeline: &Timeline,
    ) -> Result<Changes, AllocError> {
        let mut changes = Changes::none(alloc, choice)?;
        changes.note_all(choice, timeline);
        Ok(changes)
    }

    fn note_all(&mut self, choice: Choice, timeline: &Timeline) {
        self.note_stays(choice, timeline);
        self.note_copies(choice, timeline);
        self.note_marks(choice, timeline);
        self.note_spans(choice, timeline);
        self.note_waits(timeline);
        self.count_distances();
    }

    /// For each line, whether it is folded.
    pub(crate) fn into_folded(self, alloc: Global) -> Result<Vec<bool>, AllocError> {
        let Changes {
            first: _,
            distances,
        } = self;
        let mut folded: Vec<bool> = Vec::new(alloc);
        let mut until: u64 = 0;
        for distance in distances.iter().rev() {
            until = if *distance == 0 {
                0
            } else {
                until.saturating_add(1)
            };
            let run = distance.saturating_add(until).saturating_sub(1);
            folded.push(*distance > EDGE && until > EDGE && run >= LEAST_RUN)?;
        }
        folded.reverse();
        Ok(folded)
    }
}
