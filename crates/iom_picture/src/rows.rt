// The rows of a picture.
use iom_timeline::{CopyKind, Period};

/// The height of a held page's bar, of a thin bar, and what is left free below each row.
pub(crate) const BAR: u64 = 14;

pub(crate) const THIN: u64 = 5;

const THIN_STEP: u64 = 7;

const GAP: u64 = 8;

/// How many bars of a kind stand below one another, at most: as many as a device has accesses in flight.
const TRACKS: usize = 8;

/// Bars of one kind that stand below one another, since they are there at the same time.
#[derive(Clone, Copy)]
struct Tracks {
    count: u64,
    /// Where the last bar of each ends.
    ends: [u64; TRACKS],
}

impl Tracks {
    fn none() -> Tracks {
        Tracks {
            count: 0,
            ends: [0; TRACKS],
        }
    }

    /// The first track that is free for the period, which is taken: the last, where none is.
    fn take(&mut self, period: Period) -> u64 {
        let mut track: u64 = 0;
        for end in self.ends.iter_mut() {
            if track >= self.count || *end <= period.from {
                *end = period.until;
                self.count = self.count.max(track.saturating_add(1));
                return track;
            }
            track = track.saturating_add(1);
        }
        track.saturating_sub(1)
    }
}

/// Which kinds of copies a row has, and how many of each at the same time.
#[derive(Clone, Copy)]
pub(crate) struct Row {
    pub(crate) is_shown: bool,
    pub(crate) top: u64,
    has_cached: bool,
    has_kept: bool,
    answers: Tracks,
    flights: Tracks,
}

impl Row {
    /// A row that isn't shown, and has nothing.
    pub(crate) fn hidden() -> Row {
        Row {
            is_shown: false,
            top: 0,
            has_cached: false,
            has_kept: false,
            answers: Tracks::none(),
            flights: Tracks::none(),
        }
    }

    pub(crate) fn show(&mut self) {
        self.is_shown = true;
    }

    /// It has a copy of this kind, and is shown. On which track the copy stands among those of its kind.
    pub(crate) fn add(&mut self, kind: CopyKind, period: Period) -> u64 {
        self.is_shown = true;
        match kind {
            CopyKind::CachedTranslation => {
                self.has_cached = true;
                0
            }
            CopyKind::DeviceCache => {
                self.has_kept = true;
                0
            }
            CopyKind::Answer => self.answers.take(period),
            CopyKind::InFlight => self.flights.take(period),
        }
    }

    /// Where the first thin bar begins.
    pub(crate) fn first_thin(self) -> u64 {
        self.below(0)
    }

    /// Where the thin bar of a copy begins.
    pub(crate) fn top_of(self, kind: CopyKind, track: u64) -> u64 {
        let cached = u64::from(self.has_cached);
        let kept = cached.saturating_add(u64::from(self.has_kept));
        let above = match kind {
            CopyKind::CachedTranslation => 0,
            CopyKind::DeviceCache => cached,
            CopyKind::Answer => kept,
            CopyKind::InFlight => kept.saturating_add(self.answers.count),
        };
        self.below(above.saturating_add(track))
    }

    /// Where the next row begins.
    pub(crate) fn end(self) -> u64 {
        let all = self.top_of(CopyKind::InFlight, self.flights.count);
        all.saturating_add(GAP)
    }

    /// Where what stands below the bar and so many thin ones begins.
    fn below(self, thin: u64) -> u64 {
        self.top
            .saturating_add(BAR + 2)
            .saturating_add(thin.saturating_mul(THIN_STEP))
    }

    /// The middle of its bar.
    pub(crate) fn middle(self) -> u64 {
        self.top.saturating_add(BAR / 2)
    }
}
