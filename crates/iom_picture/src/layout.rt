// Where each row stands.
use crate::choice::Choice;
use crate::folds::Changes;
use crate::rows::Row;
use crate::scale::Scale;
use crate::symbol::Symbol;
use indexmap::IndexMap;
use iom_base::DeviceId;
use iom_timeline::{PageCopy, Period, Place, Timeline};
use std::alloc::{AllocError, Global};

/// The height of a frame's own row.
const HEADER: u64 = 22;

/// The places of all that is drawn.
#[derive(Drop)]
pub(crate) struct Layout {
    pub(crate) choice: Choice,
    pub(crate) scale: Scale,
    /// The row of the driver and the command queue.
    pub(crate) driver: Row,
    /// For each frame that has a lane, where its own row begins.
    pub(crate) frames: IndexMap<u64, u64>,
    /// For each lane of the timeline.
    pub(crate) lanes: Vec<Row>,
    /// For each copy of the timeline, on which track it stands.
    pub(crate) tracks: Vec<u64>,
    /// For each device with something at pages that weren't granted or aren't known.
    pub(crate) devices: IndexMap<DeviceId, Row>,
    /// What there is to be explained.
    pub(crate) shown: Vec<Symbol>,
    /// Where the rows end.
    pub(crate) bottom: u64,
}

/// The columns of what is chosen.
fn scale_of(alloc: Global, choice: Choice, timeline: &Timeline) -> Result<Scale, AllocError> {
    let changes = Changes::of(alloc, choice, timeline)?;
    let folded = changes.into_folded(alloc)?;
    Scale::new(alloc, choice, &folded)
}

/// So many rows, none of which is shown.
fn hidden_rows(alloc: Global, count: usize) -> Result<Vec<Row>, AllocError> {
    let mut rows = Vec::new(alloc);
    for _row in 0..count {
        rows.push(Row::hidden())?;
    }
    Ok(rows)
}

impl Layout {
    /// The layout of what is chosen of the timeline. No row has its place yet.
    pub(crate) fn new(
        alloc: Global,
        choice: Choice,
        timeline: &Timeline,
    ) -> Result<Layout, AllocError> {
        let scale = scale_of(alloc, choice, timeline)?;
        let lanes = hidden_rows(alloc, timeline.lanes.len())?;
        let mut layout = Layout {
            choice,
            scale,
            driver: Row::hidden(),
            frames: IndexMap::new(alloc),
            lanes,
            tracks: Vec::new(alloc),
            devices: IndexMap::new(alloc),
            shown: Vec::new(alloc),
            bottom: 0,
        };
        layout.show_all(timeline)?;
        Ok(layout)
    }

    /// Which rows are shown, and what the legend has to explain.
    fn show_all(&mut self, timeline: &Timeline) -> Result<(), AllocError> {
        self.show_stays(timeline)?;
        self.show_copies(timeline)?;
        self.show_marks(timeline)?;
        self.show_cuts(timeline)?;
        self.show_waits(timeline)?;
        if self.scale.folds.is_empty() {
            return Ok(());
        }
        self.see(Symbol::Folded)
    }

    /// The legend has to explain it.
    fn see(&mut self, symbol: Symbol) -> Result<(), AllocError> {
        if !self.shown.contains(&symbol) {
            self.shown.push(symbol)?;
        }
        Ok(())
    }

    /// The row of what is at the place, if it has one of its own.
    fn row_mut(&mut self, place: Place) -> Result<Option<&mut Row>, AllocError> {
        match place {
            Place::Lane(lane) => Ok(self.lanes.get_mut(lane)),
            Place::Device(id) => {
                if self.devices.get(&id).is_none() {
                    self.devices.insert(id, Row::hidden())?;
                }
                Ok(self.devices.get_mut(&id))
            }
            Place::Frame(_) | Place::Driver => Ok(None),
        }
    }

    fn show_stays(&mut self, timeline: &Timeline) -> Result<(), AllocError> {
        for stay in &timeline.stays {
            let whole = Period {
                from: stay.granted,
                until: stay.confirmed,
            };
            let place = Place::Lane(stay.lane);
            if !self.choice.has_period(whole) || !self.choice.has_place(timeline, place) {
                continue;
            }
            if let Some(row) = self.lanes.get_mut(stay.lane) {
                row.show();
            }
            if self.choice.has_period(stay.held()) {
                self.see(Symbol::Held)?;
            }
            if let Some(period) = stay.lingering() {
                if self.choice.has_period(period) {
                    self.see(Symbol::Lingering)?;
                }
            }
        }
        Ok(())
    }

    fn show_copies(&mut self, timeline: &Timeline) -> Result<(), AllocError> {
        for copy in &timeline.copies {
            let mut track = 0;
            if self.choice.has_period(copy.period) && self.choice.has_place(timeline, copy.place) {
                if let Some(row) = self.row_mut(copy.place)? {
                    track = row.add(copy.kind, copy.period);
                }
                self.see_copy(copy)?;
            }
            self.tracks.push(track)?;
        }
        Ok(())
    }

    /// The legend has to explain the bars of the copy.
    fn see_copy(&mut self, copy: &PageCopy) -> Result<(), AllocError> {
        if let Some(period) = copy.of_use() {
            if self.choice.has_period(period) {
                self.see(Symbol::of_copy(copy.kind))?;
            }
        }
        if let Some(period) = copy.of_no_use() {
            if self.choice.has_period(period) {
                self.see(Symbol::OfNoUse)?;
            }
        }
        Ok(())
    }

    /// The legend has to explain the spans of devices that are quarantined, in rows that are shown.
    fn show_cuts(&mut self, timeline: &Timeline) -> Result<(), AllocError> {
        for quarantine in &timeline.quarantines {
            if !self.choice.has_period(quarantine.period)
                || !self.choice.has_place(timeline, quarantine.place)
            {
                continue;
            }
            let Some(row) = self.row(quarantine.place) else {
                continue;
            };
            if row.is_shown {
                self.see(Symbol::Quarantined)?;
            }
        }
        Ok(())
    }

    /// The legend has to explain what the command queue waits for.
    fn show_waits(&mut self, timeline: &Timeline) -> Result<(), AllocError> {
        for wait in &timeline.waits {
            if self.choice.has_period(wait.period) {
                self.see(Symbol::of_wait(wait.cause))?;
            }
        }
        Ok(())
    }

    fn show_marks(&mut self, timeline: &Timeline) -> Result<(), AllocError> {
        for mark in &timeline.marks {
            if !self.choice.has_line(mark.line) || !self.choice.has_place(timeline, mark.place) {
                continue;
            }
            if let Some(row) = self.row_mut(mark.place)? {
                row.show();
            }
            self.see(Symbol::of_mark(mark.kind))?;
        }
        Ok(())
    }

    /// Gives each row its place, from the top down: the driver's, each frame's with its lanes below it in the order of their
    /// first grants, and those of devices.
    pub(crate) fn place_rows(
        &mut self,
        alloc: Global,
        timeline: &Timeline,
        top: u64,
    ) -> Result<(), AllocError> {
        self.driver.top = top;
        self.bottom = self.driver.end();
        let mut order: Vec<(u64, usize)> = Vec::new(alloc);
        for (place, (lane, row)) in timeline.lanes.iter().zip(self.lanes.iter()).enumerate() {
            if row.is_shown {
                order.push((lane.frame, place))?;
            }
        }
        order.sort()?;
        for (frame, place) in &order {
            self.place_lane(*frame, *place)?;
        }
        self.place_devices();
        Ok(())
    }

    /// Gives the lane its place, and its frame one above it, where it is the frame's first.
    fn place_lane(&mut self, frame: u64, place: usize) -> Result<(), AllocError> {
        if self.frames.get(&frame).is_none() {
            self.frames.insert(frame, self.bottom)?;
            self.bottom = self.bottom.saturating_add(HEADER);
        }
        let top = self.bottom;
        if let Some(row) = self.lanes.get_mut(place) {
            row.top = top;
            self.bottom = row.end();
        }
        Ok(())
    }

    fn place_devices(&mut self) {
        for place in 0..self.devices.len() {
            let top = self.bottom;
            if let Some(row) = self.devices.get_index_mut(place) {
                row.top = top;
                self.bottom = row.end();
            }
        }
    }

    /// Whether the frame has rows of its own.
    pub(crate) fn has_row_of_frame(&self, frame: u64) -> bool {
        self.frames.get(&frame).is_some()
    }

    /// The row of what is at the place: of a frame without one the driver's.
    pub(crate) fn row(&self, place: Place) -> Option<Row> {
        match place {
            Place::Lane(lane) => self.lanes.get(lane).copied(),
            Place::Device(id) => self.devices.get(&id).copied(),
            Place::Driver => Some(self.driver),
            Place::Frame(frame) => match self.frames.get(&frame) {
                None => Some(self.driver),
                Some(top) => {
                    let mut row = Row::hidden();
                    row.top = top.saturating_add(3);
                    Some(row)
                }
            },
        }
    }
}
