// What of a trace is drawn.
use iom_base::DeviceId;
use iom_timeline::{Lane, Period, Place, Timeline};

/// What is to be drawn: the lines from one to another, of one frame or of all, of one device or of all.
#[derive(Clone, Copy)]
pub struct Choice {
    pub from: u64,
    pub to: u64,
    pub frame: Option<u64>,
    pub device: Option<DeviceId>,
}

impl Choice {
    /// All of a trace.
    pub fn everything() -> Choice {
        Choice {
            from: 1,
            to: u64::MAX,
            frame: None,
            device: None,
        }
    }

    /// Whether a mark at the place is one of the frame and of the device that are chosen.
    fn marks_chosen(self, timeline: &Timeline, place: Place) -> bool {
        match place {
            Place::Driver => false,
            Place::Frame(frame) => self.device.is_none() && self.has_frame(frame),
            Place::Lane(_) | Place::Device(_) => self.has_place(timeline, place),
        }
    }

    /// Whether the trace has anything of the frame and of the device that are chosen: a page that was granted, or a mark.
    pub fn is_in(self, timeline: &Timeline) -> bool {
        for lane in &timeline.lanes {
            if self.has_lane(lane) {
                return true;
            }
        }
        for mark in &timeline.marks {
            if self.marks_chosen(timeline, mark.place) {
                return true;
            }
        }
        false
    }

    /// Of this many lines those that are there. The first is never behind the last.
    pub(crate) fn within(self, last_line: u64) -> Choice {
        let from = self.from.max(1);
        Choice {
            from,
            to: self.to.min(last_line).max(from),
            frame: self.frame,
            device: self.device,
        }
    }

    pub(crate) fn has_line(self, line: u64) -> bool {
        self.from <= line && line <= self.to
    }

    pub(crate) fn has_period(self, period: Period) -> bool {
        period.from <= self.to && self.from <= period.until
    }

    pub(crate) fn has_device(self, id: DeviceId) -> bool {
        match self.device {
            None => true,
            Some(chosen) => chosen == id,
        }
    }

    pub(crate) fn has_frame(self, frame: u64) -> bool {
        match self.frame {
            None => true,
            Some(chosen) => chosen == frame,
        }
    }

    pub(crate) fn has_lane(self, lane: &Lane) -> bool {
        self.has_device(lane.device) && self.has_frame(lane.frame)
    }

    /// Whether something at the place is drawn. Pages that aren't known are of no frame that could be chosen.
    pub(crate) fn has_place(self, timeline: &Timeline, place: Place) -> bool {
        match place {
            Place::Lane(lane) => match timeline.lanes.get(lane) {
                None => false,
                Some(lane) => self.has_lane(lane),
            },
            Place::Frame(frame) => self.has_frame(frame),
            Place::Device(id) => self.frame.is_none() && self.has_device(id),
            Place::Driver => true,
        }
    }
}
