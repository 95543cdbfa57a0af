// The copies of translations, and which of each lane are there.
use crate::page_copy::PageCopy;
use crate::timeline::{CopyKind, Place};
use std::alloc::{AllocError, Global};

/// The copies of a lane that haven't ended, by their places in the list of all.
#[derive(Clone, Copy)]
struct Open {
    cached: Option<usize>,
    kept: Option<usize>,
}

/// All copies of translations so far.
#[derive(Drop)]
pub(crate) struct Copies {
    pub(crate) all: Vec<PageCopy>,
    /// For each lane.
    open: Vec<Open>,
}

impl Copies {
    pub(crate) fn new(alloc: Global) -> Copies {
        Copies {
            all: Vec::new(alloc),
            open: Vec::new(alloc),
        }
    }

    /// The list of all.
    pub(crate) fn into_all(self) -> Vec<PageCopy> {
        let Copies { all, open: _ } = self;
        all
    }

    /// There is one lane more.
    pub(crate) fn add_lane(&mut self) -> Result<(), AllocError> {
        self.open.push(Open {
            cached: None,
            kept: None,
        })?;
        Ok(())
    }

    /// A copy comes to be, and its place in the list of all.
    pub(crate) fn begin(
        &mut self,
        kind: CopyKind,
        place: Place,
        line: u64,
    ) -> Result<usize, AllocError> {
        let copy = self.all.len();
        self.all.push(PageCopy::begin(kind, place, line))?;
        Ok(copy)
    }

    /// The copy is gone.
    pub(crate) fn end(&mut self, copy: usize, line: u64) {
        if let Some(copy) = self.all.get_mut(copy) {
            copy.period = copy.period.ended(line);
        }
    }

    /// Nothing reaches the frame by the copy from here on.
    pub(crate) fn spoil(&mut self, copy: usize, line: u64) {
        if let Some(copy) = self.all.get_mut(copy) {
            copy.useless_from = copy.useless_from.min(line);
        }
    }

    /// Nothing reaches the frame by what the device's own cache has of the lane's page, from here on.
    pub(crate) fn spoil_kept(&mut self, lane: usize, line: u64) {
        let Some(open) = self.open.get(lane) else {
            return;
        };
        if let Some(copy) = open.kept {
            self.spoil(copy, line);
        }
    }

    /// The same, of all these lanes.
    pub(crate) fn spoil_all_kept(&mut self, lanes: &[usize], line: u64) {
        for lane in lanes {
            self.spoil_kept(*lane, line);
        }
    }

    /// The IOMMU may remember the lane's page from here on, where it didn't. Whether that is new.
    pub(crate) fn cache(&mut self, lane: usize, line: u64) -> Result<bool, AllocError> {
        let place = self.all.len();
        let Some(open) = self.open.get_mut(lane) else {
            return Ok(false);
        };
        if open.cached.is_some() {
            return Ok(false);
        }
        open.cached = Some(place);
        self.begin(CopyKind::CachedTranslation, Place::Lane(lane), line)?;
        Ok(true)
    }

    /// The IOMMU doesn't remember the lane's page any more.
    pub(crate) fn forget(&mut self, lane: usize, line: u64) {
        let Some(open) = self.open.get_mut(lane) else {
            return;
        };
        let Some(copy) = open.cached.take() else {
            return;
        };
        self.end(copy, line);
    }

    /// The same, of all these lanes.
    pub(crate) fn forget_all(&mut self, lanes: &[usize], line: u64) {
        for lane in lanes {
            self.forget(*lane, line);
        }
    }

    /// The device's own cache has the lane's page from here on, where it hadn't.
    pub(crate) fn keep(&mut self, lane: usize, line: u64) -> Result<(), AllocError> {
        let place = self.all.len();
        let Some(open) = self.open.get_mut(lane) else {
            return Ok(());
        };
        if open.kept.is_some() {
            return Ok(());
        }
        open.kept = Some(place);
        self.begin(CopyKind::DeviceCache, Place::Lane(lane), line)?;
        Ok(())
    }

    /// The device's own cache hasn't the lane's page any more.
    pub(crate) fn drop_kept(&mut self, lane: usize, line: u64) {
        let Some(open) = self.open.get_mut(lane) else {
            return;
        };
        let Some(copy) = open.kept.take() else {
            return;
        };
        self.end(copy, line);
    }

    /// The same, of all these lanes.
    pub(crate) fn drop_all_kept(&mut self, lanes: &[usize], line: u64) {
        for lane in lanes {
            self.drop_kept(*lane, line);
        }
    }
}
