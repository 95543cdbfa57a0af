// The lines of claims.
use iom_base::DeviceId;
use std::alloc::{AllocError, Global};
use std::collections::HashMap;

/// A claim that isn't done: what it withdrew, at which line.
#[derive(Clone, Copy)]
struct Withdrawn {
    device: DeviceId,
    frame: u32,
    line: u64,
}

/// When what was claimed. Of what is over it keeps when a device's right to a frame ended.
#[derive(Drop)]
pub(crate) struct ClaimLines {
    /// Since when a device holds something at a page.
    held: HashMap<(DeviceId, u64), u64>,
    withdrawn: HashMap<u32, Withdrawn>,
    /// When a device's right to a frame ended last. None where something of it was withdrawn, and none of that is done.
    ended: HashMap<(DeviceId, u32), Option<u64>>,
    /// When a frame was handed on, for those that are.
    handed_on: Vec<Option<u64>>,
}

/// A list of so many frames, none of which is handed on.
fn no_marks(alloc: Global, frames: u32) -> Result<Vec<Option<u64>>, AllocError> {
    let mut marks = Vec::with_capacity(alloc, frames as usize)?;
    for made in 0..frames {
        marks.push(None)?;
    }
    Ok(marks)
}

impl ClaimLines {
    /// Nothing was claimed.
    pub(crate) fn new(alloc: Global, frames: u32) -> Result<ClaimLines, AllocError> {
        Ok(ClaimLines {
            held: HashMap::new(alloc),
            withdrawn: HashMap::new(alloc),
            ended: HashMap::new(alloc),
            handed_on: no_marks(alloc, frames)?,
        })
    }

    pub(crate) fn grant(
        &mut self,
        device: DeviceId,
        page: u64,
        frame: u32,
        line: u64,
    ) -> Result<(), AllocError> {
        self.held.insert((device, page), line)?;
        self.mark(frame, None);
        Ok(())
    }

    /// Room is made for the line of the claim's end, which then can't be refused.
    pub(crate) fn release(
        &mut self,
        number: u32,
        device: DeviceId,
        page: u64,
        frame: u32,
        line: u64,
    ) -> Result<(), AllocError> {
        if !self.ended.contains_key(&(device, frame)) {
            self.ended.insert((device, frame), None)?;
        }
        let withdrawn = Withdrawn {
            device,
            frame,
            line,
        };
        self.withdrawn.insert(number, withdrawn)?;
        self.held.remove(&(device, page));
        Ok(())
    }

    pub(crate) fn done(&mut self, number: u32, line: u64) {
        if let Some(withdrawn) = self.withdrawn.remove(&number) {
            if let Some(ended) = self.ended.get_mut(&(withdrawn.device, withdrawn.frame)) {
                *ended = Some(line);
            }
        }
    }

    /// The frame is handed on at that line, or is no more.
    pub(crate) fn mark(&mut self, frame: u32, line: Option<u64>) {
        if let Some(mark) = self.handed_on.get_mut(frame as usize) {
            *mark = line;
        }
    }

    pub(crate) fn held_since(&self, device: DeviceId, page: u64) -> Option<u64> {
        self.held.get(&(device, page)).copied()
    }

    pub(crate) fn released_at(&self, number: u32) -> Option<u64> {
        match self.withdrawn.get(&number) {
            Some(withdrawn) => Some(withdrawn.line),
            None => None,
        }
    }

    pub(crate) fn right_ended(&self, device: DeviceId, frame: u32) -> Option<u64> {
        *self.ended.get(&(device, frame))?
    }

    pub(crate) fn handed_on_at(&self, frame: u32) -> Option<u64> {
        *self.handed_on.get(frame as usize)?
    }
}
