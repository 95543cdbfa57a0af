// What the lines don't show, by the rule of the driver: the highest free frames become tables, and pages of the
// directory.

use crate::run::Step;
use iom_base::{Access, AccessKind, DeviceId, Mode, Sequence, Size};
use iom_kept_state::KeptState;
use iom_machine::{Choice, Event, Outcome};
use std::alloc::{AllocError, Global};

/// No access: no block device takes a step here.
fn no_access(alloc: Global) -> Access {
    Access {
        address: 0,
        len: 1,
        kind: AccessKind::Read,
        bytes: Sequence::new(alloc),
    }
}

/// Whether nobody has the frame. Those that are granted are the lowest, and no table comes to be there.
fn is_free(kept: &KeptState, number: u64) -> bool {
    number < kept.frames.count() && !kept.frames.is_reserved(number)
}

/// The size of the device's tables, where it has any.
fn size_of(kept: &KeptState, asked: DeviceId) -> Option<Size> {
    let mut devices = kept.devices.as_slice().iter();
    let device = devices.find(|device| device.id == asked)?;
    Some(device.attachment.mode()?.size())
}

/// So many of the highest free frames.
fn highest(alloc: Global, kept: &KeptState, count: usize) -> Result<Sequence<u64>, AllocError> {
    let mut all = Sequence::new(alloc);
    for number in (0..64).rev() {
        if all.as_slice().len() < count && is_free(kept, number) {
            all.push(number)?;
        }
    }
    Ok(all)
}

/// The highest free frame below the limit.
fn highest_one(alloc: Global, kept: &KeptState, limit: u64) -> Result<Sequence<u64>, AllocError> {
    for number in (0..limit).rev() {
        if is_free(kept, number) {
            return sequence(alloc, &[number]);
        }
    }
    Ok(Sequence::new(alloc))
}

fn are_free(kept: &KeptState, numbers: &[u64]) -> bool {
    for number in numbers {
        if !is_free(kept, *number) {
            return false;
        }
    }
    true
}

/// The highest four free frames in a row below the limit that begin at a multiple of four.
fn highest_four(alloc: Global, kept: &KeptState, limit: u64) -> Result<Sequence<u64>, AllocError> {
    for quarter in (0..16).rev() {
        let root = 4 * quarter;
        let four = [root, root + 1, root + 2, root + 3];
        if root + 3 < limit && are_free(kept, &four) {
            return sequence(alloc, &four);
        }
    }
    Ok(Sequence::new(alloc))
}

fn sequence(alloc: Global, numbers: &[u64]) -> Result<Sequence<u64>, AllocError> {
    let mut all = Sequence::new(alloc);
    for number in numbers {
        all.push(*number)?;
    }
    Ok(all)
}

/// Which tables are on the path of the page, from the last level on, each by what the pages that have it in common begin
/// with: nine bits of a page are an index (Privileged Architecture, "Sv39", "Sv48").
fn tables_of(page: u64) -> [u64; 3] {
    [page >> 9, page >> 18, page >> 27]
}

/// Which ids were ever attached, and so have all pages of the directory on their paths; and for which pages a device took
/// tables since its attach, which it keeps.
#[derive(Drop)]
pub(crate) struct Choices {
    attached: Vec<DeviceId>,
    granted: Vec<(DeviceId, u64)>,
}

impl Choices {
    pub(crate) fn new(alloc: Global) -> Choices {
        Choices {
            attached: Vec::new(alloc),
            granted: Vec::new(alloc),
        }
    }

    /// Whether the device has the table of this number on the path of the page.
    fn has_table(&self, device: DeviceId, page: u64, number: usize) -> bool {
        let asked = tables_of(page);
        self.granted.iter().any(|(owner, other)| {
            let tables = tables_of(*other);
            *owner == device && tables.get(number) == asked.get(number)
        })
    }

    /// The tables that the path of the page lacks below the root.
    fn tables(
        &mut self,
        alloc: Global,
        kept: &KeptState,
        device: DeviceId,
        page: u64,
    ) -> Result<Sequence<u64>, AllocError> {
        let most = match size_of(kept, device) {
            Some(Size::Sv39) => 2,
            Some(Size::Sv48) => 3,
            None => 0,
        };
        let mut lacking = 0usize;
        for number in 0..most {
            if !self.has_table(device, page, number) {
                lacking = lacking.wrapping_add(1);
            }
        }
        if lacking > 0 {
            self.granted.push((device, page))?;
        }
        highest(alloc, kept, lacking)
    }

    /// How many pages the path of the id lacks, in a directory of one level or of three (IOMMU specification,
    /// section 2.1, "Device-Directory-Table (DDT)").
    fn count_lacking(&self, kept: &KeptState, device: DeviceId) -> usize {
        if kept.levels == 1 {
            return 0;
        }
        let mut lacking = 2;
        for attached in &self.attached {
            if *attached >> 7 == device >> 7 {
                return 0;
            }
            if *attached >> 16 == device >> 16 {
                lacking = 1;
            }
        }
        lacking
    }

    /// The pages of the directory that an attach takes, and the root.
    fn attach(
        &mut self,
        alloc: Global,
        kept: &KeptState,
        device: DeviceId,
        mode: Mode,
    ) -> Result<(Sequence<u64>, Sequence<u64>), AllocError> {
        let pages = highest(alloc, kept, self.count_lacking(kept, device))?;
        self.attached.push(device)?;
        self.granted.retain(|(owner, _page)| *owner != device);
        let limit = match pages.as_slice().last() {
            Some(page) => *page,
            None => 64,
        };
        let root = match mode {
            Mode::First(_) => highest_one(alloc, kept, limit)?,
            Mode::Second(_) | Mode::Both(_) => highest_four(alloc, kept, limit)?,
        };
        Ok((pages, root))
    }

    /// The frames that the step took for the directory, and for its device.
    fn taken(
        &mut self,
        alloc: Global,
        kept: &KeptState,
        step: &Step,
    ) -> Result<(Sequence<u64>, Sequence<u64>), AllocError> {
        match (&step.event, &step.outcome) {
            (Event::Attach { device, mode, .. }, Outcome::Done) => {
                self.attach(alloc, kept, *device, *mode)
            }
            (Event::Grant { device, page, .. }, Outcome::Done) => {
                let tables = self.tables(alloc, kept, *device, *page)?;
                Ok((Sequence::new(alloc), tables))
            }
            _ => Ok((Sequence::new(alloc), Sequence::new(alloc))),
        }
    }

    /// What the outcome of a step from this state leaves open.
    pub(crate) fn choice(
        &mut self,
        alloc: Global,
        kept: &KeptState,
        step: &Step,
    ) -> Result<Choice, AllocError> {
        let (directory, taken) = self.taken(alloc, kept, step)?;
        let (device, page) = match step.question {
            Some(question) => (question.device, question.page),
            None => (0, 0),
        };
        Ok(Choice {
            directory,
            taken,
            returned: Sequence::new(alloc),
            frame: step.frame.unwrap_or(0),
            device,
            page,
            access: no_access(alloc),
        })
    }
}
