// How a run ends: it settles, and then a frame is free exactly where nobody holds it.

use crate::draw::{FIRST_FRAME, FRAMES};
use crate::run::Step;
use iom_base::DeviceId;
use iom_machine::{Event, Outcome};
use iom_virtio_blk::MemoryDisk;
use iom_world::World;
use std::alloc::{AllocError, Global};

/// A page that was granted to a device.
#[derive(Clone, Copy)]
struct Page {
    device: DeviceId,
    page: u64,
    frame: u64,
    is_held: bool,
}

/// All pages that were granted, and which of them are held still, by what the driver answered.
#[derive(Drop)]
struct Pages {
    all: Vec<Page>,
}

impl Pages {
    /// The device gives back its page; where none is named, all of them.
    fn end(&mut self, device: DeviceId, page: Option<u64>) {
        for one in self.all.iter_mut() {
            if one.device == device && page.is_none_or(|page| one.page == page) {
                one.is_held = false;
            }
        }
    }

    /// What the driver answered to an event.
    fn note(&mut self, step: &Step) -> Result<(), AllocError> {
        match (&step.event, &step.outcome) {
            (
                Event::Grant {
                    device,
                    page,
                    frame,
                    ..
                },
                Outcome::Done,
            ) => self.all.push(Page {
                device: *device,
                page: *page,
                frame: *frame,
                is_held: true,
            })?,
            (Event::Release { device, page }, Outcome::Ticket(_)) => self.end(*device, Some(*page)),
            (Event::Quarantine { device }, Outcome::Ticket(_)) => self.end(*device, None),
            _ => {}
        }
        Ok(())
    }

    /// Whether somebody holds the frame.
    fn have(&self, frame: u64) -> bool {
        for one in self.all.iter() {
            if one.is_held && one.frame == frame {
                return true;
            }
        }
        false
    }
}

/// What is held after these steps.
fn held_after(alloc: Global, steps: &[Step]) -> Result<Pages, AllocError> {
    let mut pages = Pages {
        all: Vec::new(alloc),
    };
    for step in steps {
        pages.note(step)?;
    }
    Ok(pages)
}

/// Whether the driver says that the frame is free.
fn is_free(world: &mut World<MemoryDisk>, frame: u64) -> bool {
    world.events() < 1000000 && matches!(world.step(&Event::Free { frame }), Outcome::Free(true))
}

/// Whether the world, to which these steps happened, settles by at most 400 events, and then each of the frames is free
/// exactly where nobody holds it.
pub(crate) fn settles(
    alloc: Global,
    world: &mut World<MemoryDisk>,
    steps: &[Step],
) -> Result<bool, AllocError> {
    let held = held_after(alloc, steps)?;
    if world.events() >= 1000000 {
        return Ok(false);
    }
    let Ok(count) = world.settle() else {
        return Ok(false);
    };
    for frame in FIRST_FRAME..FIRST_FRAME + FRAMES {
        if is_free(world, frame) == held.have(frame) {
            return Ok(false);
        }
    }
    Ok(count <= 400)
}
