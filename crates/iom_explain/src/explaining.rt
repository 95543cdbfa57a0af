// Which answers are explained, and by what.
use crate::faults::note_fault;
use crate::frames::note_frame;
use crate::head::head_wait;
use crate::notes::{Note, Notes};
use crate::pages::note_ticket;
use crate::refusals::note_refusal;
use iom_machine::{Event, Fetched, Outcome};
use iom_virtio_blk::Disk;
use iom_world::World;
use std::fmt::Write;

/// Notes what the command at the head waits for.
fn note_head<D: Disk>(notes: &mut Notes, world: &World<D>) {
    let head = head_wait(&world.hardware().board);
    let mut note = Note::new();
    let _ = write!(note, "{head}");
    notes.push(note);
}

/// Notes what the oldest ticket waits for, where one isn't confirmed.
fn note_oldest<D: Disk>(notes: &mut Notes, world: &World<D>) {
    match world.driver().oldest_pending() {
        Some(ticket) => note_ticket(notes, world, ticket),
        None => {
            let mut note = Note::new();
            let _ = write!(note, "no ticket is open");
            notes.push(note);
        }
    }
}

/// What is to be said behind the answer that the event had of the world, as it is now. Nothing, where nobody would ask.
pub fn explain<D: Disk>(world: &World<D>, event: &Event, outcome: &Outcome) -> Notes {
    let mut notes = Notes::new();
    match outcome {
        Outcome::Free(false) => {
            if let Event::Free { frame } = event {
                note_frame(&mut notes, world, *frame);
            }
        }
        Outcome::Fetched(Fetched::Waiting | Fetched::Stopped) => note_head(&mut notes, world),
        Outcome::NoneConfirmed { .. } => note_oldest(&mut notes, world),
        Outcome::Refused(refusal) => note_refusal(&mut notes, world, event, *refusal),
        Outcome::Fault(_) => note_fault(&mut notes, world, event),
        _ => {}
    }
    notes
}
