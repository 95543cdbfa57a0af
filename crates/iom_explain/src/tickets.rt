// What a ticket waits for.
ghost use Rattle.std.specs.Prelude.{◌≡◌, IsTrue, IfSome};
ghost use Rattle.iom_explain.specs.Tickets.{IsDone, IsTicketWait, StandsAt};

use crate::head::{HeadWait, head_wait};
use iom_board::Board;
use iom_command_queue::{Command, CommandRing, QueueEntry};
use iom_virtio_blk::Disk;
use iom_world::World;
use std::fmt;

/// What a ticket that isn't confirmed waits for.
#[derive(Clone, Copy, PartialEq, Eq)]
pub enum TicketWait {
    /// Its fence is done: the next poll confirms it.
    NextPoll,
    /// Command processing is stopped: a restart queues its fence anew.
    Restart,
    /// Its fence stands in the queue behind so many commands; and what the first of all waits for.
    Queued { before: u32, head: HeadWait },
}

/// Whether the fence with this number is done, by the completion word.
fn is_done<D: Disk>(world: &World<D>, fence: u32) -> bool
    ensures { IsTrue result → IsDone world.now fence }
{
    match world
        .driver()
        .completion_word(&world.hardware().board.memory)
    {
        Some(word) => fence <= word,
        None => false,
    }
}

/// Whether a fence that stores this number stands at this place of the commands that wait.
fn stores_at<D: Disk>(world: &World<D>, fence: u32, place: u32) -> bool
    ensures { IsTrue result → StandsAt world.now fence place }
{
    let hardware = &world.hardware().board;
    match CommandRing::at(&hardware.memory, hardware.iommu.registers(), place) {
        Some(
            QueueEntry::Command(
                Command::IofenceC {
                    store: Some(store),
                    ..
                },
            ),
        ) => store.data == fence,
        _ => false,
    }
}

/// The place, among the commands that wait, of the first fence that stores this number.
fn place_of<D: Disk>(world: &World<D>, fence: u32) -> Option<u32>
    ensures { IfSome result (StandsAt world.now fence) }
{
    for place in 0..CommandRing::count(world.hardware().board.iommu.registers()) {
        if stores_at(world, fence, place) {
            return Some(place);
        }
    }
    None
}

/// What a ticket waits for. None where it wasn't given, or is confirmed; or where its fence is neither done nor in the queue, which
/// no call of the driver leaves so. It changes nothing.
pub fn ticket_wait<D: Disk>(world: &World<D>, ticket: u32) -> Option<TicketWait>
    ensures { IfSome result (IsTicketWait world.now ticket) }
{
    let fence = world.driver().awaited_fence(ticket)?;
    if is_done(world, fence) {
        return Some(TicketWait::NextPoll);
    }
    if !world
        .hardware()
        .board
        .iommu
        .registers()
        .is_processing_commands()
    {
        return Some(TicketWait::Restart);
    }
    let before = place_of(world, fence)?;
    Some(TicketWait::Queued {
        before,
        head: head_wait(&world.hardware().board),
    })
}

/// What is said of a fence at the head.
fn own_wait<W: fmt::Write>(f: &mut fmt::Formatter<W>, head: HeadWait) -> fmt::Result {
    match head {
        HeadWait::Request { .. } | HeadWait::Access(_) => write!(f, "{head}"),
        _ => write!(f, "its fence is next, and a fetch takes it"),
    }
}

impl fmt::Display for TicketWait {
    fn fmt<W: fmt::Write>(&self, f: &mut fmt::Formatter<W>) -> fmt::Result {
        match *self {
            TicketWait::NextPoll => write!(f, "its fence is done, and the next poll confirms it"),
            TicketWait::Restart => {
                write!(f, "command processing is stopped until the driver restarts")
            }
            TicketWait::Queued { before: 0, head } => own_wait(f, head),
            TicketWait::Queued { before: 1, head } => {
                write!(f, "its fence stands behind 1 command; {head}")
            }
            TicketWait::Queued { before, head } => {
                write!(f, "its fence stands behind {before} commands; {head}")
            }
        }
    }
}
