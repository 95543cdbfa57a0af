// What tells events: a world, and the lines on their way out.
ghost use Rattle.std.specs.Prelude.{◌≡◌, ◌+◌, ◌<◌, ◌≤◌, ◌^◌, [], length, OnOk, OnErr};
ghost use Rattle.iom_line_writer.specs.Writing.{TakesText, FailsAt};
ghost use Rattle.iom_settling.specs.Stages.{brief};
ghost use Rattle.iom_tell.specs.Told.{told_line};
ghost use Rattle.iom_world.specs.Happens.{Happens};
ghost use Rattle.iom_world.specs.Shown.{disks_of, parts_of, shown_of};
ghost use Rattle.iom_world_effects.proofs.DriverLemmas.{driver_invariant};
ghost use Rattle.iom_telling.specs.Tellers.{AddsIf, HasToldLine, TellerTakes};

use crate::fault::{TellingFault, fault_of};
use iom_base::DeviceId;
use iom_explain::{NOTES_ROOM, append_notes, explain};
use iom_line_writer::{LineWriter, WriteFault};
use iom_machine::{Event, Fetched, Outcome};
use iom_script::{BUFFER_SIZE, LineBuffer};
use iom_settling::{FetchReply, TakesEvents};
use iom_tell::{ReservedFrames, TELL_ROOM, tell_event};
use iom_virtio_blk::Disk;
use iom_world::World;
use std::alloc::Global;
use std::io::Write;

/// A world whose events are told, up to the first at which something fails. The later ones happen untold.
pub(crate) struct Teller<'a, W, D: Disk> {
    pub(crate) world: World<D>,
    /// A place for which frames were reserved before an event.
    pub(crate) before: ReservedFrames,
    pub(crate) lines: LineWriter<'a, W>,
    /// What failed.
    pub(crate) fault: Option<TellingFault>,
    /// Whether answers are explained.
    pub(crate) explains: bool,
    pub(crate) alloc: Global,
}

/// Writes the lines out where there is no room for the longest that tells an event, and for notes behind it.
fn make_room<W: Write>(lines: &mut LineWriter<'_, W>) -> Result<(), WriteFault>
    ensures room { OnOk result (length lines.new.buffer + TELL_ROOM + NOTES_ROOM ≤ BUFFER_SIZE) }
    ensures taken { OnOk result (TakesText W.contents lines.old [] lines.new) }
    ensures failed { OnErr result (FailsAt W.contents lines.old [] lines.new) }
{
    if lines.buffer.as_slice().len() > BUFFER_SIZE - TELL_ROOM - NOTES_ROOM {
        lines.write_out()?;
    }
    Ok(())
}

/// Where answers are explained, notes behind the answer that the event had of the world, as it is now.
fn add_notes<D: Disk>(
    world: &World<D>,
    event: &Event,
    outcome: &Outcome,
    explains: bool,
    out: &mut LineBuffer,
)
    requires { length out.old + NOTES_ROOM ≤ BUFFER_SIZE }
    ensures { AddsIf explains out.old out.new }
{
    if explains {
        append_notes(out, &explain(world, event, outcome));
    }
}

/// One event happens to the world, and its line goes into the buffer, which has room for it, and notes behind it, where answers are
/// explained. What failed, if something did, is noted.
fn tell_in_room<W: Write, D: Disk>(
    alloc: Global,
    world: &mut World<D>,
    before: &mut ReservedFrames,
    event: &Event,
    lines: &mut LineWriter<'_, W>,
    explains: bool,
    fault: &mut Option<TellingFault>,
) -> Outcome
    requires count { world.old.hardware.board.events + 1 < 2 ^ 64 }
    requires room { length lines.old.buffer + TELL_ROOM + NOTES_ROOM ≤ BUFFER_SIZE }
    ensures happens { Happens (shown_of D.shown world.old) event.now result (shown_of D.shown world.new) }
    ensures told { HasToldLine W.contents lines.old explains (told_line (shown_of D.shown world.old) event.now result (shown_of D.shown world.new)) fault.new lines.new }
{
    let told = tell_event(alloc, world, before, event, &mut lines.buffer);
    *fault = fault_of(told.1);
    match fault {
        None => add_notes(world, event, &told.0, explains, &mut lines.buffer),
        Some(_) => {}
    }
    told.0
}

/// One event happens to the world, and its line goes to the lines. What failed, if something did, is noted.
fn tell_one<W: Write, D: Disk>(
    alloc: Global,
    world: &mut World<D>,
    before: &mut ReservedFrames,
    event: &Event,
    lines: &mut LineWriter<'_, W>,
    explains: bool,
    fault: &mut Option<TellingFault>,
) -> Outcome
    requires count { world.old.hardware.board.events + 1 < 2 ^ 64 }
    ensures happens { Happens (shown_of D.shown world.old) event.now result (shown_of D.shown world.new) }
    ensures told { HasToldLine W.contents lines.old explains (told_line (shown_of D.shown world.old) event.now result (shown_of D.shown world.new)) fault.new lines.new }
{
    match make_room(lines) {
        Err(WriteFault) => {
            *fault = Some(TellingFault::Writing);
            world.step(event)
        }
        Ok(()) => tell_in_room(alloc, world, before, event, lines, explains, fault),
    }
}

/// What settling wants to know of the outcome.
fn brief(outcome: &Outcome) -> FetchReply
    ensures { result ≡ brief outcome.now }
{
    match outcome {
        Outcome::Fetched(Fetched::Waiting) => FetchReply::Waits,
        Outcome::Fetched(Fetched::Empty) => FetchReply::Empty,
        _ => FetchReply::Other,
    }
}

impl<W: Write, D: Disk> Teller<'_, W, D> {
    /// One event, and its line, where nothing failed before.
    pub(crate) fn tell(&mut self, event: &Event) -> Outcome
        requires count { self.old.world.hardware.board.events + 1 < 2 ^ 64 }
        ensures { TellerTakes W.contents D.shown self.old event.now result self.new }
    {
        match self.fault {
            Some(_) => self.world.step(event),
            None => tell_one(
                self.alloc,
                &mut self.world,
                &mut self.before,
                event,
                &mut self.lines,
                self.explains,
                &mut self.fault,
            ),
        }
    }
}

/// A teller takes events as its world does, and tells them along: so settling, which is over whatever takes events, tells its own.
impl<W: Write, D: Disk> TakesEvents for Teller<'_, W, D> {
    ghost parts = { λ teller. parts_of teller.world };

    ghost counted = { λ teller. teller.world.hardware.board.events };

    ghost happens = { TellerTakes W.contents D.shown };

    ghost effect = { λ old new event told happens. (disks_of old.world, happens.happens.effect) };

    ghost commands = { λ old new event told happens. happens.happens.commands };

    ghost counts = { λ old new event told happens. happens.happens.events };

    ghost invariants = { λ teller. teller.world.invariants };

    ghost own = { λ teller. driver_invariant teller.world.driver };

    fn facts(&self) {
        self.world.facts();
    }

    fn first_busy(&self) -> Option<DeviceId> {
        self.world.first_busy()
    }

    fn is_quiet(&self) -> bool {
        self.world.is_quiet()
    }

    fn has_pending(&self) -> bool {
        self.world.has_pending()
    }

    fn has_used_up(&self) -> bool {
        self.world.has_used_up()
    }

    fn take(&mut self, event: &Event) -> FetchReply {
        brief(&self.tell(event))
    }
}
