// An event, and its line.
ghost use Rattle.std.specs.Prelude.{◌≡◌, ◌+◌, ◌<◌, ◌≤◌, ◌^◌, ◌++◌, ◌∷◌, [], true, codes, ◌↔◌, length, Some, IsTrue, OnOk, OnErr, IfErr};
ghost use Rattle.iom_event_text.specs.Texts.{event_text, IsSayable};
ghost use Rattle.iom_script.specs.Grammar.{IsEventLine};
ghost use Rattle.iom_script.specs.Lines.{outcome_text};
ghost use Rattle.iom_trace_lines.specs.TraceLines.{access_text, on_text, SaysLine};
ghost use Rattle.iom_world.specs.Happens.{Happens};
ghost use Rattle.iom_world.specs.Shown.{shown_of};
ghost use Rattle.iom_tell.specs.Told.{AreReservedOf, IsSayableBehind, behind_of, behind_text, is_taken_since, may_take, SaysBehind, taken_below, taken_by, told_line, told_said};

use crate::behind::Behind;
use crate::reserved::ReservedFrames;
use crate::shown::behind_of;
use crate::tables::append_tables;
use crate::tell_fault::TellFault;
use iom_event_text::{append_event_line, is_sayable};
use iom_machine::{Event, Outcome};
use iom_script::{BUFFER_SIZE, LineBuffer};
use iom_virtio_blk::Disk;
use iom_world::World;
use std::alloc::Global;

/// The bytes of the longest line that tells an event, and some more.
pub const TELL_ROOM: usize = 40_000;

/// Whether the event may take frames for tables.
fn may_take(event: &Event) -> bool
    ensures { result ≡ may_take event.now }
{
    matches!(event, Event::Attach { .. } | Event::Grant { .. })
}

/// Notes which frames are reserved, where the event may take frames for tables.
fn note_before<D: Disk>(world: &World<D>, before: &mut ReservedFrames, event: &Event)
    ensures { may_take event.now ≡ true → AreReservedOf before.new (shown_of D.shown world.now) }
{
    if !may_take(event) {
        return;
    }
    before.note(world);
}

/// Whether a line can say what is shown.
fn is_sayable_behind(behind: &Behind) -> bool
    ensures { IsTrue result ↔ IsSayableBehind behind.now }
{
    match behind {
        Behind::Nothing | Behind::Tables | Behind::On(_) => true,
        Behind::Began(asks, _) => is_sayable(asks),
    }
}

/// Appends the event's line, ` => ` and the text of the outcome.
fn append_answered(out: &mut LineBuffer, event: &Event, outcome: &Outcome)
    requires sayable { IsSayable event.now }
    requires room { length out.old + 16600 ≤ BUFFER_SIZE }
    ensures text { out.new ≡ out.old ++ event_text event.now ++ codes " => " ++ outcome_text outcome.now }
    ensures says { IsEventLine (event_text event.now) event.now }
    ensures short { length out.new ≤ length out.old + 16504 }
{
    append_event_line(out, event);
    out.append(b" => ");
    out.append_line(outcome);
    out.take_line_feed();
}

/// Appends the frame on which an access was accepted.
fn append_on(out: &mut LineBuffer, frame: u32)
    requires room { length out.old + 25 ≤ BUFFER_SIZE }
    ensures text { out.new ≡ out.old ++ on_text (Some frame) }
    ensures short { length out.new ≤ length out.old + 25 }
{
    out.append(b"; on ");
    out.append_decimal(u64::from(frame));
}

/// Appends the access that a step began, and the frame on which it was accepted.
fn append_began(out: &mut LineBuffer, asks: &Event, on: Option<u32>)
    requires sayable { IsSayable asks.now }
    requires room { length out.old + 20488 ≤ BUFFER_SIZE }
    ensures text { out.new ≡ out.old ++ access_text (event_text asks.now) on }
    ensures says { IsEventLine (event_text asks.now) asks.now }
    ensures short { length out.new ≤ length out.old + 20488 }
{
    out.append(b"; ");
    append_event_line(out, asks);
    match on {
        None => {}
        Some(frame) => append_on(out, frame),
    }
}

/// Appends what is shown behind an answer.
fn append_behind<D: Disk>(
    out: &mut LineBuffer,
    world: &World<D>,
    before: &ReservedFrames,
    behind: &Behind,
)
    requires sayable { IsSayableBehind behind.now }
    requires room { length out.old + 20600 ≤ BUFFER_SIZE }
    ensures text { out.new ≡ out.old ++ behind_text (taken_below (is_taken_since before.now (shown_of D.shown world.now)) 4096) behind.now }
    ensures says { SaysBehind behind.now }
    ensures short { length out.new ≤ length out.old + 20488 }
{
    match behind {
        Behind::Nothing => {}
        Behind::Tables => append_tables(out, world, before),
        Behind::On(frame) => append_on(out, *frame),
        Behind::Began(asks, on) => append_began(out, asks, *on),
    }
}

/// Appends the whole line, with its line feed.
fn append_told<D: Disk>(
    out: &mut LineBuffer,
    world: &World<D>,
    before: &ReservedFrames,
    event: &Event,
    outcome: &Outcome,
    behind: &Behind,
)
    requires sayable { IsSayable event.now }
    requires sayable_behind { IsSayableBehind behind.now }
    requires room { length out.old + TELL_ROOM ≤ BUFFER_SIZE }
    ensures text { out.new ≡ out.old ++ (event_text event.now ++ codes " => " ++ outcome_text outcome.now
        ++ behind_text (taken_below (is_taken_since before.now (shown_of D.shown world.now)) 4096) behind.now) ++ 10 ∷ [] }
    ensures says { IsEventLine (event_text event.now) event.now × SaysBehind behind.now }
    ensures short { length out.new ≤ length out.old + TELL_ROOM }
{
    append_answered(out, event, outcome);
    append_behind(out, world, before, behind);
    out.append(b"\n");
}

/// Appends the line that tells the outcome which the event had, of the world as it now is; or nothing.
fn append_outcome<D: Disk>(
    alloc: Global,
    out: &mut LineBuffer,
    world: &World<D>,
    before: &ReservedFrames,
    event: &Event,
    outcome: &Outcome,
) -> Result<(), TellFault>
    requires room { length out.old + TELL_ROOM ≤ BUFFER_SIZE }
    ensures told { OnOk result (out.new ≡ out.old ++ (event_text event.now ++ codes " => " ++ outcome_text outcome.now
        ++ behind_text (taken_below (is_taken_since before.now (shown_of D.shown world.now)) 4096) (behind_of (shown_of D.shown world.now) event.now outcome.now)) ++ 10 ∷ []) }
    ensures says { OnOk result (IsEventLine (event_text event.now) event.now × SaysBehind (behind_of (shown_of D.shown world.now) event.now outcome.now)) }
    ensures kept { OnErr result (out.new ≡ out.old) }
    ensures short { length out.new ≤ length out.old + TELL_ROOM }
    ensures fault { IfErr result (λ fault. fault ≡ TellFault.Unsayable → ¬ (IsSayable event.now × IsSayableBehind (behind_of (shown_of D.shown world.now) event.now outcome.now))) }
{
    let Ok(behind) = behind_of(alloc, world, event, outcome) else {
        return Err(TellFault::Memory);
    };
    if !is_sayable(event) || !is_sayable_behind(&behind) {
        return Err(TellFault::Unsayable);
    }
    append_told(out, world, before, event, outcome, &behind);
    Ok(())
}

/// One event happens to the world, and its line is appended, with its line feed: at most [`TELL_ROOM`] bytes, which have to be
/// free. With the outcome, why nothing was appended, where that is so. What the line shows behind the answer is what the world
/// knows then: the frames that became reserved by an attach or a grant, if any did; the frame of the access that was accepted last;
/// or the access that the block device wants, with that frame. `before` is a place for what was reserved before.
pub fn tell_event<D: Disk>(
    alloc: Global,
    world: &mut World<D>,
    before: &mut ReservedFrames,
    event: &Event,
    out: &mut LineBuffer,
) -> (Outcome, Result<(), TellFault>)
    requires count { world.old.hardware.board.events + 1 < 2 ^ 64 }
    requires room { length out.old + TELL_ROOM ≤ BUFFER_SIZE }
    ensures happens { Happens (shown_of D.shown world.old) event.now result.0 (shown_of D.shown world.new) }
    ensures told { OnOk result.1 (out.new ≡ out.old ++ told_line (shown_of D.shown world.old) event.now result.0 (shown_of D.shown world.new) ++ 10 ∷ []) }
    ensures says { OnOk result.1 (SaysLine (told_line (shown_of D.shown world.old) event.now result.0 (shown_of D.shown world.new))
        (told_said (shown_of D.shown world.old) event.now result.0 (shown_of D.shown world.new)) (taken_by (shown_of D.shown world.old) (shown_of D.shown world.new))) }
    ensures kept { OnErr result.1 (out.new ≡ out.old) }
    ensures short { length out.new ≤ length out.old + TELL_ROOM }
    ensures fault { IfErr result.1 (λ fault. fault ≡ TellFault.Unsayable
        → ¬ (IsSayable event.now × IsSayableBehind (behind_of (shown_of D.shown world.new) event.now result.0))) }
{
    note_before(world, before, event);
    let outcome = world.step(event);
    let told = append_outcome(alloc, out, world, before, event, &outcome);
    (outcome, told)
}
