// Settling, as loops over events.
ghost use Rattle.std.specs.Prelude.{◌≡◌, ◌+◌, ◌<◌, ◌≤◌, ◌^◌, ℕ, List, [], nat_le, true, false};
ghost use Rattle.iom_command_queue.specs.declared.command.Command.{Command};
ghost use Rattle.iom_driver.specs.Fences.{last_fence};
ghost use Rattle.iom_base.specs.declared.refusal.Refusal.TheVariants.{NumbersUsedUp};
ghost use Rattle.iom_settling.specs.CatchingUp.{NothingIsInFlight, CatchesUp, HasCaughtUp};
ghost use Rattle.iom_settling.specs.Settles.{AreBehindCommits, AreInSettlingOrder};
ghost use Rattle.iom_settling.specs.Went.{Went};
ghost use Rattle.iom_settling.specs.Stages.{flights_by, AreCommitsOf, AreDeliveries, AwaitPoll, IsInProgress, IsAfter, FollowsFetch, FetchedOnce, Settled};
ghost use Rattle.iom_settling.specs.Weights.{weights};

use crate::reply::FetchReply;
use crate::takes_events::TakesEvents;
use iom_base::Refusal;
use iom_machine::Event;

/// Commits of each device in the order of plugging, while it has accesses in flight. How many.
fn commit_all<T: TakesEvents>(world: &mut T) -> u32
    requires count { T.counted world.old + 128 < 2 ^ 64 }
    ensures went { Went T.happens (AreCommitsOf (T.parts world.old)) world.old result world.new }
    ensures few { result ≤ 128 }
    ensures driver { (T.parts world.new).driver ≡ (T.parts world.old).driver }
    ensures idle { NothingIsInFlight (T.parts world.new) }
    ensures counted { T.counted world.new ≡ T.counted world.old + result }
{
    world.facts();
    let mut events = 0;
    while let Some(device) = world.first_busy() {
        world.facts();
        world.take(&Event::Commit { device });
        events += 1;
    }
    events
}

/// Deliveries of the oldest message, while there is one. How many.
fn deliver_all<T: TakesEvents>(world: &mut T) -> u32
    requires light { weights (T.parts world.old).fabric ≤ 128 }
    requires count { T.counted world.old + weights (T.parts world.old).fabric < 2 ^ 64 }
    ensures went { Went T.happens AreDeliveries world.old result world.new }
    ensures few { result ≤ weights (T.parts world.old).fabric }
    ensures quiet { (T.parts world.new).fabric ≡ [] }
    ensures idle { NothingIsInFlight (T.parts world.old) → NothingIsInFlight (T.parts world.new) }
    ensures driver { (T.parts world.new).driver ≡ (T.parts world.old).driver }
    ensures catches { (number : ℕ) (commands : List Command) → CatchesUp (T.parts world.old) number commands → CatchesUp (T.parts world.new) number commands }
    ensures counted { T.counted world.new ≡ T.counted world.old + result }
{
    let mut events = 0;
    while !world.is_quiet() {
        world.take(&Event::Deliver { place: 0 });
        events += 1;
    }
    events
}

/// Where the fence waits for devices, deliveries while there is a message. With these the events so far; None where
/// the queue was found empty.
fn after_fetch<T: TakesEvents>(world: &mut T, reply: FetchReply, so_far: u32) -> Option<u32>
    requires stage { IsAfter reply (T.parts world.old) so_far }
    requires count { T.counted world.old + 83 < 2 ^ 64 + so_far }
    ensures { FollowsFetch T.parts T.counted T.happens world.old so_far reply result world.new }
{
    match reply {
        FetchReply::Waits => Some(so_far + deliver_all(world)),
        FetchReply::Empty => None,
        FetchReply::Other => Some(so_far),
    }
}

/// One fetch, and what follows it.
fn fetch_once<T: TakesEvents>(world: &mut T, so_far: u32) -> Option<u32>
    requires stage { IsInProgress (T.parts world.old) so_far }
    requires count { T.counted world.old + 83 < 2 ^ 64 + so_far }
    ensures { FetchedOnce T.parts T.counted T.happens world.old so_far result world.new }
{
    let reply = world.take(&Event::Fetch);
    after_fetch(world, reply, so_far + 1)
}

/// Fetches until the queue is empty, with deliveries where the fence waits for devices. How many of both.
fn work_off<T: TakesEvents>(world: &mut T) -> u32
    requires stage { IsInProgress (T.parts world.old) 0 }
    requires count { T.counted world.old + 83 < 2 ^ 64 }
    ensures went { Went T.happens AwaitPoll world.old result world.new }
    ensures few { result ≤ 83 }
    ensures done { HasCaughtUp (T.parts world.new) (last_fence (T.parts world.new).driver) }
    ensures counted { T.counted world.new ≡ T.counted world.old + result }
{
    let mut events = 0;
    while let Some(so_far) = fetch_once(world, events) {
        events = so_far;
    }
    events + 1
}

/// Commits, and deliveries, until nothing is in flight and no message is under way. How many of both.
fn quiet_down<T: TakesEvents>(world: &mut T) -> u32
    requires count { T.counted world.old + 256 < 2 ^ 64 }
    ensures went { Went T.happens (AreInSettlingOrder false (flights_by (T.parts world.old))) world.old result world.new }
    ensures few { result ≤ 256 }
    ensures driver { (T.parts world.new).driver ≡ (T.parts world.old).driver }
    ensures idle { NothingIsInFlight (T.parts world.new) }
    ensures quiet { (T.parts world.new).fabric ≡ [] }
    ensures counted { T.counted world.new ≡ T.counted world.old + result }
{
    let commits = commit_all(world);
    world.facts();
    commits + deliver_all(world)
}

/// A restart, what it queued, and a poll, which leaves no ticket unconfirmed. How many events.
fn catch_up<T: TakesEvents>(world: &mut T) -> u32
    requires idle { NothingIsInFlight (T.parts world.old) }
    requires quiet { (T.parts world.old).fabric ≡ [] }
    requires left { nat_le 4294967295 (last_fence (T.parts world.old).driver) ≡ false }
    requires count { T.counted world.old + 86 < 2 ^ 64 }
    ensures went { Went T.happens (AreBehindCommits true) world.old result world.new }
    ensures few { result ≤ 85 }
    ensures idle { NothingIsInFlight (T.parts world.new) }
    ensures confirmed { (T.parts world.new).driver.confirmed ≡ (T.parts world.new).driver.given }
    ensures counted { T.counted world.new ≡ T.counted world.old + result }
{
    world.take(&Event::Restart);
    let events = work_off(world);
    world.take(&Event::Poll);
    events + 2
}

/// Commits of each device in the order of plugging, while it has accesses in flight; deliveries of the oldest
/// message, while there is one; and where a ticket is unconfirmed, a restart, fetches until the queue is empty with
/// deliveries where the fence waits, and a poll. Then no ticket is unconfirmed. The number of events, at most 341.
/// `NumbersUsedUp` where a restart would have no number for its fence; then the commits and the first deliveries
/// have happened.
pub fn settle<T: TakesEvents>(world: &mut T) -> Result<u32, Refusal>
    requires count { T.counted world.old + 400 < 2 ^ 64 }
    ensures settled { Settled T.parts T.happens world.old result world.new }
    ensures counted { T.counted world.new ≤ T.counted world.old + 341 }
{
    let events = quiet_down(world);
    if !world.has_pending() {
        return Ok(events);
    }
    if world.has_used_up() {
        return Err(Refusal::NumbersUsedUp);
    }
    Ok(events + catch_up(world))
}
