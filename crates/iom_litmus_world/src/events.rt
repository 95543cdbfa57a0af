// An event happens in a world, and the reply to it.
ghost use Rattle.std.specs.Prelude.{◌≡◌, ◌+◌, ◌<◌, ◌^◌, false, IfOk};
ghost use Rattle.iom_litmus_world.specs.Lines.{is_of_block, made_by, Says, TakesEvent};
ghost use Rattle.iom_script.specs.Reading.{Reads};

use iom_answers::Answer;
use iom_base::Sequence;
use iom_inflight::MadeAt;
use iom_litmus::Reply;
use iom_litmus_looks::{front_of, touches_of};
use iom_machine::Event;
use iom_script::{LineBuffer, event_of};
use iom_virtio_blk::Disk;
use iom_world::World;
use std::alloc::{AllocError, Global};

/// Whether the event is one of a block device: that one is plugged in, too.
pub(crate) fn is_of_block(event: &Event) -> bool
    ensures { result ≡ is_of_block event.now }
{
    match event {
        Event::Plug { new, .. } => new.kind().is_block_device(),
        Event::Medium { .. } | Event::Queue { .. } | Event::Step { .. } | Event::Status { .. } => {
            true
        }
        _ => false,
    }
}

/// The event that a line of a test says. None where it says none, or one of a block device.
pub fn event_for_tests(alloc: Global, line: &[u8]) -> Result<Option<Event>, AllocError>
    ensures { IfOk result (λ event. Reads event (Says line.now)) }
{
    match event_of(alloc, line)? {
        Some(event) if !is_of_block(&event) => Ok(Some(event)),
        _ => Ok(None),
    }
}

/// The access that the event makes.
fn made_by<D: Disk>(world: &World<D>, event: &Event) -> Option<MadeAt>
    ensures { result ≡ made_by event.now world.now }
{
    match event {
        Event::Commit { device } => world.oldest(*device),
        _ => None,
    }
}

/// Writes the line of the answer, without its line feed, in place of what stood there.
fn put(buffer: &mut LineBuffer, answer: Answer<'_>) {
    buffer.clear();
    buffer.append_answer(answer);
    buffer.take_line_feed();
}

/// The event happens. Its reply, whose text is written by way of the buffer.
pub(crate) fn take<D: Disk>(
    alloc: Global,
    world: &mut World<D>,
    event: &Event,
    buffer: &mut LineBuffer,
) -> Result<Reply, AllocError>
    requires event { is_of_block event.now ≡ false }
    requires count { world.old.hardware.board.events + 1 < 2 ^ 64 }
    ensures { IfOk result (λ reply. TakesEvent event.now world.old reply world.new) }
{
    let touches = touches_of(alloc, made_by(world, event))?;
    put(buffer, world.take(event));
    let text = Vec::from_slice(alloc, front_of(buffer.as_slice()))?;
    Ok(Reply {
        text: Sequence::from_vec(text),
        touches,
        wrong: false,
        violated: false,
    })
}
