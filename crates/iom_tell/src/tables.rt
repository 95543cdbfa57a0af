// The frames that were taken for tables: those that weren't reserved when that was noted, and are now.
ghost use Rattle.std.specs.Prelude.{◌≡◌, ◌+◌, ◌*◌, ◌<◌, ◌≤◌, ◌++◌, codes, length};
ghost use Rattle.std.specs.Fmt.{decimal};
ghost use Rattle.iom_trace_lines.specs.TraceLines.{frames_text};
ghost use Rattle.iom_world.specs.Shown.{shown_of};
ghost use Rattle.iom_tell.specs.Told.{is_taken_since, taken_below, shown_tables};

use crate::reserved::ReservedFrames;
use iom_phys_mem::MAX_FRAMES;
use iom_script::{BUFFER_SIZE, LineBuffer};
use iom_virtio_blk::Disk;
use iom_world::World;

/// Whether the frame was taken since that was noted.
fn is_taken<D: Disk>(world: &World<D>, before: &ReservedFrames, frame: u32) -> bool
    requires { frame < 4096 }
    ensures { result ≡ is_taken_since before.now (shown_of D.shown world.now) frame }
{
    world.is_reserved(frame) && !before.was_reserved(frame)
}

/// How many frames were taken.
fn count_taken<D: Disk>(world: &World<D>, before: &ReservedFrames) -> u32
    ensures { result ≡ length (taken_below (is_taken_since before.now (shown_of D.shown world.now)) 4096) }
{
    let mut count = 0;
    for frame in 0..MAX_FRAMES {
        if is_taken(world, before, frame) {
            count += 1;
        }
    }
    count
}

/// Appends a space and the frame.
fn append_frame(out: &mut LineBuffer, frame: u64)
    requires frame { frame < 4096 }
    requires room { length out.old + 21 ≤ BUFFER_SIZE }
    ensures text { out.new ≡ out.old ++ (codes " " ++ decimal frame) }
    ensures short { length out.new ≤ length out.old + 5 }
{
    out.append(b" ");
    out.append_decimal(frame);
}

/// Appends each frame that was taken, with a space before it.
fn append_frames<D: Disk>(out: &mut LineBuffer, world: &World<D>, before: &ReservedFrames)
    requires room { length out.old + 20501 ≤ BUFFER_SIZE }
    ensures text { out.new ≡ out.old ++ frames_text (taken_below (is_taken_since before.now (shown_of D.shown world.now)) 4096) }
    ensures short { length out.new ≤ length out.old + 20480 }
{
    for frame in 0..MAX_FRAMES {
        if is_taken(world, before, frame) {
            append_frame(out, u64::from(frame));
        }
    }
}

/// Appends the frames that were taken, if there are any.
pub(crate) fn append_tables<D: Disk>(
    out: &mut LineBuffer,
    world: &World<D>,
    before: &ReservedFrames,
)
    requires room { length out.old + 20600 ≤ BUFFER_SIZE }
    ensures text { out.new ≡ out.old ++ shown_tables (taken_below (is_taken_since before.now (shown_of D.shown world.now)) 4096) }
    ensures short { length out.new ≤ length out.old + 20488 }
{
    if count_taken(world, before) > 0 {
        out.append(b"; tables");
        append_frames(out, world, before);
    }
}
