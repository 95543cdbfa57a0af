// A walk through the device directory, all of whose loads are made from one memory.
ghost use Rattle.std.specs.Prelude.{◌≢◌, length};
ghost use Rattle.iom_registers.specs.declared.directory.DirectoryMode.TheVariants.{Bare};
ghost use Rattle.iom_stepped_walk.specs.Directories.{directory_rest};
ghost use Rattle.iom_walk_loads.specs.Directory.{locating};
ghost use Rattle.iom_walk_loads.specs.Loads.{EndsWithin};
ghost use Rattle.iom_walk_stops.specs.Stops.{EndOfDirectory};

use iom_base::{Cause, DeviceId};
use iom_device_dir::Context;
use iom_phys_mem::Bytes;
use iom_registers::DirectoryPointer;
use iom_stepped_walk::{DirectoryWalk, EntryLoad, Locating, MAX_DIRECTORY_LOADS};

/// Where a walk through the directory ends.
#[derive(Clone, Copy, PartialEq, Eq)]
pub enum DirectoryEnd {
    /// It finds a context.
    Finds(Context),
    /// It stops before its first load: the mode is Off, or the id is too wide for the directory.
    StopsUnread(Cause),
    /// It stops with its last load, of this entry or context.
    StopsAt { load: EntryLoad, cause: Cause },
}

/// Where a walk that stands somewhere ends.
fn end_from<B: Bytes>(begun: DirectoryWalk, memory: &B) -> DirectoryEnd
    requires { EndsWithin 3 (directory_rest begun) }
    ensures { EndOfDirectory (B.frames_of memory.now) (directory_rest begun) result }
{
    let mut walk = begun;
    for _made in 0..MAX_DIRECTORY_LOADS {
        match walk.load(memory) {
            Locating::GoesOn(next) => walk = next,
            Locating::Ended(Ok(context)) => return DirectoryEnd::Finds(context),
            Locating::Ended(Err(cause)) => {
                let load = walk.next_load();
                return DirectoryEnd::StopsAt { load, cause };
            }
        }
    }
    unreachable!()
}

/// Where the walk to the context of a device ends, by `ddtp`, whose mode isn't Bare: then there is no directory.
pub fn end_of_directory<B: Bytes>(memory: &B, ddtp: DirectoryPointer, id: DeviceId) -> DirectoryEnd
    requires { ddtp.mode ≢ Bare }
    ensures { EndOfDirectory (B.frames_of memory.now) (locating ddtp id) result }
{
    match DirectoryWalk::begin(ddtp, id) {
        Locating::GoesOn(walk) => end_from(walk, memory),
        Locating::Ended(Ok(context)) => DirectoryEnd::Finds(context),
        Locating::Ended(Err(cause)) => DirectoryEnd::StopsUnread(cause),
    }
}
