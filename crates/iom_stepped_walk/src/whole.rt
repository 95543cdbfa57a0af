// All loads of a walk, made of one memory.
ghost use Rattle.std.specs.Prelude.{◌≡◌, ◌≢◌, ◌↔◌, Ok, Err, length};
ghost use Rattle.iom_base.specs.Sizes.{levels_of};
ghost use Rattle.iom_stage_walk.specs.Paths.{ReachesFirst, StopsFirst};
ghost use Rattle.iom_stage_walk.specs.Second.{ReachesSecond, StopsSecond};
ghost use Rattle.iom_stage_walk.specs.Both.{ReachesBoth, StopsBoth};
ghost use Rattle.iom_stage_walk.specs.declared.walked.Walked.{Walked};
ghost use Rattle.iom_stage_walk.specs.declared.walked.WalkFault.{WalkFault};
ghost use Rattle.iom_device_dir.specs.Located.{located_context};
ghost use Rattle.iom_registers.specs.declared.directory.DirectoryMode.TheVariants.{Bare};
ghost use Rattle.iom_walk_loads.specs.Loads.{made_from, EndsWithin};
ghost use Rattle.iom_stepped_walk.specs.Directories.{still_locating};
ghost use Rattle.iom_stepped_walk.specs.Positions.{remains};

use crate::directory::{DirectoryWalk, Locating};
use crate::tables::{Progress, TableWalk};
use iom_base::{AccessKind, Cause, DeviceId, Ppn, Size};
use iom_device_dir::Context;
use iom_phys_mem::Bytes;
use iom_registers::DirectoryPointer;
use iom_stage_walk::{WalkFault, Walked};

/// The most loads of tables that a walk makes: in both stages, of four levels each, five for each of four entries of the
/// guest's tables, and four for the page.
pub const MAX_TABLE_LOADS: usize = 24;

/// The most loads of the directory that a walk makes: one a level.
pub const MAX_DIRECTORY_LOADS: usize = 3;

/// Makes all loads that remain of a walk of tables, from one memory.
pub fn finish<B: Bytes>(begun: Progress, memory: &B) -> Result<Walked, WalkFault>
    requires { EndsWithin 24 (remains (length (B.frames_of memory.now)) begun) }
    ensures { result ≡ made_from (B.frames_of memory.now) (remains (length (B.frames_of memory.now)) begun) }
{
    let mut progress = begun;
    for _made in 0..MAX_TABLE_LOADS {
        match progress {
            Progress::GoesOn(walk) => progress = walk.load(memory),
            Progress::Ended(answer) => return answer,
        }
    }
    match progress {
        Progress::GoesOn(_) => unreachable!(),
        Progress::Ended(answer) => answer,
    }
}

/// Makes all loads that remain of a walk through the directory, from one memory.
pub fn finish_locating<B: Bytes>(begun: Locating, memory: &B) -> Result<Context, Cause>
    requires { EndsWithin 3 (still_locating begun) }
    ensures { result ≡ made_from (B.frames_of memory.now) (still_locating begun) }
{
    let mut progress = begun;
    for _made in 0..MAX_DIRECTORY_LOADS {
        match progress {
            Locating::GoesOn(walk) => progress = walk.load(memory),
            Locating::Ended(answer) => return answer,
        }
    }
    match progress {
        Locating::GoesOn(_) => unreachable!(),
        Locating::Ended(answer) => answer,
    }
}

/// [`iom_stage_walk::walk_first`], load by load.
pub fn walk_first_by_loads<B: Bytes>(
    memory: &B,
    size: Size,
    root: Ppn,
    address: u64,
    kind: AccessKind,
) -> Result<Walked, WalkFault>
    ensures reached { (walked : Walked) → (result ≡ Ok walked)
        ↔ ReachesFirst (levels_of size) (B.frames_of memory.now) root.number address kind walked }
    ensures stopped { (fault : WalkFault) → (result ≡ Err fault)
        ↔ StopsFirst (levels_of size) (B.frames_of memory.now) root.number address kind fault }
{
    finish(TableWalk::begin_first(size, root, address, kind), memory)
}

/// [`iom_stage_walk::walk_second`], load by load.
pub fn walk_second_by_loads<B: Bytes>(
    memory: &B,
    size: Size,
    root: Ppn,
    address: u64,
    kind: AccessKind,
) -> Result<Walked, WalkFault>
    ensures reached { (walked : Walked) → (result ≡ Ok walked)
        ↔ ReachesSecond (levels_of size) (B.frames_of memory.now) root.number address kind walked }
    ensures stopped { (fault : WalkFault) → (result ≡ Err fault)
        ↔ StopsSecond (levels_of size) (B.frames_of memory.now) root.number address kind fault }
{
    finish(TableWalk::begin_second(size, root, address, kind), memory)
}

/// [`iom_stage_walk::walk_both`], load by load.
pub fn walk_both_by_loads<B: Bytes>(
    memory: &B,
    first_size: Size,
    first: Ppn,
    second_size: Size,
    second: Ppn,
    address: u64,
    kind: AccessKind,
) -> Result<Walked, WalkFault>
    ensures reached { (walked : Walked) → (result ≡ Ok walked)
        ↔ ReachesBoth (levels_of first_size) (levels_of second_size) (B.frames_of memory.now) first.number second.number address kind walked }
    ensures stopped { (fault : WalkFault) → (result ≡ Err fault)
        ↔ StopsBoth (levels_of first_size) (levels_of second_size) (B.frames_of memory.now) first.number second.number address kind fault }
{
    finish(
        TableWalk::begin_both(first_size, first, second_size, second, address, kind),
        memory,
    )
}

/// [`iom_device_dir::locate`], load by load.
pub fn locate_by_loads<B: Bytes>(
    memory: &B,
    ddtp: DirectoryPointer,
    id: DeviceId,
) -> Result<Context, Cause>
    requires { ddtp.mode ≢ Bare }
    ensures { result ≡ located_context (B.frames_of memory.now) ddtp id }
{
    finish_locating(DirectoryWalk::begin(ddtp, id), memory)
}
