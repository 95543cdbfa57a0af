// The frames that walks of the directory read.
ghost use Rattle.std.specs.Prelude.{◌≡◌, ◌<◌, option_map};
ghost use Rattle.iom_base.specs.declared.ppn.Ppn.{Ppn};
ghost use Rattle.iom_device_dir.specs.Located.{loaded_entry};
ghost use Rattle.iom_device_dir.specs.Paths.{entry_place};
ghost use Rattle.iom_board.specs.BoardParts.{board_parts};
ghost use Rattle.iom_phys_mem.specs.Words.{word_at};
ghost use Rattle.iom_registers.specs.Queues.{directory_root};
ghost use Rattle.iom_table_survey.specs.Rows.{GrowsBy};
ghost use Rattle.iom_way_survey.specs.Directories.{next_page_of, IsOnPath, PathReads, RequestLocates, PathsRead, DirectoryReads};
ghost use Rattle.iom_way_survey.specs.Surveys.{rows_in};

use crate::contexts::device_at;
use crate::walking::serving_beside;
use iom_base::{DeviceId, ENTRY_SIZE, PAGE_SIZE, Ppn};
use iom_board::Board;
use iom_device_dir::{NonLeafEntry, fits_directory};
use iom_phys_mem::{Bytes, Memory};
use iom_registers::{DirectoryMode, Registers};
use iom_stepped_requests::{RequestWalk, Serving};
use iom_stepped_walk::{DirectoryWalk, Locating, MAX_DIRECTORY_LOADS};
use iom_table_survey::FrameRow;
use iom_walks::Walks;

/// The page that the entry at the index of a directory page names.
fn next_page(memory: &Memory, page: Ppn, index: u64) -> Option<Ppn>
    requires { index < 512 }
    ensures { option_map (λ (next : Ppn). next.number) result ≡ next_page_of (loaded_entry (word_at 8 memory.now (entry_place page.number index))) }
{
    let word = memory.load_u64(PAGE_SIZE * page.number() + ENTRY_SIZE * index)?;
    match NonLeafEntry::decode(word) {
        Ok(entry) => Some(entry.next),
        Err(_) => None,
    }
}

/// The path from a page of contexts.
fn survey_contexts_page(page: Ppn, read: &mut FrameRow)
    ensures { GrowsBy read.old read.new (λ f. f ≡ page.number) }
{
    read.insert(page.number());
}

/// The path from a page one level above.
fn survey_middle(memory: &Memory, page: Ppn, id: DeviceId, read: &mut FrameRow)
    ensures { GrowsBy read.old read.new (IsOnPath memory.now 1 page.number id) }
{
    read.insert(page.number());
    if let Some(next) = next_page(memory, page, u64::from(id) / (1 << 7) % (1 << 9)) {
        survey_contexts_page(next, read);
    }
}

/// The path from a page two levels above.
fn survey_top(memory: &Memory, page: Ppn, id: DeviceId, read: &mut FrameRow)
    ensures { GrowsBy read.old read.new (IsOnPath memory.now 2 page.number id) }
{
    read.insert(page.number());
    if let Some(next) = next_page(memory, page, u64::from(id) / (1 << 16) % (1 << 8)) {
        survey_middle(memory, next, id, read);
    }
}

/// The path of the id, by the levels that the mode gives the directory.
fn survey_path(memory: &Memory, mode: DirectoryMode, root: Ppn, id: DeviceId, read: &mut FrameRow)
    ensures { GrowsBy read.old read.new (PathReads memory.now mode root.number id) }
{
    if !fits_directory(mode, id) {
        return;
    }
    match mode {
        DirectoryMode::Off | DirectoryMode::Bare => {}
        DirectoryMode::OneLevel => survey_contexts_page(root, read),
        DirectoryMode::TwoLevels => survey_middle(memory, root, id, read),
        DirectoryMode::ThreeLevels => survey_top(memory, root, id, read),
    }
}

/// The pages of the directory that a walk still reads.
fn survey_rest(memory: &Memory, walk: DirectoryWalk, read: &mut FrameRow)
    ensures { GrowsBy read.old read.new (IsOnPath memory.now walk.level walk.page.number walk.id) }
{
    let mut progress = Locating::GoesOn(walk);
    for _made in 0..MAX_DIRECTORY_LOADS {
        match progress {
            Locating::GoesOn(stands) => {
                read.insert(stands.next_load().address / PAGE_SIZE);
                progress = stands.load(memory);
            }
            Locating::Ended(_) => return,
        }
    }
}

/// Those that a request still reads, where it is on its way there.
fn survey_locating(memory: &Memory, serving: Option<Serving>, read: &mut FrameRow)
    ensures { GrowsBy read.old read.new (RequestLocates memory.now serving) }
{
    if let Some(Serving::GoesOn(RequestWalk::InDirectory { walk, .. })) = serving {
        survey_rest(memory, walk, read);
    }
}

/// The path of the device from the root on, and that of its request that is under way.
fn survey_paths(
    memory: &Memory,
    mode: DirectoryMode,
    root: Ppn,
    walks: Option<&Walks>,
    id: DeviceId,
    read: &mut FrameRow,
)
    ensures { GrowsBy read.old read.new (PathsRead memory.now mode root.number (rows_in (option_map (λ w. w.now) walks.entry)) id) }
{
    survey_path(memory, mode, root, id, read);
    survey_locating(memory, serving_beside(walks, id), read);
}

/// The page that is the directory's root.
fn root_of(registers: &Registers) -> Ppn
    ensures { result.number ≡ directory_root registers.now }
{
    Ppn::new(registers.directory_root()).unwrap()
}

/// The paths of all devices that are plugged in.
pub(crate) fn survey_directory(hardware: &Board, walks: Option<&Walks>, read: &mut FrameRow)
    ensures { GrowsBy read.old read.new (DirectoryReads (board_parts hardware.now) (rows_in (option_map (λ w. w.now) walks.entry))) }
{
    let registers = hardware.iommu.registers();
    let root = root_of(registers);
    let mode = registers.directory_mode();
    for place in 0..hardware.devices.len() {
        let device = device_at(hardware, place);
        survey_paths(&hardware.memory, mode, root, walks, device.id, read);
    }
}
