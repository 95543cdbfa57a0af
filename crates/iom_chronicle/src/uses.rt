// How the hardware uses a frame.
use crate::chronicle::Chronicle;
use crate::directory::path_reads;
use crate::found::{Contexts, context_at, has_directory, mode_of, tables_of};
use crate::pointers::tables_at;
use crate::queues::{has_waiting, has_word, is_of_commands, is_of_faults};
use crate::reply::{ContextPlace, ReadAs, Use};
use iom_base::DeviceId;
use iom_board::Board;
use iom_tlb::Space;

/// Whether walks by the device's context in that place read the frame as a table. Which leaves they know changes nothing in that.
fn walks_read(hardware: &Board, device: DeviceId, place: ContextPlace, frame: u32) -> bool {
    let Some(context) = context_at(hardware, device, place) else {
        return false;
    };
    match tables_of(&context, false) {
        Some(tables) => tables.read(&hardware.memory, frame),
        None => false,
    }
}

/// Whether the frame is the root of the directory.
fn is_root(hardware: &Board, frame: u32) -> bool {
    has_directory(mode_of(hardware))
        && hardware.iommu.registers().directory_root() == u64::from(frame)
}

/// Whether the walk to the context of a device that is plugged in reads the frame.
fn is_of_directory(hardware: &Board, frame: u32) -> bool {
    for device in hardware.devices.iter() {
        if path_reads(hardware, device.id, frame) {
            return true;
        }
    }
    false
}

/// The first device of which a context has the address space.
fn first_in(hardware: &Board, space: Space) -> Option<DeviceId> {
    for device in hardware.devices.iter() {
        if Contexts::of(hardware, device.id).are_in(space) {
            return Some(device.id);
        }
    }
    None
}

impl Chronicle {
    /// How the hardware uses the frame, the first that applies: a queue that is on, or the word of a fence that waits; the
    /// directory, its root or a page on the path of a plugged device; a table that walks of a plugged device read.
    pub fn use_of(&self, hardware: &Board, frame: u32) -> Option<Use> {
        let registers = hardware.iommu.registers();
        if is_of_commands(registers, frame) {
            return Some(Use::CommandQueue);
        }
        if is_of_faults(registers, frame) || has_word(hardware, frame) {
            return Some(Use::FaultQueue);
        }
        if is_root(hardware, frame) {
            return Some(Use::DirectoryRoot);
        }
        if is_of_directory(hardware, frame) {
            return Some(Use::DirectoryPage);
        }
        self.table_use(hardware, frame)
    }

    /// As what the hardware reads the frame and relies on what it finds: the first that applies of a table, the directory, and
    /// commands that wait.
    pub fn read_as(&self, hardware: &Board, frame: u32) -> Option<ReadAs> {
        match self.table_use(hardware, frame) {
            Some(
                Use::Table { walker, .. }
                | Use::PointedTable {
                    walker: Some(walker),
                    ..
                },
            ) => return Some(ReadAs::Table { walker }),
            _ => {}
        }
        if is_of_directory(hardware, frame) {
            return Some(ReadAs::Directory);
        }
        if has_waiting(hardware.iommu.registers(), frame) {
            return Some(ReadAs::CommandQueue);
        }
        None
    }

    /// Whose walks read the frame as a table: the first device's in the order of plugging, by its stored context, else by the
    /// cached one.
    fn table_use(&self, hardware: &Board, frame: u32) -> Option<Use> {
        for device in hardware.devices.iter() {
            let walker = device.id;
            if walks_read(hardware, walker, ContextPlace::Stored, frame) {
                return Some(Use::Table {
                    walker,
                    cached_since: None,
                });
            }
            if walks_read(hardware, walker, ContextPlace::Cached, frame) {
                let since = match self.contexts.since(walker) {
                    Some(line) => line,
                    None => self.line,
                };
                return Some(Use::Table {
                    walker,
                    cached_since: Some(since),
                });
            }
        }
        self.pointed_use(hardware, frame)
    }

    /// The same by a cached pointer.
    fn pointed_use(&self, hardware: &Board, frame: u32) -> Option<Use> {
        for own in self.pointers.kept.iter() {
            if tables_at(&own.what, false).read(&hardware.memory, frame) {
                return Some(Use::PointedTable {
                    walker: first_in(hardware, own.what.space),
                    since: own.line,
                });
            }
        }
        None
    }
}
