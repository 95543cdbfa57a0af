// A survey is made.
ghost use Rattle.std.specs.Prelude.{◌≡◌, ◌≤◌, length, option_map, IfOk, IfSome};
ghost use Rattle.iom_board.specs.BoardParts.{board_parts};
ghost use Rattle.iom_board.specs.Invariant.{BoardInvariant};
ghost use Rattle.iom_stepped_board.specs.Beside.{AreBeside};
ghost use Rattle.iom_walks.specs.Invariant.{AreWalks};
ghost use Rattle.iom_way_survey.specs.Surveys.{rows_in, scene_beside, is_id_among, IsOfNothing, Surveys, InventsNone};

use crate::directory::survey_directory;
use crate::findings::Survey;
use crate::queues::{survey_faults, survey_queue};
use crate::survey::survey_devices;
use iom_base::{DeviceId, MAX_DEVICES};
use iom_board::Board;
use iom_table_survey::FrameRow;
use iom_walks::Walks;
use std::alloc::{AllocError, Global};

/// What holds of the requests that are under way, whatever calls were made. It does nothing: a proof knows of a value what a
/// call told of it, so this is a call.
fn facts_beside(walks: Option<&Walks>)
    ensures { AreWalks (rows_in (option_map (λ w. w.now) walks.entry)) }
{
    if let Some(own) = walks {
        own.facts();
    }
}

impl Survey {
    /// A survey of nothing. It takes all the memory that it ever takes.
    pub fn new(alloc: Global) -> Result<Survey, AllocError>
        ensures { IfOk result IsOfNothing }
    {
        Ok(Survey {
            devices: Vec::with_capacity(alloc, MAX_DEVICES)?,
            read: FrameRow::new(),
            stored: FrameRow::new(),
        })
    }

    /// Looks at the hardware, and at the requests that are under way beside it, where its walks make one load an event: None where
    /// its walks are whole. Software entrusts these devices with all memory. What was found before is forgotten. The hardware has at
    /// most 4,096 frames, and keeps its invariant, as each of its calls leaves it; where requests may be under way each of its
    /// devices has a row for its own. Nothing of them changes, and no memory is taken.
    pub fn look(&mut self, hardware: &Board, walks: Option<&Walks>, trusted: &[DeviceId])
        requires size { length hardware.now.memory ≤ 4096 }
        requires invariants { BoardInvariant (board_parts hardware.now) hardware.now.events }
        requires beside { IfSome walks (λ w. AreBeside (board_parts hardware.now) w.now) }
        ensures missed { Surveys self.new (scene_beside (is_id_among trusted.now) (board_parts hardware.now) (option_map (λ w. w.now) walks.entry)) }
        ensures invented { InventsNone self.new (scene_beside (is_id_among trusted.now) (board_parts hardware.now) (option_map (λ w. w.now) walks.entry)) }
    {
        hardware.facts();
        facts_beside(walks);
        self.devices.clear();
        self.read.clear();
        self.stored.clear();
        survey_devices(hardware, walks, trusted, &mut self.devices, &mut self.read);
        survey_directory(hardware, walks, &mut self.read);
        let registers = hardware.iommu.registers();
        survey_queue(
            &hardware.memory,
            registers,
            &mut self.read,
            &mut self.stored,
        );
        survey_faults(registers, &mut self.stored);
    }
}
