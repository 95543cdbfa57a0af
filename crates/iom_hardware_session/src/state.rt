ghost use Rattle.std.specs.Prelude.{◌≤◌, vec_capacity};
ghost use Rattle.iom_base.specs.Sizes.{device_limit};
ghost use Rattle.iom_board.specs.BoardParts.{board_parts};
ghost use Rattle.iom_board.specs.Invariant.{BoardInvariant};
ghost use Rattle.iom_board.specs.InvariantIsFact.{board_invariant_prop};
ghost use Rattle.iom_hardware.specs.Agreement.{AgreesWith};
ghost use Rattle.iom_hardware.specs.AgreementIsFact.{agrees_prop};
ghost use Rattle.iom_hardware.specs.Inside.{inside};
ghost use Rattle.iom_hardware_session.specs.Beside.{WalksAreSound};
ghost use Rattle.iom_hardware_session.specs.BesideIsFact.{walks_are_sound_prop};
ghost use Rattle.iom_virtio_blk.specs.MemoryDisks.{disk_state};

use crate::beside::Beside;
use crate::watched::Watched;
use iom_base::DeviceId;
use iom_claims::Claims;
use iom_hardware::Hardware;
use iom_virtio_blk::MemoryDisk;
use iom_way_survey::Survey;
use std::alloc::Global;

/// Hardware under somebody's driver, and what the driver claims.
#[derive(Drop)]
pub struct Session {
    /// The board, and the block devices themselves.
    pub(crate) hardware: Hardware<MemoryDisk>,
    pub(crate) beside: Beside,
    pub(crate) claims: Claims,
    /// The devices that software trusts with all memory.
    pub(crate) trusted: Vec<DeviceId>,
    /// The claims that were good, each about something else, with what is found of them since the last line.
    pub(crate) watched: Vec<Watched>,
    pub(crate) alloc: Global,
    /// Where the ways are looked for.
    pub(crate) survey: Survey,
    ghost invariants: { BoardInvariant (board_parts hardware.board) hardware.board.events } by { board_invariant_prop (board_parts hardware.board) hardware.board.events },
    ghost agrees: { AgreesWith hardware.board.devices.items hardware.board.disks.items hardware.blocks.items hardware.at_hand.items } by { agrees_prop hardware.board.devices.items hardware.board.disks.items hardware.blocks.items hardware.at_hand.items },
    ghost sound: { WalksAreSound (board_parts hardware.board) (inside disk_state hardware).blocks beside } by { walks_are_sound_prop (board_parts hardware.board) (inside disk_state hardware).blocks beside },
    ghost room: { device_limit ≤ vec_capacity hardware.blocks },
}
