// A request is walked ahead.
ghost use Rattle.std.specs.Prelude.{◌≡◌, ◌<◌, length, IfSome};
ghost use Rattle.iom_board.specs.BoardParts.{board_parts, disks_at_hand};
ghost use Rattle.iom_board.specs.Invariant.{BoardInvariant};
ghost use Rattle.iom_pointed_board.specs.Starts.{KeepsFound, WalksAhead};

use crate::start::start_of;
use iom_board::Board;
use iom_pointers::{Features, Pointers};
use iom_stepped_requests::Request;
use iom_tlb::{Space, Translation};

/// The translation of the page is cached, where one was found.
fn keep_found(hardware: &mut Board, found: Option<Translation>, space: Space, page: u64)
    requires invariants { BoardInvariant (board_parts hardware.old) hardware.old.events }
    requires inside { IfSome found (λ translation. translation.frame < length hardware.old.memory) }
    ensures kept { KeepsFound found space page (board_parts hardware.old) (board_parts hardware.new) }
    ensures invariants { BoardInvariant (board_parts hardware.new) hardware.new.events }
    ensures disks { disks_at_hand hardware.new ≡ disks_at_hand hardware.old }
    ensures events { hardware.new.events ≡ hardware.old.events }
{
    if let Some(translation) = found {
        hardware.iommu.keep_translation(space, page, translation);
    }
}

/// Walks a request ahead, of a device that is to be served next: what is found from a pointer is cached, or from the root
/// where walks know leaves of 64 KiB; and where hardware caches pointers those are kept by which the walk passes. Nothing
/// else changes, and nothing at all where the request doesn't walk.
pub fn walk_ahead(
    hardware: &mut Board,
    features: Features,
    pointers: &mut Pointers,
    request: Request,
)
    requires invariants { BoardInvariant (board_parts hardware.old) hardware.old.events }
    ensures ahead { WalksAhead features (board_parts hardware.old) pointers.old request (board_parts hardware.new) pointers.new }
    ensures invariants { BoardInvariant (board_parts hardware.new) hardware.new.events }
    ensures disks { disks_at_hand hardware.new ≡ disks_at_hand hardware.old }
    ensures events { hardware.new.events ≡ hardware.old.events }
{
    if let Some(start) = start_of(hardware, features.napot, pointers, request) {
        keep_found(hardware, start.found, start.space, start.hand.page);
        if features.nonleaf {
            pointers.follow(&hardware.memory, start.space, start.hand);
        }
    }
}
