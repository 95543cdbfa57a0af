// A message arrives, and a block device hears of an answer that has no translation, where that counts (PCI Express Base
// Specification, sections 10.2 and 10.3).
ghost use Rattle.std.specs.Prelude.{◌≡◌, ◌+◌, ◌<◌, ◌^◌, slice_get};
ghost use Rattle.iom_board.specs.BoardParts.{board_parts};
ghost use Rattle.iom_board.specs.Counted.{IsCounted};
ghost use Rattle.iom_board.specs.Deliveries.{DeliversAtPlace};
ghost use Rattle.iom_hardware.specs.Blocks.{DeliversInside, counts, is_refused, refused_page};
ghost use Rattle.iom_hardware.specs.Inside.{inside};
ghost use Rattle.iom_hardware.specs.Invariant.{HardwareInvariant};

use crate::hardware::Hardware;
use iom_ats_cache::Taken;
use iom_block_devices::hear_refusal;
use iom_board::Delivered;
use iom_fabric::{Message, Translation};
use iom_virtio_blk::Disk;

/// Whether a question is answered with no translation.
fn is_refused(translation: Translation) -> bool
    ensures { result ≡ is_refused translation }
{
    matches!(translation, Translation::Refused(_))
}

/// The page of an answer that has no translation.
fn refused_page(message: Message) -> Option<u64>
    ensures { result ≡ refused_page message }
{
    match message {
        Message::Answer {
            page,
            translation,
            ..
        } if is_refused(translation) => Some(page.number()),
        _ => None,
    }
}

/// Whether the message was an answer without a translation, which counts.
fn counts(delivered: Delivered) -> bool
    ensures { result ≡ counts delivered }
{
    matches!(delivered, Delivered::Taken(Taken::Refused))
}

impl<D: Disk> Hardware<D> {
    /// The message at the place, counted from 0, arrives, as [`Board::deliver`](iom_board::Board::deliver) says; a block
    /// device whose access still wants a page for which there is no translation needs a reset from then on.
    pub fn deliver(&mut self, place: u64) -> Delivered
        requires invariants { HardwareInvariant self.old }
        requires count { self.old.board.events + 1 < 2 ^ 64 }
        ensures effect { DeliversAtPlace (board_parts self.old.board) place result (board_parts self.new.board) }
        ensures inside { DeliversInside (slice_get self.old.board.fabric place) result (inside D.shown self.old) (inside D.shown self.new) }
        ensures invariants { HardwareInvariant self.new }
        ensures counted { IsCounted self.old.board self.new.board }
    {
        let message = self.board.fabric.get(place as usize);
        let delivered = self.board.deliver(place);
        if !counts(delivered) {
            return delivered;
        }
        let Some(on) = message else {
            return delivered;
        };
        if let Some(page) = refused_page(on.message) {
            hear_refusal(&mut self.blocks, on.device, page);
        }
        delivered
    }
}
