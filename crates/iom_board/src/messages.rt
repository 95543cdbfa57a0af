// What is sent between the IOMMU and the devices with caches of their own (PCI Express Base Specification, chapter
// 10, "Address Translation Services"), and what becomes of it on the way.
ghost use Rattle.std.specs.Prelude.{◌≡◌, ◌+◌, ◌<◌, ◌^◌};
ghost use Rattle.iom_board.specs.Counted.{IsCounted};
ghost use Rattle.iom_board.specs.BoardParts.{board_parts};
ghost use Rattle.iom_board.specs.Messages.{named_range, with_opened, AsksTranslation, ClaimsCompletion, LosesMessage, CopiesMessage};
ghost use Rattle.iom_board.specs.Invariant.{BoardInvariant};

use crate::board::Board;
use crate::permits::Act;
use iom_base::{DeviceId, Refusal};
use iom_command_queue::{AtsRange, Command};
use iom_fabric::{Fabric, Message, PageNumber, Range, Repeat};
use iom_iommu::Fetched;

/// What a command asks a device to drop, as the request to it says.
fn range_of(range: AtsRange) -> Range
    ensures { result ≡ named_range range }
{
    match range {
        AtsRange::Page(page) => Range::Page(PageNumber::new(page.number()).unwrap()),
        AtsRange::Everything => Range::Everything,
    }
}

/// The request to invalidate that a fetch opened, if it did, is sent to its device: its number is that of the last
/// request. Where 64 messages are under way it is lost, and stays open.
pub(crate) fn send_opened(fabric: &mut Fabric, answer: &Fetched, serial: u64)
    ensures { fabric.new ≡ with_opened answer.now serial fabric.old }
{
    let Fetched::Did(Command::AtsInval { device, range }) = *answer else {
        return;
    };
    let range = range_of(range);
    fabric.send(device.number(), Message::InvReq { serial, range });
}

impl Board {
    /// A device asks for the translation of a page, in the epoch of its cache (Translation Request, section 10.2). False
    /// where 64 messages are under way: then it is lost. `NoSuchDevice` where no device has the id, `WrongKind` for a block
    /// device; nothing changes then.
    pub fn ask(&mut self, id: DeviceId, page: PageNumber) -> Result<bool, Refusal>
        requires invariants { BoardInvariant (board_parts self.old) self.old.events }
        requires count { self.old.events + 1 < 2 ^ 64 }
        ensures effect { AsksTranslation (board_parts self.old) id page result (board_parts self.new) }
        ensures invariants { BoardInvariant (board_parts self.new) self.new.events }
        ensures counted { IsCounted self.old self.new }
    {
        self.events += 1;
        if let Some(why) = self.refusal(Act::Ask, id) {
            return Err(why);
        }
        // What it ensures is known from here on: the page is one of the address space.
        page.number();
        let epoch = self.epoch_of(id);
        Ok(self.fabric.send(id, Message::Ask { epoch, page }))
    }

    /// A raw device says that it completed the request with this number, whether it was asked or not (Invalidate Completion,
    /// section 10.3.2): answered as a question is, and `WrongKind` where it isn't a raw device.
    pub fn forge(&mut self, id: DeviceId, serial: u64) -> Result<bool, Refusal>
        requires invariants { BoardInvariant (board_parts self.old) self.old.events }
        requires count { self.old.events + 1 < 2 ^ 64 }
        ensures effect { ClaimsCompletion (board_parts self.old) id serial result (board_parts self.new) }
        ensures invariants { BoardInvariant (board_parts self.new) self.new.events }
        ensures counted { IsCounted self.old self.new }
    {
        self.events += 1;
        if let Some(why) = self.refusal(Act::Forge, id) {
            return Err(why);
        }
        Ok(self.fabric.send(id, Message::InvDone { serial }))
    }

    /// The message at the place, counted from 0, is lost. False exactly where there is none, and then nothing changes.
    pub fn drop_message(&mut self, place: u64) -> bool
        requires invariants { BoardInvariant (board_parts self.old) self.old.events }
        requires count { self.old.events + 1 < 2 ^ 64 }
        ensures effect { LosesMessage (board_parts self.old) place result (board_parts self.new) }
        ensures invariants { BoardInvariant (board_parts self.new) self.new.events }
        ensures counted { IsCounted self.old self.new }
    {
        self.events += 1;
        self.fabric.drop(place as usize)
    }

    /// A copy of the message at the place is sent: it goes last, and is lost where 64 are under way. Nothing changes where
    /// it is lost, or there is none.
    pub fn repeat(&mut self, place: u64) -> Repeat
        requires invariants { BoardInvariant (board_parts self.old) self.old.events }
        requires count { self.old.events + 1 < 2 ^ 64 }
        ensures effect { CopiesMessage (board_parts self.old) place result (board_parts self.new) }
        ensures invariants { BoardInvariant (board_parts self.new) self.new.events }
        ensures counted { IsCounted self.old self.new }
    {
        self.events += 1;
        self.fabric.repeat(place as usize)
    }
}
