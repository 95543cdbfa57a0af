// What a device asks of memory where a walk makes one load an event (IOMMU specification, section 2.3).
ghost use Rattle.std.specs.Prelude.{◌≡◌, ◌+◌, ◌<◌, ◌^◌};
ghost use Rattle.iom_board.specs.BoardParts.{board_parts};
ghost use Rattle.iom_board.specs.Counted.{IsCounted};
ghost use Rattle.iom_board.specs.Invariant.{BoardInvariant};
ghost use Rattle.iom_board.specs.Senders.{untranslated_by};
ghost use Rattle.iom_iommu.specs.Requests.{access_of};
ghost use Rattle.iom_inflight.specs.Invariant.{CarriesBytes};
ghost use Rattle.iom_stepped_board.specs.Beside.{AreBeside};
ghost use Rattle.iom_stepped_board.specs.Requests.{BeginsAccessBeside, MakesLoad, RequestsTranslatedBeside};

use crate::permits::{why_not_asking, why_not_forging, why_not_there};
use iom_base::{AccessKind, DeviceId, Refusal};
use iom_board::{Board, Sender};
use iom_iommu::{Begun, Load, Reply};
use iom_walks::Walks;

/// A device asks for an access to so many bytes at an address that the IOMMU translates. The first that applies: `BadSpan`;
/// `Busy`, where a request of it that is under way counts as one of the eight; `Occupied` where one is, and then nothing of this
/// one is kept; the reply, where no load is needed; else `Walking`: it is under way. `NoSuchDevice` where no device has the id,
/// `WrongKind` where its kind asks for none so; nothing changes then.
pub fn begin(
    board: &mut Board,
    walks: &mut Walks,
    sender: Sender,
    id: DeviceId,
    address: u64,
    len: u64,
    kind: AccessKind,
    bytes: &[u8],
) -> Result<Begun, Refusal>
    requires invariants { BoardInvariant (board_parts board.old) board.old.events }
    requires beside { AreBeside (board_parts board.old) walks.old }
    requires count { board.old.events + 1 < 2 ^ 64 }
    requires carries { CarriesBytes kind len bytes.now }
    ensures effect { BeginsAccessBeside (untranslated_by sender) (board_parts board.old) walks.old id
        (access_of address len kind bytes.now) result (board_parts board.new) walks.new }
    ensures invariants { BoardInvariant (board_parts board.new) board.new.events }
    ensures beside { AreBeside (board_parts board.new) walks.new }
    ensures counted { IsCounted board.old board.new }
{
    board.events += 1;
    if let Some(why) = why_not_asking(board.kind_of(id), sender) {
        return Err(why);
    }
    Ok(
        board
            .iommu
            .begin(&mut board.memory, walks, id, address, len, kind, bytes),
    )
}

/// The next load of the device's request is made, if one is under way, and else nothing. What it finds is cached. Where it ends
/// the request, that is answered: it isn't tested for `Busy` again, since its place was its own. `NoSuchDevice` where no device
/// has the id; nothing changes then.
pub fn load(board: &mut Board, walks: &mut Walks, id: DeviceId) -> Result<Load, Refusal>
    requires invariants { BoardInvariant (board_parts board.old) board.old.events }
    requires beside { AreBeside (board_parts board.old) walks.old }
    requires count { board.old.events + 1 < 2 ^ 64 }
    ensures effect { MakesLoad (board_parts board.old) walks.old id result (board_parts board.new) walks.new }
    ensures invariants { BoardInvariant (board_parts board.new) board.new.events }
    ensures beside { AreBeside (board_parts board.new) walks.new }
    ensures counted { IsCounted board.old board.new }
{
    board.events += 1;
    if let Some(why) = why_not_there(board.kind_of(id)) {
        return Err(why);
    }
    Ok(board.iommu.load(&mut board.memory, walks, id))
}

/// A raw device asks for an access at an address of memory, and says that it is translated (PCI Express Base Specification,
/// section 10.2). It is one event. A request of the device that is under way counts as one of the eight. `NoSuchDevice` and
/// `WrongKind` as for [`begin`].
pub fn translated(
    board: &mut Board,
    walks: &Walks,
    id: DeviceId,
    address: u64,
    len: u64,
    kind: AccessKind,
    bytes: &[u8],
) -> Result<Reply, Refusal>
    requires invariants { BoardInvariant (board_parts board.old) board.old.events }
    requires beside { AreBeside (board_parts board.old) walks.now }
    requires count { board.old.events + 1 < 2 ^ 64 }
    requires carries { CarriesBytes kind len bytes.now }
    ensures effect { RequestsTranslatedBeside (board_parts board.old) walks.now id
        (access_of address len kind bytes.now) result (board_parts board.new) }
    ensures invariants { BoardInvariant (board_parts board.new) board.new.events }
    ensures beside { AreBeside (board_parts board.new) walks.now }
    ensures counted { IsCounted board.old board.new }
{
    board.events += 1;
    if let Some(why) = why_not_forging(board.kind_of(id)) {
        return Err(why);
    }
    Ok(
        board
            .iommu
            .translated_beside(&mut board.memory, walks, id, address, len, kind, bytes),
    )
}
