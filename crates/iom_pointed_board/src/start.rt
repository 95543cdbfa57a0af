// Where the walk of a request begins.
ghost use Rattle.std.specs.Prelude.{◌≡◌, ◌<◌, IfNone, IfSome};
ghost use Rattle.iom_board.specs.BoardParts.{board_parts};
ghost use Rattle.iom_stepped_walk.specs.declared.hand.TableInHand.{TableInHand};
ghost use Rattle.iom_tlb.specs.declared.space.Space.{Space};
ghost use Rattle.iom_pointed_board.specs.Starts.{BeginsAt, IsFoundAtRoot, IsFoundFromRoot, IsStart, Walks, at_root};

use crate::cached::cached_translation;
use crate::root::{context_of, root_of, space_of};
use iom_base::AccessKind;
use iom_board::Board;
use iom_phys_mem::Memory;
use iom_pointers::{Pointers, lead};
use iom_stepped_requests::Request;
use iom_stepped_walk::TableInHand;
use iom_tlb::{Space, Translation};
use iom_walk_stops::Stages;

/// Where the walk of a request begins.
#[derive(Clone, Copy, PartialEq, Eq)]
pub struct Start {
    /// The address space in which what it finds is kept.
    pub space: Space,
    /// The table in hand: the root, or one that a cached pointer names.
    pub hand: TableInHand,
    /// Whether it is the root.
    pub is_root: bool,
    /// The translation to which the walk leads, where it begins at a pointer, or knows leaves of 64 KiB.
    pub found: Option<Translation>,
}

/// What is found from the root ahead of hardware's own walk: nothing, where its walks know no leaves of 64 KiB.
fn found_at_root(
    memory: &Memory,
    napot: bool,
    root: TableInHand,
    kind: AccessKind,
) -> Option<Translation>
    requires { root.level < 4 }
    ensures { IsFoundAtRoot napot memory.now root kind result }
{
    if !napot {
        return None;
    }
    lead(memory, true, root, kind)
}

/// A walk that begins at the root.
fn begin_at_root(
    memory: &Memory,
    napot: bool,
    space: Space,
    root: TableInHand,
    kind: AccessKind,
) -> Start
    requires { root.level < 4 }
    ensures found { IsFoundAtRoot napot memory.now root kind result.found }
    ensures begins { result ≡ at_root space root result.found }
{
    Start {
        space,
        hand: root,
        is_root: true,
        found: found_at_root(memory, napot, root, kind),
    }
}

/// Where a walk begins that has no translation cached: at the deepest pointer, where that leads to a page, else at the root.
fn begin(
    memory: &Memory,
    napot: bool,
    pointers: &Pointers,
    space: Space,
    root: TableInHand,
    kind: AccessKind,
) -> Start
    requires { root.level < 4 }
    ensures { BeginsAt napot memory.now pointers.now space root kind result }
{
    let Some(pointer) = pointers.deepest(space, root.page) else {
        return begin_at_root(memory, napot, space, root, kind);
    };
    let hand = pointer.hand(root.page);
    match lead(memory, napot, hand, kind) {
        Some(translation) => Start {
            space,
            hand,
            is_root: false,
            found: Some(translation),
        },
        None => begin_at_root(memory, napot, space, root, kind),
    }
}

/// Which tables a request walks: the address space in which what is found there is kept, and the table of their root. None
/// where it walks no tables of one stage: it has no context, no stage or both, its address is none that the stage
/// translates, or a translation is cached for it.
fn walked_by(hardware: &Board, request: Request) -> Option<(Space, TableInHand)>
    ensures some { IfSome result (λ walked. Walks (board_parts hardware.now) request walked.0 walked.1) }
    ensures low { IfSome result (λ walked. walked.1.level < 4) }
    ensures none { IfNone result ((own : Space) (root : TableInHand) → ¬ Walks (board_parts hardware.now) request own root) }
{
    let Request { device, asked } = request;
    let context = context_of(hardware, device)?;
    let stages = Stages::of(&context)?;
    let root = root_of(stages, asked.address)?;
    let space = space_of(&context, stages);
    if cached_translation(hardware.iommu.translations(), space, root.page, asked.kind).is_some() {
        return None;
    }
    Some((space, root))
}

/// The translation to which the walk of a request leads from the root, where walks know leaves of 64 KiB. None where it
/// walks no tables of one stage, or ends with a fault.
pub fn found_from_root(hardware: &Board, request: Request) -> Option<Translation>
    ensures { IsFoundFromRoot (board_parts hardware.now) request result }
{
    let (_, root) = walked_by(hardware, request)?;
    lead(&hardware.memory, true, root, request.asked.kind)
}

/// Where the walk of a request begins. None where it walks no tables of one stage.
pub fn start_of(
    hardware: &Board,
    napot: bool,
    pointers: &Pointers,
    request: Request,
) -> Option<Start>
    ensures { IsStart napot (board_parts hardware.now) pointers.now request result }
{
    let (space, root) = walked_by(hardware, request)?;
    Some(begin(
        &hardware.memory,
        napot,
        pointers,
        space,
        root,
        request.asked.kind,
    ))
}
