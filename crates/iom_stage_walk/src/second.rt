ghost use Rattle.std.specs.Prelude.{◌≡◌, ◌↔◌, ◌-◌, ◌/◌, ◌≤◌, IsTrue, false, IfOk, IfErr, Ok, Err, length, drop};
ghost use Rattle.iom_base.specs.Sizes.{page_size, levels_of};
ghost use Rattle.iom_stage_walk.specs.Entries.{entries};
ghost use Rattle.iom_stage_walk.specs.Paths.{path_of, leaf_level};
ghost use Rattle.iom_stage_walk.specs.Second.{second_widths, second_path, IsGuestPhysical, LeadsTo, LeadsNowhere, LeadsToFault, reported, ReachesSecond, StopsSecond};
ghost use Rattle.iom_stage_walk.specs.declared.walked.Walked.{Walked};
ghost use Rattle.iom_stage_walk.specs.declared.walked.WalkFault.{WalkFault};

use crate::walk::{Faults, MAX_LEVELS, SPAN_OF_THREE, SPAN_OF_TWO, first_indices, walk};
use crate::walked::{WalkFault, Walked};
use iom_base::{AccessKind, Cause, PAGE_SIZE, Rights, Size, TABLE_ENTRIES};
use iom_phys_mem::Bytes;

/// The entries of the root of a second stage, which fills four frames.
const ROOT_ENTRIES: u64 = 4 * TABLE_ENTRIES;

/// Where the second stage leads: a frame of memory, and what it allows there.
#[derive(Clone, Copy)]
pub(crate) struct Led {
    pub(crate) frame: u32,
    pub(crate) rights: Rights,
    /// How many levels are below its leaf.
    pub(crate) level: u8,
}

/// What is reported of a fault at a guest physical address: a guest page fault tells the address.
pub(crate) fn report(cause: Cause, address: u64, implicit: bool) -> WalkFault
    ensures { result ≡ reported cause address implicit }
{
    match cause {
        Cause::ReadGuestPageFault | Cause::WriteGuestPageFault => WalkFault {
            cause,
            gpa: address,
            implicit,
        },
        _ => WalkFault {
            cause,
            gpa: 0,
            implicit: false,
        },
    }
}

/// Whether all bits above those that so many levels translate are zero.
fn is_guest_physical(levels: usize, address: u64) -> bool
    requires { levels ≤ 4 }
    ensures { IsTrue result ↔ IsGuestPhysical levels address }
{
    address < 1u64 << (9 * levels + 14)
}

/// A second stage of as many levels as there are indices, those of the address.
#[inline(always)]
fn lead_levels<B: Bytes>(
    memory: &B,
    root: u64,
    address: u64,
    indices: &[u16],
    kind: AccessKind,
    original: AccessKind,
) -> Result<Led, Cause>
    requires short { length indices.now ≤ 4 }
    requires path { indices.now ≡ path_of (second_widths (length indices.now)) (address / page_size) }
    ensures ok { IfOk result (λ led. LeadsTo (length indices.now) (B.frames_of memory.now) root address kind led.frame led.rights) }
    ensures level { IfOk result (λ led. led.level ≡ leaf_level (entries (B.frames_of memory.now)) root (second_path (length indices.now) address)) }
    ensures err { IfErr result (LeadsNowhere (length indices.now) (B.frames_of memory.now) root address kind original) }
{
    let faults = Faults {
        page: Cause::guest_page_fault(original),
        access: Cause::access_fault(original),
    };
    if !is_guest_physical(indices.len(), address) {
        return Err(faults.page);
    }
    let leaf = walk(memory, root, indices, kind, faults)?;
    if leaf.frame >= u64::from(memory.frames()) {
        return Err(faults.access);
    }
    Ok(Led {
        frame: leaf.frame as u32,
        rights: leaf.rights,
        level: leaf.level,
    })
}

/// The indices of a guest physical page in tables of the size, the root's first: eleven bits of its number, then nine
/// each. They are the last of these four.
fn second_indices(size: Size, page: u64) -> [u16; MAX_LEVELS]
    ensures { drop (4 - levels_of size) result ≡ path_of (second_widths (levels_of size)) page }
{
    let [root, upper, middle, last] = first_indices(page);
    match size {
        Size::Sv39 => [
            root,
            (page / SPAN_OF_TWO % ROOT_ENTRIES) as u16,
            middle,
            last,
        ],
        Size::Sv48 => [
            (page / SPAN_OF_THREE % ROOT_ENTRIES) as u16,
            upper,
            middle,
            last,
        ],
    }
}

/// Where a second stage of the size leads an access of this kind from the guest physical address. Its faults are
/// numbered by the original access: a walk reads a first stage's entry whatever that is. At most one load a level.
// A walk of both stages leads once for each level of the first, and once more: without a call each.
#[inline(always)]
pub(crate) fn lead<B: Bytes>(
    memory: &B,
    size: Size,
    root: u64,
    address: u64,
    kind: AccessKind,
    original: AccessKind,
) -> Result<Led, Cause>
    ensures ok { IfOk result (λ led. LeadsTo (levels_of size) (B.frames_of memory.now) root address kind led.frame led.rights) }
    ensures level { IfOk result (λ led. led.level ≡ leaf_level (entries (B.frames_of memory.now)) root (second_path (levels_of size) address)) }
    ensures err { IfErr result (LeadsNowhere (levels_of size) (B.frames_of memory.now) root address kind original) }
{
    let all = second_indices(size, address / PAGE_SIZE);
    // A slice of a known length for each size, so that the loop over it is unrolled.
    match size {
        Size::Sv39 => lead_levels(memory, root, address, &all[1..], kind, original),
        Size::Sv48 => lead_levels(memory, root, address, &all[0..], kind, original),
    }
}

/// The walk of a second stage of the size, Sv39x4 or Sv48x4, whose root table begins at the page number `root`: Ok
/// exactly where the path of the guest physical address reaches, with its leaf; else the fault with which it stops. A
/// root outside memory gives an access fault. At most one load a level.
pub fn walk_second<B: Bytes>(
    memory: &B,
    size: Size,
    root: u64,
    address: u64,
    kind: AccessKind,
) -> Result<Walked, WalkFault>
    ensures reached { (walked : Walked) → (result ≡ Ok walked) ↔ ReachesSecond (levels_of size) (B.frames_of memory.now) root address kind walked }
    ensures stopped { (fault : WalkFault) → (result ≡ Err fault) ↔ StopsSecond (levels_of size) (B.frames_of memory.now) root address kind fault }
{
    match lead(memory, size, root, address, kind, kind) {
        Ok(led) => Ok(Walked {
            frame: led.frame,
            rights: led.rights,
            level: led.level,
            guest_frames: [None; 4],
        }),
        Err(cause) => Err(report(cause, address, false)),
    }
}
