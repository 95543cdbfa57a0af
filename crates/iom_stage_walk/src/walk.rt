ghost use Rattle.std.specs.Prelude.{◌≡◌, ◌≢◌, ◌↔◌, ℕ, ◌+◌, ◌*◌, ◌/◌, ◌%◌, ◌^◌, ◌<◌, ◌≤◌, ◌⊎◌, IsTrue, IfOk, IfErr, IfSome, IfNone, Ok, Err, length};
ghost use Rattle.std.specs.Prelude.{slice_index, EachIndex, true, false};
ghost use Rattle.iom_base.specs.Rights.{allows};
ghost use Rattle.iom_base.specs.Sizes.{page_size, levels_of};
ghost use Rattle.iom_stage_walk.specs.Entries.{entries};
ghost use Rattle.iom_stage_walk.specs.Paths.{pages_spanned, page_in, IsLawfulLeaf, IsUnlawfulLeaf, Reaches, leaf_level, StopsAs, StopsAt, path_of};
ghost use Rattle.iom_stage_walk.specs.Paths.{first_widths, IsCanonical, ReachesFirst, StopsFirst};
ghost use Rattle.iom_stage_walk.specs.declared.walked.Walked.{Walked};
ghost use Rattle.iom_stage_walk.specs.declared.walked.WalkFault.{WalkFault};

use crate::entry::{Entry, entry_at};
use crate::walked::{WalkFault, Walked};
use iom_base::{AccessKind, Cause, PAGE_SIZE, Rights, Size, TABLE_ENTRIES};
use iom_phys_mem::Bytes;

/// The most levels that tables have.
pub const MAX_LEVELS: usize = 4;

/// The pages that two levels of tables span.
pub(crate) const SPAN_OF_TWO: u64 = TABLE_ENTRIES * TABLE_ENTRIES;

/// The pages that three levels of tables span.
pub(crate) const SPAN_OF_THREE: u64 = SPAN_OF_TWO * TABLE_ENTRIES;

/// The leaf of a path: the frame of the asked page, wherever that is, and what it allows.
#[derive(Clone, Copy)]
pub(crate) struct Reached {
    pub(crate) frame: u64,
    pub(crate) rights: Rights,
    /// How many levels are below it.
    pub(crate) level: u8,
}

/// How many pages a leaf spans above these indices, and which of them they name.
fn page_below(below: &[u16]) -> (u64, u64)
    requires { length below.now ≤ 3 }
    ensures span { result.0 ≡ pages_spanned below.now }
    ensures page { result.1 ≡ page_in below.now }
    ensures positive { 0 < result.0 }
    ensures fits { result.1 < 2 ^ 44 }
{
    match below {
        [] => (1, 0),
        [a] => (TABLE_ENTRIES, u64::from(*a)),
        [a, b] => (SPAN_OF_TWO, TABLE_ENTRIES * u64::from(*a) + u64::from(*b)),
        [a, b, c] => (
            SPAN_OF_THREE,
            SPAN_OF_TWO * u64::from(*a) + TABLE_ENTRIES * u64::from(*b) + u64::from(*c),
        ),
        _ => unreachable!(),
    }
}

/// What a leaf gives to an access of the page that the indices below it name. None where it isn't lawful.
pub(crate) fn judge_leaf(
    kind: AccessKind,
    base: u64,
    rights: Rights,
    below: &[u16],
) -> Option<Reached>
    requires base { base < 2 ^ 44 }
    requires short { length below.now ≤ 3 }
    ensures some { IfSome result (λ leaf. IsLawfulLeaf kind base rights below.now leaf.frame leaf.rights) }
    ensures fits { IfSome result (λ leaf. leaf.frame < 2 ^ 45) }
    ensures level { IfSome result (λ leaf. leaf.level ≡ length below.now) }
    ensures none { IfNone result (IsUnlawfulLeaf kind base rights below.now) }
{
    let (pages, inside) = page_below(below);
    if (pages > 1 && base % pages != 0) || !rights.allows(kind) {
        return None;
    }
    Some(Reached {
        frame: base + inside,
        rights,
        level: below.len() as u8,
    })
}

/// What an access calls its faults in the tables of a stage.
#[derive(Clone, Copy)]
pub(crate) struct Faults {
    /// No lawful path.
    pub(crate) page: Cause,
    /// A load, or the page, outside memory.
    pub(crate) access: Cause,
}

/// Follows the indices, one a level, from the table at `root`: one load a level and no more. It is the "Virtual Address
/// Translation Process" of the Privileged Architecture: step 1 at `root`, and a turn for steps 2 to 4.
#[inline(always)]
pub(crate) fn walk<B: Bytes>(
    memory: &B,
    root: u64,
    indices: &[u16],
    kind: AccessKind,
    faults: Faults,
) -> Result<Reached, Cause>
    requires { length indices.now ≤ 4 }
    ensures ok { IfOk result (λ leaf. Reaches (entries (B.frames_of memory.now)) kind root indices.now leaf.frame leaf.rights) }
    ensures level { IfOk result (λ leaf. leaf.level ≡ leaf_level (entries (B.frames_of memory.now)) root indices.now) }
    ensures err { IfErr result (StopsAs (entries (B.frames_of memory.now)) kind faults.page faults.access root indices.now) }
{
    let mut table = root;
    for (k, index) in indices.iter().enumerate() {
        // Step 2, of which `Outside` comes, and step 3, of which `Invalid` does.
        match entry_at(memory, table, *index) {
            // Step 4.
            Entry::Pointer(next) => table = next,
            // Step 5 and those behind it.
            Entry::Leaf(base, rights) => {
                return match judge_leaf(kind, base, rights, &indices[k + 1..]) {
                    Some(leaf) => Ok(leaf),
                    None => Err(faults.page),
                };
            }
            Entry::Invalid => return Err(faults.page),
            Entry::Outside => return Err(faults.access),
        }
    }
    // Step 4, where the last level has a pointer.
    Err(faults.page)
}

/// Whether the highest bit that so many levels translate equals all higher ones.
pub(crate) fn is_canonical(levels: usize, address: u64) -> bool
    requires { levels ≤ 4 }
    ensures { IsTrue result ↔ IsCanonical levels address }
{
    let half = 1u64 << (9 * levels + 11);
    address < half || u64::MAX - address < half
}

/// A walk of a first stage of as many levels as there are indices, those of the address.
#[inline(always)]
fn walk_levels<B: Bytes>(
    memory: &B,
    root: u64,
    address: u64,
    indices: &[u16],
    kind: AccessKind,
) -> Result<Walked, Cause>
    requires short { length indices.now ≤ 4 }
    requires path { indices.now ≡ path_of (first_widths (length indices.now)) (address / page_size) }
    ensures ok { IfOk result (ReachesFirst (length indices.now) (B.frames_of memory.now) root address kind) }
    ensures err { IfErr result (StopsAt (length indices.now) (B.frames_of memory.now) root address kind) }
{
    if !is_canonical(indices.len(), address) {
        return Err(Cause::page_fault(kind));
    }
    let faults = Faults {
        page: Cause::page_fault(kind),
        access: Cause::access_fault(kind),
    };
    let leaf = walk(memory, root, indices, kind, faults)?;
    if leaf.frame >= u64::from(memory.frames()) {
        return Err(Cause::access_fault(kind));
    }
    Ok(Walked {
        frame: leaf.frame as u32,
        rights: leaf.rights,
        level: leaf.level,
        guest_frames: [None; 4],
    })
}

/// The indices of a page in four levels, the root's first: nine bits of its number each. Those of tables with fewer
/// levels are the last of them.
pub fn first_indices(page: u64) -> [u16; MAX_LEVELS]
    ensures { result ≡ path_of (first_widths 4) page }
{
    [
        (page / SPAN_OF_THREE % TABLE_ENTRIES) as u16,
        (page / SPAN_OF_TWO % TABLE_ENTRIES) as u16,
        (page / TABLE_ENTRIES % TABLE_ENTRIES) as u16,
        (page % TABLE_ENTRIES) as u16,
    ]
}

/// A walk of a first stage of the size.
// A slice of a known length for each size, so that the loop over it is unrolled.
#[inline(always)]
fn walk_sized<B: Bytes>(
    memory: &B,
    size: Size,
    root: u64,
    address: u64,
    kind: AccessKind,
) -> Result<Walked, Cause>
    ensures ok { IfOk result (ReachesFirst (levels_of size) (B.frames_of memory.now) root address kind) }
    ensures err { IfErr result (StopsAt (levels_of size) (B.frames_of memory.now) root address kind) }
{
    let all = first_indices(address / PAGE_SIZE);
    match size {
        Size::Sv39 => walk_levels(memory, root, address, &all[1..], kind),
        Size::Sv48 => walk_levels(memory, root, address, &all[0..], kind),
    }
}

/// The walk of a first stage of the size, Sv39 or Sv48, whose root table is at the page number `root`:
/// Ok exactly where the path of the address reaches, with its leaf; else the cause with which it stops. A
/// root outside memory gives an access fault. At most one load a level.
pub fn walk_first<B: Bytes>(
    memory: &B,
    size: Size,
    root: u64,
    address: u64,
    kind: AccessKind,
) -> Result<Walked, WalkFault>
    ensures reached { (walked : Walked) → (result ≡ Ok walked) ↔ ReachesFirst (levels_of size) (B.frames_of memory.now) root address kind walked }
    ensures stopped { (fault : WalkFault) → (result ≡ Err fault) ↔ StopsFirst (levels_of size) (B.frames_of memory.now) root address kind fault }
{
    match walk_sized(memory, size, root, address, kind) {
        Ok(walked) => Ok(walked),
        Err(cause) => Err(WalkFault {
            cause,
            gpa: 0,
            implicit: false,
        }),
    }
}
