ghost use Rattle.std.specs.Prelude.{◌≡◌, ◌≢◌, ◌↔◌, ℕ, ◌-◌, ◌/◌, ◌^◌, ◌<◌, ◌≤◌, List, true, false, IfOk, IfErr, Ok, Err, length, slice_index, EachIndex};
ghost use Rattle.iom_base.specs.Causes.{page_fault_of};
ghost use Rattle.iom_base.specs.Sizes.{page_size, levels_of};
ghost use Rattle.iom_base.specs.Tables.{table_entries};
ghost use Rattle.iom_base.specs.declared.access.AccessKind.TheVariants.{Read};
ghost use Rattle.iom_stage_walk.specs.Entries.{IsBounded, slot};
ghost use Rattle.iom_stage_walk.specs.Paths.{path_of, first_widths};
ghost use Rattle.iom_stage_walk.specs.Second.{LeadsTo, LeadsToFault};
ghost use Rattle.iom_stage_walk.specs.Both.{IsReadFrom, entry_address, ReachesGuest, StopsGuest, plain, padded, rights_of_both, guest_address, ReachesBoth, StopsBoth};
ghost use Rattle.iom_stage_walk.specs.declared.entry.Entry.TheVariants.{Outside};
ghost use Rattle.iom_stage_walk.specs.declared.walked.Walked.{Walked};
ghost use Rattle.iom_stage_walk.specs.declared.walked.WalkFault.{WalkFault};

use crate::entry::{Entry, entry_at};
use crate::second::{lead, report};
use crate::walk::{first_indices, is_canonical, judge_leaf};
use crate::walked::{WalkFault, Walked};
use iom_base::{AccessKind, Cause, ENTRY_SIZE, PAGE_SIZE, Ppn, Rights, Size};
use iom_phys_mem::Bytes;

/// An entry of a guest's tables, and the frame from which it was read.
#[derive(Clone, Copy)]
struct Loaded {
    frame: u32,
    entry: Entry,
}

/// The leaf of a path through a guest's tables: the guest physical page, what the first stage allows, how many levels
/// are below it, and the frames from which the entries were read.
#[derive(Clone, Copy)]
struct GuestReached {
    page: u64,
    rights: Rights,
    level: u8,
    frames: [Option<u32>; 4],
}

/// The page fault of the first stage, which tells no guest physical address.
fn first_fault(kind: AccessKind) -> WalkFault
    ensures { result ≡ plain (page_fault_of kind) }
{
    WalkFault {
        cause: Cause::page_fault(kind),
        gpa: 0,
        implicit: false,
    }
}

/// Reads the entry at an index of a guest's table, through the second stage. At most four loads.
#[inline(always)]
fn guest_entry<B: Bytes>(
    memory: &B,
    size: Size,
    second: u64,
    table: u64,
    index: u16,
    original: AccessKind,
) -> Result<Loaded, WalkFault>
    requires table { table < 2 ^ 44 }
    requires index { index < table_entries }
    ensures ok { IfOk result (λ loaded.
        IsReadFrom (levels_of size) (B.frames_of memory.now) second (slot table index) loaded.frame loaded.entry) }
    ensures bounded { IfOk result (λ loaded. IsBounded loaded.entry) }
    ensures inside { IfOk result (λ loaded. loaded.entry ≢ Outside) }
    ensures err { IfErr result
        (LeadsToFault (levels_of size) (B.frames_of memory.now) second (entry_address (slot table index)) Read original true) }
{
    let address = PAGE_SIZE * table + ENTRY_SIZE * u64::from(index);
    match lead(memory, size, second, address, AccessKind::Read, original) {
        Ok(led) => Ok(Loaded {
            frame: led.frame,
            entry: entry_at(memory, u64::from(led.frame), index),
        }),
        Err(cause) => Err(report(cause, address, true)),
    }
}

/// Follows the indices, one a level, from the guest's table at `root`.
#[inline(always)]
fn walk_guest<B: Bytes>(
    memory: &B,
    size: Size,
    second: u64,
    root: u64,
    indices: &[u16],
    kind: AccessKind,
) -> Result<GuestReached, WalkFault>
    requires root { root < 2 ^ 44 }
    requires small { EachIndex indices.now (λ k. slice_index indices.now k < table_entries) }
    requires short { length indices.now ≤ 4 }
    ensures ok { IfOk result (λ leaf. (loaded : List ℕ) × (leaf.frames ≡ padded 4 loaded)
        × (leaf.level ≡ length indices.now - length loaded)
        × ReachesGuest (levels_of size) (B.frames_of memory.now) second kind root indices.now loaded leaf.page leaf.rights) }
    ensures page { IfOk result (λ leaf. leaf.page < 2 ^ 45) }
    ensures err { IfErr result (StopsGuest (levels_of size) (B.frames_of memory.now) second kind root indices.now) }
{
    let mut table = root;
    let mut frames = [None; 4];
    for (k, index) in indices.iter().enumerate() {
        let loaded = guest_entry(memory, size, second, table, *index, kind)?;
        frames[k] = Some(loaded.frame);
        match loaded.entry {
            Entry::Pointer(next) => table = next,
            Entry::Leaf(base, rights) => {
                return match judge_leaf(kind, base, rights, &indices[k + 1..]) {
                    Some(leaf) => Ok(GuestReached {
                        page: leaf.frame,
                        rights: leaf.rights,
                        level: leaf.level,
                        frames,
                    }),
                    None => Err(first_fault(kind)),
                };
            }
            Entry::Invalid => return Err(first_fault(kind)),
            Entry::Outside => unreachable!(),
        }
    }
    Err(first_fault(kind))
}

/// RW where both stages give it, else R.
fn both_rights(first: Rights, second: Rights) -> Rights
    ensures { result ≡ rights_of_both first second }
{
    if first.allows(AccessKind::Write) && second.allows(AccessKind::Write) {
        Rights::RW
    } else {
        Rights::R
    }
}

/// The access to the page that the first stage gives, through the second stage.
fn final_access<B: Bytes>(
    memory: &B,
    size: Size,
    second: u64,
    leaf: GuestReached,
    address: u64,
    kind: AccessKind,
) -> Result<Walked, WalkFault>
    requires { leaf.page < 2 ^ 45 }
    ensures ok { IfOk result (λ walked. (walked.guest_frames ≡ leaf.frames) × (walked.level ≡ leaf.level) × ((own : Rights)
        × (walked.rights ≡ rights_of_both leaf.rights own)
        × LeadsTo (levels_of size) (B.frames_of memory.now) second (guest_address leaf.page address) kind walked.frame own)) }
    ensures err { IfErr result
        (LeadsToFault (levels_of size) (B.frames_of memory.now) second (guest_address leaf.page address) kind kind false) }
{
    let guest = PAGE_SIZE * leaf.page + address % PAGE_SIZE;
    let guest_frames = leaf.frames;
    match lead(memory, size, second, guest, kind, kind) {
        Ok(led) => Ok(Walked {
            frame: led.frame,
            rights: both_rights(leaf.rights, led.rights),
            level: leaf.level,
            guest_frames,
        }),
        Err(cause) => Err(report(cause, guest, false)),
    }
}

/// Both stages, with as many levels of the first as there are indices, those of the address.
#[inline(always)]
fn walk_both_levels<B: Bytes>(
    memory: &B,
    first: Ppn,
    size: Size,
    second: u64,
    address: u64,
    indices: &[u16],
    kind: AccessKind,
) -> Result<Walked, WalkFault>
    requires short { length indices.now ≤ 4 }
    requires path { indices.now ≡ path_of (first_widths (length indices.now)) (address / page_size) }
    ensures ok { IfOk result (ReachesBoth (length indices.now) (levels_of size) (B.frames_of memory.now) first.number second address kind) }
    ensures err { IfErr result (StopsBoth (length indices.now) (levels_of size) (B.frames_of memory.now) first.number second address kind) }
{
    if !is_canonical(indices.len(), address) {
        return Err(first_fault(kind));
    }
    let leaf = walk_guest(memory, size, second, first.number(), indices, kind)?;
    final_access(memory, size, second, leaf, address, kind)
}

/// Both stages, the first of the size that stands before its root.
// A slice of a known length for each size, so that the loop over it is unrolled.
#[inline(always)]
fn walk_both_sized<B: Bytes>(
    memory: &B,
    first_size: Size,
    first: Ppn,
    second_size: Size,
    second: u64,
    address: u64,
    kind: AccessKind,
) -> Result<Walked, WalkFault>
    ensures ok { IfOk result (ReachesBoth (levels_of first_size) (levels_of second_size) (B.frames_of memory.now) first.number second address kind) }
    ensures err { IfErr result (StopsBoth (levels_of first_size) (levels_of second_size) (B.frames_of memory.now) first.number second address kind) }
{
    let all = first_indices(address / PAGE_SIZE);
    match first_size {
        Size::Sv39 => {
            walk_both_levels(memory, first, second_size, second, address, &all[1..], kind)
        }
        Size::Sv48 => {
            walk_both_levels(memory, first, second_size, second, address, &all[0..], kind)
        }
    }
}

/// The walk of both stages: the first stage's root table is at the guest physical page `first`, the second's begins at
/// the page number `second`; each stage has the size that stands before its root. Ok exactly where the path of the
/// address reaches through both, with the frame, what both allow, and the frames from which the guest's tables were
/// read; else the fault with which it stops. At most 24 loads: four levels of the first stage, each entry of which and
/// the page itself four loads of the second.
pub fn walk_both<B: Bytes>(
    memory: &B,
    first_size: Size,
    first: Ppn,
    second_size: Size,
    second: u64,
    address: u64,
    kind: AccessKind,
) -> Result<Walked, WalkFault>
    ensures reached { (walked : Walked) → (result ≡ Ok walked)
        ↔ ReachesBoth (levels_of first_size) (levels_of second_size) (B.frames_of memory.now) first.number second address kind walked }
    ensures stopped { (fault : WalkFault) → (result ≡ Err fault)
        ↔ StopsBoth (levels_of first_size) (levels_of second_size) (B.frames_of memory.now) first.number second address kind fault }
{
    walk_both_sized(
        memory,
        first_size,
        first,
        second_size,
        second,
        address,
        kind,
    )
}
