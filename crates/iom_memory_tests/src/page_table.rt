ghost use Rattle.std.specs.Prelude.{◌≡◌, ◌⊎◌, ℕ, ◌<◌, ◌≤◌, Some, slice_get};
ghost use Rattle.iom_base.specs.Rights.{r, rw};
ghost use Rattle.iom_base.specs.Sizes.{page_limit_of};
ghost use Rattle.iom_phys_mem.specs.Words.{zeroed};
ghost use Rattle.iom_page_table.specs.FirstTables.{IsRoot, HasTable};

use crate::expect::{expect, expect_load};
use iom_base::{AccessKind, Cause, Rights, Size};
use iom_page_table::{PageLeaf, is_mapped, laws, map, missing, unmap};
use iom_phys_mem::Memory;
use iom_stage_walk::{WalkFault, Walked, walk_first};
use std::process::Abort;

// The frame of the root, the highest of 64 but the four that hold queues and a directory.
const ROOT: u32 = 59;

// A memory of 64 frames, all zero: the tables of a root of either size.
fn empty(rt: &(impl Abort + AllocGlobal), size: Size) -> Memory
    ensures tree { IsRoot size result 59 }
    ensures spare { (f : ℕ) → f < 59 → (slice_get result f ≡ Some zeroed) × (HasTable size result 59 f → ⊥) }
{
    laws::zeroed_tree();
    match Memory::new(rt.alloc(), 64) {
        Ok(memory) => memory,
        Err(_) => panic!(rt; "out of memory"),
    }
}

// Maps the page, its tables in the highest spare frames, those below `top`; gives what is spare then.
fn map_page(
    rt: &impl Abort,
    memory: &mut Memory,
    size: Size,
    top: u32,
    page: u64,
    frame: u32,
    rights: Rights,
) -> u32
    requires page { page < page_limit_of size }
    requires rights { (rights ≡ r) ⊎ (rights ≡ rw) }
    requires tree { IsRoot size memory.old 59 }
    requires spare { (f : ℕ) → f < top → (slice_get memory.old f ≡ Some zeroed) × (HasTable size memory.old 59 f → ⊥) }
    ensures tree { IsRoot size memory.new 59 }
    ensures spare { (f : ℕ) → f < result → (slice_get memory.new f ≡ Some zeroed) × (HasTable size memory.new 59 f → ⊥) }
{
    let leaf = PageLeaf { frame, rights };
    assert!(rt; !is_mapped(memory, size, ROOT, page));
    let tables = missing(memory, size, ROOT, page);
    assert!(rt; tables <= 3);
    assert!(rt; 3 <= top);
    let highest = [top - 1, top - 2, top - 3];
    map(memory, size, ROOT, page, leaf, &highest[..tables]);
    top - tables as u32
}

fn at(frame: u32, rights: Rights) -> Result<Walked, WalkFault> {
    Ok(Walked {
        frame,
        rights,
        level: 0,
        guest_frames: [None; 4],
    })
}

fn fault(cause: Cause) -> Result<Walked, WalkFault> {
    Err(WalkFault {
        cause,
        gpa: 0,
        implicit: false,
    })
}

// A read at the address is answered so.
fn reads(
    rt: &impl Abort,
    memory: &Memory,
    size: Size,
    address: u64,
    wanted: Result<Walked, WalkFault>,
) {
    let answer = walk_first(memory, size, 59, address, AccessKind::Read);
    expect(rt, answer == wanted);
}

// The same of a write.
fn writes(
    rt: &impl Abort,
    memory: &Memory,
    size: Size,
    address: u64,
    wanted: Result<Walked, WalkFault>,
) {
    let answer = walk_first(memory, size, 59, address, AccessKind::Write);
    expect(rt, answer == wanted);
}

// The dump of memory after `grant 000001 3 5 rw`: the root in frame 59, its tables in 58 and 57, and at
// 0x39018 the bytes d7 14 00 00 00 00 00 00.
#[test]
fn a_page_has_the_bytes_of_a_dump(rt: HostRuntime) {
    let mut memory = empty(&rt, Size::Sv39);
    let top = map_page(&rt, &mut memory, Size::Sv39, 59, 3, 5, Rights::RW);
    expect(&rt, top == 57);
    expect_load(&rt, &memory, 0x3_b000, Some(0xe801));
    expect_load(&rt, &memory, 0x3_a000, Some(0xe401));
    expect_load(&rt, &memory, 0x3_9018, Some(0x14d7));
    writes(&rt, &memory, Size::Sv39, 0x3ffc, at(5, Rights::RW));
    expect(&rt, is_mapped(&memory, Size::Sv39, ROOT, 3));
    unmap(&mut memory, Size::Sv39, ROOT, 3);
    expect_load(&rt, &memory, 0x3_9018, Some(0));
    expect_load(&rt, &memory, 0x3_a000, Some(0xe401));
    expect(&rt, !is_mapped(&memory, Size::Sv39, ROOT, 3));
    reads(
        &rt,
        &memory,
        Size::Sv39,
        0x3ffc,
        fault(Cause::ReadPageFault),
    );
}

// A page that may only be read, in the last entry of its tables: 0x53 below the page number, and of the
// last page's tables pointers in entries 255 and 511.
#[test]
fn a_page_for_reads_has_its_bytes(rt: HostRuntime) {
    let mut memory = empty(&rt, Size::Sv39);
    let top = map_page(&rt, &mut memory, Size::Sv39, 59, 67_108_863, 5, Rights::R);
    expect(&rt, top == 57);
    expect_load(&rt, &memory, 0x3_b7f8, Some(0xe801));
    expect_load(&rt, &memory, 0x3_aff8, Some(0xe401));
    expect_load(&rt, &memory, 0x3_9ff8, Some(0x1453));
}

// Pages that share two tables besides the root, one and none.
#[test]
fn pages_share_tables(rt: HostRuntime) {
    let mut memory = empty(&rt, Size::Sv39);
    let top = map_page(&rt, &mut memory, Size::Sv39, 59, 3, 5, Rights::RW);
    let top = map_page(&rt, &mut memory, Size::Sv39, top, 4, 6, Rights::R);
    expect(&rt, top == 57);
    let top = map_page(&rt, &mut memory, Size::Sv39, top, 515, 7, Rights::R);
    expect(&rt, top == 56);
    let top = map_page(&rt, &mut memory, Size::Sv39, top, 262_147, 8, Rights::RW);
    expect(&rt, top == 54);
    unmap(&mut memory, Size::Sv39, ROOT, 4);
    unmap(&mut memory, Size::Sv39, ROOT, 5);
    reads(&rt, &memory, Size::Sv39, 0x3000, at(5, Rights::RW));
    reads(
        &rt,
        &memory,
        Size::Sv39,
        0x4000,
        fault(Cause::ReadPageFault),
    );
    reads(&rt, &memory, Size::Sv39, 0x20_3000, at(7, Rights::R));
    writes(
        &rt,
        &memory,
        Size::Sv39,
        0x20_3000,
        fault(Cause::WritePageFault),
    );
    writes(&rt, &memory, Size::Sv39, 0x4000_3000, at(8, Rights::RW));
}

#[test]
fn the_first_and_the_last_page_are_mapped(rt: HostRuntime) {
    let mut memory = empty(&rt, Size::Sv39);
    let top = map_page(&rt, &mut memory, Size::Sv39, 59, 0, 5, Rights::RW);
    let top = map_page(&rt, &mut memory, Size::Sv39, top, 67_108_863, 5, Rights::R);
    expect(&rt, top == 55);
    writes(&rt, &memory, Size::Sv39, 0, at(5, Rights::RW));
    reads(&rt, &memory, Size::Sv39, 0x3f_ffff_f000, at(5, Rights::R));
    writes(
        &rt,
        &memory,
        Size::Sv39,
        0x3f_ffff_f000,
        fault(Cause::WritePageFault),
    );
    reads(
        &rt,
        &memory,
        Size::Sv39,
        0x40_0000_0000,
        fault(Cause::ReadPageFault),
    );
    reads(
        &rt,
        &memory,
        Size::Sv39,
        0xffff_ffff_ffff_f000,
        fault(Cause::ReadPageFault),
    );
}

// The last page of the lower half in four levels: pointers in entries 255, 511 and 511, and the leaf in the last.
#[test]
fn the_last_page_of_four_levels_has_its_bytes(rt: HostRuntime) {
    let mut memory = empty(&rt, Size::Sv48);
    let top = map_page(
        &rt,
        &mut memory,
        Size::Sv48,
        59,
        34_359_738_367,
        5,
        Rights::R,
    );
    expect(&rt, top == 56);
    expect_load(&rt, &memory, 0x3_b7f8, Some(0xe801));
    expect_load(&rt, &memory, 0x3_aff8, Some(0xe401));
    expect_load(&rt, &memory, 0x3_9ff8, Some(0xe001));
    expect_load(&rt, &memory, 0x3_8ff8, Some(0x1453));
    reads(&rt, &memory, Size::Sv48, 0x7fff_ffff_f000, at(5, Rights::R));
    unmap(&mut memory, Size::Sv48, ROOT, 34_359_738_367);
    expect_load(&rt, &memory, 0x3_8ff8, Some(0));
    expect_load(&rt, &memory, 0x3_9ff8, Some(0xe001));
    expect(&rt, !is_mapped(&memory, Size::Sv48, ROOT, 34_359_738_367));
}

// In four levels pages share the three tables besides the root, two, one and none.
#[test]
fn pages_share_tables_of_four_levels(rt: HostRuntime) {
    let size = Size::Sv48;
    let mut memory = empty(&rt, size);
    let top = map_page(&rt, &mut memory, size, 59, 34_359_738_367, 5, Rights::R);
    let top = map_page(&rt, &mut memory, size, top, 34_359_738_366, 6, Rights::RW);
    expect(&rt, top == 56);
    let top = map_page(&rt, &mut memory, size, top, 34_359_737_855, 7, Rights::RW);
    expect(&rt, top == 55);
    let top = map_page(&rt, &mut memory, size, top, 34_359_476_223, 8, Rights::RW);
    expect(&rt, top == 53);
    let top = map_page(&rt, &mut memory, size, top, 34_225_520_639, 9, Rights::RW);
    expect(&rt, top == 50);
    writes(&rt, &memory, size, 0x7f7f_ffff_f000, at(9, Rights::RW));
    reads(&rt, &memory, size, 0x7fff_ffff_e000, at(6, Rights::RW));
}

#[test]
fn the_laws_can_be_called(_rt: HostRuntime) {
    laws::walk_reaches_leaf();
    laws::walk_through_tables();
    laws::walk_faults_else();
    laws::tree_stays();
    laws::trees_apart();
    laws::zeroed_tree();
    laws::different_tables();
}
