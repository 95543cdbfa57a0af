ghost use Rattle.std.specs.Prelude.{◌≡◌, ◌≢◌, ◌↔◌, ◌<◌, ◌≤◌, ◌+◌, ◌*◌, ◌^◌, ◌==◌, ◌%◌, ◌/◌, Ok, Err};
ghost use Rattle.iom_base.specs.declared.cause.Cause.{Cause};
ghost use Rattle.iom_phys_mem.specs.Words.{word_at};
ghost use Rattle.iom_registers.specs.declared.directory.DirectoryMode.TheVariants.{Bare};
ghost use Rattle.iom_device_dir.specs.declared.context.Context.{Context};
ghost use Rattle.iom_device_dir.specs.Paths.{entry_place, context_words_at, fits_directory, FindsContext, StopsLocating};
ghost use Rattle.iom_device_dir.specs.Located.{loaded_entry, path_end_from, located_by_mode, located_context};

use crate::context::{CONTEXT_SIZE, Context};
use crate::entry::NonLeafEntry;
use crate::fields::field;
use crate::words::ContextWords;
use iom_base::{Cause, DeviceId, ENTRY_SIZE, PAGE_SIZE, Ppn};
use iom_phys_mem::Bytes;
use iom_registers::{DirectoryMode, DirectoryPointer};

/// The four words at an address. None exactly where one of them is outside memory, or the address isn't a
/// multiple of 8.
#[tactic(auto, unfolding(crate::specs::Paths::context_words_at))]
fn load_words<B: Bytes>(memory: &B, address: u64) -> Option<ContextWords>
    requires { address < 2 ^ 63 }
    ensures { result ≡ context_words_at (B.frames_of memory.now) address }
{
    let tc = memory.load_u64(address)?;
    let iohgatp = memory.load_u64(address + 8)?;
    let ta = memory.load_u64(address + 16)?;
    let fsc = memory.load_u64(address + 24)?;
    Some(ContextWords {
        tc,
        iohgatp,
        ta,
        fsc,
    })
}

/// The page that an entry of a directory page names: steps 3 and 5 to 7 of section 2.3.1 of the IOMMU specification,
/// "Process to locate the Device-context". Memory never gives corrupted data, so step 4 doesn't come.
fn next_page<B: Bytes>(memory: &B, page: Ppn, index: u64) -> Result<NonLeafEntry, Cause>
    requires { index < 512 }
    ensures { result ≡ loaded_entry (word_at 8 (B.frames_of memory.now) (entry_place page.number index)) }
{
    match memory.load_u64(PAGE_SIZE * page.number() + ENTRY_SIZE * index) {
        Some(word) => NonLeafEntry::decode(word),
        None => Err(Cause::DirectoryLoadFault),
    }
}

/// From a page of contexts, by DDI[0]: steps 8 to 11, of which 9 and 10 judge the words.
fn from_contexts<B: Bytes>(memory: &B, page: Ppn, id: DeviceId) -> Result<Context, Cause>
    ensures { result ≡ path_end_from (B.frames_of memory.now) 0 page.number id }
{
    let index = field(u64::from(id), 6, 0);
    match load_words(
        memory,
        PAGE_SIZE * page.number() + CONTEXT_SIZE as u64 * index,
    ) {
        Some(words) => words.context(),
        None => Err(Cause::DirectoryLoadFault),
    }
}

/// From a page of entries one level above, by DDI[1].
fn from_middle<B: Bytes>(memory: &B, page: Ppn, id: DeviceId) -> Result<Context, Cause>
    ensures { result ≡ path_end_from (B.frames_of memory.now) 1 page.number id }
{
    let entry = next_page(memory, page, field(u64::from(id), 15, 7))?;
    from_contexts(memory, entry.next, id)
}

/// From a page of entries two levels above, by DDI[2].
fn from_top<B: Bytes>(memory: &B, page: Ppn, id: DeviceId) -> Result<Context, Cause>
    ensures { result ≡ path_end_from (B.frames_of memory.now) 2 page.number id }
{
    let entry = next_page(memory, page, field(u64::from(id), 23, 16))?;
    from_middle(memory, entry.next, id)
}

/// Whether the id is as wide at most as the levels of the directory are: with one it has no DDI[1] and no DDI[2], with
/// two no DDI[2]. Where there is no directory each id is.
#[inline(always)]
pub fn fits_directory(mode: DirectoryMode, id: DeviceId) -> bool
    ensures { result ≡ fits_directory mode id }
{
    match mode {
        DirectoryMode::Off | DirectoryMode::Bare => true,
        DirectoryMode::OneLevel => id < 1 << 7,
        DirectoryMode::TwoLevels => id < 1 << 16,
        DirectoryMode::ThreeLevels => id < 1 << 24,
    }
}

/// Where the path of the id ends, by the levels that the mode gives the directory: steps 1 and 2.
#[tactic(auto, unfolding(crate::specs::Located::located_by_mode))]
fn follow<B: Bytes>(
    memory: &B,
    mode: DirectoryMode,
    root: Ppn,
    id: DeviceId,
) -> Result<Context, Cause>
    requires { mode ≢ Bare }
    ensures { result ≡ located_by_mode mode (B.frames_of memory.now) root.number id }
{
    if !fits_directory(mode, id) {
        return Err(Cause::TransactionTypeDisallowed);
    }
    match mode {
        DirectoryMode::Off => Err(Cause::AllInboundDisallowed),
        DirectoryMode::Bare => unreachable!(),
        DirectoryMode::OneLevel => from_contexts(memory, root, id),
        DirectoryMode::TwoLevels => from_middle(memory, root, id),
        DirectoryMode::ThreeLevels => from_top(memory, root, id),
    }
}

/// The context of a device by the directory in memory: Ok exactly where the path of its id finds one, with
/// that context; else the cause with which the path stops. Of every number: one that has more than 24 bits is
/// too wide for each directory. Where the mode is Bare there is no directory, so it may not be. At most six
/// loads, and nothing changes.
pub fn locate<B: Bytes>(memory: &B, ddtp: DirectoryPointer, id: DeviceId) -> Result<Context, Cause>
    requires { ddtp.mode ≢ Bare }
    ensures located { (context : Context) →
        (result ≡ Ok context) ↔ FindsContext (B.frames_of memory.now) ddtp id context }
    ensures stopped { (cause : Cause) →
        (result ≡ Err cause) ↔ StopsLocating (B.frames_of memory.now) ddtp id cause }

    // What the clauses above say one by one, as one equation.
    ensures value { result ≡ located_context (B.frames_of memory.now) ddtp id }
{
    let root = Ppn::new(ddtp.ppn).unwrap();
    follow(memory, ddtp.mode, root, id)
}
