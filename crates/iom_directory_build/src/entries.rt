// Entries and contexts, in a page of the directory.
ghost use Rattle.std.specs.Prelude.{◌≡◌, ◌+◌, ◌<◌, ◌≤◌, ◌^◌, [], ◌∷◌, length, slice_get, Some, IfSome, Ok, Err};
ghost use Rattle.iom_base.specs.declared.cause.Cause.TheVariants.{DirectoryEntryNotValid};
ghost use Rattle.iom_phys_mem.specs.Words.{IsPlace, word_at, with_word, zeroed};
ghost use Rattle.iom_device_dir.specs.Words.{context_word};
ghost use Rattle.iom_device_dir.specs.Paths.{ddi, entry_place, four_context_words};
ghost use Rattle.iom_device_dir.specs.Located.{loaded_context};
ghost use Rattle.iom_directory_build.specs.Pages.{next_page};
ghost use Rattle.iom_directory_build.specs.Written.{encoded_word, entry_word, with_entry_at, with_context_at, cleared_at};
ghost use Rattle.iom_directory_build.specs.Changes.{StoresOneWord, WritesPlace};

use byteorder::{ByteOrder, LittleEndian};
use iom_base::{DeviceId, ENTRY_SIZE, PAGE_SIZE, Ppn};
use iom_device_dir::{CONTEXT_SIZE, Context, NonLeafEntry};
use iom_phys_mem::Bytes;

/// DDI\[level\], the index of an id in a page of the level.
fn index(level: u8, id: DeviceId) -> u64
    requires { level ≤ 2 }
    ensures value { result ≡ ddi level id }
    ensures range { result < 2 ^ 9 }
{
    match level {
        0 => u64::from(id) % (1 << 7),
        1 => (u64::from(id) >> 7) % (1 << 9),
        _ => (u64::from(id) >> 16) % (1 << 8),
    }
}

/// The page that the id's entry names, in a page of a level above 0.
pub(crate) fn next_page<B: Bytes>(memory: &B, page: u64, level: u8, id: DeviceId) -> Option<u64>
    requires page { page < 2 ^ 44 }
    requires level { level ≤ 2 }
    ensures value { result ≡ next_page (B.frames_of memory.now) page level id }
    ensures range { IfSome result (λ next. next < 2 ^ 44) }
{
    let word = memory.load_u64(PAGE_SIZE * page + ENTRY_SIZE * index(level, id))?;
    match NonLeafEntry::decode(word) {
        Ok(entry) => Some(entry.next.number()),
        Err(_) => None,
    }
}

/// Stores a word at a place of memory.
fn put_word<B: Bytes>(memory: &mut B, address: u64, word: u64)
    requires place { IsPlace 8 (B.frames_of memory.old) address }
    ensures stores { StoresOneWord (B.frames_of memory.old) (B.frames_of memory.new) address word }
    ensures whole { B.frames_of memory.new ≡ with_word 8 (B.frames_of memory.old) address word }
{
    let _stored = memory.store_u64(address, word);
}

/// Writes the id's entry in a page of a level above 0: it names the next page. The IOMMU may follow it from then
/// on: that page is zero already.
pub(crate) fn put_entry<B: Bytes>(memory: &mut B, page: u64, level: u8, id: DeviceId, next: u32)
    requires page { page < length (B.frames_of memory.old) }
    requires small { page < 2 ^ 44 }
    requires level { level ≤ 2 }
    requires zero { slice_get (B.frames_of memory.old) next ≡ Some zeroed }
    ensures stores { StoresOneWord (B.frames_of memory.old) (B.frames_of memory.new) (entry_place page (ddi level id)) (entry_word next) }
    ensures whole { B.frames_of memory.new ≡ with_entry_at (B.frames_of memory.old) page level id next }
{
    let entry = NonLeafEntry {
        next: Ppn::new(u64::from(next)).unwrap(),
    };
    let place = PAGE_SIZE * page + ENTRY_SIZE * index(level, id);
    put_word(memory, place, entry.encode());
}

/// Where the context of the id is, in a page of level 0.
fn context_place(page: u64, id: DeviceId) -> u64
    requires { page < 2 ^ 44 }
    ensures { result ≡ Rattle.iom_device_dir.specs.Paths.context_place page (ddi 0 id) }
{
    PAGE_SIZE * page + CONTEXT_SIZE as u64 * index(0, id)
}

/// The words of 32 bytes.
#[tactic(auto, unfolding(iom_device_dir::specs::Words::context_word))]
fn words_of_bytes(bytes: &[u8; CONTEXT_SIZE]) -> [u64; 4]
    ensures { result ≡ context_word bytes.now 0 ∷ context_word bytes.now 1 ∷ context_word bytes.now 2 ∷ context_word bytes.now 3 ∷ [] }
{
    [
        LittleEndian::read_u64(bytes),
        LittleEndian::read_u64(&bytes[8..]),
        LittleEndian::read_u64(&bytes[16..]),
        LittleEndian::read_u64(&bytes[24..]),
    ]
}

/// The words of the bytes of a context.
fn words_of(context: Context) -> [u64; 4]
    ensures words { result ≡ encoded_word context 0 ∷ encoded_word context 1 ∷ encoded_word context 2 ∷ encoded_word context 3 ∷ [] }
    ensures found { loaded_context (four_context_words (Some (encoded_word context 0)) (Some (encoded_word context 1))
        (Some (encoded_word context 2)) (Some (encoded_word context 3))) ≡ Ok context }
{
    words_of_bytes(&context.encode())
}

/// Stores the first word of a context, which makes it valid. The IOMMU may load the context from then on: its other
/// words stand already, so that what it loads is this context.
fn make_valid<B: Bytes>(memory: &mut B, place: u64, word: u64, context: &Context)
    requires place { IsPlace 8 (B.frames_of memory.old) place }
    requires others { let old = B.frames_of memory.old in
        loaded_context (four_context_words (Some word) (word_at 8 old (place + 8)) (word_at 8 old (place + 16)) (word_at 8 old (place + 24)))
        ≡ Ok context.now }
    ensures stores { StoresOneWord (B.frames_of memory.old) (B.frames_of memory.new) place word }
    ensures whole { B.frames_of memory.new ≡ with_word 8 (B.frames_of memory.old) place word }
{
    put_word(memory, place, word);
}

/// Clears a word of the context at a place, behind its first. That one is zero already, so that the IOMMU finds no
/// context there.
fn clear_behind<B: Bytes>(memory: &mut B, place: u64, address: u64)
    requires place { IsPlace 8 (B.frames_of memory.old) address }
    requires invalid { word_at 8 (B.frames_of memory.old) place ≡ Some 0 }
    ensures stores { StoresOneWord (B.frames_of memory.old) (B.frames_of memory.new) address 0 }
    ensures whole { B.frames_of memory.new ≡ with_word 8 (B.frames_of memory.old) address 0 }
{
    put_word(memory, address, 0);
}

/// Writes the context of the id in a page of level 0. The word that makes it valid is stored last.
pub(crate) fn write_context<B: Bytes>(memory: &mut B, page: u64, id: DeviceId, context: Context)
    requires page { page < length (B.frames_of memory.old) }
    requires small { page < 2 ^ 44 }
    ensures writes { WritesPlace (B.frames_of memory.old) (B.frames_of memory.new) page id (Ok context) }
    ensures whole { B.frames_of memory.new ≡ with_context_at (B.frames_of memory.old) page id context }
{
    let place = context_place(page, id);
    let [tc, iohgatp, ta, fsc] = words_of(context);
    put_word(memory, place + 24, fsc);
    put_word(memory, place + 16, ta);
    put_word(memory, place + 8, iohgatp);
    make_valid(memory, place, tc, &context);
}

/// Clears the place of the id's context in a page of level 0. The word that makes it invalid is stored first.
pub(crate) fn erase_context<B: Bytes>(memory: &mut B, page: u64, id: DeviceId)
    requires page { page < length (B.frames_of memory.old) }
    requires small { page < 2 ^ 44 }
    ensures writes { WritesPlace (B.frames_of memory.old) (B.frames_of memory.new) page id (Err DirectoryEntryNotValid) }
    ensures whole { B.frames_of memory.new ≡ cleared_at (B.frames_of memory.old) page id }
{
    let place = context_place(page, id);
    put_word(memory, place, 0);
    clear_behind(memory, place, place + 8);
    clear_behind(memory, place, place + 16);
    clear_behind(memory, place, place + 24);
}
