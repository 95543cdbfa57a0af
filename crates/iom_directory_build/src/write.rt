ghost use Rattle.std.specs.Prelude.{◌≡◌, ◌⊎◌, ◌↔◌, ℕ, ◌<◌, ◌≤◌, ◌^◌, length, Ok, Err, IfSome};
ghost use Rattle.std.specs.List.{Contains};
ghost use Rattle.iom_base.specs.declared.cause.Cause.TheVariants.{DirectoryEntryNotValid};
ghost use Rattle.iom_device_dir.specs.Paths.{ids_below};
ghost use Rattle.iom_device_dir.specs.Located.{path_end_from};
ghost use Rattle.iom_directory_build.specs.Pages.{root_level, page_at, HasPage, HasWholePath, IsDirectory, missing_pages, AreFreshPages};
ghost use Rattle.iom_directory_build.specs.Written.{hung, without_context};
ghost use Rattle.iom_directory_build.specs.Changes.{KeepsOthers, KeepsPages, KeepsOutsideDirectory};

use crate::entries::{erase_context, next_page, put_entry, write_context};
use iom_base::DeviceId;
use iom_device_dir::Context;
use iom_phys_mem::Bytes;

/// How many pages are missing for a context of the id, 0 to 2. At most two loads.
pub fn missing<B: Bytes>(memory: &B, levels: u8, root: u32, id: DeviceId) -> usize
    requires levels { (1 ≤ levels) × (levels ≤ 3) }
    ensures { result ≡ missing_pages (B.frames_of memory.now) (root_level levels) root id }
{
    let mut page = u64::from(root);
    for level in (1..levels).rev() {
        match next_page(memory, page, level, id) {
            Some(next) => page = next,
            None => return level as usize,
        }
    }
    0
}

/// The page of level 0 on the path of the id.
fn page_of_contexts<B: Bytes>(memory: &B, levels: u8, root: u32, id: DeviceId) -> Option<u64>
    requires levels { (1 ≤ levels) × (levels ≤ 3) }
    ensures page { result ≡ page_at (B.frames_of memory.now) (root_level levels) root 0 id }
    ensures range { IfSome result (λ page. page < 2 ^ 44) }
{
    let mut page = u64::from(root);
    for level in (1..levels).rev() {
        page = next_page(memory, page, level, id)?;
    }
    Some(page)
}

/// Writes the context of an id that has none yet: hangs the missing pages on its path, from the root down, and
/// writes the context. `pages` are as many as [`missing`] says, zeroed, distinct and no pages of the directory. At
/// most two loads, and four stores more than there are pages.
pub fn put_context<B: Bytes>(
    memory: &mut B,
    levels: u8,
    root: u32,
    id: DeviceId,
    context: Context,
    pages: &[u32],
)
    requires levels { (1 ≤ levels) × (levels ≤ 3) }
    requires id { id < ids_below (root_level levels) }
    requires directory { IsDirectory (B.frames_of memory.old) (root_level levels) root }
    requires empty { path_end_from (B.frames_of memory.old) (root_level levels) root id ≡ Err DirectoryEntryNotValid }
    requires count { length pages.now ≡ missing_pages (B.frames_of memory.old) (root_level levels) root id }
    requires fresh { AreFreshPages (B.frames_of memory.old) (root_level levels) root pages.now }
    ensures directory { IsDirectory (B.frames_of memory.new) (root_level levels) root }
    ensures pages { (f : ℕ) → HasPage (B.frames_of memory.new) (root_level levels) root f
        ↔ (HasPage (B.frames_of memory.old) (root_level levels) root f ⊎ Contains pages.now f) }
    ensures here { path_end_from (B.frames_of memory.new) (root_level levels) root id ≡ Ok context }
    ensures path { HasWholePath (B.frames_of memory.new) (root_level levels) root id }
    ensures paths { (other : ℕ) → other < ids_below (root_level levels)
        → HasWholePath (B.frames_of memory.old) (root_level levels) root other
        → HasWholePath (B.frames_of memory.new) (root_level levels) root other }
    ensures others { KeepsOthers (B.frames_of memory.old) (B.frames_of memory.new) (root_level levels) root id }
    ensures keeps { KeepsPages (B.frames_of memory.old) (B.frames_of memory.new) (root_level levels) root }
    ensures outside { KeepsOutsideDirectory (B.frames_of memory.old) (B.frames_of memory.new) (root_level levels) root }
    ensures size { length (B.frames_of memory.new) ≡ length (B.frames_of memory.old) }

    // What the clauses above follow from, as one equation.
    ensures whole { B.frames_of memory.new ≡ hung (B.frames_of memory.old) (root_level levels) root id pages.now context }
{
    let mut page = u64::from(root);
    let mut used = 0;
    for level in (1..levels).rev() {
        match next_page(memory, page, level, id) {
            Some(next) => page = next,
            None => {
                put_entry(memory, page, level, id, pages[used]);
                page = u64::from(pages[used]);
                used += 1;
            }
        }
    }
    write_context(memory, page, id, context);
}

/// Clears the context of an id: its 32 bytes are zero, and no other byte changes. An id whose path has no page of
/// contexts has none to clear.
pub fn clear_context<B: Bytes>(memory: &mut B, levels: u8, root: u32, id: DeviceId)
    requires levels { (1 ≤ levels) × (levels ≤ 3) }
    requires id { id < ids_below (root_level levels) }
    requires directory { IsDirectory (B.frames_of memory.old) (root_level levels) root }
    ensures directory { IsDirectory (B.frames_of memory.new) (root_level levels) root }
    ensures pages { (f : ℕ) → HasPage (B.frames_of memory.new) (root_level levels) root f
        ↔ HasPage (B.frames_of memory.old) (root_level levels) root f }
    ensures here { path_end_from (B.frames_of memory.new) (root_level levels) root id ≡ Err DirectoryEntryNotValid }
    ensures paths { (other : ℕ) → other < ids_below (root_level levels)
        → HasWholePath (B.frames_of memory.old) (root_level levels) root other
        → HasWholePath (B.frames_of memory.new) (root_level levels) root other }
    ensures others { KeepsOthers (B.frames_of memory.old) (B.frames_of memory.new) (root_level levels) root id }
    ensures keeps { KeepsPages (B.frames_of memory.old) (B.frames_of memory.new) (root_level levels) root }
    ensures outside { KeepsOutsideDirectory (B.frames_of memory.old) (B.frames_of memory.new) (root_level levels) root }
    ensures size { length (B.frames_of memory.new) ≡ length (B.frames_of memory.old) }

    // What the clauses above follow from, as one equation.
    ensures whole { B.frames_of memory.new ≡ without_context (B.frames_of memory.old) (root_level levels) root id }
{
    match page_of_contexts(memory, levels, root, id) {
        Some(page) => erase_context(memory, page, id),
        None => {}
    }
}
