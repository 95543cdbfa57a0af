// The commands of a release, of a detach or a quarantine, and of a restart. Those of a release are made in place, so that the constant parts of
// their words are known when it is compiled.
ghost use Rattle.std.specs.Prelude.{◌≡◌, ◌+◌, ◌*◌, ◌/◌, ◌%◌, ◌<◌, ◌≤◌, ◌^◌, ◌≢◌, ◌∷◌, [], ℕ, true, None, Some, length, slice_get, if◌then◌else◌};
ghost use Rattle.iom_command_queue.specs.declared.command.Command.TheVariants.{AtsInval};
ghost use Rattle.iom_command_queue.specs.Waiting.{how_many};
ghost use Rattle.iom_page_table.specs.Leaves.{leaf_of};
ghost use Rattle.iom_base.specs.Modes.{size_in};
ghost use Rattle.iom_base.specs.Sizes.{levels_of};
ghost use Rattle.iom_driver.specs.Appends.{invalidation_of, invalidation, space_invalidation, context_invalidation, dropped_range, device_invalidation, fence};
ghost use Rattle.iom_driver.specs.Appends.{release_commands, detach_commands, Appends, AppendsAll};
ghost use Rattle.iom_driver.specs.Restarts.{device_reset, requeued, IsNamable};
ghost use Rattle.iom_driver.specs.Layout.{command_frame, completion_address, directory_frame, queue_entries};
ghost use Rattle.iom_driver.specs.Orders.{IsQuarantinedInMemory};
ghost use Rattle.iom_driver.specs.Directory.{KeepsDirectory};
ghost use Rattle.iom_driver.specs.Ready.{IsRing, KeepsFaults};
ghost use Rattle.iom_driver.specs.Reasons.{release_places};

use crate::device::{Device, Stages};
use crate::driver::Driver;
use crate::layout::completion_address;
use iom_base::{DeviceId, Mode};
use iom_command_queue::{
    AtsRange, Command, CommandRing, DeviceNumber, FenceAddress, FenceStore, PageNumber, Pscid,
};
use iom_phys_mem::Memory;
use iom_registers::Mmio;

/// Drop translations in the address space of this number in the mode: those of the page, or all. Where the
/// first stage translates alone the number is a PSCID; else it is a GSCID, and the page a guest physical one.
#[inline(always)]
fn invalidation_of(mode: Mode, number: u32, page: Option<PageNumber>) -> Command
    requires { number < 2 ^ 16 }
    ensures { result ≡ invalidation_of mode number page }
{
    match mode {
        Mode::First(_) => Command::IotinvalVma {
            gscid: None,
            pscid: Pscid::new(number),
            page,
        },
        Mode::Second(_) | Mode::Both(_) => Command::IotinvalGvma {
            gscid: Some(number as u16),
            page,
        },
    }
}

/// Drop the translations of the page in this address space.
#[inline(always)]
fn invalidation(mode: Mode, number: u32, page: u64) -> Command
    requires number { number < 2 ^ 16 }
    requires page { page < 2 ^ 52 }
    ensures { result ≡ invalidation mode number page }
{
    invalidation_of(mode, number, PageNumber::new(page))
}

/// Drop all translations in this address space.
fn space_invalidation(mode: Mode, number: u32) -> Command
    requires { number < 2 ^ 16 }
    ensures { result ≡ space_invalidation mode number }
{
    invalidation_of(mode, number, None)
}

/// Drop the context of the device.
fn context_invalidation(id: DeviceId) -> Command
    requires { id < 2 ^ 24 }
    ensures { result ≡ context_invalidation id }
{
    Command::IodirInvalDdt {
        device: DeviceNumber::new(id),
    }
}

/// What a device with ATS is to drop when its page is released: in both stages everything, since the page is
/// then a guest physical one.
fn dropped_range(mode: Mode, page: u64) -> AtsRange
    requires { page < 2 ^ 52 }
    ensures { result ≡ dropped_range mode page }
{
    match mode {
        Mode::First(_) | Mode::Second(_) => AtsRange::Page(PageNumber::new(page).unwrap()),
        Mode::Both(_) => AtsRange::Everything,
    }
}

/// The device is to drop its own translations of the page.
fn device_invalidation(id: DeviceId, mode: Mode, page: u64) -> Command
    requires id { id < 2 ^ 24 }
    requires page { page < 2 ^ 52 }
    ensures { result ≡ AtsInval id (dropped_range mode page) }
{
    Command::AtsInval {
        device: DeviceNumber::new(id).unwrap(),
        range: dropped_range(mode, page),
    }
}

/// When all before is complete, accesses under way among it, store the number.
#[inline(always)]
fn fence(address: u64, number: u32) -> Command
    requires { address % 4 ≡ 0 }
    ensures { result ≡ fence address number }
{
    let address = FenceAddress::new(address).unwrap();
    let data = number;
    Command::IofenceC {
        store: Some(FenceStore { address, data }),
        wsi: false,
        pr: true,
        pw: true,
    }
}

/// Appends a command to the driver's ring.
#[inline(always)]
fn append<M: Mmio>(memory: &mut Memory, io: &mut M, command: Command)
    requires many { 64 ≤ length memory.old }
    requires ring { IsRing (length memory.old) (M.registers io.old) }
    requires room { how_many (M.registers io.old) + 1 < queue_entries }
    ensures appended { Appends M.Mmio memory.old io.old command memory.new io.new }
    ensures count { how_many (M.registers io.new) ≡ how_many (M.registers io.old) + 1 }
    ensures ring { IsRing (length memory.old) (M.registers io.new) }
    ensures named { KeepsDirectory (M.registers io.old) (M.registers io.new) }
    ensures faults { KeepsFaults (M.registers io.old) (M.registers io.new) }
    ensures other_frames { (n : ℕ) → n ≢ command_frame (length memory.old) → slice_get memory.new n ≡ slice_get memory.old n }
    ensures size { length memory.new ≡ length memory.old }
{
    CommandRing::append(memory, io, command);
}

/// Where the device may keep translations of its own, appends the command that asks it to drop those of the
/// page.
#[inline(always)]
fn append_device_invalidation<M: Mmio>(
    memory: &mut Memory,
    io: &mut M,
    id: DeviceId,
    stage: Stages,
    page: u64,
)
    requires many { 64 ≤ length memory.old }
    requires ring { IsRing (length memory.old) (M.registers io.old) }
    requires room { stage.ats ≡ true → how_many (M.registers io.old) + 1 < queue_entries }
    requires id { id < 2 ^ 24 }
    requires page { page < 2 ^ 52 }
    ensures appended { AppendsAll M.Mmio memory.old io.old (device_invalidation id stage page) memory.new io.new }
    ensures count { how_many (M.registers io.new) ≡ how_many (M.registers io.old) + (if stage.ats then 1 else 0) }
    ensures ring { IsRing (length memory.old) (M.registers io.new) }
    ensures named { KeepsDirectory (M.registers io.old) (M.registers io.new) }
    ensures faults { KeepsFaults (M.registers io.old) (M.registers io.new) }
    ensures other_frames { (n : ℕ) → n ≢ command_frame (length memory.old) → slice_get memory.new n ≡ slice_get memory.old n }
    ensures size { length memory.new ≡ length memory.old }
{
    if stage.ats {
        append(memory, io, device_invalidation(id, stage.mode, page));
    }
}

/// Appends the commands of a release: the invalidation of its page, where the device has ATS the one that asks
/// it to drop its own translations, and the fence of this number. The page has no leaf any more by then: the
/// IOMMU could else load it again once it has done the invalidation.
#[inline(always)]
pub(crate) fn append_release<M: Mmio>(
    memory: &mut Memory,
    io: &mut M,
    frames: u32,
    id: DeviceId,
    stage: Stages,
    page: u64,
    number: u32,
)
    requires frames { length memory.old ≡ frames }
    requires many { 64 ≤ frames }
    requires ring { IsRing frames (M.registers io.old) }
    requires room { how_many (M.registers io.old) + release_places (Some stage) < queue_entries }
    requires id { id < 2 ^ 24 }
    requires number { stage.number < 2 ^ 16 }
    requires page { page < 2 ^ 52 }
    requires unmapped { leaf_of (levels_of (size_in stage.mode)) memory.old stage.root page ≡ None }
    ensures appended { let commands = release_commands id stage page (completion_address frames) number in
        AppendsAll M.Mmio memory.old io.old commands memory.new io.new }
    ensures ring { IsRing frames (M.registers io.new) }
    ensures named { KeepsDirectory (M.registers io.old) (M.registers io.new) }
    ensures faults { KeepsFaults (M.registers io.old) (M.registers io.new) }
    ensures other_frames { (n : ℕ) → n ≢ command_frame frames → slice_get memory.new n ≡ slice_get memory.old n }
    ensures size { length memory.new ≡ length memory.old }
{
    append(memory, io, invalidation(stage.mode, stage.number, page));
    append_device_invalidation(memory, io, id, stage, page);
    append(memory, io, fence(completion_address(frames), number));
}

impl Driver {
    /// Appends the commands of a detach, or of a quarantine: the invalidations of the device's context and of its
    /// address space, and the fence of this number. The device has no context any more by then, and its tables map
    /// nothing: the IOMMU could else load them again once it has done the invalidations.
    pub(crate) fn append_detach<M: Mmio>(
        &self,
        memory: &mut Memory,
        io: &mut M,
        id: DeviceId,
        stage: Stages,
        number: u32,
    )
        requires frames { length memory.old ≡ self.now.frames }
        requires many { 64 ≤ self.now.frames }
        requires ring { IsRing self.now.frames (M.registers io.old) }
        requires room { how_many (M.registers io.old) + 3 < queue_entries }
        requires id { id < 2 ^ 24 }
        requires number { stage.number < 2 ^ 16 }
        requires quarantined { IsQuarantinedInMemory memory.old self.now.levels (directory_frame self.now.frames) id stage }
        ensures appended { let commands = detach_commands id stage (completion_address self.now.frames) number in
            AppendsAll M.Mmio memory.old io.old commands memory.new io.new }
        ensures ring { IsRing self.now.frames (M.registers io.new) }
        ensures named { KeepsDirectory (M.registers io.old) (M.registers io.new) }
        ensures faults { KeepsFaults (M.registers io.old) (M.registers io.new) }
        ensures other_frames { (n : ℕ) → n ≢ command_frame self.now.frames → slice_get memory.new n ≡ slice_get memory.old n }
        ensures size { length memory.new ≡ length memory.old }
    {
        append(memory, io, context_invalidation(id));
        append(memory, io, space_invalidation(stage.mode, stage.number));
        append(memory, io, fence(completion_address(self.frames), number));
    }
}

/// Where the device has ATS, appends the command that asks it to drop all its own translations.
fn append_device_reset<M: Mmio>(memory: &mut Memory, io: &mut M, id: DeviceId, ats: bool)
    requires many { 64 ≤ length memory.old }
    requires ring { IsRing (length memory.old) (M.registers io.old) }
    requires room { how_many (M.registers io.old) + 1 < queue_entries }
    requires id { id < 2 ^ 24 }
    ensures appended { AppendsAll M.Mmio memory.old io.old (device_reset id ats) memory.new io.new }
    ensures count { how_many (M.registers io.new) ≤ how_many (M.registers io.old) + 1 }
    ensures ring { IsRing (length memory.old) (M.registers io.new) }
    ensures named { KeepsDirectory (M.registers io.old) (M.registers io.new) }
    ensures faults { KeepsFaults (M.registers io.old) (M.registers io.new) }
    ensures other_frames { (n : ℕ) → n ≢ command_frame (length memory.old) → slice_get memory.new n ≡ slice_get memory.old n }
    ensures size { length memory.new ≡ length memory.old }
{
    if ats {
        let device = DeviceNumber::new(id).unwrap();
        let range = AtsRange::Everything;
        append(memory, io, Command::AtsInval { device, range });
    }
}

/// Appends the commands of a restart for one device: where it is attached, quarantined or leaving, those that drop
/// all that the IOMMU has cached of it; where it is attached with ATS, one that asks it to drop its own
/// translations.
pub(crate) fn append_device<M: Mmio>(memory: &mut Memory, io: &mut M, device: Device)
    requires many { 64 ≤ length memory.old }
    requires ring { IsRing (length memory.old) (M.registers io.old) }
    requires room { how_many (M.registers io.old) + 3 < queue_entries }
    requires namable { IsNamable device }
    ensures appended { AppendsAll M.Mmio memory.old io.old (requeued device) memory.new io.new }
    ensures count { how_many (M.registers io.new) ≤ how_many (M.registers io.old) + 3 }
    ensures ring { IsRing (length memory.old) (M.registers io.new) }
    ensures named { KeepsDirectory (M.registers io.old) (M.registers io.new) }
    ensures faults { KeepsFaults (M.registers io.old) (M.registers io.new) }
    ensures other_frames { (n : ℕ) → n ≢ command_frame (length memory.old) → slice_get memory.new n ≡ slice_get memory.old n }
    ensures size { length memory.new ≡ length memory.old }
{
    let Some(stage) = device.attachment.owned_stages() else {
        return;
    };
    append(memory, io, context_invalidation(device.id));
    append(memory, io, space_invalidation(stage.mode, stage.number));
    append_device_reset(
        memory,
        io,
        device.id,
        device.attachment.asks_for_translations(),
    );
}

/// Appends the fence of this number.
pub(crate) fn append_fence<M: Mmio>(memory: &mut Memory, io: &mut M, frames: u32, number: u32)
    requires frames { length memory.old ≡ frames }
    requires many { 64 ≤ frames }
    requires ring { IsRing frames (M.registers io.old) }
    requires room { how_many (M.registers io.old) + 1 < queue_entries }
    ensures appended { AppendsAll M.Mmio memory.old io.old (fence (completion_address frames) number ∷ []) memory.new io.new }
    ensures ring { IsRing frames (M.registers io.new) }
    ensures named { KeepsDirectory (M.registers io.old) (M.registers io.new) }
    ensures faults { KeepsFaults (M.registers io.old) (M.registers io.new) }
    ensures other_frames { (n : ℕ) → n ≢ command_frame frames → slice_get memory.new n ≡ slice_get memory.old n }
    ensures size { length memory.new ≡ length memory.old }
{
    append(memory, io, fence(completion_address(frames), number));
}
