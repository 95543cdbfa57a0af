// A device is attached.
ghost use Rattle.std.specs.Prelude.{◌≡◌, ◌≤◌, ◌<◌, ◌⊎◌, ℕ, List, None, length, IfSome, IfNone, MatchOption};
ghost use Rattle.iom_registers.specs.declared.registers.Registers.{Registers};
ghost use Rattle.iom_driver.specs.Attaching.{AnswersAttach, IsRootBelow, NoRootBelow, TakesRoot, limit_below};
ghost use Rattle.iom_driver.specs.Choices.{AreHighestFree};
ghost use Rattle.iom_driver.specs.Devices.{is_used, IsLowestNumber};
ghost use Rattle.iom_driver.specs.Entering.{MayEnter};
ghost use Rattle.iom_driver.specs.Places.{IsAttachmentPlace};
ghost use Rattle.iom_driver.specs.Ready.{TablesStand, IsReady};
ghost use Rattle.iom_driver.specs.StateOf.{state_of};
ghost use Rattle.iom_table_frames.specs.Owners.{HasFree};

use crate::choosing::{reserve_all, reserve_root};
use crate::contexts::context_for;
use crate::device::{Attachment, Device, Stages};
use crate::driver::Driver;
use crate::layout::{MAX_DEVICES, directory_frame};
use arrayvec::ArrayVec;
use iom_base::{DeviceId, Mode, Owner, Refusal};
use iom_directory_build::{missing, put_context};
use iom_phys_mem::Memory;

/// Whether an attached, quarantined or leaving device holds the address-space number.
fn is_used(devices: &[Device], number: u32) -> bool
    ensures { result ≡ is_used devices.now number }
{
    devices.iter().any(|device| match device.attachment {
        Attachment::Detached => false,
        Attachment::Attached(stage) => stage.number == number,
        Attachment::Quarantined { stage, .. } => stage.number == number,
        Attachment::Leaving { stage, .. } => stage.number == number,
    })
}

/// The lowest address-space number from 1 on that no attached, quarantined or leaving device holds. Of 17
/// numbers the devices, at most 16, leave one.
fn lowest_number(devices: &[Device]) -> u32
    requires { length devices.now ≤ 16 }
    ensures lowest { IsLowestNumber devices.now result }
    ensures small { result ≤ 17 }
{
    for number in 1..MAX_DEVICES as u32 + 1 {
        if !is_used(devices, number) {
            return number;
        }
    }
    MAX_DEVICES as u32 + 1
}

/// The frames that an attach takes: pages of the directory, and the root of a device's tables, by the first
/// of its frames.
#[derive(Drop)]
struct Taken {
    pages: ArrayVec<u32, 3>,
    root: u32,
}

impl Driver {
    /// The root of tables in the mode: the highest free frame below the limit, or the highest four.
    fn choose_root(&self, mode: Mode, limit: u32) -> Option<u32>
        requires { limit ≤ self.now.frames }
        ensures { MatchOption result (NoRootBelow mode (state_of self.now) limit) (IsRootBelow mode (state_of self.now) limit) }
    {
        match mode {
            Mode::First(_) => self.owners.highest_free(&self.ledger, limit, None),
            Mode::Second(_) | Mode::Both(_) => self.owners.highest_four(&self.ledger, limit),
        }
    }

    /// The highest free frames: so many pages, and then a root.
    fn choose_with_root(&self, mode: Mode, pages: usize) -> Option<Taken>
        requires { pages ≤ 2 }
        ensures chosen { IfSome result (λ taken.
            AreHighestFree self.now.owners self.now.ledger None self.now.frames pages taken.pages.items) }
        ensures root { IfSome result (λ taken.
            IsRootBelow mode (state_of self.now) (limit_below self.now.frames taken.pages.items) taken.root) }
        ensures none { IfNone result ((¬ HasFree self.now.owners self.now.ledger None pages self.now.frames)
            ⊎ ((few : List ℕ) × AreHighestFree self.now.owners self.now.ledger None self.now.frames pages few
            × NoRootBelow mode (state_of self.now) (limit_below self.now.frames few))) }
    {
        let pages = self.choose(pages, None)?;
        let limit = pages.last().copied().unwrap_or(self.frames);
        let root = self.choose_root(mode, limit)?;
        Some(Taken { pages, root })
    }

    /// The frames are reserved, the pages for the system and the root's for the device, and made zero; the pages
    /// are hung on the id's path, with the device's context; and the device is attached in the stages.
    fn enter(
        &mut self,
        memory: &mut Memory,
        id: DeviceId,
        place: usize,
        stages: Stages,
        pages: &[u32],
    )
        requires stand { TablesStand (state_of self.old) memory.old }
        requires may { MayEnter (state_of self.old) self.old.frames memory.old id stages pages.now }
        requires place { IsAttachmentPlace self.old.devices.items id place }
        ensures effect { TakesRoot (state_of self.old) memory.old id stages.mode stages.ats (state_of self.new) memory.new }
        ensures stand { TablesStand (state_of self.new) memory.new }
        ensures ready { (r : Registers) → IsReady (state_of self.old) memory.old r → IsReady (state_of self.new) memory.new r }
    {
        let directory = directory_frame(self.frames);
        let owner = Owner::OneDevice(id);
        reserve_all(&mut self.owners, memory, pages, Owner::System);
        reserve_root(&mut self.owners, memory, stages.mode, stages.root, owner);
        let context = context_for(memory, stages);
        put_context(memory, self.levels, directory, id, context, pages);
        self.devices[place].attachment = Attachment::Attached(stages);
    }

    /// The device is attached in the mode, with ATS (it may ask for translations and keep them) or without: the
    /// directory pages that its id's path lacks, from the root of the directory down, and then the root of its
    /// tables take the highest free frames, a root of a second stage the highest four side by side; its address
    /// space takes the lowest number from 1 on that no attached, quarantined or leaving device holds; its
    /// context is written. `NotStarted`, `NoSuchDevice`, `AlreadyAttached` (a quarantined or leaving device
    /// too), `IdTooWide`, `NotTrusted` where ATS is asked for a device that isn't trusted, `NoFrames`: the
    /// first that applies, and then nothing changes. Takes no memory.
    pub fn attach(
        &mut self,
        memory: &mut Memory,
        id: DeviceId,
        mode: Mode,
        ats: bool,
    ) -> Result<(), Refusal>
        requires stand { TablesStand (state_of self.old) memory.old }
        ensures effect { AnswersAttach (state_of self.old) memory.old id mode ats result (state_of self.new) memory.new }
        ensures stand { TablesStand (state_of self.new) memory.new }
        ensures ready { (r : Registers) → IsReady (state_of self.old) memory.old r → IsReady (state_of self.new) memory.new r }
    {
        let place = match self.admit_attach(id, ats) {
            Ok(place) => place,
            Err(why) => return Err(why),
        };
        let directory = directory_frame(self.frames);
        let lacking = missing(memory, self.levels, directory, id);
        let Some(taken) = self.choose_with_root(mode, lacking) else {
            return Err(Refusal::NoFrames);
        };
        let root = taken.root;
        let number = lowest_number(&self.devices);
        let stages = Stages {
            mode,
            root,
            number,
            ats,
        };
        self.enter(memory, id, place, stages, taken.pages.as_slice());
        Ok(())
    }
}
