// A device gets a frame at a page.
ghost use Rattle.iom_registers.specs.declared.registers.Registers.{Registers};
ghost use Rattle.iom_driver.specs.Calls.{AnswersGrant};
ghost use Rattle.iom_driver.specs.Ready.{TablesStand, IsReady};
ghost use Rattle.iom_driver.specs.StateOf.{state_of};

use crate::choosing::reserve_all;
use crate::driver::Driver;
use crate::mapping::Mapping;
use iom_base::{DeviceId, Owner, Refusal};
use iom_page_table::{PageLeaf, map, missing};
use iom_phys_mem::Memory;

impl Driver {
    /// The device gets the frame at the page: the tables that are missing take the highest free frames, from
    /// the root down, the granted one passed over, and the page's leaf is written. No command is queued.
    /// `NotStarted`, `NoSuchDevice`, `NotAttached`, `FrameOutOfRange`, `FrameReserved`, `IovaOutOfRange` where
    /// the page isn't below the limit of the size of the device's mode, `IovaBusy`, `NoFrames`, `Memory`: the
    /// first that applies.
    pub fn grant(
        &mut self,
        memory: &mut Memory,
        id: DeviceId,
        mapping: Mapping,
    ) -> Result<(), Refusal>
        requires stand { TablesStand (state_of self.old) memory.old }
        ensures effect { AnswersGrant (state_of self.old) memory.old id mapping.page mapping.frame mapping.rights result (state_of self.new) memory.new }
        ensures stand { TablesStand (state_of self.new) memory.new }
        ensures ready { (r : Registers) → IsReady (state_of self.old) memory.old r → IsReady (state_of self.new) memory.new r }
    {
        let stage = match self.admit_grant(id, mapping) {
            Ok(stage) => stage,
            Err(why) => return Err(why),
        };
        let size = stage.mode.size();
        let root = stage.root;
        let page = mapping.page;
        let frame = mapping.frame as u32;
        let rights = mapping.rights.rights();
        let lacking = missing(memory, size, root, page);
        let Some(tables) = self.choose(lacking, Some(frame)) else {
            return Err(Refusal::NoFrames);
        };
        if self.ledger.grant(id, page, frame, rights).is_err() {
            return Err(Refusal::Memory);
        }
        let owner = Owner::OneDevice(id);
        reserve_all(&mut self.owners, memory, tables.as_slice(), owner);
        let leaf = PageLeaf { frame, rights };
        map(memory, size, root, page, leaf, tables.as_slice());
        Ok(())
    }
}
