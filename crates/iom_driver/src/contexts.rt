// The context of a device by its stages (IOMMU specification, section 2.1.2, "Base-format Device Context").
ghost use Rattle.std.specs.Prelude.{◌≡◌, ◌<◌, ◌^◌, ◌%◌};
ghost use Rattle.iom_base.specs.PageNumbers.{page_from};
ghost use Rattle.iom_device_dir.specs.Values.{address_space_from, guest_root_from};
ghost use Rattle.iom_device_dir.specs.declared.stages.FirstStage.TheVariants as first;
ghost use Rattle.iom_device_dir.specs.declared.stages.SecondStage.TheVariants as second;
ghost use Rattle.iom_driver.specs.Admitted.{IsAligned};
ghost use Rattle.iom_driver.specs.Directory.{context_for};
ghost use Rattle.iom_driver.specs.Orders.{MapsNothing};

use crate::device::Stages;
use iom_base::{Mode, Ppn, Size};
use iom_device_dir::{Context, FirstStage, GuestRoot, Pscid, SecondStage};
use iom_phys_mem::Memory;

/// A first stage of the size with its root in this page.
fn first_stage(size: Size, root: u32) -> FirstStage
    ensures { result ≡ first.Tables size (page_from 0 root) }
{
    let root = Ppn::new(u64::from(root)).unwrap();
    FirstStage::Tables { size, root }
}

/// A second stage of the size with its root in the four frames from this one on.
fn second_stage(size: Size, root: u32) -> SecondStage
    requires { root % 4 ≡ 0 }
    ensures { result ≡ second.Tables size (guest_root_from root) }
{
    let root = GuestRoot::new(u64::from(root)).unwrap();
    SecondStage::Tables { size, root }
}

/// The address space of this number.
fn space(number: u32) -> Pscid
    requires { number < 2 ^ 20 }
    ensures { result ≡ address_space_from 0 number }
{
    Pscid::new(number).unwrap()
}

/// The context of a device that is attached in these stages. In both the root of the first is the guest
/// physical page 0, and its tables are of the size of the second's. The IOMMU may use the tables at the root
/// once the context is written: whoever has it was lent the memory, in which these tables map nothing already.
pub(crate) fn context_for(memory: &Memory, stages: Stages) -> Context
    requires number { stages.number < 2 ^ 16 }
    requires root { IsAligned stages.mode stages.root }
    requires nothing { MapsNothing stages.mode memory.now stages.root }
    ensures { result ≡ context_for stages }
{
    match stages.mode {
        Mode::First(size) => Context {
            en_ats: stages.ats,
            first_stage: first_stage(size, stages.root),
            second_stage: SecondStage::Bare,
            pscid: space(stages.number),
            gscid: 0,
        },
        Mode::Second(size) => Context {
            en_ats: stages.ats,
            first_stage: FirstStage::Bare,
            second_stage: second_stage(size, stages.root),
            pscid: space(0),
            gscid: stages.number as u16,
        },
        Mode::Both(size) => Context {
            en_ats: stages.ats,
            first_stage: first_stage(size, 0),
            second_stage: second_stage(size, stages.root),
            pscid: space(stages.number),
            gscid: stages.number as u16,
        },
    }
}
