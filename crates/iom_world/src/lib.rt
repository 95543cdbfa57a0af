//! The world: hardware (`iom_hardware`) and its driver, as one value that takes events and answers each with one
//! outcome. An event either goes to the hardware, or is a call of the driver, which is lent the hardware's memory and
//! registers.
//!
//! Page tables stand in memory and are walked for every request (RISC-V Privileged Architecture,
//! "Sv39" and "Sv48"); the driver and the IOMMU talk in commands of 16 bytes and in registers (RISC-V IOMMU
//! Architecture Specification, section 3.1 and chapter 5). The layer above may rely on each event
//! ([`World::step`]) being a lawful step of the ledger machine, from every state that the world shows to one that it
//! shows then, whatever the event is; on what it does to memory, IOMMU, driver and devices, block devices (virtio 1.2)
//! with their queues and disks among them: the relation that the driver or the hardware states of its own call; and on a
//! whole run ([`World::run`]) being a run of that machine.
#![tactic(auto)]

mod answering;
mod block_devices;
mod commits;
mod comparing;
mod counts;
mod driving;
mod fetching;
mod looks;
mod messages;
mod plugging;
mod processor;
mod recovery;
mod requests;
mod run;
mod settling;
mod start;
mod stepping;
mod through_cache;
mod world;

pub use fetching::named;
pub use world::World;
