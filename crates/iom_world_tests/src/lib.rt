//! Drawn runs of whole worlds, held against a plain list of what was granted, released and confirmed.
//!
//! The crate has tests alone, and nothing stands on it. Over one device of each kind, in every mode and size, anything
//! happens: a guest's tables, rings and descriptors stand in the very frames that are granted (hypervisor extension,
//! "Two-Stage Address Translation"; virtio 1.2, section 2.7), and the processor and the devices write them between any
//! two events; messages are delivered in any order, lost, repeated and forged (PCI Express Base Specification, chapter
//! 10); fences are given up, devices quarantined, revived, detached and reset.
//!
//! The test is no run of the ledger machine, and doesn't use its judge. It keeps what was done about devices and grants as
//! a list of entries that it reads off the outcomes (`history`), and from it alone decides which frames a device may reach.
//! Each access that a commit makes has to be on such a frame, and on one on which it may have been accepted; the bytes of
//! all frames that are granted are read after it, and are as they have to be. Each reply to a request and each answer to a
//! question has to be one that `rules` allows. Half of the runs are of worlds whose walks make one load an event (`walks`);
//! there it is judged at the event that answers. What was met is noted (`met`), and `wanted` says what has to be.
#![tactic(auto)]

#[cfg(test)]
mod bursts;
#[cfg(test)]
mod call;
#[cfg(test)]
mod chooser;
#[cfg(test)]
mod choosing;
#[cfg(test)]
mod devices;
#[cfg(test)]
mod draw;
#[cfg(test)]
mod drawn;
#[cfg(test)]
mod flights;
#[cfg(test)]
mod frames;
#[cfg(test)]
mod history;
#[cfg(test)]
mod judge;
#[cfg(test)]
mod knows;
#[cfg(test)]
mod messages;
#[cfg(test)]
mod met;
#[cfg(test)]
mod pace;
#[cfg(test)]
mod parts;
#[cfg(test)]
mod reply;
#[cfg(test)]
mod rules;
#[cfg(test)]
mod run;
#[cfg(test)]
mod walks;
#[cfg(test)]
mod wanted;
