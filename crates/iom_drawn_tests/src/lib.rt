//! Drawn runs of worlds, judged step by step by the ledger machine's own judge, and settled at their end.
//!
//! The crate has tests alone, and nothing stands on it. Three kinds of runs are drawn (`Plan`). In the first there are
//! three raw devices, one in each mode: a guest's own tables (hypervisor extension, "Two-Stage Address Translation") are
//! written between any two events, by the device in both stages and by the processor. The second has address translation
//! services (PCI Express Base Specification, chapter 10): two devices with a cache of translations of their own ask,
//! keep, use and drop translations, while a raw device forges; messages are delivered in any order, lost and repeated.
//! In the third the devices come and go as well: they are quarantined, revived, detached, attached again and reset, fences
//! that wait for them are given up, and the command queue is restarted. Tables of both sizes come in each mode.
//!
//! Three things the judge is asked that no line says. One is the frame on which an access was accepted: the runs let it
//! show later, since every frame names itself in its last eight bytes, which each read takes in, and each write has
//! bytes of its own, which the processor looks for once it is made. Another is the question that is delivered: the test
//! has a list of the messages under way, which it keeps by the lines. The third is which frames became tables, or pages
//! of the device directory: by the rule of the driver the highest that are free.
#![tactic(auto)]

#[cfg(test)]
mod choices;
#[cfg(test)]
mod draw;
#[cfg(test)]
mod drawn_ats;
#[cfg(test)]
mod drawn_modes;
#[cfg(test)]
mod expect;
#[cfg(test)]
mod judged;
#[cfg(test)]
mod lifecycle;
#[cfg(test)]
mod messages;
#[cfg(test)]
mod notes;
#[cfg(test)]
mod recovering;
#[cfg(test)]
mod run;
#[cfg(test)]
mod settled;
