//! Calls of the public functions of `iom_machine`, `iom_machine_judge`, `iom_device` and `iom_script`, on their happy paths
//! and at their edges.
//!
//! The crate has tests alone, and nothing stands on it. It stands apart from the crates that it calls
//! because a crate with tests of its own is proved twice, without them and with them; and apart from
//! `iom_tests` so that it runs while the world is proved.
#![tactic(auto)]

#[cfg(test)]
mod ats;
#[cfg(test)]
mod block_devices;
#[cfg(test)]
mod devices;
#[cfg(test)]
mod expect;
#[cfg(test)]
mod lines;
#[cfg(test)]
mod machine;
#[cfg(test)]
mod modes;
#[cfg(test)]
mod recovery;
#[cfg(test)]
mod returning;
#[cfg(test)]
mod script;
#[cfg(test)]
mod sizes;
