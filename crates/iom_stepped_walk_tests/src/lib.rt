//! Walks made load by load: the public functions of `iom_stepped_walk`, `iom_walk_stops`, `iom_stepped_requests` and
//! `iom_walks`.
//!
//! The crate has tests alone, and nothing stands on it. `vectors` has translations that independent implementations
//! confirmed; `changes` has walks in tables that change between two of their loads;
//! `stops` has the entries at which walks stop; `requests` has requests of a device over the caches;
//! `walks` has those of all devices that are under way.
#![tactic(auto)]

#[cfg(test)]
mod changes;
#[cfg(test)]
mod expect;
#[cfg(test)]
mod requests;
#[cfg(test)]
mod stops;
#[cfg(test)]
mod vectors;
#[cfg(test)]
mod walks;
