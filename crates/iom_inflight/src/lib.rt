//! The accesses of all devices that the IOMMU has accepted and that aren't made yet: for each of at most
//! 16 devices a row of at most eight, made in the order of their acceptance.
//!
//! The IOMMU specification lets accesses that were translated before an invalidation complete until a
//! fence waits for them (RISC-V IOMMU Architecture Specification, section 3.1.2, "IOFENCE.C"): this
//! crate keeps them with the frame that they were translated to, and with their place in the order of
//! acceptance over all devices. The layer above may rely on [`InFlight`] being seen as `Flights` of
//! `specs/Flights.antt`, and on one relation for each call, in `specs/Calls.antt`. All room is made when
//! it is built.
#![tactic(auto)]

mod awaiting;
mod header;
mod in_flight;
mod made;
mod rings;
mod row;

pub use in_flight::InFlight;
pub use made::MadeAt;
