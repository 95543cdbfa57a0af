//! What stays true of a world's parts: for each event, that it leaves memory, IOMMU, driver, devices and messages with their invariant
//! together.
//!
//! It is proofs alone, over the values and the definitions of `iom_world_effects`. The layer above may rely on one lemma
//! for each event (`..Keeps`): where the event does what `Effect` says to parts that keep the invariant, they keep it,
//! so that no copy of a translation outlives its ticket (RISC-V IOMMU Architecture Specification, section 3.1 and
//! chapter 5).
#![tactic(auto)]
