//! Why each event is a lawful step of the ledger machine: where it does what `Effect` says to parts that keep the invariant, the
//! machine comes by that event from each state that they show to one that they show then.
//!
//! It is proofs alone, over the values and the definitions of `iom_world_effects`. The layer above may rely on one lemma
//! for each event (`..Step`), on why a call is refused (`..Reasons`, `..Refused`), on what a world is at power-on, and on
//! what stays where processing has stopped.
#![tactic(auto)]
