//! Hardware whose walks make one load an event, as the facts on ways see it, and what follows of its calls.
//!
//! `iom_hardware_ways` says so of hardware that makes all loads of a walk in one event. Where a walk takes several, requests
//! are under way beside the board, and software may change a table or the directory between two of their loads. So a scene
//! here has what each of them may still come to: the table that it has in hand and the steps that are left there, the page
//! of the directory, the frame of a guest's table from which it loads next, or the access that it is let through to (RISC-V
//! IOMMU Architecture Specification 1.0, section 2.3, which doesn't order the loads of a walk with what others do
//! meanwhile). The layer above may rely on this: no list of calls by which hardware and devices do something adds a way,
//! where they can't write what hardware reads, also by what is left of a walk under way.
//!
//! It has no code. `specs/Parts.antt` says what remains of a walk of tables, `specs/Scenes.antt` what the scene is,
//! `specs/Calls.antt` what is called in turn, `specs/Laws.antt` what is proved.
#![tactic(auto)]

mod laws;

pub use laws::{scene_law, stepped_call_law, stepped_ways_law};
