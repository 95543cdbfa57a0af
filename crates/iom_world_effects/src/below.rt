// What the layers below promise, in one place.
ghost use Rattle.iom_world_effects.specs.Below.{LawsBelow};

use iom_directory_build::laws::lawful_ends;
use iom_driver::laws::{ready_after_record, stays_ready};
use iom_page_table::laws::{
    guest_leaves, guest_tables_fault, guest_walk_faults_else, guest_walk_reaches_leaf,
    walk_faults_else, walk_reaches_leaf,
};
use iom_stage_walk::laws::{
    guest_frames_are_led, one_end, one_end_second, writes_as_reads_both, writes_as_reads_second,
};

/// The laws of the layers below on which the facts of a world rest. It does nothing.
pub fn laws_below()
    ensures { LawsBelow }
{
    lawful_ends();
    walk_reaches_leaf();
    walk_faults_else();
    one_end();
    guest_walk_reaches_leaf();
    guest_leaves();
    guest_walk_faults_else();
    guest_tables_fault();
    one_end_second();
    writes_as_reads_second();
    writes_as_reads_both();
    guest_frames_are_led();
    stays_ready();
    ready_after_record();
}
