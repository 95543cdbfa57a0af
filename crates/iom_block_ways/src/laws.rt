//! What is proved of block devices.
ghost use Rattle.iom_block_ways.specs.Laws.{QueuesAreCalls, StepsAreCalls, SteppedQueuesAreCalls, SteppedStepsAreCalls};

/// A step of a block device, and the setting of its queue, is a call of hardware, or leaves the board.
pub fn block_law()
    ensures steps { StepsAreCalls }
    ensures queues { QueuesAreCalls }
{}

/// The same of hardware whose walks make one load an event. It asks that each block device of the board is there, as hardware's
/// own invariant says.
pub fn stepped_block_law()
    ensures steps { SteppedStepsAreCalls }
    ensures queues { SteppedQueuesAreCalls }
{}
