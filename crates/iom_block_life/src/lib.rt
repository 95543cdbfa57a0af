//! What follows from all steps of a block device together: which entries of its ring it uses, and which requests it
//! finishes, from the setting of its queue to the next reset; and what its disk holds, from the plug on.
//!
//! OASIS Virtual I/O Device (VIRTIO) Version 1.2, section 2.7.6 ("The Virtqueue Available Ring"), section 2.7.8 ("The
//! Virtqueue Used Ring") and section 5.2.6 ("Device Operation"). `iom_virtio_blk` says of each call of a device what it
//! does, and `iom_world` which calls an event makes. This crate has no code: `specs/Lives.antt` says what a life is,
//! calls one after another, each with the device before and after it, and [`uses_each_entry_once`] what follows from all of
//! them together; `specs/Runs.antt` and [`runs_use_each_entry_once`] say the same of the events of a run and their
//! outcomes. `specs/Stories.antt` and [`runs_tell_disks`] say of a run which disk the device has, and what it holds. All
//! hold whatever the driver writes into its rings, and whenever.
#![tactic(auto)]

ghost use Rattle.iom_block_life.specs.Lives.{LivesUseEachOnce};
ghost use Rattle.iom_block_life.specs.Runs.{QueuesBeginLives, RunsUseEachOnce};
ghost use Rattle.iom_block_life.specs.Stories.{PlugsBeginStories, RunsTellDisks};
ghost use Rattle.iom_block_life.specs.UsedRings.{RunsWriteElements};
ghost use Rattle.iom_block_life.specs.Waits.{PowerOnWaitsInFlight, RunsWaitInFlight, CommitsLeaveStages};

/// Whatever happens to a device since its queue was set: it takes the entries of its ring in their order, from the
/// first one on, each once. The requests that it finishes are those that it took, in the same order and each once, but
/// for the last one, which may be in work or given up. The used idx that it keeps counts those that were finished.
pub fn uses_each_entry_once()
    ensures { LivesUseEachOnce }
{}

/// The same of a block device in a run of the model, from the event that set its queue to the next one that ends its
/// life: the entries that its steps take, in the states that the world goes through, are those of its ring in their
/// order, and the heads of its lines `finished` are theirs, each once, but for the last one.
pub fn runs_use_each_entry_once()
    ensures begin { QueuesBeginLives }
    ensures runs { RunsUseEachOnce }
{}

/// What the disk of a block device holds in a run of the model, from the event that plugged the device in: at every moment
/// the disk is the one that was put in last, and holds what was there then and what the device's requests OUT wrote since,
/// each that ended well with all of its data.
pub fn runs_tell_disks()
    ensures begin { PlugsBeginStories }
    ensures runs { RunsTellDisks }
{}

/// What a block device writes into its used ring in a run of the model, from the event that set its queue to the next one
/// that ends its life: for each line `finished` one element, whole, in their order, with the head and the length that the
/// line tells, and nothing else but the beginning of the next one.
pub fn runs_write_elements()
    ensures { RunsWriteElements }
{}

/// A block device waits only while its own access is in flight, at every moment of a run of the model: the access that it
/// waits for was accepted and isn't made, and it is the one that the device wants, of as many bytes. So the bytes that a
/// commit hands it are as many as it wants, and no commit leaves a device that is to be reset.
pub fn runs_wait_in_flight()
    ensures begin { PowerOnWaitsInFlight }
    ensures runs { RunsWaitInFlight }
    ensures commits { CommitsLeaveStages }
{}
