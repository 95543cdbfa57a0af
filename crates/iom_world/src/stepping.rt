// One event, and what comes of it.
ghost use denote.Follow.{follows_so};
ghost use Rattle.std.specs.Borrow.{sem};
ghost use mathlib.Core.Option.{none};
ghost use Rattle.iom_world.specs.contracts.world.World.{the_row};
ghost use Rattle.std.specs.Prelude.{⊤, ◌≡◌, ◌+◌, ◌<◌, ◌^◌};
ghost use Rattle.iom_answers.specs.Answers.{outcome_of};
ghost use Rattle.iom_world.specs.Happens.{Happens};
ghost use Rattle.iom_world.specs.Made.{made_by};
ghost use Rattle.iom_world.specs.Shown.{parts_of, disks_of, shown_of};

use crate::world::World;
use iom_answers::Answer;
use iom_driver::Mapping;
use iom_inflight::MadeAt;
use iom_machine::{Event, Outcome};
use iom_virtio_blk::Disk;
use iom_world_effects::laws_below;

impl<D: Disk> World<D> {
    /// One event, as [`World::step`] says; bytes that were read, and a fault record, are lent from where they stand.
    // Written into the loop of a run: a call would save and restore registers for each event. One choice for all events: each
    // within another costs a tenth of the time.
    #[inline(always)]
    pub fn take(&mut self, event: &Event) -> Answer<'_>
        requires count { self.old.hardware.board.events + 1 < 2 ^ 64 }
        ensures* happens { sem 𝓛 (follows_so (the_row D.row D.Disk) (the_row D.row D.Disk) self.entry.ghost_name none (λ _ _. ⊤) (λ v.
            Happens (shown_of D.shown self.old) event.now (outcome_of result) (shown_of D.shown v) × (v.made ≡ self.old.made))) }
    {
        laws_below();
        match event {
            Event::Plug { device, new: what } => self.plug(*device, *what),
            Event::Attach { device, mode, ats } => self.attach(*device, *mode, *ats),
            Event::Detach { device } => self.detach(*device),
            Event::Grant {
                device,
                page,
                frame,
                rights,
            } => {
                let mapping = Mapping {
                    page: *page,
                    frame: *frame,
                    rights: *rights,
                };
                self.grant(*device, mapping)
            }
            Event::Release { device, page } => self.release(*device, *page),
            Event::Fetch => self.fetch(),
            Event::Poll => self.poll(),
            Event::Faults => self.faults(),
            Event::Quarantine { device } => self.quarantine(*device),
            Event::Revive { device } => self.revive(*device),
            Event::Restart => self.restart(),
            Event::Timeout => self.timeout(),
            Event::Reset { device } => self.reset(*device),
            Event::Read {
                device,
                address,
                len,
            } => self.read(*device, *address, *len),
            Event::Write {
                device,
                address,
                bytes,
            } => self.write(*device, *address, bytes.as_slice()),
            Event::ReadTranslated {
                device,
                address,
                len,
            } => self.read_translated(*device, *address, *len),
            Event::WriteTranslated {
                device,
                address,
                bytes,
            } => self.write_translated(*device, *address, bytes.as_slice()),
            Event::ReadThroughCache {
                device,
                address,
                len,
            } => self.read_through_cache(*device, *address, *len),
            Event::WriteThroughCache {
                device,
                address,
                bytes,
            } => self.write_through_cache(*device, *address, bytes.as_slice()),
            Event::Commit { device } => self.commit(*device),
            Event::Ask { device, page } => self.ask(*device, *page),
            Event::Forge { device, serial } => self.forge(*device, *serial),
            Event::Deliver { place } => self.deliver(*place),
            Event::Drop { place } => self.drop_message(*place),
            Event::Repeat { place } => self.repeat(*place),
            Event::Medium { device, disk } => self.medium(*device, *disk),
            Event::Queue {
                device,
                size,
                descriptors,
                available,
                used,
            } => self.queue(*device, *size, *descriptors, *available, *used),
            Event::Step { device } => self.step_block(*device),
            Event::Status { device } => self.block_status(*device),
            Event::Poke { address, bytes } => self.poke(*address, bytes.as_slice()),
            Event::Peek { address, len } => self.peek(*address, *len),
            Event::Free { frame } => self.free(*frame),
        }
    }

    /// One event, and what comes of it: a lawful step of the ledger machine from every state that the
    /// world shows. It does to memory, IOMMU, driver and devices what the call behind it says; where a walk
    /// through both stages gives a translation, a guest's own tables are read from frames that the device may
    /// read; from a timeout to the next restart no fence is done; a refusal changes nothing. Each event is
    /// counted, whatever comes of it.
    ///
    /// A step of a block device (virtio 1.2, sections 2.7 and 5.2) goes up to the access that it wants, which begins in
    /// the same event. A commit hands a block device the bytes of the access that it waits for. An answer that has no
    /// translation, and counts, makes it need a reset where its access still wants that page. A reset, a revival, a
    /// queue that is set and a detach make it give up what it had in work, and a detach drops its disk. A disk goes into
    /// one device, once.
    pub fn step(&mut self, event: &Event) -> Outcome
        requires count { self.old.hardware.board.events + 1 < 2 ^ 64 }
        ensures happens { Happens (shown_of D.shown self.old) event.now result (shown_of D.shown self.new) }
        ensures made { self.new.made ≡ made_by (parts_of self.old) event.now }
    {
        let made = self.would_make(event);
        let outcome = self.take(event).outcome();
        self.made = made;
        outcome
    }

    /// The access that the event makes, if it happens now.
    fn would_make(&self, event: &Event) -> Option<MadeAt>
        ensures { result ≡ made_by (parts_of self.now) event.now }
    {
        match event {
            Event::Commit { device } => self.oldest(*device),
            _ => None,
        }
    }

    /// The access that the last [`World::step`] made: on which frame, where there, how long, and of which kind. None where
    /// it made none, as each but a commit, or where there was none. What takes events otherwise leaves it.
    pub fn made(&self) -> Option<MadeAt>
        ensures { result ≡ self.now.made }
    {
        self.made
    }

    /// How many events there were since power-on.
    pub fn events(&self) -> u64
        ensures { result ≡ self.now.hardware.board.events }
    {
        self.hardware.board.events
    }
}
