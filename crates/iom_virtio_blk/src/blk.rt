ghost use Rattle.std.specs.Prelude.{◌≡◌, ◌≢◌, ◌≤◌, ℕ, List, [], ◌∷◌, length, take, drop, Option, Some, None, true, false, is_some, unwrap_or};
ghost use Rattle.iom_virtqueue.specs.Accesses.{AreOf, LiesInPage, wanted_access_of};
ghost use Rattle.iom_virtqueue.specs.Layouts.{IsLayout};
ghost use Rattle.iom_virtqueue.specs.declared.phase.Phase.TheVariants.{Served};
ghost use Rattle.iom_virtio_blk.specs.declared.stage.Stage.TheVariants.{Reset};
ghost use Rattle.iom_virtio_blk.specs.Features.{flush_of};
ghost use Rattle.iom_virtio_blk.specs.Stages.{device_status};
ghost use Rattle.iom_virtio_blk.specs.Disks.{disk_in};
ghost use Rattle.iom_virtio_blk.specs.Blocks.{IsBetweenCalls, IsAsking, IsTaking, EndsWaiting, replied, given_up, down, negotiated, with_queue, wanted_by};
ghost use Rattle.iom_virtio_blk.specs.Steps.{device, BlockDeviceSteps, ServesWithDisk, Calls};
ghost use Rattle.iom_virtio_blk.specs.Histories.{Entry, inserted, TellsDisk, KeepsTelling};
ghost use Rattle.iom_virtio_blk.specs.ReadyProps.{IsReady-prop};
ghost use Rattle.iom_virtio_blk.specs.Wants.{access_wanted};

use crate::disk::Disk;
use crate::drive::Drive;
use crate::front::Front;
use crate::stage::Stage;
use crate::step::{Call, Reply, Step};
use crate::want::WantedAccess;
use iom_virtqueue::Layout;

/// A block device: its front and its disk, which apart from one another know nothing of each other.
#[derive(Drop)]
pub struct Blk<D: Disk> {
    front: Front,
    drive: Drive<D>,
    ghost ready: { IsBetweenCalls front } by { IsReady-prop front },
}

impl<D: Disk> Blk<D> {
    /// A device that was just plugged, with no disk.
    pub fn new() -> Blk<D>
        ensures stage { result.front.stage ≡ Reset }
        ensures disk { result.drive.disk ≡ None }
    {
        Blk {
            front: Front::new(),
            drive: Drive::new(),
        }
    }

    /// A disk goes in as it is, and a new history begins. Asks that there is none.
    pub fn insert(&mut self, disk: D)
        requires { self.old.drive.disk ≡ None }
        ensures disk { self.new.drive.disk ≡ Some disk }
        ensures front { self.new.front ≡ self.old.front }
        ensures history { (history : List Entry) → TellsDisk history (device self.old.front None)
            → TellsDisk (inserted (D.shown disk).sectors ∷ []) (device self.new.front (disk_in D.shown self.new.drive.disk)) }
    {
        self.drive.insert(disk);
    }

    /// The disk is dropped, if there is one. A request in work stays in work.
    pub fn eject(&mut self)
        ensures disk { self.new.drive.disk ≡ None }
        ensures front { self.new.front ≡ self.old.front }
    {
        self.drive.eject();
    }

    /// Resets the device (virtio 1.2, section 2.4): it gives up the request in work, and has no queue. The disk stays.
    pub fn reset(&mut self)
        ensures front { self.new.front ≡ given_up Reset self.old.front }
        ensures disk { self.new.drive ≡ self.old.drive }
    {
        self.front.reset();
    }

    /// The driver takes features (section 3.1.1, steps 2 to 6): true exactly where the device was reset and these may be taken.
    /// Else nothing changes.
    pub fn negotiate(&mut self, features: u64) -> bool
        ensures answer { result ≡ is_some (negotiated self.old.front.stage (flush_of features) self.old.front) }
        ensures front { self.new.front ≡ unwrap_or (negotiated self.old.front.stage (flush_of features) self.old.front) self.old.front }
        ensures disk { self.new.drive ≡ self.old.drive }
    {
        self.front.negotiate(features)
    }

    /// The driver sets the queue, and the device works (steps 7 and 8): true exactly where features were just taken. Else nothing
    /// changes.
    pub fn set_queue(&mut self, layout: Layout) -> bool
        requires { IsLayout layout }
        ensures answer { result ≡ is_some (with_queue self.old.front.stage layout self.old.front) }
        ensures front { self.new.front ≡ unwrap_or (with_queue self.old.front.stage layout self.old.front) self.old.front }
        ensures disk { self.new.drive ≡ self.old.drive }
    {
        self.front.set_queue(layout)
    }

    /// The device status.
    pub fn status(&self) -> u8
        ensures { result ≡ device_status self.now.front.stage }
    {
        self.front.stage().status()
    }

    /// The access of this number was made, with these bytes where it was a read. They are taken only where the device began this
    /// access itself since its last reset, and waits for it still. Where they aren't as many as it wants, which can't come of a
    /// port that makes what it accepted, the device is to be reset.
    // Written into its caller: a call would cost as much as what it does for most accesses.
    #[inline(always)]
    pub fn made(&mut self, number: u64, bytes: &[u8])
        ensures own { self.old.front.waits ≡ Some number → EndsWaiting self.old.front bytes.now self.new.front }
        ensures others { self.old.front.waits ≢ Some number → self.new.front ≡ self.old.front }
        ensures disk { self.new.drive ≡ self.old.drive }
    {
        self.front.made(number, bytes);
    }

    /// The access that it wants, or waits for where it began that.
    pub fn wants(&self) -> WantedAccess
        ensures { access_wanted self.now.front.buffer result ≡ wanted_by self.now.front }
    {
        self.front.wants()
    }

    /// These bytes of the sector at hand, as far as it has them: what a wanted write of them writes.
    pub fn sector_part(&self, from: u16, len: u16) -> &[u8]
        ensures { result.now ≡ take len (drop from self.now.front.buffer) }
    {
        self.front.sector_part(from, len)
    }

    /// What became of the access that the step before wanted.
    pub fn replied(&mut self, reply: Reply)
        requires { IsAsking self.old.front }
        ensures front { self.new.front ≡ replied reply self.old.front }
        ensures disk { self.new.drive ≡ self.old.drive }
    {
        self.front.replied(reply);
    }

    /// The translation of a page is refused: the device is down where it asked for it and its access isn't accepted yet.
    pub fn refused(&mut self, page: u64)
        ensures own { self.old.front.asked ≡ Some page → self.new.front ≡ down self.old.front }
        ensures others { self.old.front.asked ≢ Some page → self.new.front ≡ self.old.front }
        ensures disk { self.new.drive ≡ self.old.drive }
    {
        self.front.refused(page);
    }

    /// One step, up to the next access to memory. The disk is called at most once.
    ///
    /// A history that tells the disk before the step goes on to one that tells it afterwards: an OUT that ended OK is there with all of
    /// its data, and one that failed, or is in work, sector by sector. While an IN is served, what is written to memory is the disk's.
    pub fn step(&mut self) -> Step
        ensures step { BlockDeviceSteps (device self.old.front (disk_in D.shown self.old.drive.disk)) result
            (device self.new.front (disk_in D.shown self.new.drive.disk)) }
        ensures history { KeepsTelling (device self.old.front (disk_in D.shown self.old.drive.disk))
            (device self.new.front (disk_in D.shown self.new.drive.disk)) }
    {
        match self.front.stage() {
            Stage::DriverOk => {}
            Stage::NeedsReset => return Step::Down,
            _ => return Step::Idle,
        }
        if self.front.is_waiting() {
            return Step::Waiting;
        }
        if !self.front.is_made() {
            return Step::Wants(self.front.wants());
        }
        if self.front.is_serving() {
            self.serve()
        } else {
            self.front.take_queue()
        }
    }

    /// The request in work takes what was made.
    fn serve(&mut self) -> Step
        requires taking { IsTaking self.old.front }
        requires phase { self.old.front.queue.phase ≡ Served }
        ensures step { BlockDeviceSteps (device self.old.front (disk_in D.shown self.old.drive.disk)) result
            (device self.new.front (disk_in D.shown self.new.drive.disk)) }
    {
        if let Some(call) = self.front.take_served(self.drive.sectors()) {
            let done = self.call(call);
            if !done {
                self.front.fail();
            }
        }
        Step::Wants(self.front.wants())
    }

    /// Calls the disk, and tells whether it did what was asked.
    fn call(&mut self, call: Call) -> bool
        requires { self.old.front.is_made ≡ false }
        ensures calls { Calls (Some call) result (disk_in D.shown self.old.drive.disk) self.old.front.buffer
            (disk_in D.shown self.new.drive.disk) self.new.front.buffer }
        ensures front { self.new.front ≡ record self.old.front { buffer = self.new.front.buffer } }
    {
        match call {
            Call::Read(sector) => {
                let mut bytes = [0; 512];
                match self.drive.read(sector, &mut bytes) {
                    Ok(()) => {
                        self.front.load(&bytes);
                        true
                    }
                    Err(_) => false,
                }
            }
            Call::Write(sector) => match self.drive.write(sector, self.front.buffer()) {
                Ok(()) => true,
                Err(_) => false,
            },
            Call::Flush => match self.drive.flush() {
                Ok(()) => true,
                Err(_) => false,
            },
        }
    }
}
