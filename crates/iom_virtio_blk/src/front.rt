ghost use Rattle.std.specs.Prelude.{◌≡◌, ◌≢◌, ◌↔◌, IsTrue, ◌+◌, ◌-◌, ◌%◌, ◌≤◌, ◌<◌, ℕ, length, take, drop, Some, None, true, false, is_some, unwrap_or, IsSome, MatchBool};
ghost use Rattle.iom_virtqueue.specs.Accesses.{AreOf, LiesInPage};
ghost use Rattle.iom_virtqueue.specs.Chains.{byte_count};
ghost use Rattle.iom_virtqueue.specs.Layouts.{IsLayout};
ghost use Rattle.iom_virtqueue.specs.Queues.{fresh_queue, after, chain_fault_of};
ghost use Rattle.iom_virtqueue.specs.declared.phase.Phase.TheVariants.{Served};
ghost use Rattle.iom_virtio_blk.specs.declared.serving.Job.TheVariants.{Header, Reading, Writing, Ending};
ghost use Rattle.iom_virtio_blk.specs.declared.request.RequestStatus.TheVariants.{IoError};
ghost use Rattle.iom_virtio_blk.specs.declared.stage.Stage.TheVariants.{Reset, FeaturesOk, DriverOk, NeedsReset};
ghost use Rattle.iom_virtio_blk.specs.Stages.{device_status};
ghost use Rattle.iom_virtio_blk.specs.Serving.{IsUnderWay};
ghost use Rattle.iom_virtio_blk.specs.Wants.{access_wanted};
ghost use Rattle.iom_virtio_blk.specs.Features.{flush_of};
ghost use Rattle.iom_virtio_blk.specs.Blocks.{wanted_by, IsBetweenCalls, IsAsking, IsTaking, TakesBytes, EndsWaiting, replied, given_up, down, negotiated, with_queue, overlaid, after_served, call_after, buffer_in, serving_in, call_in};
ghost use Rattle.iom_virtio_blk.specs.Steps.{QueueSteps, settled};

use crate::features::flush_of;
use crate::request::{Plan, RequestStatus, plan_of};
use crate::serving::{Job, Serving};
use crate::stage::Stage;
use crate::step::{Call, Reply, Step};
use crate::want::WantedAccess;
use arrayvec::ArrayVec;
use iom_virtqueue::{Layout, Phase, Queue, le32, le64};

/// A block device without its disk.
#[derive(Drop)]
pub(crate) struct Front {
    pub(crate) stage: Stage,
    flush: bool,
    queue: Queue,
    serving: Serving,
    /// The header, or the sector that is read or written.
    buffer: [u8; 512],
    /// The bytes of the access that was made.
    got: ArrayVec<u8, 512>,
    is_made: bool,
    /// The number of the access that the device began.
    waits: Option<u64>,
    /// The page that the access wants, which was asked for.
    asked: Option<u64>,
}

/// Where a queue lies that isn't set.
fn nowhere() -> Layout
    ensures { IsLayout result }
{
    Layout {
        size: 1,
        descriptor_table: 0,
        available_ring: 0,
        used_ring: 0,
    }
}

impl Front {
    /// A device that was just plugged.
    pub(crate) fn new() -> Front
        ensures stage { result.stage ≡ Reset }
        ensures ready { IsBetweenCalls result }
    {
        Front {
            stage: Stage::Reset,
            flush: false,
            queue: Queue::new(nowhere()),
            serving: Serving::new(),
            buffer: [0; 512],
            got: ArrayVec::new(),
            is_made: false,
            waits: None,
            asked: None,
        }
    }

    pub(crate) fn stage(&self) -> Stage
        ensures { result ≡ self.now.stage }
    {
        self.stage
    }

    /// Gives up what is in work, and stops at a stage.
    fn give_up(&mut self, stage: Stage)
        requires serving { self.old.queue.phase ≡ Served → IsUnderWay self.old.serving self.old.queue.chain }
        requires stops { stage ≢ DriverOk }
        ensures front { self.new ≡ given_up stage self.old }
        ensures ready { IsBetweenCalls self.new }
    {
        self.stage = stage;
        self.is_made = false;
        self.waits = None;
        self.asked = None;
    }

    /// Gives up what is in work: the device is as before its features were negotiated.
    pub(crate) fn reset(&mut self)
        requires ready { IsBetweenCalls self.old }
        ensures front { self.new ≡ given_up Reset self.old }
        ensures ready { IsBetweenCalls self.new }
    {
        self.give_up(Stage::Reset);
    }

    /// Takes features, where the device was reset and may take them.
    pub(crate) fn negotiate(&mut self, features: u64) -> bool
        requires ready { IsBetweenCalls self.old }
        ensures answer { result ≡ is_some (negotiated self.old.stage (flush_of features) self.old) }
        ensures front { self.new ≡ unwrap_or (negotiated self.old.stage (flush_of features) self.old) self.old }
        ensures ready { IsBetweenCalls self.new }
    {
        match (self.stage, flush_of(features)) {
            (Stage::Reset, Some(flush)) => {
                self.stage = Stage::FeaturesOk;
                self.flush = flush;
                true
            }
            _ => false,
        }
    }

    /// Sets the queue, where the features are settled: the device works from now on.
    pub(crate) fn set_queue(&mut self, layout: Layout) -> bool
        requires ready { IsBetweenCalls self.old }
        requires layout { IsLayout layout }
        ensures answer { result ≡ is_some (with_queue self.old.stage layout self.old) }
        ensures front { self.new ≡ unwrap_or (with_queue self.old.stage layout self.old) self.old }
        ensures ready { IsBetweenCalls self.new }
    {
        match self.stage {
            Stage::FeaturesOk => {
                self.stage = Stage::DriverOk;
                self.queue = Queue::new(layout);
                true
            }
            _ => false,
        }
    }

    /// Whether these bytes are those of the access that it wants: as many as it reads, and none where it writes.
    #[inline(always)]
    fn takes(&self, bytes: &[u8]) -> bool
        requires ready { IsBetweenCalls self.now }
        ensures { IsTrue result ↔ AreOf bytes.now (wanted_by self.now) }
    {
        self.queue.facts();
        match self.queue.phase() {
            Phase::AvailableIndex | Phase::RingEntry => bytes.len() == 2,
            Phase::Table(_) => bytes.len() == 16,
            Phase::Served => self.serving.takes(bytes, self.queue.chain()),
            Phase::UsedElement(_) | Phase::UsedIndex => bytes.is_empty(),
            Phase::Faulted => false,
        }
    }

    /// The device takes the bytes of the access that it wants.
    #[inline(always)]
    fn take(&mut self, bytes: &[u8])
        requires ready { IsBetweenCalls self.old }
        requires running { self.old.stage ≡ DriverOk }
        requires bytes { AreOf bytes.now (wanted_by self.old) }
        ensures taken { TakesBytes self.old bytes.now self.new }
        ensures ready { IsBetweenCalls self.new }
    {
        if bytes.is_empty() {
            // A write gives none.
            self.got.clear();
        } else if self.got.len() == bytes.len() {
            // Most reads are as long as the one before, and to clear its bytes is to fill them with zeros.
            self.got.as_mut_slice().copy_from_slice(bytes);
        } else {
            self.got.clear();
            self.got.try_extend_from_slice(bytes).unwrap();
        }
        self.is_made = true;
        self.waits = None;
    }

    /// The access of this number was made, with these bytes where it was a read. The device takes them
    /// only where that is the access which it began itself since its last reset, and still waits for. Where
    /// they aren't as many as it wants, it is to be reset.
    #[inline(always)]
    pub(crate) fn made(&mut self, number: u64, bytes: &[u8])
        requires ready { IsBetweenCalls self.old }
        ensures own { self.old.waits ≡ Some number → EndsWaiting self.old bytes.now self.new }
        ensures others { self.old.waits ≢ Some number → self.new ≡ self.old }
        ensures ready { IsBetweenCalls self.new }
    {
        if self.waits != Some(number) {
            return;
        }
        if self.takes(bytes) {
            self.take(bytes);
        } else {
            self.give_up(Stage::NeedsReset);
        }
    }

    /// What became of the access that the step before wanted.
    pub(crate) fn replied(&mut self, reply: Reply)
        requires ready { IsBetweenCalls self.old }
        requires asking { IsAsking self.old }
        ensures front { self.new ≡ replied reply self.old }
        ensures ready { IsBetweenCalls self.new }
    {
        match reply {
            Reply::Accepted(number) => {
                self.waits = Some(number);
                self.asked = None;
            }
            Reply::Busy => {}
            Reply::Asked(page) => self.asked = Some(page),
            Reply::Fault => self.give_up(Stage::NeedsReset),
        }
    }

    /// The translation of a page is refused: the device is down where its access wants it still.
    pub(crate) fn refused(&mut self, page: u64)
        requires ready { IsBetweenCalls self.old }
        ensures own { self.old.asked ≡ Some page → self.new ≡ down self.old }
        ensures others { self.old.asked ≢ Some page → self.new ≡ self.old }
        ensures ready { IsBetweenCalls self.new }
    {
        if self.asked == Some(page) {
            self.give_up(Stage::NeedsReset);
        }
    }

    /// The access that is wanted.
    // Written into its callers: what it answers would go through memory.
    #[inline(always)]
    pub(crate) fn wants(&self) -> WantedAccess
        requires ready { IsBetweenCalls self.now }
        ensures want { access_wanted self.now.buffer result ≡ wanted_by self.now }
        ensures within { self.now.stage ≡ DriverOk → LiesInPage (wanted_by self.now) }
    {
        self.queue.facts();
        match self.queue.phase() {
            Phase::Served => self.serving.access(self.queue.chain()),
            _ => WantedAccess::Small(self.queue.next()),
        }
    }

    /// These bytes of the sector at hand, as far as it has them.
    pub(crate) fn sector_part(&self, from: u16, len: u16) -> &[u8]
        ensures { result.now ≡ take len (drop from self.now.buffer) }
    {
        let (from, len) = (usize::from(from), usize::from(len));
        if self.buffer.len() <= from {
            return &[];
        }
        let rest = &self.buffer[from..];
        if rest.len() <= len {
            return rest;
        }
        &rest[..len]
    }

    /// Whether a request is served.
    pub(crate) fn is_serving(&self) -> bool
        ensures { MatchBool result (self.now.queue.phase ≡ Served) (self.now.queue.phase ≢ Served) }
    {
        match self.queue.phase() {
            Phase::Served => true,
            _ => false,
        }
    }

    /// Whether an access is under way.
    pub(crate) fn is_waiting(&self) -> bool
        ensures { MatchBool result (IsSome self.now.waits) (self.now.waits ≡ None) }
    {
        self.waits.is_some()
    }

    /// Whether an access was made whose bytes aren't used yet.
    pub(crate) fn is_made(&self) -> bool
        ensures { result ≡ self.now.is_made }
    {
        self.is_made
    }

    /// The queue takes what was made.
    pub(crate) fn take_queue(&mut self) -> Step
        requires ready { IsBetweenCalls self.old }
        requires taking { IsTaking self.old }
        requires phase { self.old.queue.phase ≢ Served }
        ensures step { QueueSteps self.old result self.new }
        ensures ready { IsBetweenCalls self.new }
    {
        let before = self.queue.phase();
        self.is_made = false;
        match self.queue.took(&self.got) {
            Err(fault) => {
                self.give_up(Stage::NeedsReset);
                Step::Chain(fault)
            }
            Ok(()) => {
                if let Phase::Served = self.queue.phase() {
                    self.serving = Serving::new();
                }
                match self.queue.phase() {
                    Phase::AvailableIndex => match before {
                        Phase::UsedIndex => Step::Finished {
                            head: self.queue.head(),
                            len: self.queue.written(),
                        },
                        _ => Step::Idle,
                    },
                    _ => Step::Wants(self.wants()),
                }
            }
        }
    }

    /// The request takes what was made: the call of the disk that follows, if there is one.
    pub(crate) fn take_served(&mut self, sectors: Option<u64>) -> Option<Call>
        requires ready { IsBetweenCalls self.old }
        requires taking { IsTaking self.old }
        requires phase { self.old.queue.phase ≡ Served }
        ensures front { self.new ≡ after_served self.old sectors }
        ensures call { result ≡ call_after self.old sectors }
        ensures ready { IsBetweenCalls self.new }
    {
        self.is_made = false;
        match self.serving.job {
            Job::Header => self.take_header(sectors),
            Job::Reading => self.take_written(),
            Job::Writing => self.take_data(),
            Job::Ending(_) => {
                let _total = self.queue.chain().writable_bytes();
                self.queue.finish((self.serving.wrote + 1) as u32);
                None
            }
        }
    }
    /// The header's bytes came; a whole header says what is done.
    fn take_header(&mut self, sectors: Option<u64>) -> Option<Call>
        requires ready { IsBetweenCalls self.old }
        requires made { self.old.is_made ≡ false }
        requires phase { self.old.queue.phase ≡ Served }
        requires job { self.old.serving.job ≡ Header }
        requires got { self.old.serving.read + length self.old.got.items ≤ 16 }
        ensures front { self.new ≡ record self.old { buffer = buffer_in Header self.old; serving = serving_in Header self.old sectors } }
        ensures call { result ≡ call_in Header self.old sectors }
        ensures ready { IsBetweenCalls self.new }
    {
        self.fill(self.serving.read as usize);
        self.serving.read += self.got.len() as u64;
        if self.serving.read != 16 {
            return None;
        }
        let readable = self.queue.chain().readable_bytes() - 16;
        let writable = self.queue.chain().writable_bytes() - 1;
        let kind = le32(&self.buffer, 0);
        let sector = le64(&self.buffer, 8);
        self.serving.sector = sector;
        match plan_of(kind, sector, readable, writable, sectors, self.flush) {
            Plan::ReadDisk => {
                if writable == 0 {
                    self.serving.job = Job::Ending(RequestStatus::Ok);
                    return None;
                }
                self.serving.job = Job::Reading;
                Some(Call::Read(sector))
            }
            Plan::WriteDisk => {
                self.serving.job = if readable == 0 {
                    Job::Ending(RequestStatus::Ok)
                } else {
                    Job::Writing
                };
                None
            }
            Plan::FlushDisk => {
                self.serving.job = Job::Ending(RequestStatus::Ok);
                Some(Call::Flush)
            }
            Plan::End(status) => {
                self.serving.job = Job::Ending(status);
                None
            }
        }
    }

    /// A piece of a sector was written to memory: the next sector is wanted where that was its last.
    fn take_written(&mut self) -> Option<Call>
        requires ready { IsBetweenCalls self.old }
        requires made { self.old.is_made ≡ false }
        requires phase { self.old.queue.phase ≡ Served }
        requires job { self.old.serving.job ≡ Reading }
        ensures front { self.new ≡ record self.old { serving = serving_in Reading self.old None } }
        ensures call { result ≡ call_in Reading self.old None }
        ensures ready { IsBetweenCalls self.new }
    {
        let total = self.queue.chain().writable_bytes() - 1;
        if let Some(piece) = self.serving.piece(self.queue.chain()) {
            self.serving.wrote += u64::from(piece.len);
        }
        if total <= self.serving.wrote {
            self.serving.job = Job::Ending(RequestStatus::Ok);
            return None;
        }
        if self.serving.wrote % 512 == 0 {
            Some(Call::Read(self.serving.sector + self.serving.wrote / 512))
        } else {
            None
        }
    }

    /// Bytes of a sector came from memory: the disk takes the sector where those were its last.
    fn take_data(&mut self) -> Option<Call>
        requires ready { IsBetweenCalls self.old }
        requires made { self.old.is_made ≡ false }
        requires phase { self.old.queue.phase ≡ Served }
        requires job { self.old.serving.job ≡ Writing }
        requires some { 1 ≤ length self.old.got.items }
        requires got { (self.old.serving.read - 16) % 512 + length self.old.got.items ≤ 512 }
        requires left { self.old.serving.read + length self.old.got.items ≤ byte_count self.old.queue.chain.readable }
        ensures front { self.new ≡ record self.old { buffer = buffer_in Writing self.old; serving = serving_in Writing self.old None } }
        ensures call { result ≡ call_in Writing self.old None }
        ensures ready { IsBetweenCalls self.new }
    {
        let total = self.queue.chain().readable_bytes();
        self.fill(((self.serving.read - 16) % 512) as usize);
        self.serving.read += self.got.len() as u64;
        if total <= self.serving.read {
            self.serving.job = Job::Ending(RequestStatus::Ok);
        }
        let data = self.serving.read - 16;
        if data % 512 == 0 {
            Some(Call::Write(self.serving.sector + (data / 512 - 1)))
        } else {
            None
        }
    }

    /// The bytes that came go into the buffer.
    fn fill(&mut self, from: usize)
        requires { from + length self.old.got.items ≤ 512 }
        ensures { self.new ≡ record self.old { buffer = overlaid self.old.buffer from self.old.got.items } }
    {
        let len = self.got.len();
        self.buffer[from..from + len].copy_from_slice(&self.got);
    }

    /// The disk gave this sector, which is to be written to memory.
    pub(crate) fn load(&mut self, bytes: &[u8; 512])
        requires ready { IsBetweenCalls self.old }
        requires made { self.old.is_made ≡ false }
        ensures front { self.new ≡ record self.old { buffer = bytes.now } }
        ensures ready { IsBetweenCalls self.new }
    {
        self.buffer = *bytes;
    }

    /// The sector that is to be written to the disk.
    pub(crate) fn buffer(&self) -> &[u8; 512]
        ensures { result.now ≡ self.now.buffer }
    {
        &self.buffer
    }

    /// The disk failed: the request ends IOERR, and the rest of its data is left.
    pub(crate) fn fail(&mut self)
        requires ready { IsBetweenCalls self.old }
        requires made { self.old.is_made ≡ false }
        ensures front { self.new ≡ record self.old { serving = settled false self.old.serving } }
        ensures ready { IsBetweenCalls self.new }
    {
        self.serving.job = Job::Ending(RequestStatus::IoError);
    }
}
