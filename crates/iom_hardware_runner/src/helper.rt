// Hardware that acts by itself: which steps it takes.
ghost use Rattle.std.specs.Prelude.{◌≡◌, ◌==◌, ◌≤◌, [], true, IfOk, IfErr, OnOk, OnErr};
ghost use Rattle.iom_hardware_runner.specs.Parts.{is_off, asks_at, KeepsTraffic};
ghost use Rattle.iom_hardware_runner.specs.Runs.{is_at, is_own};
ghost use Rattle.iom_hardware_runner.specs.Traffic.{CanMakeRequests, TrafficIsRefused, with_traffic};

use crate::draws::Draws;
use crate::settling::can_fetch;
use crate::step::Step;
use iom_base::{DeviceId, PAGE_SIZE, Refusal};
use iom_board::Board;
use iom_hardware_script::HardwareLine;
use iom_machine::Event;
use iom_walks::Walks;
use std::alloc::{AllocError, Global};

/// For so many lines of software a mood lasts.
const MOOD_LINES: u32 = 16;

/// How eager hardware is.
#[derive(Clone, Copy)]
enum Mood {
    Still,
    Slow,
    Eager,
}

/// One of these is drawn.
const MOODS: [Mood; 4] = [Mood::Still, Mood::Slow, Mood::Eager, Mood::Eager];

/// The pages of the 64-bit address space.
const PAGES: u64 = 1 << 52;

/// The pages at which a device makes requests by itself, with both ends.
#[derive(Clone, Copy)]
struct Traffic {
    device: DeviceId,
    first: u64,
    last: u64,
}

/// What makes hardware act by itself.
#[derive(Drop)]
pub(crate) struct Helper {
    draws: Draws,
    mood: Mood,
    /// So many lines of software, and it is in another mood.
    mood_lines: u32,
    /// In the order in which the devices were first named.
    traffic: Vec<Traffic>,
    /// What can happen next.
    steps: Vec<Step>,
}

impl Traffic {
    /// Whether it is at the page of the device.
    fn is_at(&self, device: DeviceId, page: u64) -> bool
        ensures { result ≡ is_at device page self.now }
    {
        self.device == device && self.first <= page && page <= self.last
    }
}

impl Mood {
    /// The steps that hardware takes at most before a line of software.
    fn most(self) -> u64
        ensures { result ≤ 3 }
    {
        match self {
            Mood::Still => 0,
            Mood::Slow => 1,
            Mood::Eager => 3,
        }
    }
}

impl Helper {
    /// Hardware that does nothing by itself.
    pub(crate) fn new(alloc: Global) -> Helper
        ensures off { is_off result ≡ true }
        ensures traffic { result.traffic.items ≡ [] }
    {
        Helper {
            draws: Draws::new(0),
            mood: Mood::Still,
            mood_lines: 0,
            traffic: Vec::new(alloc),
            steps: Vec::new(alloc),
        }
    }

    /// From here on it draws from this seed; from 0 it draws nothing.
    pub(crate) fn seed(&mut self, seed: u64)
        ensures off { is_off self.new ≡ (seed == 0) }
        ensures traffic { KeepsTraffic self.old self.new }
    {
        self.draws = Draws::new(seed);
        self.mood_lines = 0;
    }

    /// From here on the device makes requests at these pages, and no more at others. Why not, if it can't.
    pub(crate) fn direct(
        &mut self,
        hardware: &Board,
        device: DeviceId,
        first: u64,
        last: u64,
    ) -> Result<Result<(), Refusal>, AllocError>
        ensures admitted { IfOk result (λ done. OnOk done (CanMakeRequests hardware.now device first last)) }
        ensures refused { IfOk result (λ done. IfErr done (λ why. TrafficIsRefused why hardware.now device first last)) }
        ensures kept { IfOk result (λ done. OnOk done (self.new.traffic.items ≡ with_traffic (record { device = device; first = first; last = last }) self.old.traffic.items)) }
        ensures unchanged { IfOk result (λ done. OnErr done (self.new ≡ self.old)) }
        ensures draws { self.new.draws ≡ self.old.draws }
    {
        let Some(kind) = hardware.kind_of(device) else {
            return Ok(Err(Refusal::NoSuchDevice));
        };
        if !kind.sends_untranslated() {
            return Ok(Err(Refusal::WrongKind));
        }
        if first > last || last >= PAGES {
            return Ok(Err(Refusal::IovaOutOfRange));
        }
        let row = Traffic {
            device,
            first,
            last,
        };
        for known in self.traffic.iter_mut() {
            if known.device == device {
                *known = row;
                return Ok(Ok(()));
            }
        }
        self.traffic.push(row)?;
        Ok(Ok(()))
    }

    /// Whether hardware does nothing by itself.
    pub(crate) fn is_off(&self) -> bool
        ensures { result ≡ is_off self.now }
    {
        self.draws.are_off()
    }

    /// How many steps hardware takes before the next line of software.
    pub(crate) fn count(&mut self) -> u64
        ensures few { result ≤ 3 }
        ensures traffic { KeepsTraffic self.old self.new }
    {
        if self.is_off() {
            return 0;
        }
        if self.mood_lines == 0 {
            self.mood = self.draws.one_of(&MOODS).unwrap_or(Mood::Still);
            self.mood_lines = MOOD_LINES;
        }
        self.mood_lines = self.mood_lines.saturating_sub(1);
        self.draws.below(self.mood.most() + 1)
    }

    /// The step that it takes next, of those that it can take now. None where it can take none. Requests are under way where a walk
    /// takes several events.
    pub(crate) fn step(
        &mut self,
        hardware: &Board,
        walks: Option<&Walks>,
    ) -> Result<Option<Step>, AllocError>
        ensures { KeepsTraffic self.old self.new }
    {
        self.steps.clear();
        add_fetch(&mut self.steps, hardware)?;
        add_commits(&mut self.steps, hardware)?;
        if let Some(walks) = walks {
            add_loads(&mut self.steps, hardware, walks)?;
        }
        add_deliveries(&mut self.steps, hardware)?;
        add_requests(&mut self.steps, &mut self.draws, &self.traffic, hardware)?;
        add_block_steps(&mut self.steps, hardware)?;
        Ok(self.draws.one_of(&self.steps))
    }

    /// Whether the device makes requests at the page by itself.
    fn asks_at(&self, device: DeviceId, page: u64) -> bool
        ensures { result ≡ asks_at self.now device page }
    {
        self.traffic.iter().any(|row| row.is_at(device, page))
    }

    /// Whether hardware or a device does this by itself: loads of walks where these take several events.
    pub(crate) fn does(&self, is_stepped: bool, line: &HardwareLine) -> bool
        ensures { result ≡ is_own is_stepped (asks_at self.now) line.now }
    {
        let event = match line {
            HardwareLine::Load { .. } => return is_stepped,
            HardwareLine::Event(event) => event,
            _ => return false,
        };
        match event {
            Event::Fetch | Event::Commit { .. } | Event::Deliver { .. } | Event::Step { .. } =>
                true,
            Event::Read {
                device,
                address,
                ..
            }
            | Event::Write {
                device,
                address,
                ..
            }
            | Event::WriteThroughCache {
                device,
                address,
                ..
            } => self.asks_at(*device, *address / PAGE_SIZE),
            Event::Ask { device, page } => self.asks_at(*device, page.number()),
            _ => false,
        }
    }
}

fn add_fetch(steps: &mut Vec<Step>, hardware: &Board) -> Result<(), AllocError> {
    if can_fetch(hardware) {
        steps.push(Step::Fetch)?;
    }
    Ok(())
}

fn add_commits(steps: &mut Vec<Step>, hardware: &Board) -> Result<(), AllocError> {
    for device in hardware.devices.iter() {
        if hardware.oldest(device.id).is_some() {
            steps.push(Step::Commit(device.id))?;
        }
    }
    Ok(())
}

/// Each request that is under way can make its next load.
fn add_loads(steps: &mut Vec<Step>, hardware: &Board, walks: &Walks) -> Result<(), AllocError> {
    for device in hardware.devices.iter() {
        if walks.is_walking(device.id) {
            steps.push(Step::Load(device.id))?;
        }
    }
    Ok(())
}

fn add_deliveries(steps: &mut Vec<Step>, hardware: &Board) -> Result<(), AllocError> {
    for place in 0..hardware.messages().len() {
        steps.push(Step::Deliver(place))?;
    }
    Ok(())
}

/// For each device with traffic a page is drawn, and which request it makes there.
fn add_requests(
    steps: &mut Vec<Step>,
    draws: &mut Draws,
    traffic: &[Traffic],
    hardware: &Board,
) -> Result<(), AllocError> {
    for row in traffic {
        let pages = row.last.saturating_sub(row.first).saturating_add(1);
        let page = row.first.saturating_add(draws.below(pages));
        let request = match draws.below(2) {
            0 => Step::Read(row.device, page),
            _ => Step::Write(row.device, page),
        };
        steps.push(request)?;
        let kind = hardware.kind_of(row.device);
        if kind.is_some_and(|kind| kind.sends_through_cache()) {
            steps.push(Step::Ask(row.device, page))?;
            steps.push(Step::WriteThroughCache(row.device, page))?;
        }
    }
    Ok(())
}

/// A block device takes a step whether it has work or not, as its own clock would have it.
fn add_block_steps(steps: &mut Vec<Step>, hardware: &Board) -> Result<(), AllocError> {
    for device in hardware.devices.iter() {
        if device.kind.is_block_device() {
            steps.push(Step::BlockStep(device.id))?;
        }
    }
    Ok(())
}
