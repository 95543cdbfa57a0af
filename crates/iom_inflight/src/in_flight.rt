ghost use Rattle.std.specs.Prelude.{◌≡◌, ◌↔◌, ◌<◌, ◌≤◌, ◌+◌, ◌*◌, ◌^◌, length, IfOk, MatchOption, None, is_some, nat_le, IsTrue};
ghost use Rattle.iom_base.specs.Accesses.{read_of, write_of};
ghost use Rattle.iom_base.specs.Sizes.{in_flight_limit, device_limit};
ghost use Rattle.iom_base.specs.Spans.{FitsInPage};
ghost use Rattle.iom_inflight.specs.Flights.{Flights, no_flights, row_of, IsAddedTo, count_in, accepted_in, count_all, waiting_at, oldest_in, oldest_number_in, first_busy, some_in_flight, are_drained};
ghost use Rattle.iom_inflight.specs.Calls.{Adds, Accepts, MakesOldestInFlight, WouldMakeOldest, IsReadyToCommit};
ghost use Rattle.iom_inflight.specs.Rows.{RowStandsAt};
ghost use Rattle.iom_inflight.specs.Invariant.{AreFlights};

use crate::made::MadeAt;
use crate::row::Row;
use iom_base::{AccessKind, DeviceId, MAX_DEVICES, MAX_IN_FLIGHT};
use iom_phys_mem::Memory;
use std::alloc::{AllocError, Global};
use std::marker::Model;

/// The accesses of all devices in flight.
#[derive(Drop)]
pub struct InFlight {
    /// The rows of the devices that were added.
    rows: Vec<Row>,
    /// The rows of those that may be added yet.
    spare: Vec<Row>,
    /// How many accesses were ever accepted.
    so_far: u64,
}

impl Model for InFlight {
    ghost use Rattle.iom_inflight.specs.Flights.{Flights};

    ghost Value = { Flights };

    ghost use Rattle.std.specs.Prelude.{◌≡◌, ◌≤◌, ◌+◌, length, vec_capacity};
    ghost use Rattle.iom_base.specs.Sizes.{device_limit};
    ghost use Rattle.iom_inflight.specs.Invariant.{AreFlights};

    ghost view = { λ f. record { rows = f.rows.items; so_far = f.so_far } };

    ghost invariant = { λ f. (device_limit ≤ vec_capacity f.rows) × (length f.rows.items + length f.spare.items ≡ device_limit)
        × AreFlights (record { rows = f.rows.items; so_far = f.so_far }) };
}

/// The place of the device's row, where it has one.
fn find(rows: &[Row], device: DeviceId) -> Option<usize>
    ensures { MatchOption result (row_of rows.now device ≡ None) (RowStandsAt rows.now device) }
{
    for place in 0..rows.len() {
        if rows[place].device() == device {
            return Some(place);
        }
    }
    None
}

/// How many accesses of all these devices are in flight.
fn count_in_rows(rows: &[Row]) -> usize
    requires { length rows.now ≤ device_limit }
    ensures count { result ≡ count_all rows.now }
    ensures few { result ≤ device_limit * in_flight_limit }
{
    let mut total = 0;
    for place in 0..rows.len() {
        total += rows[place].count();
    }
    total
}

/// The device of the first of these rows of which an access is in flight.
fn first_busy_in(rows: &[Row]) -> Option<DeviceId>
    ensures { result ≡ first_busy rows.now }
{
    for place in 0..rows.len() {
        if rows[place].has_access() {
            return Some(rows[place].device());
        }
    }
    None
}

/// Whether the rows are equal, and in the same order.
fn are_same_rows(rows: &[Row], others: &[Row]) -> bool
    ensures { IsTrue result ↔ (rows.now ≡ others.now) }
{
    if rows.len() != others.len() {
        return false;
    }
    for place in 0..rows.len() {
        if !rows[place].is_same(&others[place]) {
            return false;
        }
    }
    true
}

/// Rows for 16 devices.
fn spare_rows(alloc: Global) -> Result<Vec<Row>, AllocError>
    ensures { IfOk result (λ rows. length rows.items ≡ device_limit) }
{
    let mut rows = Vec::with_capacity(alloc, MAX_DEVICES)?;
    for made in 0..MAX_DEVICES {
        rows.push(Row::new(alloc)?)?;
    }
    Ok(rows)
}

impl InFlight {
    /// No device, with room for 16 of them and eight accesses of each. Takes all its memory here.
    pub fn new(alloc: Global) -> Result<InFlight, AllocError>
        ensures { IfOk result (λ flights. flights ≡ no_flights) }
    {
        Ok(InFlight {
            rows: Vec::with_capacity(alloc, MAX_DEVICES)?,
            spare: spare_rows(alloc)?,
            so_far: 0,
        })
    }

    /// What holds of them, whatever calls were made. It does nothing: a proof knows of a value what a call told of it,
    /// so this is a call.
    pub fn facts(&self)
        ensures { AreFlights self.now }
    {
        let _so_far = &self.so_far;
    }

    /// Whether the two are equal.
    pub fn is_same(&self, other: &InFlight) -> bool
        ensures { IsTrue result ↔ (self.now ≡ other.now) }
    {
        if self.so_far != other.so_far {
            return false;
        }
        are_same_rows(&self.rows, &other.rows)
    }

    /// Adds the device, after all others. False exactly where it is there or 16 are, and then nothing
    /// changes.
    pub fn add(&mut self, device: DeviceId) -> bool
        ensures { Adds self.old device result self.new }
    {
        if find(&self.rows, device).is_some() {
            return false;
        }
        match self.spare.pop() {
            Some(mut row) => {
                row.start(device);
                self.rows.push(row).unwrap();
                true
            }
            None => false,
        }
    }

    /// Whether the device was added.
    pub fn is_added(&self, device: DeviceId) -> bool
        ensures { result ≡ is_some (row_of self.now.rows device) }
    {
        find(&self.rows, device).is_some()
    }

    /// The place of the device's row, by which the calls below find it without a search.
    pub fn place_of(&self, device: DeviceId) -> usize
        requires { IsAddedTo self.now device }
        ensures { RowStandsAt self.now.rows device result }
    {
        find(&self.rows, device).unwrap()
    }

    /// How many accesses of the device are in flight; 0 where it wasn't added.
    pub fn count(&self, device: DeviceId) -> usize
        ensures count { result ≡ count_in (row_of self.now.rows device) }
        ensures few { result ≤ in_flight_limit }
    {
        match find(&self.rows, device) {
            Some(place) => self.rows[place].count(),
            None => 0,
        }
    }

    /// How many accesses of the device were ever accepted: the number of its last one; 0 where it wasn't
    /// added. So that of its oldest in flight is this, less [`count`](InFlight::count), and 1.
    pub fn accepted(&self, device: DeviceId) -> u64
        ensures { result ≡ accepted_in (row_of self.now.rows device) }
    {
        match find(&self.rows, device) {
            Some(place) => self.rows[place].accepted(),
            None => 0,
        }
    }

    /// How many accesses of all devices are in flight: at most 128.
    pub fn count_all(&self) -> usize
        ensures count { result ≡ count_all self.now.rows }
        ensures few { result ≤ device_limit * in_flight_limit }
    {
        count_in_rows(&self.rows)
    }

    /// What [`make`](InFlight::make) would make; None where nothing of the device is in flight, or it wasn't
    /// added.
    #[tactic(auto, using(crate::proofs::Oldest::would_make))]
    pub fn oldest(&self, device: DeviceId) -> Option<MadeAt>
        ensures value { result ≡ oldest_in (row_of self.now.rows device) }
        ensures commit { WouldMakeOldest self.now device result }
    {
        let place = find(&self.rows, device)?;
        self.rows[place].oldest()
    }

    /// The place of the device's oldest access in the order of acceptance over all devices, from 1: by that a fence knows which it
    /// waits for. None where nothing of the device is in flight, or it wasn't added.
    pub fn oldest_number(&self, device: DeviceId) -> Option<u64>
        ensures { result ≡ oldest_number_in (row_of self.now.rows device) }
    {
        let place = find(&self.rows, device)?;
        self.rows[place].oldest_number()
    }

    /// What is made of the access of the device at this place, the oldest at 0; None where as many aren't in flight, or
    /// it wasn't added.
    pub fn waiting_at(&self, device: DeviceId, place: usize) -> Option<MadeAt>
        ensures { result ≡ waiting_at (row_of self.now.rows device) place }
    {
        let row = find(&self.rows, device)?;
        self.rows[row].waiting_at(place)
    }

    /// How many accesses of all devices were ever accepted: the number of the last one.
    pub fn so_far(&self) -> u64
        ensures { result ≡ self.now.so_far }
    {
        self.so_far
    }

    /// Whether no access of the kind that was accepted up to this number is in flight.
    pub fn drained(&self, before: u64, kind: AccessKind) -> bool
        ensures { result ≡ are_drained self.now before kind }
    {
        self.rows.iter().all(|row| row.is_drained(before, kind))
    }

    /// The first device, in the order in which they were added, of which an access is in flight. None where nothing
    /// is.
    pub fn first_busy(&self) -> Option<DeviceId>
        ensures { result ≡ first_busy self.now.rows }
    {
        first_busy_in(&self.rows)
    }

    /// Whether any access is in flight.
    pub fn is_any(&self) -> bool
        ensures { result ≡ some_in_flight self.now }
    {
        self.rows.iter().any(|row| row.has_access())
    }

    /// Whether eight accesses of the device are in flight, whose row stands at this place.
    pub fn is_full_at(&self, device: DeviceId, place: usize) -> bool
        requires { RowStandsAt self.now.rows device place }
        ensures { result ≡ nat_le in_flight_limit (count_in (row_of self.now.rows device)) }
    {
        self.rows[place].count() >= MAX_IN_FLIGHT
    }

    /// Accepts a read of the device, whose row stands at this place.
    pub fn accept_read_at(
        &mut self,
        device: DeviceId,
        place: usize,
        address: u64,
        len: u16,
        frame: u32,
    ) -> Option<u64>
        requires stands { RowStandsAt self.old.rows device place }
        requires within { FitsInPage address len }
        requires room { self.old.so_far + 1 < 2 ^ 64 }
        ensures { Accepts self.old device (record { access = read_of address len; frame = frame }) result self.new }
    {
        let number = self.so_far + 1;
        let row = &mut self.rows[place];
        let found = row.accept_read(address, len, frame, number)?;
        self.so_far = number;
        Some(found)
    }

    /// Accepts a write of the device, whose row stands at this place.
    // Written into its callers: a call would be a sixth of what it does for a few bytes.
    #[inline(always)]
    pub fn accept_write_at(
        &mut self,
        device: DeviceId,
        place: usize,
        address: u64,
        bytes: &[u8],
        frame: u32,
    ) -> Option<u64>
        requires stands { RowStandsAt self.old.rows device place }
        requires within { FitsInPage address (length bytes.now) }
        requires room { self.old.so_far + 1 < 2 ^ 64 }
        ensures { Accepts self.old device (record { access = write_of address bytes.now; frame = frame }) result self.new }
    {
        let number = self.so_far + 1;
        let row = &mut self.rows[place];
        let found = row.accept_write(address, bytes, frame, number)?;
        self.so_far = number;
        Some(found)
    }

    /// Accepts a read of so many bytes at the address, on the frame: it goes last. The device's number of
    /// it, from 1; None exactly where eight of the device are in flight, and then nothing changes.
    pub fn accept_read(
        &mut self,
        device: DeviceId,
        address: u64,
        len: u16,
        frame: u32,
    ) -> Option<u64>
        requires added { IsAddedTo self.old device }
        requires within { FitsInPage address len }
        requires room { self.old.so_far + 1 < 2 ^ 64 }
        ensures { Accepts self.old device (record { access = read_of address len; frame = frame }) result self.new }
    {
        let place = self.place_of(device);
        self.accept_read_at(device, place, address, len, frame)
    }

    /// Accepts a write of the bytes at the address, on the frame: it goes last, with its bytes. It is
    /// answered as a read is.
    pub fn accept_write(
        &mut self,
        device: DeviceId,
        address: u64,
        bytes: &[u8],
        frame: u32,
    ) -> Option<u64>
        requires added { IsAddedTo self.old device }
        requires within { FitsInPage address (length bytes.now) }
        requires room { self.old.so_far + 1 < 2 ^ 64 }
        ensures { Accepts self.old device (record { access = write_of address bytes.now; frame = frame }) result self.new }
    {
        let place = self.place_of(device);
        self.accept_write_at(device, place, address, bytes, frame)
    }

    /// Makes the oldest access of the device: it is no more in flight. A read leaves memory; a write stores
    /// its bytes in its frame. None exactly where nothing of the device is in flight, and then nothing
    /// changes.
    pub fn make(&mut self, device: DeviceId, memory: &mut Memory) -> Option<MadeAt>
        requires { IsReadyToCommit (length memory.old) (row_of self.old.rows device) }
        ensures { MakesOldestInFlight memory.old self.old device result memory.new self.new }
    {
        let place = self.place_of(device);
        let row = &mut self.rows[place];
        row.make(memory)
    }
}
