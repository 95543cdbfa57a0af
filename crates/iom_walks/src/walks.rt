ghost use Rattle.std.specs.Prelude.{◌≡◌, length, IfOk, MatchOption, None, [], is_some, option_map};
ghost use Rattle.iom_base.specs.Sizes.{device_limit};
ghost use Rattle.iom_walks.specs.Calls.{Adds, AllBeginAnew, given_up};
ghost use Rattle.iom_walks.specs.Invariant.{AreWalks};
ghost use Rattle.iom_walks.specs.Rows.{RowStandsAt};
ghost use Rattle.iom_walks.specs.Walks.{UnderWay, bytes_in, row_of, under_way_of};

use crate::row::Row;
use iom_base::{DeviceId, MAX_DEVICES};
use iom_registers::DirectoryPointer;
use iom_stepped_requests::{Request, Serving};
use std::alloc::{AllocError, Global};
use std::marker::Model;

/// The requests of all devices that are under way, one of each at most.
#[derive(Drop)]
pub struct Walks {
    /// The rows of the devices that were added.
    pub(crate) rows: Vec<Row>,
    /// The rows of those that may be added yet.
    spare: Vec<Row>,
}

impl Model for Walks {
    ghost use Rattle.std.specs.Prelude.{List};
    ghost use Rattle.iom_walks.specs.Walks.{WalkRow};

    ghost Value = { List WalkRow };

    ghost use Rattle.std.specs.Prelude.{◌≡◌, ◌≤◌, ◌+◌, length, vec_capacity};
    ghost use Rattle.iom_base.specs.Sizes.{device_limit};
    ghost use Rattle.iom_walks.specs.Invariant.{AreWalks};

    ghost view = { λ w. w.rows.items };

    ghost invariant = { λ w. (device_limit ≤ vec_capacity w.rows) × (length w.rows.items + length w.spare.items ≡ device_limit)
        × AreWalks w.rows.items };
}

/// The place of the device's row, where it has one.
pub(crate) fn find(rows: &[Row], device: DeviceId) -> Option<usize>
    ensures { MatchOption result (row_of rows.now device ≡ None) (RowStandsAt rows.now device) }
{
    for place in 0..rows.len() {
        if rows[place].device() == device {
            return Some(place);
        }
    }
    None
}

/// Rows for 16 devices.
fn spare_rows(alloc: Global) -> Result<Vec<Row>, AllocError>
    ensures { IfOk result (λ rows. length rows.items ≡ device_limit) }
{
    let mut rows = Vec::with_capacity(alloc, MAX_DEVICES)?;
    for made in 0..MAX_DEVICES {
        rows.push(Row::new(alloc)?)?;
    }
    Ok(rows)
}

/// All requests of these rows begin anew.
fn begin_all_anew(rows: &mut [Row], ddtp: DirectoryPointer)
    ensures { AllBeginAnew ddtp rows.old rows.new }
{
    for row in rows.iter_mut() {
        row.begin_anew(ddtp);
    }
}

impl Walks {
    /// No device, with room for 16 of them. Takes all its memory here.
    pub fn new(alloc: Global) -> Result<Walks, AllocError>
        ensures { IfOk result (λ walks. walks ≡ []) }
    {
        Ok(Walks {
            rows: Vec::with_capacity(alloc, MAX_DEVICES)?,
            spare: spare_rows(alloc)?,
        })
    }

    /// What holds of them, whatever calls were made. It does nothing: a proof knows of a value what a call told of it,
    /// so this is a call.
    pub fn facts(&self)
        ensures { AreWalks self.now }
    {
        let _rows = &self.rows;
    }

    /// Adds the device, after all others, with nothing under way. False exactly where it is there or 16 are, and then
    /// nothing changes.
    pub fn add(&mut self, device: DeviceId) -> bool
        ensures { Adds self.old device result self.new }
    {
        if find(&self.rows, device).is_some() {
            return false;
        }
        match self.spare.pop() {
            Some(mut row) => {
                row.start(device);
                self.rows.push(row).unwrap();
                true
            }
            None => false,
        }
    }

    /// Whether the device was added.
    pub fn is_added(&self, device: DeviceId) -> bool
        ensures { result ≡ is_some (row_of self.now device) }
    {
        find(&self.rows, device).is_some()
    }

    /// Whether a request of the device is under way.
    pub fn is_walking(&self, device: DeviceId) -> bool
        ensures { result ≡ is_some (under_way_of self.now device) }
    {
        match find(&self.rows, device) {
            Some(place) => self.rows[place].is_walking(),
            None => false,
        }
    }

    /// The request of the device that is under way, if one is.
    pub fn request(&self, device: DeviceId) -> Option<Request>
        ensures { result ≡ option_map (λ (own : UnderWay). own.request) (under_way_of self.now device) }
    {
        match find(&self.rows, device) {
            Some(place) => self.rows[place].request(),
            None => None,
        }
    }

    /// How far the request of the device has come that is under way, if one is.
    pub fn serving(&self, device: DeviceId) -> Option<Serving>
        ensures { result ≡ option_map (λ (own : UnderWay). own.serving) (under_way_of self.now device) }
    {
        match find(&self.rows, device) {
            Some(place) => self.rows[place].serving(),
            None => None,
        }
    }

    /// The bytes with which the device's request was asked that began last, also where it has ended since: of a write
    /// its bytes, of a read none. None where no request of it ever was under way, or it wasn't added.
    pub fn bytes(&self, device: DeviceId) -> &[u8]
        ensures { result.now ≡ bytes_in (row_of self.now device) }
    {
        match find(&self.rows, device) {
            Some(place) => self.rows[place].bytes(),
            None => &[],
        }
    }

    /// Every request that is under way begins anew, by `ddtp` as it is now: next it makes the first load of the
    /// directory, and it looks in no cache. Where there is no directory, or the id is too wide for it, it is served
    /// already: it stays under way, and its next load ends it and reads nothing.
    pub fn begin_anew(&mut self, ddtp: DirectoryPointer)
        ensures { AllBeginAnew ddtp self.old self.new }
    {
        begin_all_anew(&mut self.rows, ddtp);
    }

    /// Gives up the request of the device, if one is under way. Those of all others stay.
    pub fn give_up(&mut self, device: DeviceId)
        ensures { self.new ≡ given_up self.old (row_of self.old device) }
    {
        if let Some(place) = find(&self.rows, device) {
            let row = &mut self.rows[place];
            row.give_up();
        }
    }
}
