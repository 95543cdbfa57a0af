// What the test knows, by the events and their outcomes alone.

use crate::call::{Act, Call};
use crate::flights::{Flying, make_oldest};
use crate::history::{Entry, Right, Which, frames};
use crate::messages::{Message, What, send};
use crate::reply::{Heard, Told};
use crate::rules::accepting;
use crate::walks::{Walk, begin_anew, gives_up, walk_of};
use iom_base::{AccessKind, Cause, DeviceId};
use iom_machine::CommandName;
use std::alloc::{AllocError, Global};

/// How many records the fault queue holds.
pub(crate) const MOST_RECORDS: u64 = 127;

/// What the test knows.
#[derive(Drop)]
pub(crate) struct Knows {
    /// What was done about devices and their grants, the oldest first.
    pub(crate) entries: Vec<Entry>,
    /// All accesses that were accepted, the oldest first.
    pub(crate) flights: Vec<Flying>,
    pub(crate) messages: Vec<Message>,
    /// The requests to invalidate that are open, and how many there were ever.
    pub(crate) open: Vec<u64>,
    pub(crate) requests: u64,
    /// The fault records that weren't taken, and whether one was lost since the queue was empty.
    pub(crate) records: u64,
    pub(crate) has_lost: bool,
    /// The last ticket that was given, and the last that is confirmed.
    pub(crate) last_ticket: u64,
    pub(crate) confirmed: u64,
    /// The device that the directory can't name.
    pub(crate) wide: DeviceId,
    /// Whether tables may come to be in the frames that are granted.
    pub(crate) is_crowded: bool,
    /// Whether walks make one load an event, and those that are under way.
    pub(crate) is_stepped: bool,
    pub(crate) walks: Vec<Walk>,
}

impl Knows {
    pub(crate) fn new(alloc: Global, wide: DeviceId, is_crowded: bool, is_stepped: bool) -> Knows {
        Knows {
            entries: Vec::new(alloc),
            flights: Vec::new(alloc),
            messages: Vec::new(alloc),
            open: Vec::new(alloc),
            requests: 0,
            records: 0,
            has_lost: false,
            last_ticket: 0,
            confirmed: 0,
            wide,
            is_crowded,
            is_stepped,
            walks: Vec::new(alloc),
        }
    }

    /// The frames of the device's grants of that right, with those that linger.
    pub(crate) fn reached(&self, device: DeviceId, page: Option<u64>, right: Right) -> u64 {
        let which = Which {
            device: Some(device),
            page,
            right,
            lingering: true,
        };
        frames(&self.entries, self.confirmed, which)
    }

    /// The frames of the device's grants of that right that it holds.
    pub(crate) fn held(&self, device: DeviceId, page: u64, right: Right) -> u64 {
        let which = Which {
            device: Some(device),
            page: Some(page),
            right,
            lingering: false,
        };
        frames(&self.entries, self.confirmed, which)
    }

    /// The frames that some device holds, with those that linger, if these count.
    pub(crate) fn reached_by_any(&self, lingering: bool) -> u64 {
        let which = Which {
            device: None,
            page: None,
            right: Right::Read,
            lingering,
        };
        frames(&self.entries, self.confirmed, which)
    }

    /// An access was accepted.
    fn keep_flying(&mut self, call: Call) -> Result<(), AllocError> {
        let page = if call.act == Act::Step {
            None
        } else {
            Some(call.page)
        };
        let flying = Flying {
            call,
            reads: accepting(self, call.device, page, AccessKind::Read),
            writes: accepting(self, call.device, page, AccessKind::Write),
            is_made: false,
        };
        self.flights.push(flying)?;
        Ok(())
    }

    /// The walk of the device that is under way.
    pub(crate) fn walk(&self, device: DeviceId) -> Option<Walk> {
        walk_of(&self.walks, device)
    }

    /// What a load of the device's request left of that.
    fn keep_load(&mut self, device: DeviceId, reply: Told) -> Result<(), AllocError> {
        let Some(walk) = self.walk(device) else {
            return Ok(());
        };
        self.walks.retain(|other| other.call.device != device);
        match reply {
            Told::Loaded => {
                let loads = walk.loads.wrapping_add(1);
                self.walks.push(Walk { loads, ..walk })?;
                Ok(())
            }
            Told::Accepted => self.keep_flying(walk.call),
            _ => Ok(()),
        }
    }

    /// Which walks are left, and which begin anew.
    fn keep_walks(&mut self, call: Call, reply: Told) {
        if gives_up(self, call, reply) {
            self.walks.retain(|other| other.call.device != call.device);
        }
        if matches!(
            reply,
            Told::Did(
                CommandName::IotinvalVma | CommandName::IotinvalGvma | CommandName::IodirInvalDdt
            )
        ) {
            begin_anew(&mut self.walks);
        }
    }

    /// A request to invalidate is opened, and sent where there is room.
    fn open_next(&mut self) -> Result<(), AllocError> {
        self.requests = self.requests.wrapping_add(1);
        self.open.push(self.requests)?;
        let request = Message::new(What::Request, 0, self.requests);
        send(&mut self.messages, request)
    }

    /// The message at the place.
    pub(crate) fn message(&self, place: u64) -> Option<Message> {
        self.messages.get(place as usize).copied()
    }

    /// The message at the place arrived, or was lost.
    fn keep_taken(&mut self, place: usize, reply: Told) -> Result<(), AllocError> {
        if place >= self.messages.len() {
            return Ok(());
        }
        let message = self.messages.remove(place);
        match message.what {
            _ if reply == Told::Dropped => Ok(()),
            What::Question => {
                let mut answer = Message::new(What::Answer, message.device, 0);
                answer.is_refused = matches!(reply, Told::AnsweredFault(_));
                send(&mut self.messages, answer)
            }
            What::Request => {
                let word = Message::new(What::Word, 0, message.serial);
                send(&mut self.messages, word)
            }
            What::Word if !message.is_forged => {
                self.open.retain(|other| *other != message.serial);
                Ok(())
            }
            _ => Ok(()),
        }
    }

    /// A message was sent, or copied.
    fn keep_message(&mut self, call: Call) -> Result<(), AllocError> {
        let mut message = Message::new(What::Question, call.device, call.serial);
        match call.act {
            Act::Repeat => match self.message(call.place) {
                Some(copied) => message = copied,
                None => return Ok(()),
            },
            Act::Forge => {
                message.what = What::Word;
                message.is_forged = true;
            }
            Act::Ask => message.page = Some(call.page),
            _ => {}
        }
        send(&mut self.messages, message)
    }

    /// What was done about devices and their grants.
    fn keep_entry(&mut self, call: Call, ticket: u64) -> Result<(), AllocError> {
        if ticket != 0 {
            self.last_ticket = ticket;
        }
        self.entries.push(Entry { call, ticket })?;
        Ok(())
    }

    /// What a driver that looks finds.
    fn keep_looks(&mut self, heard: Heard) {
        match heard.reply {
            Told::Confirmed { .. } => self.confirmed = heard.last,
            Told::Record => self.records = self.records.saturating_sub(1),
            Told::NoRecord => self.has_lost = false,
            Told::TimedOut => self.open.clear(),
            // A fault writes a record, where the queue has room and lost none.
            Told::Fault(_)
            | Told::AnsweredFault(
                Cause::DirectoryEntryNotValid | Cause::TransactionTypeDisallowed,
            ) => {
                if self.records < MOST_RECORDS && !self.has_lost {
                    self.records = self.records.wrapping_add(1);
                } else {
                    self.has_lost = true;
                }
            }
            _ => {}
        }
    }

    /// What came of the call is known from now on.
    pub(crate) fn keep(&mut self, call: Call, heard: Heard) -> Result<(), AllocError> {
        self.keep_looks(heard);
        self.keep_walks(call, heard.reply);
        match (call.act, heard.reply) {
            (Act::Load, reply) => self.keep_load(call.device, reply),
            (_, Told::Walking) => {
                self.walks.push(Walk {
                    call,
                    loads: 0,
                    is_anew: false,
                })?;
                Ok(())
            }
            (Act::Restart, Told::Done) => {
                self.open.clear();
                Ok(())
            }
            (Act::Plug | Act::Attach | Act::Grant | Act::Revive, Told::Done) | (_, Told::Ticket) =>
                { self.keep_entry(call, heard.number) }
            (_, Told::Accepted) => self.keep_flying(call),
            (_, Told::Did(CommandName::AtsInval)) => self.open_next(),
            (_, Told::Sent | Told::Asked | Told::Repeated) => self.keep_message(call),
            (Act::Deliver | Act::Drop, _) => self.keep_taken(call.place as usize, heard.reply),
            (Act::Commit, Told::Read | Told::Wrote) => {
                make_oldest(&mut self.flights, call.device);
                Ok(())
            }
            _ => Ok(()),
        }
    }
}
