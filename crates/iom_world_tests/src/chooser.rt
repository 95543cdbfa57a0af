// What happens next in a run.

use crate::bursts::{Task, drawn_task, planned};
use crate::call::{Act, Call};
use crate::choosing::{Seen, act, call_of, shown_of};
use crate::devices::{ABLK, BLK};
use crate::draw::Draw;
use crate::knows::Knows;
use crate::parts::Burst;
use crate::reply::Told;
use iom_base::{Cause, DeviceId};
use iom_machine::CommandName;
use iom_virtqueue::ChainFault;

/// How many events pass before fault records are taken, in runs that keep them.
const FAULTS_KEPT: u64 = 1200;

/// What waits for something calls for one of these.
static FOR_WAITING: [Act; 6] = [
    Act::Timeout,
    Act::Timeout,
    Act::Deliver,
    Act::Deliver,
    Act::Commit,
    Act::Commit,
];

/// What an outcome calls for.
static CALLED_FOR: [(Told, Act); 29] = [
    (Told::Stopped, Act::Restart),
    (Told::TimedOut, Act::Poll),
    (Told::Did(CommandName::IofenceC), Act::Poll),
    (Told::Did(CommandName::IotinvalVma), Act::Fetch),
    (Told::Did(CommandName::IotinvalGvma), Act::Fetch),
    (Told::Did(CommandName::IodirInvalDdt), Act::Fetch),
    (Told::Did(CommandName::AtsInval), Act::Fetch),
    (Told::Ticket, Act::Fetch),
    (Told::Sent, Act::Deliver),
    (Told::Invalidated, Act::Deliver),
    (Told::Asked, Act::Deliver),
    (
        Told::Answered {
            can_read: true,
            can_write: false,
        },
        Act::Deliver,
    ),
    (
        Told::Answered {
            can_read: true,
            can_write: true,
        },
        Act::Deliver,
    ),
    (Told::AnsweredFault(Cause::ReadPageFault), Act::Deliver),
    (Told::AnsweredFault(Cause::ReadGuestPageFault), Act::Deliver),
    (
        Told::AnsweredFault(Cause::DirectoryEntryNotValid),
        Act::Deliver,
    ),
    (
        Told::AnsweredFault(Cause::TransactionTypeDisallowed),
        Act::Deliver,
    ),
    (Told::Walking, Act::Load),
    (Told::Loaded, Act::Load),
    (Told::Waiting, Act::Commit),
    (Told::Accepted, Act::Commit),
    (Told::Read, Act::Step),
    (Told::Wrote, Act::Step),
    (Told::Chain(ChainFault::Loop), Act::Status),
    (Told::Chain(ChainFault::BadIndex), Act::Status),
    (Told::Chain(ChainFault::Order), Act::Status),
    (Told::Chain(ChainFault::TooLong), Act::Status),
    (Told::Chain(ChainFault::Short), Act::Status),
    (Told::Down, Act::Status),
];

/// What chooses the events of a run.
#[derive(Drop)]
pub(crate) struct Chooser {
    draw: Draw,
    /// What is planned now, and what after it.
    task: Task,
    later: Burst,
    /// Whether nothing comes between the events that are planned.
    is_strict: bool,
    /// The block device that goes on now, and for how many events at most.
    focus: DeviceId,
    focused: u64,
    /// What happened last, and what came of it.
    last: Call,
    reply: Told,
    happened: u64,
    /// Whether no fault record is taken for a long time.
    keeps_faults: bool,
}

/// What the outcome calls for, if it calls for something.
fn listed(reply: Told) -> Option<Act> {
    for (what, act) in CALLED_FOR.iter() {
        if *what == reply {
            return Some(*act);
        }
    }
    None
}

/// What the last outcome calls for, if anything does.
fn called_for(draw: &mut Draw, last: Call, reply: Told) -> Option<Act> {
    if reply == Told::Waits {
        return Some(FOR_WAITING[draw.below(6) as usize]);
    }
    let act = listed(reply)?;
    let may = match act {
        Act::Step => last.device == BLK || last.device == ABLK,
        Act::Commit => last.act == Act::Step || draw.one_in(3),
        _ => true,
    };
    if may { Some(act) } else { None }
}

/// The act of the device, and where it is a delivery, of the last message.
fn call_for(draw: &mut Draw, act: Act, device: DeviceId, shown: Seen) -> Call {
    let mut call = call_of(draw, act, shown);
    call.device = device;
    call.place = shown.messages.saturating_sub(1);
    call
}

impl Chooser {
    /// Begins with the seed, with the burst after the devices are there.
    pub(crate) fn new(seed: u64, later: Burst, keeps_faults: bool, shown: Seen) -> Chooser {
        let mut draw = Draw::new(seed);
        let last = call_of(&mut draw, Act::Poll, shown);
        Chooser {
            draw,
            task: Task::new(Burst::Devices, 0, 0),
            later,
            is_strict: true,
            focus: BLK,
            focused: 0,
            last,
            reply: Told::NoEffect,
            happened: 0,
            keeps_faults,
        }
    }

    /// The next of what is planned.
    fn next_planned(&mut self, knows: &Knows, shown: Seen) -> Option<Call> {
        let call = planned(&mut self.draw, knows, shown, self.task);
        if call.is_some() {
            self.task.at = self.task.at.wrapping_add(1);
            return call;
        }
        if self.task.burst == Burst::Block {
            self.focus = self.task.device;
            self.focused = 60;
        }
        self.is_strict = self.later != Burst::Nothing;
        self.task = Task::new(self.later, 0, 0);
        self.later = Burst::Nothing;
        planned(&mut self.draw, knows, shown, self.task)
    }

    /// The block device that goes on does so.
    fn go_on(&mut self, shown: Seen) -> Call {
        let act = match listed(self.reply) {
            Some(act) => act,
            None if self.reply == Told::Busy => Act::Commit,
            None => Act::Step,
        };
        let has_ended = self.reply == Told::Idle || act == Act::Status;
        self.focused = if has_ended {
            0
        } else {
            self.focused.saturating_sub(1)
        };
        call_for(&mut self.draw, act, self.focus, shown)
    }

    /// What nothing was planned for: what the last outcome calls for, or anything.
    fn unplanned(&mut self, knows: &Knows, shown: Seen) -> Call {
        if self.draw.one_in(24) {
            self.task = drawn_task(&mut self.draw, knows);
        } else if self.draw.one_in(2) {
            if let Some(act) = called_for(&mut self.draw, self.last, self.reply) {
                return call_for(&mut self.draw, act, self.last.device, shown);
            }
        }
        let act = act(&mut self.draw);
        call_of(&mut self.draw, act, shown)
    }

    /// A load of the request that began first of those that are under way; of any device, where none is.
    fn load(&mut self, knows: &Knows, shown: Seen) -> Call {
        let mut call = call_of(&mut self.draw, Act::Load, shown);
        if let Some(walk) = knows.walks.first() {
            call.device = walk.call.device;
        }
        call
    }

    /// The next event.
    fn choose(&mut self, knows: &Knows) -> Call {
        let shown = shown_of(knows);
        if knows.is_stepped && self.draw.one_in(4) {
            return self.load(knows, shown);
        }
        if !self.is_strict && self.draw.one_in(8) {
            let act = act(&mut self.draw);
            return call_of(&mut self.draw, act, shown);
        }
        if let Some(call) = self.next_planned(knows, shown) {
            return call;
        }
        if self.focused > 0 {
            return self.go_on(shown);
        }
        self.unplanned(knows, shown)
    }

    /// The next event.
    pub(crate) fn next(&mut self, knows: &Knows) -> Call {
        let mut call = self.choose(knows);
        if call.act == Act::Faults && self.keeps_faults && self.happened < FAULTS_KEPT {
            call.act = Act::Fetch;
        }
        self.last = call;
        self.happened = self.happened.wrapping_add(1);
        call
    }

    /// This came of it.
    pub(crate) fn hear(&mut self, reply: Told) {
        self.reply = reply;
    }

    /// What happened last.
    pub(crate) fn last(&self) -> Call {
        self.last
    }
}
