//! A system that is small enough to count its schedules by hand: messages are sent, come or are lost.
ghost use Rattle.std.specs.Prelude.{◌≡◌, IfOk};
ghost use Rattle.iom_litmus_tests.specs.Mailboxes.{is_sending, saying, mailbox_rules, mailbox_readings, empty_mailbox};

use iom_base::{DeviceId, Sequence};
use iom_litmus::{HardwareStep, Reply, System};
use std::alloc::{AllocError, Global};

/// How many messages there may be at once.
const MOST: usize = 4;

/// Messages without contents.
#[derive(Clone, Copy, Drop)]
pub struct Mailbox {
    pub(crate) under_way: usize,
    /// One came.
    pub(crate) any_came: bool,
}

/// Whether the line sends a message; any other asks whether one came.
fn is_sending(line: &[u8]) -> bool
    ensures { result ≡ is_sending line.now }
{
    match line.split_first() {
        Some((first, _)) => *first == b's',
        None => false,
    }
}

fn replied(alloc: Global, text: &[u8]) -> Result<Reply, AllocError>
    ensures { IfOk result (λ reply. reply ≡ saying text.now) }
{
    Ok(Reply {
        text: Sequence::from_vec(Vec::from_slice(alloc, text)?),
        touches: Sequence::new(alloc),
        wrong: false,
        violated: false,
    })
}

impl System for Mailbox {
    type Opening = ();

    ghost opens = { λ _ box. box ≡ empty_mailbox };

    ghost rules = { mailbox_rules };

    ghost readings = { mailbox_readings };

    fn new(_alloc: Global, _opening: &()) -> Result<Mailbox, AllocError> {
        Ok(Mailbox {
            under_way: 0,
            any_came: false,
        })
    }

    fn run(&mut self, alloc: Global, line: &[u8]) -> Result<Reply, AllocError> {
        if is_sending(line) {
            if self.under_way < MOST {
                self.under_way += 1;
            }
            return replied(alloc, b"sent");
        }
        replied(alloc, if self.any_came { b"came" } else { b"none" })
    }

    fn act(&mut self, alloc: Global, step: HardwareStep) -> Result<Reply, AllocError> {
        match step {
            HardwareStep::Deliver(_) => {
                self.under_way = self.under_way.saturating_sub(1);
                self.any_came = true;
            }
            HardwareStep::Drop(_) => {
                self.under_way = self.under_way.saturating_sub(1);
            }
            _ => {}
        }
        replied(alloc, b"")
    }

    fn fetches(&self) -> bool {
        false
    }

    fn devices(&self) -> &[DeviceId] {
        &[]
    }

    fn is_in_flight(&self, _device: DeviceId) -> bool {
        false
    }

    fn is_in_walk(&self, _device: DeviceId) -> bool {
        false
    }

    fn messages(&self) -> usize {
        self.under_way
    }

    fn is_same_message(&self, _place: usize, _other: usize) -> bool {
        true
    }

    fn times_out(&self) -> bool {
        false
    }

    fn memory(
        &self,
        alloc: Global,
        _address: u64,
        _length: usize,
    ) -> Result<Sequence<u8>, AllocError> {
        Ok(Sequence::new(alloc))
    }

    fn is_same(&self, other: &Mailbox) -> bool {
        self.under_way == other.under_way && self.any_came == other.any_came
    }

    fn shrink(&mut self) {}

    fn fingerprint(&self) -> u64 {
        self.under_way as u64
    }
}
