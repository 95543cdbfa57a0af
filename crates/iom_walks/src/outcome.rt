// What the calls answer.
use iom_stepped_requests::{Answer, Request};

/// What becomes of a request that begins.
#[derive(Clone, Copy, PartialEq, Eq)]
pub enum Began {
    /// It needs no load, and is answered so. Nothing of it is under way.
    Served(Answer),
    /// It is under way.
    Walking,
}

/// A request that has ended: what was asked for, and how it is answered.
#[derive(Clone, Copy, PartialEq, Eq)]
pub struct Answered {
    pub request: Request,
    /// How many bytes it asked for, from 1 to 4,096.
    pub len: u16,
    pub answer: Answer,
}

/// What becomes of a device's request when its next load is made.
#[derive(Clone, Copy, PartialEq, Eq)]
pub enum Loaded {
    /// None is under way.
    Nothing,
    /// It needs more loads.
    GoesOn,
    /// It has ended, and is under way no more.
    Ended(Answered),
}
