use iom_machine::Outcome;

/// What comes of an event where walks make one load an event.
#[derive(Drop)]
pub enum SteppedOutcome {
    /// What comes of it where a walk is one event.
    Answer(Outcome),
    /// The request is under way from now on.
    Walking,
    /// A request of the device is under way, and nothing of this one is kept.
    Occupied,
    /// A load was made, and the request goes on.
    Loaded,
    /// No request of the device is under way.
    NoWalk,
}
