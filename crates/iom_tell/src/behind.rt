use iom_machine::Event;

/// What is shown behind an answer.
#[derive(Drop)]
pub enum Behind {
    Nothing,
    /// The frames that were taken for tables, where any were.
    Tables,
    /// The frame on which an access was accepted.
    On(u32),
    /// The access that a step began, as the event by which its device would ask for it, and the frame on which it was accepted.
    Began(Event, Option<u32>),
}
