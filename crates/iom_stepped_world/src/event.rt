use iom_base::DeviceId;
use iom_machine::Event;

/// What happens in a world whose walks make one load an event.
#[derive(Drop)]
pub enum SteppedEvent {
    /// An event of any world.
    Event(Event),
    /// The next load of the device's request.
    Load { device: DeviceId },
}
