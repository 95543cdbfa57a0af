ghost use Rattle.std.specs.Prelude.{◌≡◌, ◌+◌, ◌≤◌, ◌++◌, length};
ghost use Rattle.iom_event_text.specs.Texts.{event_text, IsSayable};
ghost use Rattle.iom_script.specs.Grammar.{IsEventLine};

use crate::event_text::{EVENT_ROOM, append_event};
use iom_machine::Event;
use iom_script::{BUFFER_SIZE, LineBuffer};

/// Appends the line of an event, without its line feed: `EVENT_ROOM` bytes at most, which have to be free. It has to be one
/// that a line can say ([`is_sayable`](crate::is_sayable)). What stood in the buffer stays.
pub fn append_event_line(out: &mut LineBuffer, event: &Event)
    requires sayable { IsSayable event.now }
    requires room { length out.old + EVENT_ROOM ≤ BUFFER_SIZE }
    ensures text { out.new ≡ out.old ++ event_text event.now }
    ensures says { IsEventLine (event_text event.now) event.now }
    ensures short { length out.new ≤ length out.old + EVENT_ROOM }
{
    append_event(out, event);
}
