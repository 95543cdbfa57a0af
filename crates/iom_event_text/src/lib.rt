//! The line of an event, as a script or a trace has it: the grammar of scripts reads it as that event.
//!
//! `iom_script` reads lines; this writes them. The layer above may rely on [`append_event_line`] appending exactly the text of an
//! event (`event_text` in `specs/Texts.antt`), which is a line of the grammar that says it (`IsEventLine`); and on [`is_sayable`]
//! telling which events a line can say. Nothing here takes memory.
#![tactic(auto)]

mod event_text;
mod said;
mod sayable;
mod words;

pub use event_text::EVENT_ROOM;
pub use said::append_event_line;
pub use sayable::is_sayable;
