// Lines of explanation, and their way into a buffer.
ghost use Rattle.std.specs.Prelude.{◌≡◌, ◌+◌, ◌*◌, ◌≤◌, ◌++◌, ◌∷◌, [], codes, length};
ghost use Rattle.iom_explain.specs.Notes.{AddsNotes};

use arrayvec::{ArrayString, ArrayVec};
use iom_script::{BUFFER_SIZE, LineBuffer};

/// The most bytes of a line, less its `# ` and its line feed.
const MOST_BYTES: usize = 240;

/// The most lines behind an answer.
const MOST_NOTES: usize = 12;

/// The room that the lines behind an answer need at most.
pub const NOTES_ROOM: usize = 3_000;

/// A line of explanation, without its `# `.
pub type Note = ArrayString<MOST_BYTES>;

/// The lines behind an answer. There is room for a few; what is beyond is left out.
#[derive(Drop)]
pub struct Notes {
    notes: ArrayVec<Note, MOST_NOTES>,
}

impl Notes {
    /// None.
    pub fn new() -> Notes {
        Notes {
            notes: ArrayVec::new(),
        }
    }

    /// One more, where there is room.
    pub fn push(&mut self, note: Note) {
        let _ = self.notes.try_push(note);
    }
}

/// Appends one line, where it is one.
fn append_note(out: &mut LineBuffer, note: &Note)
    requires { length out.old + 250 ≤ BUFFER_SIZE }
    ensures notes { AddsNotes out.old out.new }
    ensures short { length out.new ≤ length out.old + 250 }
{
    let text = note.as_str().as_bytes();
    if text.contains(&b'\n') {
        return;
    }
    out.append(b"# ");
    out.append(text);
    out.append(b"\n");
}

/// Appends each as a line of its own that begins with `# `. It takes no memory.
pub fn append_notes(out: &mut LineBuffer, notes: &Notes)
    requires { length out.old + NOTES_ROOM ≤ BUFFER_SIZE }
    ensures notes { AddsNotes out.old out.new }
    ensures short { length out.new ≤ length out.old + NOTES_ROOM }
{
    for place in 0..notes.notes.len() {
        append_note(out, &notes.notes[place]);
    }
}
