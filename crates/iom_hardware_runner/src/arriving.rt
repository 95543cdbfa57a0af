// Lines that come in pieces.
ghost use Rattle.std.specs.Prelude.{◌≡◌, ◌+◌, ◌<◌, ◌≤◌, ◌++◌, ◌∷◌, [], ℕ, List, length, IfOk, IfErr, OnOk};
ghost use Rattle.iom_hardware_runner.specs.Parts.{HasArrived, IsBadLine, IsRoomFor, Breaks, IsBadRest, IsUnended, NamesNext, NamesNone};
ghost use Rattle.iom_hardware_runner.specs.Runs.{ScriptRuns, NamesLine};
ghost use Rattle.iom_script.specs.Words.{IsWithout};

use crate::conversation::Conversation;
use crate::faults::RunFault;
use iom_script::words::cut;
use std::alloc::Global;
use std::io::Write;

/// The bytes that the pieces of one line have at most, without its line feed. A line that says something has 8,225 at most.
const LINE_LIMIT: usize = 65536;

/// A conversation whose lines come in pieces.
#[derive(Drop)]
pub(crate) struct Arriving {
    conversation: Conversation,
    /// What came so far of a line without its end.
    piece: Vec<u8>,
}

impl Arriving {
    /// It stands in a box, since it has room for the whole of the hardware.
    pub(crate) fn new(alloc: Global) -> Result<Box<Arriving>, RunFault>
        ensures arrived { IfOk result (λ arriving. (most : ℕ) → HasArrived most [] arriving.value) }
        ensures empty { IfOk result (λ arriving. arriving.value.piece.items ≡ []) }
        ensures named { IfErr result NamesNone }
    {
        let arriving = Arriving {
            conversation: Conversation::new(alloc),
            piece: Vec::new(alloc),
        };
        Box::new(alloc, arriving).map_err(|_| RunFault::Memory)
    }

    /// The line that comes next is none.
    fn bad_line(&self) -> RunFault
        ensures { NamesLine (λ number. number ≡ self.now.conversation.lines + 1) result }
    {
        match self.conversation.next_number() {
            Ok(number) => RunFault::BadScript(number),
            Err(fault) => fault,
        }
    }

    /// More of a line came.
    fn keep(&mut self, part: &[u8]) -> Result<(), RunFault>
        ensures kept { OnOk result (self.new.piece.items ≡ self.old.piece.items ++ part.now) }
        ensures rest { self.new.conversation ≡ self.old.conversation }
        ensures short { OnOk result (length self.new.piece.items ≤ 65536) }
        ensures named { IfErr result (NamesNext self.old.conversation.lines (65536 < length self.old.piece.items + length part.now)) }
    {
        if part.len() > LINE_LIMIT || self.piece.len() > LINE_LIMIT - part.len() {
            return Err(self.bad_line());
        }
        self.piece
            .extend_from_slice(part)
            .map_err(|_| RunFault::Memory)
    }

    /// The rest of a line came, up to its line feed.
    fn end_line(&mut self, part: &[u8]) -> Result<(), RunFault>
        ensures taken { (most : ℕ) (bytes : List ℕ) → IsRoomFor most part.now → IsWithout 10 part.now → HasArrived most bytes self.old
            → OnOk result (HasArrived most (bytes ++ part.now ++ 10 ∷ []) self.new) }
        ensures empty { OnOk result (self.new.piece.items ≡ []) }
        ensures named { IfErr result (NamesNext self.old.conversation.lines (IsBadLine self.old.conversation.machine self.old.piece.items part.now)) }
    {
        if self.piece.is_empty() {
            return self.conversation.take_line(part);
        }
        self.keep(part)?;
        self.conversation.take_line(&self.piece)?;
        self.piece.clear();
        Ok(())
    }

    /// Some bytes came: ends of lines, and a piece of one. Each line happens, and what waits is written out where it is
    /// much.
    fn take_lines<W: Write, L: Write>(
        &mut self,
        bytes: &[u8],
        writer: &mut W,
        log: &mut L,
    ) -> Result<(), RunFault>
        ensures taken { (most : ℕ) (before : List ℕ) → IsRoomFor most bytes.now → HasArrived most before self.old
            → OnOk result (HasArrived most (before ++ bytes.now) self.new) }
        ensures named { (most : ℕ) (before : List ℕ) → IsRoomFor most bytes.now → HasArrived most before self.old
            → IfErr result (NamesLine (Breaks (IsBadRest (self.old.piece.items ≡ [])) most (before ++ bytes.now))) }
    {
        let mut rest = bytes;
        while let Some((line, after)) = cut(rest, b'\n') {
            self.end_line(line)?;
            self.conversation.output.write_much(writer, log)?;
            rest = after;
        }
        self.keep(rest)
    }

    /// Some bytes came. The lines that end in them happen, and their answers are written, also where a later line isn't in
    /// the grammar, or fails.
    pub(crate) fn take<W: Write, L: Write>(
        &mut self,
        bytes: &[u8],
        writer: &mut W,
        log: &mut L,
    ) -> Result<(), RunFault>
        ensures taken { (most : ℕ) (before : List ℕ) → IsRoomFor most bytes.now → HasArrived most before self.old
            → OnOk result (HasArrived most (before ++ bytes.now) self.new) }
        ensures named { (most : ℕ) (before : List ℕ) → IsRoomFor most bytes.now → HasArrived most before self.old
            → IfErr result (NamesLine (Breaks (IsBadRest (self.old.piece.items ≡ [])) most (before ++ bytes.now))) }
    {
        let taken = self.take_lines(bytes, writer, log);
        self.conversation.output.write(writer, log)?;
        taken
    }

    /// No more comes. Whether anything was wrong.
    pub(crate) fn end(&self) -> Result<bool, RunFault>
        ensures ran { (most : ℕ) (bytes : List ℕ) → HasArrived most bytes self.now → IfOk result (ScriptRuns bytes) }
        ensures named { (most : ℕ) (bytes : List ℕ) → HasArrived most bytes self.now → IfErr result (NamesLine (Breaks IsUnended most bytes)) }
    {
        if self.piece.is_empty() {
            Ok(self.conversation.is_wrong())
        } else {
            Err(self.bad_line())
        }
    }
}
