// Lines of a driver under test one after another.
ghost use Rattle.std.specs.Prelude.{◌≡◌, ◌+◌, ◌++◌, ◌∷◌, [], ℕ, List, None, true, MatchOption, false, IfOk, IfErr, OnOk};
ghost use Rattle.iom_hardware_runner.specs.Parts.{TookTexts, IsRefused, NamesNext, NamesNone};
ghost use Rattle.iom_hardware_script.specs.Grammar.{IsSetupLine};
ghost use Rattle.iom_script.specs.Grammar.{is_spoken, spoken};
ghost use Rattle.iom_script.specs.Reading.{Reads};

use crate::faults::RunFault;
use crate::machine::Machine;
use crate::output::Output;
use iom_script::is_spoken;
use std::alloc::Global;

/// What was said so far.
#[derive(Drop)]
pub(crate) struct Conversation {
    alloc: Global,
    /// None before the line of the hardware.
    machine: Option<Machine>,
    /// How many lines there were, comments and empty ones too.
    lines: u64,
    /// What waits to be written out.
    pub(crate) output: Output,
}

impl Conversation {
    pub(crate) fn new(alloc: Global) -> Conversation
        ensures machine { result.machine ≡ None }
        ensures lines { result.lines ≡ 0 }
    {
        Conversation {
            alloc,
            machine: None,
            lines: 0,
            output: Output::new(alloc),
        }
    }

    /// The first line that says something: that of the hardware. False where it isn't in the grammar in its place.
    fn begin(&mut self, text: &[u8]) -> Result<bool, RunFault>
        ensures taken { IfOk result (λ taken. taken ≡ true → TookTexts (text.now ∷ []) self.new.machine) }
        ensures refused { IfOk result (λ taken. taken ≡ false → Reads None (IsSetupLine text.now)) }
        ensures named { IfErr result NamesNone }
    {
        let Some(machine) = Machine::new(self.alloc, text)? else {
            return Ok(false);
        };
        self.machine = Some(machine);
        self.output.answer(b"ok\n")?;
        self.output.log(b"", text)?;
        Ok(true)
    }

    /// A line that says something happens. False where it isn't in the grammar in its place.
    fn answer(&mut self, text: &[u8]) -> Result<bool, RunFault>
        ensures taken { (texts : List (List ℕ)) → TookTexts texts self.old.machine
            → IfOk result (λ taken. taken ≡ true → TookTexts (texts ++ text.now ∷ []) self.new.machine) }
        ensures refused { is_spoken text.now ≡ true → IfOk result (λ taken. taken ≡ false → IsRefused self.old.machine text.now) }
        ensures named { IfErr result NamesNone }
    {
        match &mut self.machine {
            Some(machine) => machine.take_line(text, &mut self.output),
            None => self.begin(text),
        }
    }

    /// A line happens, where it says something. False where it isn't in the grammar in its place.
    fn happen(&mut self, text: &[u8]) -> Result<bool, RunFault>
        ensures taken { (texts : List (List ℕ)) → TookTexts (spoken texts) self.old.machine
            → IfOk result (λ taken. taken ≡ true → TookTexts (spoken (texts ++ text.now ∷ [])) self.new.machine) }
        ensures refused { IfOk result (λ taken. taken ≡ false → IsRefused self.old.machine text.now) }
        ensures named { IfErr result NamesNone }
    {
        if !is_spoken(text) {
            self.output.log(b"", text)?;
            return Ok(true);
        }
        self.answer(text)
    }

    /// The next line, without its line feed: it happens, and its answer and the line itself wait to be written. Of a line
    /// that isn't in the grammar nothing happens, and nothing waits.
    pub(crate) fn take_line(&mut self, text: &[u8]) -> Result<(), RunFault>
        ensures taken { (texts : List (List ℕ)) → TookTexts (spoken texts) self.old.machine
            → OnOk result (TookTexts (spoken (texts ++ text.now ∷ [])) self.new.machine) }
        ensures counted { OnOk result (self.new.lines ≡ self.old.lines + 1) }
        ensures named { IfErr result (NamesNext self.old.lines (IsRefused self.old.machine text.now)) }
    {
        let number = self.next_number()?;
        if !self.happen(text)? {
            return Err(RunFault::BadScript(number));
        }
        self.lines = number;
        Ok(())
    }

    /// The number of the line that comes next, from 1.
    pub(crate) fn next_number(&self) -> Result<u64, RunFault>
        ensures counted { IfOk result (λ number. number ≡ self.now.lines + 1) }
        ensures named { IfErr result NamesNone }
    {
        match self.lines.checked_add(1) {
            Some(number) => Ok(number),
            None => Err(RunFault::TooManyEvents),
        }
    }

    /// Whether anything was wrong.
    pub(crate) fn is_wrong(&self) -> bool
        ensures { MatchOption self.now.machine (result ≡ false) (λ machine. result ≡ machine.teller.is_wrong) }
    {
        match &self.machine {
            Some(machine) => machine.is_wrong(),
            None => false,
        }
    }
}
