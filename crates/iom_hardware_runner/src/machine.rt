// Hardware under a driver: each line happens and is answered, and between two lines hardware may act by itself.
ghost use Rattle.std.specs.Prelude.{◌≡◌, ◌↔◌, ◌&&◌, ◌++◌, ◌∷◌, [], ℕ, IsTrue, List, None, true, false, not, IfOk, IfErr, OnOk, IfSome};
ghost use Rattle.iom_hardware_session.specs.Shown.{walks_in};
ghost use Rattle.iom_hardware_runner.specs.Parts.{is_off, StaysOff, does_itself, KeepsTraffic, TellsLine, Does, Rests, SettlesSo, AreFew, CameBy, MachineTakesLine, NamesNone};
ghost use Rattle.iom_hardware_runner.specs.Runs.{is_of_software, is_help, AreDrawn, Directs, IsStill};
ghost use Rattle.iom_hardware_script.specs.declared.script.HardwareLine.{HardwareLine as Line};
ghost use Rattle.iom_hardware_script.specs.declared.script.HardwareLine.TheVariants as says;
ghost use Rattle.iom_hardware_script.specs.declared.script.Help.TheVariants as helps;
ghost use Rattle.iom_hardware_script.specs.declared.script.Setup.{Setup};
ghost use Rattle.iom_hardware_script.specs.Grammar.{IsSetupLine, IsHardwareLine};
ghost use Rattle.iom_iommu.specs.Parts.{registers_of};
ghost use Rattle.iom_registers.specs.Queues.{command_head};
ghost use Rattle.iom_script.specs.Reading.{Reads};

use crate::faults::RunFault;
use crate::helper::Helper;
use crate::output::Output;
use crate::settling::{is_fetch, is_still, settling_step};
use crate::step::Step;
use crate::teller::Teller;
use crate::under_way::is_stepped;
use iom_base::DeviceId;
use iom_hardware_script::{HardwareLine, Help, NumberedLine, line_of, setup_of};
use iom_hardware_session::Session;
use iom_machine::Event;
use std::alloc::Global;

/// Hardware, what is claimed of it, and what makes it act by itself.
#[derive(Drop)]
pub(crate) struct Machine {
    alloc: Global,
    teller: Teller,
    helper: Helper,
}

/// What came of a step on the way to rest.
enum Settling {
    /// Nothing: there is no more to do.
    Rests,
    Moved,
    /// It made an access that nothing claimed allows.
    Violated,
}

/// Whether software does this: before it hardware may act by itself.
fn is_of_software(line: &HardwareLine) -> bool
    ensures { result ≡ is_of_software line.now }
{
    match line {
        HardwareLine::RegisterRead { .. }
        | HardwareLine::RegisterWrite { .. }
        | HardwareLine::Claim(_)
        | HardwareLine::Event(Event::Poke { .. } | Event::Peek { .. }) => true,
        HardwareLine::Event(_) | HardwareLine::Load { .. } | HardwareLine::Help(_) => false,
    }
}

/// What the text of a line says, if it is in the grammar.
fn read(alloc: Global, text: &[u8]) -> Result<Option<HardwareLine>, RunFault>
    ensures said { IfOk result (λ said. Reads said (IsHardwareLine text.now)) }
    ensures named { IfErr result NamesNone }
{
    line_of(alloc, text).map_err(|_| RunFault::Memory)
}

/// Appends how many things hardware did on the way to rest, how many of them were violations, and which claims fell.
fn put_quiet(
    alloc: Global,
    steps: u64,
    violations: u64,
    fallen: &str,
    output: &mut Output,
) -> Result<(), RunFault>
    ensures named { IfErr result NamesNone }
{
    let quiet = format!(in alloc; "quiet {steps}").map_err(|_| RunFault::Memory)?;
    output.answer(quiet.as_bytes())?;
    if violations > 0 {
        let violated = format!(in alloc; "; violated {violations} times");
        output.answer(violated.map_err(|_| RunFault::Memory)?.as_bytes())?;
    }
    output.answer(fallen.as_bytes())?;
    output.answer(b"\n")
}

impl Machine {
    /// The hardware that the first line of a script asks for, at power-on. None where the line asks for none.
    pub(crate) fn new(alloc: Global, text: &[u8]) -> Result<Option<Machine>, RunFault>
        ensures begins { IfOk result (λ found. IfSome found (λ machine. (setup : Setup) × IsSetupLine text.now setup × CameBy setup [] machine)) }
        ensures refused { IfOk result (λ found. found ≡ None → Reads None (IsSetupLine text.now)) }
        ensures named { IfErr result NamesNone }
    {
        let Some(setup) = setup_of(text) else {
            return Ok(None);
        };
        let Ok(session) = Session::new(alloc, setup) else {
            return Err(RunFault::Memory);
        };
        let Ok(teller) = Teller::new(alloc, session, setup.frames) else {
            return Err(RunFault::Memory);
        };
        Ok(Some(Machine {
            alloc,
            teller,
            helper: Helper::new(alloc),
        }))
    }

    /// Whether anything was wrong.
    pub(crate) fn is_wrong(&self) -> bool
        ensures { result ≡ self.now.teller.is_wrong }
    {
        self.teller.is_wrong
    }

    /// A line of a script happens, behind steps that hardware takes by itself. False where it isn't in the grammar; then
    /// nothing happens.
    pub(crate) fn take_line(&mut self, text: &[u8], output: &mut Output) -> Result<bool, RunFault>
        ensures taken { IfOk result (λ taken. taken ≡ true → (line : Line) × IsHardwareLine text.now line × MachineTakesLine self.old line self.new) }
        ensures refused { IfOk result (λ taken. taken ≡ false → Reads None (IsHardwareLine text.now)) }
        ensures named { IfErr result NamesNone }
    {
        let Some(said) = read(self.alloc, text)? else {
            return Ok(false);
        };
        if let HardwareLine::Help(help) = said {
            self.help(help, text, output)?;
            return Ok(true);
        }
        self.happen(said, text, output)?;
        Ok(true)
    }

    /// A line happens that asks for no help, behind steps that hardware takes by itself.
    fn happen(
        &mut self,
        said: HardwareLine,
        text: &[u8],
        output: &mut Output,
    ) -> Result<(), RunFault>
        ensures taken { is_help said ≡ false → OnOk result (MachineTakesLine self.old said self.new) }
        ensures named { IfErr result NamesNone }
    {
        self.act_before(&said, output)?;
        let words = self.tell(said, output)?;
        self.answer(&words, output)?;
        output.log(b"", text)
    }

    /// A line happens, as the next of the log. The words behind its answer.
    fn tell(&mut self, said: HardwareLine, output: &Output) -> Result<String, RunFault>
        ensures reply { OnOk result (TellsLine self.old.teller said self.new.teller) }
        ensures helper { self.new.helper ≡ self.old.helper }
        ensures named { IfErr result NamesNone }
    {
        if self.teller.events() >= u64::MAX - 1 {
            return Err(RunFault::TooManyEvents);
        }
        let line = NumberedLine {
            number: output.next_number()?,
            line: said,
        };
        self.teller.tell(&line).map_err(|_| RunFault::Memory)
    }

    /// Appends the answer of what happened last, and the words behind it.
    fn answer(&self, words: &str, output: &mut Output) -> Result<(), RunFault>
        ensures kept { OnOk result (output.new.answers.items ≡ output.old.answers.items ++ self.now.teller.buffer ++ words.now ++ 10 ∷ []) }
        ensures named { IfErr result NamesNone }
    {
        output.answer(self.teller.answer())?;
        output.answer(words.as_bytes())?;
        output.answer(b"\n")
    }

    /// Hardware takes the step that is drawn next, if it can take one.
    fn act_once(&mut self, output: &mut Output) -> Result<(), RunFault>
        ensures acts { OnOk result (Does (AreFew (does_itself self.old.teller self.old.helper) 1) self.old.teller self.new.teller) }
        ensures traffic { KeepsTraffic self.old.helper self.new.helper }
        ensures named { IfErr result NamesNone }
    {
        let session = &self.teller.session;
        let Ok(step) = self.helper.step(session.hardware(), session.walks()) else {
            return Err(RunFault::Memory);
        };
        match step {
            Some(step) => self.take_step(step, output),
            None => Ok(()),
        }
    }

    /// Hardware takes so many steps by itself.
    fn act_often(&mut self, count: u64, output: &mut Output) -> Result<(), RunFault>
        ensures acts { OnOk result (Does (AreFew (does_itself self.old.teller self.old.helper) count) self.old.teller self.new.teller) }
        ensures traffic { KeepsTraffic self.old.helper self.new.helper }
        ensures named { IfErr result NamesNone }
    {
        for _taken in 0..count {
            self.act_once(output)?;
        }
        Ok(())
    }

    /// Hardware takes as many steps by itself as are drawn.
    fn act(&mut self, output: &mut Output) -> Result<(), RunFault>
        ensures acts { OnOk result (Does (AreDrawn (does_itself self.old.teller self.old.helper) (not (is_off self.old.helper)))
            self.old.teller self.new.teller) }
        ensures off { StaysOff self.old.helper self.new.helper }
        ensures traffic { KeepsTraffic self.old.helper self.new.helper }
        ensures named { IfErr result NamesNone }
    {
        if self.helper.is_off() {
            return Ok(());
        }
        let count = self.helper.count();
        self.act_often(count, output)
    }

    /// Before what software does hardware may act by itself.
    fn act_before(&mut self, said: &HardwareLine, output: &mut Output) -> Result<(), RunFault>
        ensures acts { OnOk result (Does (AreDrawn (does_itself self.old.teller self.old.helper) (not (is_off self.old.helper) && is_of_software said.now))
            self.old.teller self.new.teller) }
        ensures off { StaysOff self.old.helper self.new.helper }
        ensures traffic { KeepsTraffic self.old.helper self.new.helper }
        ensures named { IfErr result NamesNone }
    {
        if is_of_software(said) {
            self.act(output)
        } else {
            Ok(())
        }
    }

    /// What the text says happens. The words behind its answer; None where hardware does no such thing by itself.
    fn tell_step(&mut self, text: &str, output: &Output) -> Result<Option<String>, RunFault>
        ensures acts { OnOk result (Does (AreFew (does_itself self.old.teller self.old.helper) 1) self.old.teller self.new.teller) }
        ensures helper { self.new.helper ≡ self.old.helper }
        ensures named { IfErr result NamesNone }
    {
        let Some(said) = read(self.alloc, text.as_bytes())? else {
            return Ok(None);
        };
        if !self.helper.does(is_stepped(&self.teller.session), &said) {
            return Ok(None);
        }
        let words = self.tell(said, output)?;
        Ok(Some(words))
    }

    /// Appends the step that was taken, as a comment, and as a line of the log.
    fn put_step(&self, text: &str, words: &str, output: &mut Output) -> Result<(), RunFault>
        ensures named { IfErr result NamesNone }
    {
        output.answer(b"# ")?;
        output.answer(text.as_bytes())?;
        output.answer(b" => ")?;
        self.answer(words, output)?;
        output.log(b"", text.as_bytes())
    }

    /// A step happens, and is told as a comment.
    fn take_step(&mut self, step: Step, output: &mut Output) -> Result<(), RunFault>
        ensures acts { OnOk result (Does (AreFew (does_itself self.old.teller self.old.helper) 1) self.old.teller self.new.teller) }
        ensures helper { self.new.helper ≡ self.old.helper }
        ensures named { IfErr result NamesNone }
    {
        let text = format!(in self.alloc; "{step}").map_err(|_| RunFault::Memory)?;
        let Some(words) = self.tell_step(&text, output)? else {
            return Ok(());
        };
        self.put_step(&text, &words, output)
    }

    /// Hardware is asked to act by itself. A line after which it draws is a comment of the log, which has what was drawn.
    fn help(&mut self, help: Help, text: &[u8], output: &mut Output) -> Result<(), RunFault>
        ensures taken { OnOk result (MachineTakesLine self.old (says.Help help) self.new) }
        ensures named { IfErr result NamesNone }
    {
        match help {
            Help::Auto { seed } => {
                self.helper.seed(seed);
                output.answer(b"ok\n")?;
                output.log(b"# ", text)
            }
            Help::Traffic {
                device,
                first,
                last,
            } => {
                self.direct(device, first, last, output)?;
                output.log(b"# ", text)
            }
            Help::Quiesce => {
                self.quiesce(output)?;
                output.log(b"", text)
            }
        }
    }

    /// The device makes requests by itself at these pages from here on, or is refused.
    fn direct(
        &mut self,
        device: DeviceId,
        first: u64,
        last: u64,
        output: &mut Output,
    ) -> Result<(), RunFault>
        ensures teller { self.new.teller ≡ self.old.teller }
        ensures off { is_off self.new.helper ≡ is_off self.old.helper }
        ensures directed { OnOk result (Directs self.old.teller.session.hardware.board device first last self.old.helper.traffic.items self.new.helper.traffic.items) }
        ensures named { IfErr result NamesNone }
    {
        let hardware = self.teller.session.hardware();
        let Ok(directed) = self.helper.direct(hardware, device, first, last) else {
            return Err(RunFault::Memory);
        };
        match directed {
            Ok(()) => output.answer(b"ok\n"),
            Err(why) => {
                let text = format!(in self.alloc; "{why}\n").map_err(|_| RunFault::Memory)?;
                output.answer(text.as_bytes())
            }
        }
    }

    /// Whether hardware is still, and the head of the command queue is where it was.
    fn is_stuck(&self, head: u32) -> bool
        ensures { IsTrue result ↔ (IsStill self.now.teller.session.hardware.board (walks_in self.now.teller.session.beside) × (command_head (registers_of self.now.teller.session.hardware.board.iommu) ≡ head)) }
    {
        let session = &self.teller.session;
        is_still(session) && session.hardware().iommu.registers().command_head() == head
    }

    /// Takes the next step of those that bring hardware to rest. Whether there was one, or hardware rests; and whether it was a
    /// violation.
    fn settle_once(&mut self, output: &Output) -> Result<Settling, RunFault>
        ensures settles { IfOk result (λ came. SettlesSo came self.old.teller self.new.teller) }
        ensures helper { self.new.helper ≡ self.old.helper }
        ensures named { IfErr result NamesNone }
    {
        let session = &self.teller.session;
        let head = session.hardware().iommu.registers().command_head();
        let Some(step) = settling_step(session) else {
            return Ok(Settling::Rests);
        };
        let is_fetch = is_fetch(&step);
        self.tell(step, output)?;
        if is_fetch && self.is_stuck(head) {
            return Ok(Settling::Rests);
        }
        if self.teller.has_violated() {
            Ok(Settling::Violated)
        } else {
            Ok(Settling::Moved)
        }
    }

    /// Appends which claims that were good aren't any more, behind the last step.
    fn add_fallen(&self, fallen: &mut String) -> Result<(), RunFault>
        ensures named { IfErr result NamesNone }
    {
        let Ok(words) = self.teller.tell_fallen() else {
            return Err(RunFault::Memory);
        };
        fallen.push_str(&words).map_err(|_| RunFault::Memory)
    }

    /// Hardware goes on until it rests. How many things it did, and how many of them were violations; which claims that were good
    /// aren't any more is appended.
    fn settle(&mut self, fallen: &mut String, output: &Output) -> Result<(u64, u64), RunFault>
        ensures rests { OnOk result (Rests self.old.teller self.new.teller) }
        ensures helper { self.new.helper ≡ self.old.helper }
        ensures named { IfErr result NamesNone }
    {
        let mut violations = 0u64;
        for steps in 0..u64::MAX {
            match self.settle_once(output)? {
                Settling::Rests => return Ok((steps, violations)),
                Settling::Moved => {}
                Settling::Violated => violations = violations.saturating_add(1),
            }
            self.add_fallen(fallen)?;
        }
        // Each step is an event, so these are too many before.
        Err(RunFault::TooManyEvents)
    }

    /// Hardware comes to rest: what is in flight is made, what is under way delivered or walked to its end, and commands are taken.
    fn quiesce(&mut self, output: &mut Output) -> Result<(), RunFault>
        ensures rests { OnOk result (Rests self.old.teller self.new.teller) }
        ensures helper { self.new.helper ≡ self.old.helper }
        ensures named { IfErr result NamesNone }
    {
        let mut fallen = String::new(self.alloc);
        let (steps, violations) = self.settle(&mut fallen, output)?;
        put_quiet(self.alloc, steps, violations, &fallen, output)
    }
}
