ghost use Rattle.std.specs.Prelude.{◌≡◌, ◌⊎◌, ℕ, IfOk, IfErr, IfSome};
ghost use Rattle.std.specs.Bool.{MatchBool};
ghost use Rattle.iom_script.specs.Faults.{IsTakenAs, IsRefusedAs, ExplainsText};
ghost use Rattle.iom_hardware_script.specs.Grammar.{IsFrameCount, SayHardware, IsHardwareScript, IsFirstBadHardwareLine};

use crate::first_line::setup_of;
use crate::lines::line_of;
use crate::script::{HardwareScript, NumberedLine};
use iom_base::Sequence;
use iom_script::words::cut;
use iom_script::{SCRIPT_LIMIT, ScriptFault, is_spoken};
use std::alloc::{AllocError, Global};

/// Adds what the line with this number says. False where it isn't in the grammar in its place.
fn take_line(
    alloc: Global,
    script: &mut HardwareScript,
    number: u64,
    line: &[u8],
) -> Result<bool, AllocError>
    ensures { IfOk result (λ taken. MatchBool taken (IsTakenAs SayHardware number script.old line.now script.new)
        (IsRefusedAs SayHardware number script.old line.now)) }
{
    if !is_spoken(line) {
        return Ok(true);
    }
    match script.setup {
        None => match setup_of(line) {
            Some(setup) => {
                script.setup = Some(setup);
                Ok(true)
            }
            None => Ok(false),
        },
        Some(_) => match line_of(alloc, line)? {
            Some(said) => {
                script.lines.push(NumberedLine { number, line: said })?;
                Ok(true)
            }
            None => Ok(false),
        },
    }
}

/// Reads the lines one after another.
fn read_lines(alloc: Global, bytes: &[u8]) -> Result<HardwareScript, ScriptFault>
    ensures script { IfOk result (IsHardwareScript bytes.now) }
    ensures fault { IfErr result (ExplainsText SayHardware bytes.now) }
{
    let mut script = HardwareScript {
        setup: None,
        lines: Sequence::new(alloc),
    };
    let mut rest = &bytes[..SCRIPT_LIMIT.min(bytes.len())];
    let mut number = 1u64;
    while let Some((line, after)) = cut(rest, b'\n') {
        match take_line(alloc, &mut script, number, line) {
            Ok(true) => {}
            Ok(false) => return Err(ScriptFault::Line(number)),
            Err(_) => return Err(ScriptFault::Memory),
        }
        number += 1;
        rest = after;
    }
    if rest.is_empty() && bytes.len() <= SCRIPT_LIMIT {
        Ok(script)
    } else {
        Err(ScriptFault::Line(number))
    }
}

/// What a script says. Only its list of lines and the bytes of its writes and pokes take memory.
///
/// Of a script above [`SCRIPT_LIMIT`] bytes one byte more than that is enough to find its first bad line.
pub fn parse(alloc: Global, bytes: &[u8]) -> Result<HardwareScript, ScriptFault>
    // What is read is what the bytes say, and a line that is named is the first bad one.
    ensures script { IfOk result (IsHardwareScript bytes.now) }
    ensures fault { IfErr result (ExplainsText SayHardware bytes.now) }

    // Its memory has a size that a memory can have.
    ensures setup { IfOk result (λ script. IfSome script.setup (λ setup. IsFrameCount setup.frames)) }

    // Nothing but memory keeps a script from being read, or its first bad line from being named.
    ensures only { (script : HardwareScript) → IsHardwareScript bytes.now script → (result ≡ Ok script) ⊎ (result ≡ Err ScriptFault.Memory) }
    ensures first { (n : ℕ) → IsFirstBadHardwareLine bytes.now n → (result ≡ Err (ScriptFault.Line n)) ⊎ (result ≡ Err ScriptFault.Memory) }
{
    read_lines(alloc, bytes)
}
