//! How hardware is asked to act by itself.
ghost use Rattle.std.specs.Prelude.{codes};
ghost use Rattle.iom_script.specs.Reading.{Reads};
ghost use Rattle.iom_hardware_script.specs.Grammar.{IsHelp};
ghost use Rattle.iom_hardware_script.specs.Parts.{IsHelpWith};

use crate::script::Help;
use iom_script::words::{after, device_and, is_word, number_and, number_of};

/// `auto SEED`
fn auto_by_seed(line: &[u8]) -> Option<Help>
    ensures { Reads result (IsHelpWith (codes "auto ") line.now) }
{
    let arguments = after(line, b"auto ")?;
    let seed = number_of(arguments)?;
    Some(Help::Auto { seed })
}

/// `traffic ID FIRST LAST`
fn traffic(line: &[u8]) -> Option<Help>
    ensures { Reads result (IsHelpWith (codes "traffic ") line.now) }
{
    let arguments = after(line, b"traffic ")?;
    let (device, rest) = device_and(arguments)?;
    let (first, rest) = number_and(rest)?;
    let last = number_of(rest)?;
    Some(Help::Traffic {
        device,
        first,
        last,
    })
}

/// `quiesce`
fn quiesce(line: &[u8]) -> Option<Help>
    ensures { Reads result (IsHelpWith (codes "quiesce") line.now) }
{
    if is_word(line, b"quiesce") {
        Some(Help::Quiesce)
    } else {
        None
    }
}

/// How a line asks hardware to act by itself.
pub(crate) fn help_of(line: &[u8]) -> Option<Help>
    ensures { Reads result (IsHelp line.now) }
{
    if let Some(help) = auto_by_seed(line) {
        return Some(help);
    }
    if let Some(help) = traffic(line) {
        return Some(help);
    }
    quiesce(line)
}
