ghost use Rattle.std.specs.Prelude.{◌≡◌, ◌++◌, OnOk};
ghost use Rattle.iom_litmus.specs.Replies.{no_reply, joined};

use iom_base::Sequence;
use iom_litmus_test::Touch;
use std::alloc::{AllocError, Global};

/// What the system says to a line, or to a step of hardware.
#[derive(Drop)]
pub struct Reply {
    /// The answer, up to its first `;` or `:`.
    pub text: Sequence<u8>,
    /// The accesses that were made, in order.
    pub touches: Sequence<Touch>,
    /// A claim is wrong.
    pub wrong: bool,
    /// An access was made that no claim allows.
    pub violated: bool,
}

impl Reply {
    /// What is said to no line at all. It takes no memory.
    pub fn none(alloc: Global) -> Reply
        ensures { result ≡ no_reply }
    {
        Reply {
            text: Sequence::new(alloc),
            touches: Sequence::new(alloc),
            wrong: false,
            violated: false,
        }
    }

    /// Adds what was said to a later line.
    pub(crate) fn join(&mut self, later: Reply) -> Result<(), AllocError>
        ensures { OnOk result (self.new ≡ joined self.old later) }
    {
        append(&mut self.touches, later.touches.as_slice())?;
        self.text = later.text;
        self.wrong = self.wrong || later.wrong;
        self.violated = self.violated || later.violated;
        Ok(())
    }
}

fn append(touches: &mut Sequence<Touch>, later: &[Touch]) -> Result<(), AllocError>
    ensures { OnOk result (touches.new ≡ touches.old ++ later.now) }
{
    for touch in later {
        touches.push(*touch)?;
    }
    Ok(())
}
