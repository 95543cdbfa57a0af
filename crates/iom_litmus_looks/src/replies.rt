ghost use Rattle.std.specs.Prelude.{◌≡◌, IfOk};
ghost use Rattle.iom_litmus_looks.specs.Touches.{touches_of};

use iom_base::Sequence;
use iom_inflight::MadeAt;
use iom_litmus_test::Touch;
use std::alloc::{AllocError, Global};

/// The access that a line made, as a test sees it: one, or none.
pub fn touches_of(alloc: Global, made: Option<MadeAt>) -> Result<Sequence<Touch>, AllocError>
    ensures { IfOk result (λ touches. touches ≡ touches_of made) }
{
    let mut touches = Sequence::new(alloc);
    if let Some(made) = made {
        touches.push(Touch {
            device: made.device,
            kind: made.kind,
            frame: u64::from(made.frame),
        })?;
    }
    Ok(touches)
}

/// An answer up to its first `;` or `:`.
pub fn front_of(text: &[u8]) -> &[u8] {
    match text.iter().position(|byte| *byte == b';' || *byte == b':') {
        Some(end) => &text[..end],
        None => text,
    }
}
