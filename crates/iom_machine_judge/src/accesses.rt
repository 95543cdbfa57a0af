// The accesses that events ask for.
ghost use Rattle.std.specs.Prelude.{◌≡◌, IfOk};
ghost use Rattle.iom_machine_judge.specs.Deciding.{asked_by};

use iom_base::{Access, AccessKind, Spare};
use iom_machine::Event;
use std::alloc::{AllocError, Global};

/// The access of this kind, with a copy of the bytes, in spare memory where there is some.
#[inline(always)]
pub(crate) fn access_with(
    alloc: Global,
    spare: &mut Spare,
    address: u64,
    len: u64,
    kind: AccessKind,
    bytes: &[u8],
) -> Result<Access, AllocError>
    ensures { IfOk result (λ access. access ≡ record { address = address; len = len; kind = kind; bytes = bytes.now }) }
{
    Ok(Access {
        address,
        len,
        kind,
        bytes: spare.copy_of(alloc, bytes)?,
    })
}

/// The access that the event asks for, by whichever way; that of another event means nothing.
// Written into its caller: what it answers would go through memory.
#[inline(always)]
pub fn access_of(alloc: Global, spare: &mut Spare, event: &Event) -> Result<Access, AllocError>
    ensures { IfOk result (λ access. access ≡ asked_by event.now) }
{
    let nothing: &[u8] = &[];
    let (address, len, kind, bytes) = match event {
        Event::Read { address, len, .. }
        | Event::ReadTranslated { address, len, .. }
        | Event::ReadThroughCache { address, len, .. } => (
            *address,
            *len,
            AccessKind::Read,
            nothing,
        ),
        Event::Write { address, bytes, .. }
        | Event::WriteTranslated { address, bytes, .. }
        | Event::WriteThroughCache { address, bytes, .. } => {
            let written = bytes.as_slice();
            (*address, written.len() as u64, AccessKind::Write, written)
        }
        _ => (0, 0, AccessKind::Read, nothing),
    };
    access_with(alloc, spare, address, len, kind, bytes)
}
