ghost use Rattle.std.specs.Prelude.{◌≡◌, ◌≤◌, length};
ghost use Rattle.iom_machine.specs.declared.outcome.Outcome.TheVariants as outcome;

use arrayvec::ArrayVec;
use iom_machine::Outcome;

/// Bytes that were read, lent from where they stand: a page of them at most.
#[derive(Clone, Copy)]
pub struct Lent<'a> {
    pub bytes: &'a [u8],
    ghost fits: { length bytes.now ≤ 4096 },
}

impl<'a> Lent<'a> {
    /// These bytes.
    #[inline(always)]
    pub fn new(bytes: &'a [u8]) -> Lent<'a>
        requires fits { length bytes.now ≤ 4096 }
        ensures { result.bytes ≡ bytes.entry }
    {
        Lent { bytes }
    }

    /// A copy of the bytes.
    pub(crate) fn held(self) -> ArrayVec<u8, 4096>
        ensures { result.items ≡ self.entry.bytes.now }
    {
        let mut held = ArrayVec::new();
        held.try_extend_from_slice(self.bytes).unwrap();
        held
    }

    /// The outcome of a read that gave the bytes.
    // On its own, as the next: so no other kind of answer has a place for the page.
    #[inline(never)]
    pub(crate) fn read(self) -> Outcome
        ensures { result ≡ outcome.Read (record { items = self.entry.bytes.now }) }
    {
        Outcome::Read(self.held())
    }

    /// The outcome of a load of the processor that gave the bytes.
    #[inline(never)]
    pub(crate) fn loaded(self) -> Outcome
        ensures { result ≡ outcome.Bytes (record { items = self.entry.bytes.now }) }
    {
        Outcome::Bytes(self.held())
    }
}

/// The bytes that an outcome holds, lent from there.
pub(crate) fn lent_of(held: &ArrayVec<u8, 4096>) -> Lent<'_>
    ensures { result.bytes.now ≡ held.now.items }
{
    Lent::new(held.as_slice())
}
