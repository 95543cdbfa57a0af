ghost use Rattle.std.specs.Prelude.{◌≡◌, ◌<◌, ◌≤◌, ◌%◌, ◌^◌};
ghost use Rattle.iom_registers.specs.Queues.{next_index};

/// An index as a queue of so many entries takes it.
pub(crate) fn index_in(value: u64, entries: u64) -> u32
    requires some { 0 < entries }
    requires few { entries ≤ 2 ^ 32 }
    ensures { result ≡ value % entries }
{
    (value % entries) as u32
}

/// The index after this one in a queue of so many entries: after the last comes 0.
pub fn index_after(index: u32, entries: u64) -> u32
    requires below { index < entries }
    requires few { entries ≤ 2 ^ 32 }
    ensures { result ≡ next_index entries index }
{
    if index as u64 + 1 == entries {
        0
    } else {
        index + 1
    }
}
