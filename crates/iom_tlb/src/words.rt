// Address spaces as words of 64 bits: the kind from bit 48 on, then 16 bits of GSCID and 32 of PSCID.
ghost use Rattle.std.specs.Prelude.{◌≡◌, true, Some, None};
ghost use Rattle.iom_tlb.specs.declared.space.Space.{Space};
ghost use Rattle.iom_tlb.specs.Ways.{is_space, space_word};

use crate::space::Space;

const ONE_KIND: u64 = 1 << 48;

const ONE_GSCID: u64 = 1 << 32;

/// The word of an address space. No two have the same, and none has 0.
pub(crate) fn space_word(space: Space) -> u64
    ensures word { result ≡ space_word space }
    ensures fits { is_space space ≡ true }
{
    match space {
        Space::First { pscid } => ONE_KIND + u64::from(pscid),
        Space::Second { gscid } => 2 * ONE_KIND + u64::from(gscid) * ONE_GSCID,
        Space::Both { gscid, pscid } => {
            3 * ONE_KIND + u64::from(gscid) * ONE_GSCID + u64::from(pscid)
        }
    }
}

/// The address space whose word it is; None of 0.
pub(crate) fn space_of(word: u64) -> Option<Space>
    ensures space { (space : Space) → is_space space ≡ true → space_word space ≡ word
        → result ≡ Some space }
    ensures empty { word ≡ 0 → result ≡ None }
{
    let pscid = (word % ONE_GSCID) as u32;
    let gscid = (word / ONE_GSCID % (1 << 16)) as u16;
    match word / ONE_KIND {
        1 => Some(Space::First { pscid }),
        2 => Some(Space::Second { gscid }),
        3 => Some(Space::Both { gscid, pscid }),
        _ => None,
    }
}
