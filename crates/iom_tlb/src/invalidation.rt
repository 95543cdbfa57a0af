ghost use Rattle.iom_tlb.specs.Content.{DropsWhere};
ghost use Rattle.iom_tlb.specs.Covers.{are_covering};
ghost use Rattle.iom_tlb.specs.Invalidations.{covers_of, vma_covers, gvma_covers};

use crate::cover::Cover;
use crate::trans_cache::TransCache;
use iom_command_queue::Command;

/// Takes out what the command says, and nothing else: a command that isn't IOTINVAL.VMA or IOTINVAL.GVMA
/// takes out nothing (IOMMU specification, section 3.1.1).
pub fn invalidate<C: TransCache>(cache: &mut C, command: &Command)
    ensures dropped { DropsWhere (are_covering (covers_of command.now)) (C.content cache.old)
        (C.content cache.new) }
{
    match *command {
        Command::IotinvalVma { gscid, pscid, page } => {
            let pscid = pscid.map(|pscid| pscid.number());
            let page = page.map(|page| page.number());
            invalidate_first_stage(cache, gscid, pscid, page);
        }
        Command::IotinvalGvma { gscid, page } => {
            invalidate_second_stage(cache, gscid, page.map(|page| page.number()));
        }
        Command::IofenceC { .. } | Command::IodirInvalDdt { .. } | Command::AtsInval { .. } => {}
    }
}

// IOTINVAL.VMA: of a host address space, or of those within a VM.
fn invalidate_first_stage<C: TransCache>(
    cache: &mut C,
    gscid: Option<u16>,
    pscid: Option<u32>,
    page: Option<u64>,
)
    ensures dropped { DropsWhere (are_covering (vma_covers gscid pscid page)) (C.content cache.old)
        (C.content cache.new) }
{
    if gscid.is_none() {
        cache.drop_where(&Cover::First { pscid, page });
    } else {
        cache.drop_where(&Cover::Both { gscid, pscid, page });
    }
}

// IOTINVAL.GVMA: of one VM, or of all.
fn invalidate_second_stage<C: TransCache>(cache: &mut C, gscid: Option<u16>, page: Option<u64>)
    ensures dropped { DropsWhere (are_covering (gvma_covers gscid page)) (C.content cache.old)
        (C.content cache.new) }
{
    // AV is ignored where GV is 0.
    let page = if gscid.is_some() { page } else { None };
    // A translation through both stages doesn't tell from which guest physical pages it was made.
    cache.drop_where(&Cover::Both {
        gscid,
        pscid: None,
        page: None,
    });
    cache.drop_where(&Cover::Second { gscid, page });
}
