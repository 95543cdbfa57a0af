//! What follows of a claim that is good.
ghost use Rattle.iom_hardware_session.specs.Accepted.{ReadyIsAccepted, UnreadyIsNotAccepted};
ghost use Rattle.iom_hardware_session.specs.AcceptedPointed.{AstrayIsNotAccepted, PointedReadyIsAccepted, UnreadyAheadIsNotAccepted};
ghost use Rattle.iom_hardware_session.specs.Laws.{DoneStaysDone, HandedOffStaysFree, GoodAgainHolds};
ghost use Rattle.iom_hardware_session.specs.Sessions.{AccessesAreClaimed, DoneStaysOutOfReach, HandedOffStaysUntouched};

use iom_hardware_ways::ways_law;
use iom_pointer_ways::laws::pointed_ways_law;
use iom_stepped_ways::{scene_law, stepped_ways_law};

/// A claim that a withdrawal is done, and that is answered `Good`, stays true whatever hardware and devices do by
/// themselves; so does one that a frame is handed off, and one that is judged again and still good. It does nothing.
pub fn good_law()
    ensures done { DoneStaysDone }
    ensures handed_off { HandedOffStaysFree }
    ensures again { GoodAgainHolds }
{
    ways_law();
    scene_law();
    stepped_ways_law();
    pointed_ways_law();
}

/// In a session of which nothing is wrong, line after line, no access was made against the claims (`accesses`), and at no
/// moment could hardware and devices by themselves have made one to what was claimed to be done (`done`), or to a frame that
/// was handed off and hasn't come back (`handed_off`). It does nothing.
pub fn session_law()
    ensures accesses { AccessesAreClaimed }
    ensures done { DoneStaysOutOfReach }
    ensures handed_off { HandedOffStaysUntouched }
{
    good_law();
}

/// A device of which a claim `ready` is `Good` holds a frame at the page. Where that is a frame of memory, the IOMMU answers
/// each of its untranslated requests at the page, for an access that its right allows, by this frame, as hardware stands
/// (`accepted`). Where the claim is `Wrong`, it answers those of some kind that is allowed by no frame, or by another
/// (`refused`). Both hold of a device whose context has tables in one stage at most.
///
/// Where hardware caches pointers to tables, or its walks know leaves of 64 KiB, a request is walked ahead of its event, and
/// what is found so is cached. Where the claim is `Good`, such a request is answered by the frame (`ahead`). Where it is
/// `Wrong` because a walk ahead finds something else, those of some kind that is allowed are answered by no frame, or by
/// another (`astray`). The same holds where walks know leaves of 64 KiB and the claim is `Wrong` by what is found from the
/// root, as long as no pointer is cached (`refused_ahead`). It does nothing.
pub fn ready_law()
    ensures accepted { ReadyIsAccepted }
    ensures refused { UnreadyIsNotAccepted }
    ensures ahead { PointedReadyIsAccepted }
    ensures astray { AstrayIsNotAccepted }
    ensures refused_ahead { UnreadyAheadIsNotAccepted }
{}
