//! Laws of requests that are under way in a world, each the contract of a function that does nothing, or takes laws of
//! those below.
ghost use Rattle.iom_world_walks.specs.Laws.{BeginsKeepInvariant, EventsKeepInvariant, FetchesKeepInvariant, LoadsKeepInvariant, RequestsStandAfterEvents, RequestsStandStill};

use iom_driver::laws::{others_leave_standing, ready_after_record};
use iom_standing_walks::{
    directory_law, driven_law, fault_law, leaf_law, standing_law as tables_law,
};
use iom_world_effects::laws_below;

/// Requests that are under way stand where they stood, where tables and directory are left so, and the facts on walks
/// hold afterwards.
pub fn standing_law()
    ensures { RequestsStandStill }
{
    driven_law();
}

/// Each event of a world leaves tables and directory so, whatever it is: a call of the driver, an access that is made, a
/// fault that is reported, a fence's word.
pub fn events_law()
    ensures { RequestsStandAfterEvents }
{
    driven_law();
    others_leave_standing();
    ready_after_record();
}

/// A request begins, or is answered at once, and what is true of a world stays true.
pub fn begins_law()
    ensures { BeginsKeepInvariant }
{
    laws_below();
    tables_law();
    leaf_law();
    fault_law();
    directory_law();
    driven_law();
    others_leave_standing();
}

/// A request makes its next load, and what is true of a world stays true: where it goes on it stands somewhere, and where
/// it ends it is answered as a whole request may be answered then.
pub fn loads_law()
    ensures { LoadsKeepInvariant }
{
    laws_below();
    tables_law();
    leaf_law();
    fault_law();
    directory_law();
    driven_law();
    others_leave_standing();
}

/// A fetch that does an IOTINVAL or an IODIR has all requests begin anew, and what is true of a world stays true.
pub fn fetches_law()
    ensures { FetchesKeepInvariant }
{
    laws_below();
    driven_law();
    others_leave_standing();
}

/// Each other event of a world leaves requests under way as they are, or gives those of one device up, and what is true
/// of a world stays true.
pub fn others_law()
    ensures { EventsKeepInvariant }
{
    laws_below();
    driven_law();
    others_leave_standing();
}
