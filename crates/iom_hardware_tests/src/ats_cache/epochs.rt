use crate::ats_cache::steps::{Step, follow};
use iom_ats_cache::Taken;
use iom_base::Rights;

/// An invalidation takes out its page, or everything, and nothing else. The epoch rises each time, also where nothing
/// was there to take out.
static COVERED: [Step; 10] = [
    Step::Answer(0, 3, 13, Rights::RW, Taken::Kept),
    Step::Answer(0, 4, 14, Rights::RW, Taken::Kept),
    Step::Invalidate(1, 3),
    Step::Read(3, None),
    Step::Read(4, Some(14)),
    Step::Invalidate(1, 3),
    Step::Read(4, Some(14)),
    Step::InvalidateAll(u64::MAX),
    Step::Read(4, None),
    Step::Ask(4, 3),
];

/// An answer to a question of before an invalidation isn't kept, whichever page was invalidated; nor is one of an epoch
/// that is still to come. What is asked anew is.
static STALE: [Step; 11] = [
    Step::Answer(0, 3, 13, Rights::RW, Taken::Kept),
    Step::Answer(0, 4, 14, Rights::RW, Taken::Kept),
    Step::Invalidate(1, 3),
    Step::Answer(0, 3, 13, Rights::RW, Taken::Stale),
    Step::Answer(0, 4, 99, Rights::RW, Taken::Stale),
    Step::Answer(2, 3, 13, Rights::RW, Taken::Stale),
    Step::Read(3, None),
    Step::Read(4, Some(14)),
    Step::Ask(3, 1),
    Step::Answer(1, 3, 23, Rights::RW, Taken::Kept),
    Step::Read(3, Some(23)),
];

/// A reset takes out everything, and the epoch goes on: what was asked before it isn't kept after it.
static RESETS: [Step; 11] = [
    Step::Answer(0, 3, 13, Rights::RW, Taken::Kept),
    Step::Answer(0, 4, 14, Rights::RW, Taken::Kept),
    Step::Reset,
    Step::Read(3, None),
    Step::Read(4, None),
    Step::Reset,
    Step::Ask(3, 2),
    Step::Answer(0, 3, 13, Rights::RW, Taken::Stale),
    Step::Answer(1, 3, 13, Rights::RW, Taken::Stale),
    Step::Answer(2, 3, 33, Rights::RW, Taken::Kept),
    Step::Read(3, Some(33)),
];

#[test]
fn epochs_decide_what_is_kept(rt: HostRuntime) {
    follow(&rt, &COVERED);
    follow(&rt, &STALE);
    follow(&rt, &RESETS);
}
