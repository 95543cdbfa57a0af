use crate::ats_cache::steps::{Step, follow};
use iom_ats_cache::Taken;
use iom_base::Rights;

/// An answer is found at its page, with its right. The last page is a page like others.
static WITH_RIGHTS: [Step; 9] = [
    Step::Read(3, None),
    Step::Ask(3, 0),
    Step::Answer(0, 3, 5, Rights::RW, Taken::Kept),
    Step::Answer(0, (1 << 52) - 1, 6, Rights::R, Taken::Kept),
    Step::Read(3, Some(5)),
    Step::Write(3, Some(5)),
    Step::Read((1 << 52) - 1, Some(6)),
    Step::Write((1 << 52) - 1, None),
    Step::Read(4, None),
];

/// A second answer for a page takes the place of the first, with frame and right. A refusal changes nothing, whether it is
/// of the cache's epoch or not.
static LAST: [Step; 7] = [
    Step::Answer(0, 3, 5, Rights::RW, Taken::Kept),
    Step::Answer(0, 3, 7, Rights::R, Taken::Kept),
    Step::Refusal(0, 3, Taken::Refused),
    Step::Refusal(1, 3, Taken::Stale),
    Step::Read(3, Some(7)),
    Step::Write(3, None),
    Step::Ask(3, 0),
];

/// 32 pages are kept, and the 33rd takes out the one that was kept first. A page that is answered anew is the newest, and
/// takes out no other; looks change nothing.
static ROOM: [Step; 11] = [
    Step::KeepEach(0, 32),
    Step::Read(0, Some(0)),
    Step::KeepEach(32, 33),
    Step::Read(0, None),
    Step::FindEach(1, 33),
    Step::KeepEach(1, 2),
    Step::Read(2, Some(2)),
    Step::KeepEach(33, 34),
    Step::Read(2, None),
    Step::Read(1, Some(1)),
    Step::FindEach(3, 34),
];

#[test]
fn answers_are_found_and_go(rt: HostRuntime) {
    follow(&rt, &WITH_RIGHTS);
    follow(&rt, &LAST);
    follow(&rt, &ROOM);
}
