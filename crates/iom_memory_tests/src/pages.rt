// The pages of a device at which it holds something or something lingers.
use crate::ledger::{Step, follow};
use iom_base::Rights;

/// Pages are listed in the order in which they were granted, whatever their numbers, and one that was released
/// stays at its place while it lingers. Another device's page isn't among them.
static LISTED: [Step; 13] = [
    Step::Pages(1, &[]),
    Step::Grant(1, 19, 5, Rights::RW),
    Step::Grant(2, 16, 5, Rights::R),
    Step::Grant(1, 16, 6, Rights::R),
    Step::Grant(1, 18, 5, Rights::R),
    Step::Grant(1, 17, 7, Rights::RW),
    Step::Pages(1, &[19, 16, 18, 17]),
    Step::Pages(2, &[16]),
    Step::Release(1, 16, 1),
    Step::Pages(1, &[19, 16, 18, 17]),
    Step::ReleaseAll(1, 2),
    Step::Pages(1, &[19, 16, 18, 17]),
    Step::Pages(3, &[]),
];

#[test]
fn pages_are_listed_as_they_were_granted(rt: HostRuntime) {
    follow(&rt, rt.alloc(), 8, &LISTED);
}

/// A page at which nothing lingers any more is listed no longer: the last one takes its place. Granted again, it
/// is the last.
static NO_LONGER: [Step; 14] = [
    Step::Grant(1, 19, 5, Rights::RW),
    Step::Grant(2, 16, 5, Rights::R),
    Step::Grant(1, 16, 6, Rights::R),
    Step::Grant(1, 18, 5, Rights::R),
    Step::Grant(1, 17, 7, Rights::RW),
    Step::Pages(1, &[19, 16, 18, 17]),
    Step::Release(1, 16, 1),
    Step::Confirm(1),
    Step::Pages(1, &[19, 17, 18]),
    Step::Grant(1, 16, 6, Rights::R),
    Step::Pages(1, &[19, 17, 18, 16]),
    Step::ReleaseAll(1, 2),
    Step::Confirm(2),
    Step::Pages(1, &[]),
];

#[test]
fn a_confirmed_page_is_listed_no_longer(rt: HostRuntime) {
    follow(&rt, rt.alloc(), 8, &NO_LONGER);
}
