use crate::bench::{FIRST, OK, Step, started};
use crate::expect::expect;
use std::test::Fail;

/// Each makes the driver another one.
static CHANGES: [Step; 6] = [
    Step::Plug(1, OK),
    Step::Attach(1, FIRST, OK),
    Step::Grant(1, 3, 5, OK),
    Step::Release(1, 3, Ok(1)),
    Step::Quarantine(1, Ok(2)),
    Step::Restart(OK),
];

// Drivers to which the same happened are equal, and others aren't.
#[test]
fn drivers_are_compared(rt: HostRuntime) -> Result<(), Fail> {
    let mut one = started(rt.alloc())?;
    let mut other = started(rt.alloc())?;
    for step in CHANGES.iter() {
        expect(&rt, one.has_same_driver(&other));
        one.follow(&rt, "one", &[*step]);
        expect(&rt, !one.has_same_driver(&other));
        other.follow(&rt, "the other", &[*step]);
    }
    expect(&rt, one.has_same_driver(&other));
    Ok(())
}
