use crate::making::glob;
use std::process::Abort;
use std::test::Fail;

fn expect(rt: &impl Abort, holds: bool) {
    assert!(rt; holds);
}

// A star stands for nothing, too, and for stars.
#[test]
fn a_star_stands_for_anything(rt: HostRuntime) -> Result<(), Fail> {
    let confirmed = glob(rt.alloc(), b"confirmed *-1")?;
    expect(&rt, confirmed.matches(b"confirmed 1-1"));
    expect(&rt, confirmed.matches(b"confirmed -1"));
    expect(&rt, !confirmed.matches(b"confirmed 1-12"));
    expect(&rt, !confirmed.matches(b"confirmed"));
    let anything = glob(rt.alloc(), b"*")?;
    expect(&rt, anything.matches(b""));
    expect(&rt, anything.matches(b"* *"));
    let nothing = glob(rt.alloc(), b"")?;
    expect(&rt, nothing.matches(b""));
    expect(&rt, !nothing.matches(b" "));
    Ok(())
}
