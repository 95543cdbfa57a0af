// What a test expects, as a call: a comparison in place is a branch that each later proof would carry.
use std::process::Abort;

/// Ends the test where this doesn't hold.
pub(crate) fn expect(rt: &impl Abort, holds: bool) {
    assert!(rt; holds);
}
