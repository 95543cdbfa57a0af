use std::process::Abort;

/// Ends the test where this doesn't hold.
pub(crate) fn expect(rt: &impl Abort, holds: bool) {
    assert!(rt; holds);
}
