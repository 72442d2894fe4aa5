use std::process::Abort;
use std::test::*;

/// It holds.
pub(crate) fn is(rt: &impl Abort, holds: bool) {
    assert!(rt; holds);
}

/// The number is this one.
pub(crate) fn number(rt: &impl Abort, got: u64, want: u64) {
    assert!(rt; got == want, "{got} and not {want}");
}

/// There is a number, and it is this one.
pub(crate) fn some(rt: &impl Abort, got: Option<u64>, want: u64) {
    match got {
        Some(got) => number(rt, got, want),
        None => assert!(rt; false, "none and not {want}"),
    }
}

/// There is no number.
pub(crate) fn none(rt: &impl Abort, got: Option<u64>) {
    match got {
        Some(got) => assert!(rt; false, "{got} and not none"),
        None => {}
    }
}

/// The word is this one.
pub(crate) fn word(rt: &impl Abort, got: &str, want: &str) {
    assert!(rt; got == want, "{got} and not {want}");
}
