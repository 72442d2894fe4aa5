//! Comparisons that answer nothing, so that a test is a straight line of calls.

use std::process::Abort;

pub(crate) fn number(rt: &impl Abort, got: u64, want: u64) {
    assert!(rt; got == want, "{got} and not {want}");
}

pub(crate) fn same(rt: &impl Abort, got: &str, want: &str) {
    assert!(rt; got == want, "{got} and not {want}");
}

pub(crate) fn is(rt: &impl Abort, so: bool) {
    assert!(rt; so);
}

/// The two sides of a line, without what is between them.
pub(crate) fn parted<'a>(rt: &impl Abort, line: &'a str, between: &str) -> (&'a str, &'a str) {
    line.split_once(between).expect(rt, "two sides")
}
