//! What a test asks of an answer.
use std::process::Abort;

pub fn holds(rt: &impl Abort, it: bool) {
    assert!(rt; it);
}

pub fn number(rt: &impl Abort, got: u64, want: u64) {
    assert!(rt; got == want, "{got} and not {want}");
}

pub fn some(rt: &impl Abort, got: Option<u32>, want: u32) {
    assert!(rt; got == Some(want));
}

pub fn none(rt: &impl Abort, got: Option<u32>) {
    assert!(rt; got.is_none());
}
