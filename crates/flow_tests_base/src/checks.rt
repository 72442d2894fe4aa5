//! What a test asks of an answer.
use std::process::Abort;

pub fn holds(rt: &impl Abort, it: bool) {
    assert!(rt; it);
}

pub fn number(rt: &impl Abort, got: u64, want: u64) {
    assert!(rt; got == want, "{got} and not {want}");
}

pub fn text(rt: &impl Abort, got: &str, want: &str) {
    assert!(rt; got == want, "{got} and not {want}");
}

pub fn bytes(rt: &impl Abort, got: &[u8], want: &[u8]) {
    assert!(rt; got == want);
}
