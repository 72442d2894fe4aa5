//! Comparisons that answer nothing, so that a test is a straight line of calls.

use flow_item::Text;
use std::process::Abort;

pub(crate) fn number(rt: &impl Abort, got: u64, want: u64) {
    assert!(rt; got == want, "{got} and not {want}");
}

pub(crate) fn same(rt: &impl Abort, got: &str, want: &str) {
    assert!(rt; got == want, "{got} and not {want}");
}

pub(crate) fn is(rt: &impl Abort, so: bool) {
    assert!(rt; so);
}

pub(crate) fn text(rt: &(impl Abort + AllocGlobal), text: &str) -> Text {
    Text::of(rt.alloc(), text).ok().expect(rt, "memory")
}
