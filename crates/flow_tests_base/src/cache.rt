//! Edges that turn between push and pull.
use crate::checks::holds;
use flow_cache::{Preds, Succs};
use std::process::Abort;

fn is(rt: &impl Abort, got: Option<u32>, want: Option<u32>) {
    assert!(rt; got == want, "{got:?} and not {want:?}");
}

#[test]
fn edges_turn(rt: HostRuntime) {
    let mut push = Succs::new(rt.alloc(), &[2, 5]).expect(&rt, "memory");
    push.to_pull(2);
    is(&rt, push.next(None), Some(5));
    is(&rt, push.next(Some(5)), None);
    push.to_push(2);
    holds(&rt, push.has(2));
    holds(&rt, push.has(5));
    holds(&rt, !push.has(3));
    let mut pull = Preds::new(rt.alloc(), &[1]).expect(&rt, "memory");
    is(&rt, pull.next(None), None);
    pull.to_pull(1);
    is(&rt, pull.next(Some(0)), Some(1));
    pull.to_push(1);
    holds(&rt, !pull.has(1));
}
