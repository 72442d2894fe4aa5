// Bodies and nodes that are at work at once.
use crate::called::{begins, ends_with_code, is, number, sink, source, threaded};
use flow_run::{Gate, Point};
use std::process::Abort;
use std::sync::Wait;
use std::sync::atomic::{AtomicU64, Ordering};
use std::test::*;
use std::thread;

// How often a gate turns before it gives up.
const TURNS: u32 = 1_000_000;

// Whether the count is above none before the turns are over.
fn waited_for(count: &AtomicU64) -> bool {
    for _ in 0..TURNS {
        if count.load(Ordering::SeqCst) != 0 {
            return true;
        }
        thread::yield_now();
    }
    false
}

// Holds the first body that begins until another has ended.
#[derive(Drop)]
struct BodyGate {
    begun: AtomicU64,
    ended: AtomicU64,
    overlapped: AtomicU64,
}

impl Gate for BodyGate {
    fn at<R: Wait>(&self, _rt: &R, point: Point) {
        match point {
            Point::BodyBegins { .. } => {
                if self.begun.fetch_add(1, Ordering::SeqCst) == 0 && waited_for(&self.ended) {
                    self.overlapped.store(1, Ordering::SeqCst);
                }
            }
            Point::BodyEnds { .. } => {
                self.ended.fetch_add(1, Ordering::SeqCst);
            }
            _ => (),
        }
    }
}

fn body_gate() -> BodyGate {
    BodyGate {
        begun: AtomicU64::new(0),
        ended: AtomicU64::new(0),
        overlapped: AtomicU64::new(0),
    }
}

// Two bodies began and ended, and one of them while the other was held.
fn two_bodies(rt: &impl Abort, gate: &BodyGate) {
    number(rt, gate.begun.load(Ordering::SeqCst), 2);
    number(rt, gate.ended.load(Ordering::SeqCst), 2);
    number(rt, gate.overlapped.load(Ordering::SeqCst), 1);
}

const TWO_PUTS: &str =
    r#"{"version":1,"nodes":[{"name":"f","kind":"function","policy":"queueing","body":"add","arg":1}],"edges":[],"callers":[[{"put":"f","val":1},{"put":"f","val":2}]],"sinks":[]}"#;

// Two bodies of a node run at once: one begins, and ends only after the other has ended.
#[test]
fn bodies_overlap(rt: HostRuntime) {
    let gate = body_gate();
    let left = threaded(
        &rt,
        "run --workers 2",
        source(&rt, TWO_PUTS),
        sink(&rt),
        &gate,
    );
    ends_with_code(&rt, &left, 0, "bodies");
    two_bodies(&rt, &gate);
}

// Of two pairs of queues, holds the first operation that has locked a whole pair until an event was added meanwhile.
#[derive(Drop)]
struct NodeGate {
    locked: AtomicU64,
    committed: AtomicU64,
    overlapped: AtomicU64,
}

impl NodeGate {
    // The second node of a pair is locked, and so the first is.
    fn lock(&self) {
        if self.locked.fetch_add(1, Ordering::SeqCst) == 0 && waited_for(&self.committed) {
            self.overlapped.store(1, Ordering::SeqCst);
        }
    }
}

impl Gate for NodeGate {
    fn at<R: Wait>(&self, _rt: &R, point: Point) {
        match point {
            Point::Locked { node } => {
                if node == 1 || node == 3 {
                    self.lock();
                }
            }
            Point::Committed { .. } => {
                if self.locked.load(Ordering::SeqCst) != 0 {
                    self.committed.fetch_add(1, Ordering::SeqCst);
                }
            }
            _ => (),
        }
    }
}

fn node_gate() -> NodeGate {
    NodeGate {
        locked: AtomicU64::new(0),
        committed: AtomicU64::new(0),
        overlapped: AtomicU64::new(0),
    }
}

// Pairs were locked, and an event was added while one of them was held.
fn two_pairs(rt: &impl Abort, gate: &NodeGate) {
    is(rt, gate.locked.load(Ordering::SeqCst) != 0);
    number(rt, gate.overlapped.load(Ordering::SeqCst), 1);
}

const TWO_PAIRS: &str =
    r#"{"version":1,"nodes":[{"name":"a","kind":"queue"},{"name":"b","kind":"queue"},{"name":"c","kind":"queue"},{"name":"d","kind":"queue"}],"edges":[{"from":"a","to":"b"},{"from":"c","to":"d"}],"callers":[[{"put":"a","val":1},{"put":"c","val":2},{"wait":true}]],"sinks":["b","d"]}"#;

// While one operation holds a pair of queues, another makes an event at the other pair, which has still to give its item.
// The caller leaves only after all is quiet, so an event that is added meanwhile is one of the other pair.
#[test]
fn nodes_overlap(rt: HostRuntime) {
    let gate = node_gate();
    let left = threaded(
        &rt,
        "run --workers 2",
        source(&rt, TWO_PAIRS),
        sink(&rt),
        &gate,
    );
    ends_with_code(&rt, &left, 0, "nodes");
    two_pairs(&rt, &gate);
    begins(&rt, &left, "sinks 2\nb 1\n0 1\nd 1\n0 2\n", "nodes");
}
