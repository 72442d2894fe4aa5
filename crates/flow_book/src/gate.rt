//! The points that operations pass.

use std::sync::Wait;

/// A point that an operation passes.
#[derive(Clone, Copy, Debug)]
pub enum Point {
    /// A body is about to run. No lock is held.
    BodyBegins { node: u32, no: u64 },
    /// A body has run. No lock is held.
    BodyEnds { node: u32, no: u64 },
    /// All node locks of the operation are taken, that of this node last.
    Locked { node: u32 },
    /// The operation's event was added to the journal, which has this length with it.
    Committed { len: u64 },
    /// A watcher has made its read of this number, and found this length.
    Watched { k: u32, len: u64 },
}

/// What hears of each point that an operation passes. It may wait there.
pub trait Gate: Sync {
    /// The point is passed. At `Locked` the operation holds its node locks, and at `Committed` too, where the event has a
    /// node: so who calls the book from there may wait for itself. The journal's lock is never held.
    fn at<R: Wait>(&self, rt: &R, point: Point);
}

/// The gate that does nothing.
pub struct NoGate;

impl Gate for NoGate {
    fn at<R: Wait>(&self, _rt: &R, _point: Point) {}
}
