//! What a post knows of a queue, and the queue's rule.
use crossbeam_deque::protocol::{Outcome, Protocol, Split};
use std::collections::LinkedList;
use std::marker::{Brand, PhantomData};

/// What a post pushed to a queue and took from it. No value of it is made: it is in the proofs alone.
pub struct Hand {
    /// It was told how many nodes there are.
    pub told: bool,
    /// Nobody else has pushed or taken.
    pub alone: bool,
    /// The nodes are those below this number.
    pub nodes: u64,
    /// What was pushed, in the order of the pushes.
    pub pushed: LinkedList<u32>,
    /// What was taken, in the order of the takes.
    pub taken: LinkedList<u32>,
}

/// The rule of a queue: for each node, the copies in it and those taken are together those pushed.
pub struct Fair;

impl Protocol<u32, Hand> for Fair {
    ghost use Rattle.flow_pool.specs.Rule.{Balances, first};

    ghost holds = { Balances };

    ghost first = { first };

    ghost guest = { first };
}

/// A node joins the queue.
pub(crate) struct Pushes;

impl Outcome<u32, Hand> for Pushes {
    ghost use Rattle.std.specs.Prelude.{◌≡◌};
    ghost use Rattle.flow_pool.specs.Rule.{pushed};

    ghost then = { λ v xs w. w ≡ pushed xs v };
}

/// A node leaves the queue.
pub(crate) struct Takes;

impl Outcome<u32, Hand> for Takes {
    ghost use Rattle.std.specs.Prelude.{◌≡◌, ◌<◌, All};
    ghost use Rattle.flow_pool.specs.Rule.{taken, SawEmpty};

    ghost then = { λ v xs w. (w ≡ taken xs v) × All (λ x. x < v.nodes) xs };

    ghost empty = { SawEmpty };
}

/// How many nodes a pool has. Its one call picks it.
pub(crate) trait Bound {
    ghost use Rattle.std.specs.Prelude.{ℕ};

    ghost nodes: { ℕ };
}

impl Bound for Brand {
    ghost nodes = { 0 };
}

/// The first hand is told the number of nodes.
pub(crate) struct Open<N> {
    of: PhantomData<N>,
}

impl<N: Bound> Split<Hand> for Open<N> {
    ghost use Rattle.flow_pool.specs.Rule.{opened, idle};

    ghost left = { λ v. opened N.nodes };

    ghost right = { λ v. idle };
}

/// A hand for another post, beside this one.
pub(crate) struct Share;

impl Split<Hand> for Share {
    ghost use Rattle.flow_pool.specs.Rule.{sharing, shared};

    ghost left = { sharing };

    ghost right = { shared };
}

/// The whole hand goes to another post.
pub(crate) struct Whole;

impl Split<Hand> for Whole {
    ghost use Rattle.flow_pool.specs.Rule.{idle};

    ghost left = { λ v. idle };

    ghost right = { λ v. v };
}
