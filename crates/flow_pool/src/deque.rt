//! A post's own queue, and how the other posts reach it.
ghost use Rattle.std.specs.Prelude.{◌≡◌, ◌<◌, [], ◌∷◌, true, IfOk, OnOk, OnErr};
ghost use Rattle.crossbeam_deque.specs.Handles.{view, IsPassOf, stealer_deque, stealer_flavor, worker_deque, worker_flavor, worker_view, SameWorker};
ghost use Rattle.flow_pool.specs.Rule.{first, opened, sharing, shared, pushed, HasAsked};

use crate::hand::{Bound, Fair, Hand, Open, Pushes, Share, Takes};
use crossbeam_deque::{Pass, Steal, Stealer, Worker};
use flow_item::NoMemory;
use std::alloc::Global;
use std::marker::Brand;
use std::sync::Wait;

/// A post's own queue.
pub(crate) type Deque = Worker<u32, Global, Hand, Fair>;

/// The handle by which the other posts take from it.
pub(crate) type Thief = Stealer<u32, Global, Hand, Fair>;

/// A post's hand in the queue of another one.
pub(crate) type Reach = Pass<u32, Hand>;

// The slots that a queue begins with. It grows where more nodes wait.
const FIRST_SLOTS: usize = 64;

// Tells the one hand how many nodes there are.
fn tell_deque<N: Bound>(own: &mut Deque, nodes: u32)
    requires first { worker_view own.old ≡ first }
    requires told { N.nodes ≡ nodes }
    ensures same { SameWorker own.old own.new }
    ensures hand { worker_view own.new ≡ opened nodes }
{
    let _ = own.another::<Open<N>>();
}

// An empty queue for a post.
pub(crate) fn open_deque(alloc: Global, nodes: u32) -> Result<Deque, NoMemory>
    ensures { IfOk result (λ own. (worker_flavor own ≡ 0) × (worker_view own ≡ opened nodes)) }
{
    let mut own = Deque::fifo_as(alloc, FIRST_SLOTS)?;
    tell_deque::<Brand>(&mut own, nodes);
    Ok(own)
}

// A hand in this queue for another post.
pub(crate) fn share_deque(own: &mut Deque) -> Reach
    requires { (worker_view own.old).told ≡ true }
    ensures same { SameWorker own.old own.new × IsPassOf (worker_deque own.old) result }
    ensures hands { (worker_view own.new ≡ sharing (worker_view own.old)) × (view result ≡ shared (worker_view own.old)) }
{
    own.another::<Share>()
}

// Puts the node at the end of the post's own queue.
pub(crate) fn push(own: &mut Deque, node: u32) -> Result<(), NoMemory>
    requires { ((worker_view own.old).told ≡ true) × (node < (worker_view own.old).nodes) }
    ensures same { SameWorker own.old own.new }
    ensures pushed { OnOk result (worker_view own.new ≡ pushed (node ∷ []) (worker_view own.old)) }
    ensures refused { OnErr result (worker_view own.new ≡ worker_view own.old) }
{
    match own.push_as::<Pushes>(node) {
        Ok(()) => Ok(()),
        Err(_) => Err(NoMemory),
    }
}

// Takes the first node of the post's own queue.
pub(crate) fn pop(own: &mut Deque) -> Option<u32>
    requires { (worker_flavor own.old ≡ 0) × ((worker_view own.old).told ≡ true) }
    ensures same { SameWorker own.old own.new }
    ensures asked { HasAsked result (worker_view own.old) (worker_view own.new) }
{
    own.pop_as::<Takes>()
}

// Takes the first node of another post's queue. It tries again while another post is in its way.
pub(crate) fn steal<R: Wait>(rt: &R, thief: &Thief, reach: &mut Reach) -> Option<u32>
    requires reach { IsPassOf (stealer_deque thief.now) reach.old × (stealer_flavor thief.now ≡ 0) }
    requires told { (view reach.old).told ≡ true }
    ensures same { IsPassOf (stealer_deque thief.now) reach.new }
    ensures asked { HasAsked result (view reach.old) (view reach.new) }
{
    for _ in rt.forever() {
        match thief.steal_as::<Takes>(reach) {
            Steal::Success(node) => return Some(node),
            Steal::Empty => return None,
            Steal::Retry => {}
        }
    }
    unreachable!()
}
