//! A post, and how it asks the queues of the other posts.
ghost use Rattle.std.specs.Prelude.{◌≡◌, ◌+◌, ◌<◌, ◌≢◌, All, length, map, true, slice_index_or};
ghost use Rattle.crossbeam_deque.specs.Handles.{view, stealer_flavor};
ghost use Rattle.flow_pool.specs.Posts.{after, AreReaches, AreTold, HasAskedAll, HasAskedAt};

use crate::deque::{Deque, Reach, Thief, steal};
use crate::entrance::Entry;
use std::sync::Wait;

/// The place of a worker or a caller in the pool: a queue of its own, and a hand in each queue.
#[derive(Drop)]
pub struct Post {
    // Its number among the posts.
    pub(crate) place: usize,
    // Its own queue, with its hand there.
    pub(crate) own: Deque,
    // Its hand at the entrance.
    pub(crate) entry: Entry,
    // Its hand in the queue of each other post, in the order in which it asks them. A hand has no bytes.
    pub(crate) reaches: Vec<Reach>,
}

// The place of the post that is asked `k` posts after the next one.
pub(crate) fn place_after(posts: usize, place: usize, k: usize) -> usize
    requires { (place < posts) × (k + 1 < posts) }
    ensures place { result ≡ after posts place k }
    ensures other { (result < posts) × (result ≢ place) }
{
    let left = posts - place;
    if k + 1 < left {
        place + 1 + k
    } else {
        k + 1 - left
    }
}

// Asks the queue of one other post.
fn ask<R: Wait>(
    rt: &R,
    thieves: &Vec<Thief>,
    place: usize,
    reaches: &mut Vec<Reach>,
    k: usize,
) -> Option<u32>
    requires place { (place < length thieves.now.items) × (k < length reaches.old.items) }
    requires reaches { AreReaches thieves.now.items place reaches.old.items }
    requires flavors { All (λ t. stealer_flavor t ≡ 0) thieves.now.items }
    requires told { AreTold reaches.old.items }
    ensures same { AreReaches thieves.now.items place reaches.new.items }
    ensures asked { HasAskedAt result k (map view reaches.old.items) (map view reaches.new.items) }
{
    let at = place_after(thieves.len(), place, k);
    steal(rt, &thieves[at], &mut reaches[k])
}

// Asks the queues of the other posts in turn.
pub(crate) fn ask_others<R: Wait>(
    rt: &R,
    thieves: &Vec<Thief>,
    place: usize,
    reaches: &mut Vec<Reach>,
) -> Option<u32>
    requires place { place < length thieves.now.items }
    requires reaches { AreReaches thieves.now.items place reaches.old.items }
    requires flavors { All (λ t. stealer_flavor t ≡ 0) thieves.now.items }
    requires told { AreTold reaches.old.items }
    ensures same { AreReaches thieves.now.items place reaches.new.items }
    ensures asked { HasAskedAll result (map view reaches.old.items) (map view reaches.new.items) }
{
    for k in 0..reaches.len() {
        if let Some(node) = ask(rt, thieves, place, reaches, k) {
            return Some(node);
        }
    }
    None
}
