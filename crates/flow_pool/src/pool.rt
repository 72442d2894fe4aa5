//! The pool.
ghost use Rattle.std.specs.Prelude.{◌≡◌, ◌<◌, ◌∷◌, [], All, length, map, true, slice_set, slice_index_or, OnOk, OnErr, IfOk, IfSome};
ghost use Rattle.crossbeam_deque.specs.Handles.{view, stealer_flavor};
ghost use Rattle.crossbeam_deque.specs.Injected.{injector_view, IsInjectorPassOf};
ghost use Rattle.flow_pool.specs.declared.hand.Hand.{Hand};
ghost use Rattle.flow_pool.specs.Rule.{pushed};
ghost use Rattle.flow_pool.specs.Posts.{hands, Each, IsPostOf, AreReaches, AreTold, HasAskedAll};
ghost use Rattle.flow_pool.specs.Opening.{IsSeated};

use crate::deque::{Reach, Thief};
use crate::entrance::{Entrance, Entry};
use crate::open::{add_thieves, open_posts, seat_posts};
use crate::post::{Post, ask_others};
use crate::{deque, entrance};
use flow_item::NoMemory;
use std::alloc::Global;
use std::sync::Wait;

/// The queues of all posts as the others reach them, and the entrance.
#[derive(Drop)]
pub struct Pool {
    // How the queue of the post at each place is reached.
    pub(crate) thieves: Vec<Thief>,
    pub(crate) entrance: Entrance,
    // The nodes are those below this number.
    pub(crate) nodes: u32,
}

impl Pool {
    /// An empty pool for the nodes below `nodes`, and so many posts in the order of their places. Want of memory is its
    /// one error. It waits for nobody, and takes time by the square of the number of posts.
    pub fn new(alloc: Global, posts: u32, nodes: u32) -> Result<(Pool, Vec<Post>), NoMemory>
        ensures { IfOk result (λ r. (r.0.nodes ≡ nodes) × (length r.1.items ≡ posts) × (length r.0.thieves.items ≡ posts) × Each (IsSeated r.0) r.1.items) }
    {
        let (entrance, entry) = entrance::open_entrance(alloc, nodes)?;
        let mut pool = Pool {
            thieves: Vec::new(alloc),
            entrance,
            nodes,
        };
        let mut list = open_posts(alloc, &pool, entry, posts)?;
        add_thieves(&mut pool, &list)?;
        seat_posts(alloc, &pool, &mut list)?;
        Ok((pool, list))
    }

    /// Puts the node at the end of the post's own queue. Want of memory is its one error, which stands for whatever
    /// cause the queue has to refuse a node; nothing has changed then. It waits for nobody, and takes constant time, but
    /// where the queue grows.
    pub fn push(&self, post: &mut Post, node: u32) -> Result<(), NoMemory>
        requires post { IsPostOf self.now post.old }
        requires node { node < self.now.nodes }
        ensures same { IsPostOf self.now post.new × (post.new.place ≡ post.old.place) }
        ensures pushed { (h : Hand) → OnOk result (hands post.new ≡ slice_set (hands post.old) 0 (pushed (node ∷ []) (slice_index_or (hands post.old) 0 h))) }
        ensures refused { OnErr result (hands post.new ≡ hands post.old) }
    {
        deque::push(&mut post.own, node)
    }

    /// Puts the node at the end of the entrance. Want of memory is its one error, as at `push`. It waits only for
    /// another post that is putting a node there.
    pub fn inject<R: Wait>(&self, rt: &R, post: &mut Post, node: u32) -> Result<(), NoMemory>
        requires post { IsPostOf self.now post.old }
        requires node { node < self.now.nodes }
        ensures same { IsPostOf self.now post.new × (post.new.place ≡ post.old.place) }
        ensures pushed { (h : Hand) → OnOk result (hands post.new ≡ slice_set (hands post.old) 1 (pushed (node ∷ []) (slice_index_or (hands post.old) 1 h))) }
        ensures refused { OnErr result (hands post.new ≡ hands post.old) }
    {
        entrance::inject(rt, &self.entrance, &mut post.entry, node)
    }

    /// Takes a node out of the pool. It asks the post's own queue, then the entrance, and then the queue of each other
    /// post once: of those after it in rising order, and then from the first. `None` comes only after each queue was
    /// empty, each at a moment of this call; and a node comes only after each queue that was asked before its own was.
    /// It tries a queue again while another post is in its way, and takes time by the number of posts.
    pub fn take<R: Wait>(&self, rt: &R, post: &mut Post) -> Option<u32>
        requires post { IsPostOf self.now post.old }
        ensures same { IsPostOf self.now post.new × (post.new.place ≡ post.old.place) }
        ensures asked { HasAskedAll result (hands post.old) (hands post.new) }
        ensures node { IfSome result (λ x. x < self.now.nodes) }
    {
        match deque::pop(&mut post.own) {
            Some(node) => Some(node),
            None => self.take_elsewhere(rt, post.place, &mut post.entry, &mut post.reaches),
        }
    }

    // Asks the entrance and then the other posts.
    fn take_elsewhere<R: Wait>(
        &self,
        rt: &R,
        place: usize,
        entry: &mut Entry,
        reaches: &mut Vec<Reach>,
    ) -> Option<u32>
        requires entry { IsInjectorPassOf self.now.entrance entry.old × ((injector_view entry.old).told ≡ true) }
        requires place { place < length self.now.thieves.items }
        requires reaches { AreReaches self.now.thieves.items place reaches.old.items }
        requires flavors { All (λ t. stealer_flavor t ≡ 0) self.now.thieves.items }
        requires told { AreTold reaches.old.items }
        ensures same { IsInjectorPassOf self.now.entrance entry.new × AreReaches self.now.thieves.items place reaches.new.items }
        ensures asked { HasAskedAll result (injector_view entry.old ∷ map view reaches.old.items) (injector_view entry.new ∷ map view reaches.new.items) }
    {
        match entrance::enter(rt, &self.entrance, entry) {
            Some(node) => Some(node),
            None => ask_others(rt, &self.thieves, place, reaches),
        }
    }
}
