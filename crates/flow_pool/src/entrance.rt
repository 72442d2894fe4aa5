//! The entrance, the queue that all posts share.
ghost use Rattle.std.specs.Prelude.{◌≡◌, ◌<◌, [], ◌∷◌, true, IfOk, OnOk, OnErr};
ghost use Rattle.crossbeam_deque.specs.Injected.{injector_view, IsInjectorPassOf};
ghost use Rattle.flow_pool.specs.Rule.{first, idle, opened, sharing, shared, pushed, HasAsked};

use crate::hand::{Bound, Fair, Hand, Open, Pushes, Share, Takes, Whole};
use crossbeam_deque::{Injector, InjectorPass, Steal};
use flow_item::NoMemory;
use std::alloc::Global;
use std::marker::Brand;
use std::sync::Wait;

/// The queue that all posts share.
pub(crate) type Entrance = Injector<u32, Global, Hand, Fair>;

/// A post's hand there.
pub(crate) type Entry = InjectorPass<u32, Hand>;

// Tells the one hand how many nodes there are.
fn tell_entrance<N: Bound>(entrance: &Entrance, entry: &mut Entry, nodes: u32)
    requires entry { IsInjectorPassOf entrance.now entry.old }
    requires first { injector_view entry.old ≡ first }
    requires told { N.nodes ≡ nodes }
    ensures same { IsInjectorPassOf entrance.now entry.new }
    ensures hand { injector_view entry.new ≡ opened nodes }
{
    let _ = entrance.another::<Open<N>>(entry);
}

// An empty entrance, and its first hand.
pub(crate) fn open_entrance(alloc: Global, nodes: u32) -> Result<(Entrance, Entry), NoMemory>
    ensures { IfOk result (λ e. IsInjectorPassOf e.0 e.1 × (injector_view e.1 ≡ opened nodes)) }
{
    let (entrance, mut entry) = Entrance::new_as(alloc)?;
    tell_entrance::<Brand>(&entrance, &mut entry, nodes);
    Ok((entrance, entry))
}

// A hand at the entrance for another post.
pub(crate) fn share_entrance(entrance: &Entrance, entry: &mut Entry) -> Entry
    requires entry { IsInjectorPassOf entrance.now entry.old }
    requires told { (injector_view entry.old).told ≡ true }
    ensures same { IsInjectorPassOf entrance.now entry.new × IsInjectorPassOf entrance.now result }
    ensures hands { (injector_view entry.new ≡ sharing (injector_view entry.old)) × (injector_view result ≡ shared (injector_view entry.old)) }
{
    entrance.another::<Share>(entry)
}

// The whole hand at the entrance, for the last post.
pub(crate) fn give_entrance(entrance: &Entrance, entry: &mut Entry) -> Entry
    requires entry { IsInjectorPassOf entrance.now entry.old }
    requires told { (injector_view entry.old).told ≡ true }
    ensures same { IsInjectorPassOf entrance.now entry.new × IsInjectorPassOf entrance.now result }
    ensures hand { (injector_view entry.new ≡ idle) × (injector_view result ≡ injector_view entry.old) }
{
    entrance.another::<Whole>(entry)
}

// Puts the node at the end of the entrance.
pub(crate) fn inject<R: Wait>(
    rt: &R,
    entrance: &Entrance,
    entry: &mut Entry,
    node: u32,
) -> Result<(), NoMemory>
    requires entry { IsInjectorPassOf entrance.now entry.old }
    requires node { ((injector_view entry.old).told ≡ true) × (node < (injector_view entry.old).nodes) }
    ensures same { IsInjectorPassOf entrance.now entry.new }
    ensures pushed { OnOk result (injector_view entry.new ≡ pushed (node ∷ []) (injector_view entry.old)) }
    ensures refused { OnErr result (injector_view entry.new ≡ injector_view entry.old) }
{
    match entrance.push_as::<Pushes, R>(rt, entry, node) {
        Ok(()) => Ok(()),
        Err(_) => Err(NoMemory),
    }
}

// Takes the first node at the entrance. It tries again while another post is in its way.
pub(crate) fn enter<R: Wait>(rt: &R, entrance: &Entrance, entry: &mut Entry) -> Option<u32>
    requires entry { IsInjectorPassOf entrance.now entry.old }
    requires told { (injector_view entry.old).told ≡ true }
    ensures same { IsInjectorPassOf entrance.now entry.new }
    ensures asked { HasAsked result (injector_view entry.old) (injector_view entry.new) }
{
    for _ in rt.forever() {
        match entrance.steal_as::<Takes, R>(rt, entry) {
            Steal::Success(node) => return Some(node),
            Steal::Empty => return None,
            Steal::Retry => {}
        }
    }
    unreachable!()
}
