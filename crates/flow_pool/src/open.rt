//! A pool at its start.
ghost use Rattle.std.specs.Prelude.{◌≡◌, ◌<◌, ℕ, [], All, length, true, false, IfOk, OnOk};
ghost use Rattle.std.specs.List.{HoldsAt};
ghost use Rattle.crossbeam_deque.specs.Handles.{view, worker_flavor};
ghost use Rattle.crossbeam_deque.specs.Injected.{injector_view, IsInjectorPassOf};
ghost use Rattle.flow_pool.specs.Rule.{opened};
ghost use Rattle.flow_pool.specs.Posts.{AreReaches, Each};
ghost use Rattle.flow_pool.specs.Opening.{IsFresh, IsOpened, IsReached, AreBegun, IsSeated};

use crate::deque::{Reach, open_deque, share_deque};
use crate::entrance::{Entrance, Entry, give_entrance, share_entrance};
use crate::pool::Pool;
use crate::post::{Post, place_after};
use flow_item::NoMemory;
use std::alloc::Global;

// A hand at the entrance for the next post, the whole one for the last.
fn next_entry(entrance: &Entrance, entry: &mut Entry, last: bool) -> Entry
    requires entry { IsInjectorPassOf entrance.now entry.old }
    requires told { (injector_view entry.old).told ≡ true }
    ensures same { IsInjectorPassOf entrance.now entry.new × IsInjectorPassOf entrance.now result }
    ensures fresh { (nodes : ℕ) → IsFresh nodes (injector_view entry.old) → IsFresh nodes (injector_view result) × (last ≡ false → IsFresh nodes (injector_view entry.new)) }
    ensures alone { last ≡ true → (injector_view result).alone ≡ (injector_view entry.old).alone }
{
    if last {
        give_entrance(entrance, entry)
    } else {
        share_entrance(entrance, entry)
    }
}

// A post at each place, with an empty queue and a hand at the entrance.
pub(crate) fn open_posts(
    alloc: Global,
    pool: &Pool,
    mut whole: Entry,
    posts: u32,
) -> Result<Vec<Post>, NoMemory>
    requires { IsInjectorPassOf pool.now.entrance whole × (injector_view whole ≡ opened pool.now.nodes) }
    ensures { IfOk result (λ list. (length list.items ≡ posts) × Each (IsOpened pool.now posts) list.items) }
{
    let mut list = Vec::with_capacity(alloc, posts as usize)?;
    for place in 0..posts as usize {
        let own = open_deque(alloc, pool.nodes)?;
        let entry = next_entry(&pool.entrance, &mut whole, place + 1 == posts as usize);
        list.push(Post {
            place,
            own,
            entry,
            reaches: Vec::new(alloc),
        })?;
    }
    Ok(list)
}

// Adds the handles by which the queues of these posts are reached.
pub(crate) fn add_thieves(pool: &mut Pool, list: &Vec<Post>) -> Result<(), NoMemory>
    requires none { pool.old.thieves.items ≡ [] }
    requires flavors { Each (λ q post. worker_flavor post.own ≡ 0) list.now.items }
    ensures same { (pool.new.entrance ≡ pool.old.entrance) × (pool.new.nodes ≡ pool.old.nodes) }
    ensures reached { OnOk result ((length pool.new.thieves.items ≡ length list.now.items) × Each (IsReached pool.new) list.now.items) }
{
    for place in 0..list.len() {
        pool.thieves.push(list[place].own.stealer()?)?;
    }
    Ok(())
}

// A hand in the queue of each other post, in the order in which the post at this place asks them.
fn reaches_of(
    alloc: Global,
    pool: &Pool,
    list: &mut Vec<Post>,
    place: usize,
) -> Result<Vec<Reach>, NoMemory>
    requires place { place < length list.old.items }
    requires begun { AreBegun pool.now list.old.items }
    ensures begun { AreBegun pool.now list.new.items }
    ensures same { (length list.new.items ≡ length list.old.items) × Each (λ q post. HoldsAt (λ was. post.reaches ≡ was.reaches) list.old.items q) list.new.items }
    ensures reaches { IfOk result (λ r. AreReaches pool.now.thieves.items place r.items × All (λ h. IsFresh pool.now.nodes (view h)) r.items) }
{
    let others = list.len() - 1;
    let mut reaches = Vec::with_capacity(alloc, others)?;
    for k in 0..others {
        let at = place_after(list.len(), place, k);
        reaches.push(share_deque(&mut list[at].own))?;
    }
    Ok(reaches)
}

// Gives each post a hand in the queue of each other post.
pub(crate) fn seat_posts(alloc: Global, pool: &Pool, list: &mut Vec<Post>) -> Result<(), NoMemory>
    requires { AreBegun pool.now list.old.items }
    ensures { OnOk result ((length list.new.items ≡ length pool.now.thieves.items) × Each (IsSeated pool.now) list.new.items) }
{
    for place in 0..list.len() {
        let reaches = reaches_of(alloc, pool, list, place)?;
        list[place].reaches = reaches;
    }
    Ok(())
}
