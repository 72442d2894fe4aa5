ghost use Rattle.std.specs.Prelude.{◌≡◌, ◌≤◌};
ghost use Rattle.flow_machine.specs.State.{new_cast};

use crate::checks::{is, none, number, some};
use flow_cast::{Cast, Claims, Hand, Limiter};
use flow_item::{Id, Item, Val};
use flow_machine::Claim;
use std::process::Abort;
use std::test::*;

/// An item on offer over two edges.
fn offered(rt: &(impl Abort + AllocGlobal), no: u64) -> Cast
    ensures { result ≡ record { cast = new_cast result.cast.item 1; edges = 2 } }
{
    let item = Item {
        id: Id { node: 0, no },
        tag: 9,
        val: Val::Int(5),
    };
    Cast::new(rt.alloc(), item, 1, 2).ok().expect(rt, "a cast")
}

fn hand(rt: &(impl Abort + AllocGlobal), no: u64) -> Hand {
    let cast = offered(rt, no);
    let mut sources = Claims::new(rt.alloc());
    let claim = Claim { edge: 7, item: no };
    sources.push(claim).ok().expect(rt, "a hold");
    Hand { cast, sources }
}

/// Makes room for so many hands.
fn room(rt: &impl Abort, limiter: &mut Limiter, count: usize)
    ensures room { count ≤ limiter.new.spare }
    ensures same { limiter.new ≡ record limiter.old { spare = limiter.new.spare } }
{
    limiter.reserve(count).ok().expect(rt, "memory");
}

#[test]
fn decrements_by_value(rt: HostRuntime) {
    let mut limiter = Limiter::new(rt.alloc(), 3, true);
    room(&rt, &mut limiter, 2);
    limiter.open_hand(hand(&rt, 0));
    limiter.open_hand(hand(&rt, 1));
    is(&rt, limiter.room(true));
    limiter.decrement(&Val::Int(-5));
    number(&rt, limiter.count() as u64, 1);
    is(&rt, !limiter.room(true));
    limiter.decrement(&Val::Int(9));
    number(&rt, limiter.count() as u64, 0);
    number(&rt, limiter.early() as u64, 2);
    number(&rt, limiter.hands() as u64, 2);
    number(&rt, limiter.threshold() as u64, 3);
    is(&rt, limiter.by_value());
}

#[test]
fn keeps_an_early_decrement(rt: HostRuntime) {
    let mut limiter = Limiter::new(rt.alloc(), 1, false);
    room(&rt, &mut limiter, 1);
    limiter.open_hand(hand(&rt, 4));
    limiter.decrement(&Val::Int(0));
    number(&rt, limiter.count() as u64, 0);
    number(&rt, limiter.early() as u64, 1);
    let closed = limiter.close_hand(true);
    number(&rt, closed.cast.item().id.no, 4);
    number(&rt, closed.sources.len() as u64, 1);
    number(&rt, limiter.count() as u64, 0);
    number(&rt, limiter.early() as u64, 0);
    is(&rt, limiter.room(true));
    is(&rt, !limiter.room(false));
}

/// Whether the first hand, lent for writing, offers its item over the edge.
fn offers_written(limiter: &mut Limiter, edge: u32) -> bool {
    match limiter.hand_mut(0) {
        Some(first) => first.cast.offer(edge),
        None => false,
    }
}

/// Whether hand k offers its item over the edge, where there is such a hand.
fn offers(limiter: &Limiter, k: usize, edge: u32) -> Option<u64> {
    match limiter.hand(k) {
        Some(hand) => Some(hand.cast.offer(edge) as u64),
        None => None,
    }
}

#[test]
fn writes_through_a_hand(rt: HostRuntime) {
    let mut limiter = Limiter::new(rt.alloc(), 1, false);
    room(&rt, &mut limiter, 1);
    limiter.open_hand(hand(&rt, 4));
    is(&rt, offers_written(&mut limiter, 3));
    some(&rt, offers(&limiter, 0, 3), 1);
    none(&rt, offers(&limiter, 1, 3));
}

/// The edge at this place of those that were met.
fn met(cast: &Cast, k: usize) -> Option<u64> {
    match cast.met(k) {
        Some(edge) => Some(*edge as u64),
        None => None,
    }
}

/// The edge at this place of those that hold the item.
fn holds(cast: &Cast, k: usize) -> Option<u64> {
    match cast.holds(k) {
        Some(edge) => Some(*edge as u64),
        None => None,
    }
}

#[test]
fn casts_change(rt: HostRuntime) {
    let mut cast = offered(&rt, 6);
    number(&rt, cast.port() as u64, 1);
    number(&rt, cast.edges() as u64, 2);
    number(&rt, cast.got(), 0);
    cast.hold(3);
    is(&rt, cast.is_held());
    is(&rt, cast.is_held_for(3));
    is(&rt, !cast.offer(3));
    cast.take(3);
    some(&rt, met(&cast, 0), 3);
    none(&rt, holds(&cast, 0));
    number(&rt, cast.got(), 1);
    let mut other = offered(&rt, 7);
    other.give(5);
    number(&rt, other.got(), 1);
    is(&rt, !other.offer(5));
    number(&rt, cast.into_item().tag, 9);
}
