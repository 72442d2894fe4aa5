ghost use Rattle.std.specs.Prelude.{◌≡◌, ◌<◌, ◌^◌, true, IfSome};
ghost use Rattle.flow_machine.specs.Readers.{own_items};
ghost use Rattle.flow_machine.specs.State.{StoreState, store_part};
ghost use Rattle.flow_store.specs.Stores.{goes, is_new, tag_after};

use crate::checks::{is, none, number, some, word};
use flow_item::{Cause, Id, Item, Land, Text, Val};
use flow_store::{BagStore, FifoStore, OneStore, RankStore, SeqStore, Store, Way};
use std::process::Abort;
use std::test::*;

const LAST: u64 = u64::MAX;

/// Whether the number is above those of all items.
fn is_above<S: Store>(store: &S, number: u64) -> bool
    ensures { result ≡ is_new number (own_items (S.part store.now)) }
{
    for k in 0..store.len() {
        match store.items(k) {
            Some(item) => {
                if item.id.no >= number {
                    return false;
                }
            }
            None => unreachable!(),
        }
    }
    true
}

fn told(answer: Result<Land, Cause>) -> &'static str {
    match answer {
        Ok(Land::Kept) => "kept",
        Ok(Land::Lost) => "lost",
        Ok(_) => "over",
        Err(Cause::Duplicate) => "duplicate",
        Err(Cause::Full(_)) => "full",
        Err(_) => "set",
    }
}

/// Puts an item, and tells how it landed or what barred it.
fn put<S: Store>(store: &mut S, number: u64, tag: u64, val: Val, way: Way) -> &'static str {
    if store.reserve(1).is_err() || !is_above(store, number) {
        return "none";
    }
    let id = Id {
        node: 3,
        no: number,
    };
    let room = told(store.room(tag, way));
    match store.put(Item { id, tag, val }, way) {
        Ok(land) if told(Ok(land)) == room => room,
        Err((_, cause)) if told(Err(cause)) == room => room,
        _ => "apart",
    }
}

/// The number of the item that goes next.
fn next_number<S: Store>(store: &S) -> Option<u64>
    ensures { IfSome result (λ number. goes (S.kind store.now) (S.part store.now) number ≡ true) }
{
    match store.front() {
        Some(item) => Some(item.id.no),
        None => None,
    }
}

/// Gives the item that goes next.
fn give<S: Store>(store: &mut S) -> Option<u64>
    requires { tag_after (S.kind store.old) (S.part store.old) < 2 ^ 64 }
{
    let number = next_number(store)?;
    store.give(9, number);
    Some(number)
}

/// Holds the item that goes next and frees it: its number, and whether nothing went meanwhile and all items are there.
fn hold<S: Store>(store: &mut S) -> Option<(u64, bool)>
    requires { (s : StoreState) × (S.part store.old ≡ store_part s) }
{
    let number = next_number(store)?;
    let all = store.len();
    store.hold(4, number);
    let stays = store.front().is_none() && store.len() == all;
    store.free(4, number);
    Some((number, stays && store.len() == all))
}

/// Holds the item that goes next and takes it.
fn take<S: Store>(store: &mut S) -> Option<u64>
    requires single { (s : StoreState) × (S.part store.old ≡ store_part s) }
    requires fits { tag_after (S.kind store.old) (S.part store.old) < 2 ^ 64 }
{
    let number = next_number(store)?;
    store.hold(4, number);
    store.take(4, number);
    Some(number)
}

/// An item is put, and lands so or is barred so.
fn puts<S: Store>(
    rt: &impl Abort,
    store: &mut S,
    number: u64,
    tag: u64,
    val: Val,
    way: Way,
    answer: &str,
) {
    word(rt, put(store, number, tag, val, way), answer);
}

/// This item was held and freed, nothing went meanwhile, and all items are there.
fn held(rt: &impl Abort, got: Option<(u64, bool)>, want: u64) {
    match got {
        Some((number, stays)) => assert!(rt; number == want && stays),
        None => assert!(rt; false, "none and not {want}"),
    }
}

/// The number of the item at a place in print order.
fn number_at<S: Store>(store: &S, k: usize) -> Option<u64> {
    match store.at(k) {
        Some(item) => Some(item.id.no),
        None => None,
    }
}

fn arrange<S: Store>(rt: &impl Abort, store: &mut S) {
    store.arrange().ok().expect(rt, "memory");
}

#[test]
fn oldest_goes_first(rt: HostRuntime) {
    let mut store = FifoStore::new(rt.alloc(), Some(3));
    none(&rt, give(&mut store));
    is(&rt, hold(&mut store).is_none());
    puts(&rt, &mut store, 5, LAST, Val::Int(7), Way::Edge, "kept");
    puts(&rt, &mut store, 6, LAST, Val::Int(7), Way::Edge, "kept");
    puts(&rt, &mut store, LAST, LAST, Val::Int(7), Way::Edge, "kept");
    held(&rt, hold(&mut store), 5);
    some(&rt, give(&mut store), 5);
    some(&rt, take(&mut store), 6);
    number(&rt, store.len() as u64, 1);
    some(&rt, number_at(&store, 0), LAST);
}

#[test]
fn full_buffer_bars(rt: HostRuntime) {
    let mut store = BagStore::new(rt.alloc(), Some(1));
    puts(&rt, &mut store, 0, 0, Val::Int(7), Way::Caller, "kept");
    puts(&rt, &mut store, 1, 0, Val::Int(7), Way::Caller, "full");
    puts(&rt, &mut store, 2, 0, Val::Int(7), Way::Caller, "full");
    held(&rt, hold(&mut store), 0);
    some(&rt, take(&mut store), 0);
    number(&rt, store.len() as u64, 0);
    none(&rt, give(&mut store));
}

/// A text, which ranks below all numbers.
fn text(rt: &(impl Abort + AllocGlobal)) -> Val {
    Val::Text(Text::of(rt.alloc(), "z").ok().expect(rt, "memory"))
}

#[test]
fn greatest_goes_first(rt: HostRuntime) {
    let mut store = RankStore::new(rt.alloc());
    none(&rt, give(&mut store));
    puts(&rt, &mut store, 0, 0, Val::Int(3), Way::Edge, "kept");
    puts(&rt, &mut store, 1, 0, text(&rt), Way::Edge, "kept");
    puts(&rt, &mut store, 2, 0, Val::Int(3), Way::Edge, "kept");
    puts(&rt, &mut store, 3, 0, Val::Int(i64::MIN), Way::Edge, "kept");
    puts(&rt, &mut store, 4, 0, Val::Int(i64::MAX), Way::Edge, "kept");
    puts(&rt, &mut store, 5, 0, text(&rt), Way::Edge, "kept");
    held(&rt, hold(&mut store), 4);
    some(&rt, number_at(&store, 3), 3);
    some(&rt, give(&mut store), 4);
    some(&rt, give(&mut store), 0);
    some(&rt, give(&mut store), 2);
    some(&rt, give(&mut store), 3);
    some(&rt, give(&mut store), 1);
    some(&rt, take(&mut store), 5);
}

#[test]
fn ranks_are_arranged(rt: HostRuntime) {
    let mut store = RankStore::new(rt.alloc());
    puts(&rt, &mut store, 0, 0, Val::Int(3), Way::Edge, "kept");
    puts(&rt, &mut store, 1, 0, Val::Int(8), Way::Edge, "kept");
    puts(&rt, &mut store, 2, 0, Val::Int(3), Way::Edge, "kept");
    arrange(&rt, &mut store);
    some(&rt, number_at(&store, 0), 1);
    some(&rt, number_at(&store, 1), 0);
    some(&rt, number_at(&store, 2), 2);
    none(&rt, number_at(&store, 3));
    puts(&rt, &mut store, 3, 0, Val::Int(5), Way::Edge, "kept");
    some(&rt, number_at(&store, 1), 3);
    some(&rt, number_at(&store, 3), 2);
    arrange(&rt, &mut store);
    some(&rt, number_at(&store, 1), 3);
    some(&rt, number_at(&store, 3), 2);
}

/// As `give`, while a tag is left.
fn give_next(store: &mut SeqStore) -> Option<u64> {
    if store.next() == LAST {
        return None;
    }
    give(store)
}

#[test]
fn tags_go_in_order(rt: HostRuntime) {
    let mut store = SeqStore::new(rt.alloc());
    puts(&rt, &mut store, 0, 2, Val::Int(7), Way::Caller, "kept");
    puts(&rt, &mut store, 1, 0, Val::Int(7), Way::Edge, "kept");
    puts(&rt, &mut store, 2, 0, Val::Int(7), Way::Caller, "duplicate");
    puts(&rt, &mut store, 3, 0, Val::Int(7), Way::Edge, "lost");
    puts(&rt, &mut store, 4, LAST, Val::Int(7), Way::Edge, "kept");
    puts(
        &rt,
        &mut store,
        5,
        LAST,
        Val::Int(7),
        Way::Caller,
        "duplicate",
    );
    some(&rt, number_at(&store, 0), 1);
    some(&rt, number_at(&store, 1), 0);
    arrange(&rt, &mut store);
    some(&rt, number_at(&store, 2), 4);
    none(&rt, number_at(&store, 3));
    some(&rt, give_next(&mut store), 1);
    none(&rt, give_next(&mut store));
    puts(&rt, &mut store, 6, 0, Val::Int(7), Way::Caller, "duplicate");
    puts(&rt, &mut store, 7, 0, Val::Int(7), Way::Edge, "lost");
    puts(&rt, &mut store, 8, 1, Val::Int(7), Way::Caller, "kept");
    held(&rt, hold(&mut store), 8);
    some(&rt, give_next(&mut store), 8);
    some(&rt, give_next(&mut store), 0);
    number(&rt, store.next(), 3);
    number(&rt, store.len() as u64, 1);
}

/// Puts items 0 and 1 to a store of one value. The second has this answer, and item `number` is given again and again.
fn keeps_one(rt: &(impl Abort + AllocGlobal), once: bool, answer: &str, number: u64) {
    let mut store = OneStore::new(rt.alloc(), once);
    none(rt, give(&mut store));
    puts(rt, &mut store, 0, LAST, Val::Int(7), Way::Caller, "kept");
    puts(rt, &mut store, 1, LAST, Val::Int(7), Way::Caller, answer);
    some(rt, give(&mut store), number);
    some(rt, give(&mut store), number);
}

#[test]
fn one_value_is_kept(rt: HostRuntime) {
    keeps_one(&rt, false, "over", 1);
    keeps_one(&rt, true, "set", 0);
}
