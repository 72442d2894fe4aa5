//! Values, lists with room, and events.
use crate::checks::{holds, number, text};
use flow_item::{
    Cause, Ended, Event, Id, Ids, Item, Journal, Land, Link, Outs, PutAnswer, RoomyOuts, Text, Val,
    Vals,
};
use std::process::Abort;

fn add(rt: &impl Abort, parts: &mut Vals, val: Val) {
    assert!(rt; parts.push(val).is_ok());
}

/// A list of one value.
fn list(rt: &(impl Abort + AllocGlobal), val: Val) -> Val {
    let mut parts = Vals::new(rt.alloc());
    add(rt, &mut parts, val);
    Val::List(parts)
}

/// The number of lists in one another.
fn nested(rt: &(impl Abort + AllocGlobal), depth: u32) -> Val {
    let mut whole = Val::Int(7);
    for _level in 0..depth {
        whole = list(rt, whole);
    }
    whole
}

/// A list of so many numbers.
fn numbers(rt: &(impl Abort + AllocGlobal), count: u32) -> Vals {
    let mut parts = Vals::new(rt.alloc());
    for number in 0..count {
        add(rt, &mut parts, Val::Int(number as i64));
    }
    parts
}

/// A text of so many letters.
fn letters(rt: &(impl Abort + AllocGlobal), count: usize) -> Val {
    let letters = vec![in rt.alloc(); b'a'; count].expect(rt, "memory");
    let text = str::from_utf8(letters.as_slice()).expect(rt, "a text");
    Val::Text(Text::of(rt.alloc(), text).expect(rt, "memory"))
}

/// So many lists in one another have this depth.
fn nests(rt: &(impl Abort + AllocGlobal), lists: u32, depth: u32, fits: bool) {
    let value = nested(rt, lists);
    number(rt, u64::from(value.depth()), u64::from(depth));
    holds(rt, value.fits() == fits);
}

fn len_of(list: &Val) -> usize {
    match list {
        Val::List(parts) => parts.len(),
        _ => usize::MAX,
    }
}

/// So many members have this weight, and make a list of this length.
fn weighs(rt: &(impl Abort + AllocGlobal), members: u32, weight: u32, len: usize) {
    let value = Val::List(numbers(rt, members));
    number(rt, u64::from(value.weight()), u64::from(weight));
    holds(rt, value.fits() == (weight < 4097));
    let list = Val::list(rt.alloc(), numbers(rt, members));
    number(rt, len_of(&list) as u64, len as u64);
}

/// A text of so many bytes weighs one.
fn spells(rt: &(impl Abort + AllocGlobal), bytes: usize, fits: bool) {
    let value = letters(rt, bytes);
    number(rt, u64::from(value.weight()), 1);
    number(rt, u64::from(value.depth()), 0);
    holds(rt, value.fits() == fits);
}

#[test]
fn values_are_measured(rt: HostRuntime) {
    nests(&rt, 0, 0, true);
    nests(&rt, 1, 1, true);
    nests(&rt, 32, 32, true);
    nests(&rt, 33, 33, false);
    nests(&rt, 40, 33, false);
    weighs(&rt, 0, 1, 0);
    weighs(&rt, 4095, 4096, 4095);
    weighs(&rt, 4096, 4097, 0);
    weighs(&rt, 5000, 4097, 0);
    spells(&rt, 0, true);
    spells(&rt, 4096, true);
    spells(&rt, 4097, false);
}

fn put(answer: PutAnswer) -> Event {
    Event::Put {
        caller: 2,
        node: 1,
        port: 0,
        tag: 8,
        val: Val::Int(5),
        answer,
    }
}

fn accepted() -> Event {
    put(PutAnswer::Accepted {
        no: 0,
        land: Land::Kept,
    })
}

fn refused() -> Event {
    put(PutAnswer::Refused(Cause::Busy(1)))
}

fn give(from: u32, to: u32) -> Event {
    let link = Link {
        edge: 3,
        from,
        to,
        port: 0,
    };
    let item = Item {
        id: Id { node: from, no: 6 },
        tag: 8,
        val: Val::Int(-5),
    };
    Event::Give {
        link,
        item,
        no: 7,
        land: Land::Lost,
    }
}

fn shut(ended: Ended) -> Event {
    Event::Shut {
        node: 1,
        item: 0,
        ended,
    }
}

fn form(rt: &(impl Abort + AllocGlobal), node: u32) -> Event {
    let mut parts = Ids::new(rt.alloc());
    assert!(rt; parts.push(Id { node: 1, no: 4 }).is_ok());
    Event::Form { node, no: 0, parts }
}

fn two_messages(rt: &(impl Abort + AllocGlobal)) -> Outs {
    let alloc = rt.alloc();
    let mut outs = RoomyOuts::new(alloc);
    outs.reserve(2).expect(rt, "memory");
    outs.push_reserved(alloc, 0, 8, Val::Int(1));
    outs.push_reserved(alloc, 1, 8, Val::List(Vals::new(alloc)));
    outs.into_outs()
}

fn end(rt: &(impl Abort + AllocGlobal)) -> Event {
    Event::End {
        worker: 2,
        node: 1,
        item: 0,
        first: 1,
        outs: two_messages(rt),
    }
}

fn copied(rt: &(impl Abort + AllocGlobal), event: &Event) -> Event {
    event.copy(rt.alloc()).expect(rt, "memory")
}

/// The parties and births of an event.
fn told(rt: &(impl Abort + AllocGlobal), event: &Event) -> String {
    let parties = event.parties();
    let births = event.births();
    format!(in rt.alloc(); "{:?} {:?} {births}", parties.first, parties.second).expect(rt, "memory")
}

/// The parties and births of the event's copy.
fn tells(rt: &(impl Abort + AllocGlobal), event: Event, want: &str) {
    let copy = copied(rt, &event);
    text(rt, told(rt, &copy).as_str(), want);
}

#[test]
fn events_are_told(rt: HostRuntime) {
    tells(&rt, accepted(), "Node(1) Some(Caller(2)) 1");
    tells(&rt, refused(), "Node(1) Some(Caller(2)) 0");
    tells(&rt, give(1, 4), "Node(1) Some(Node(4)) 1");
    tells(&rt, give(4, 4), "Node(4) None 1");
    tells(&rt, end(&rt), "Node(1) Some(Worker(2)) 2");
    tells(&rt, form(&rt, 1), "Node(1) None 1");
    tells(&rt, form(&rt, 9), "Node(9) None 0");
    tells(&rt, shut(Ended::Won), "Node(1) None 1");
    tells(&rt, shut(Ended::Lost), "Node(1) None 0");
    tells(&rt, Event::Leave { caller: 2 }, "Caller(2) None 0");
}

#[test]
fn names_keep_their_room(rt: HostRuntime) {
    let mut room = Ids::new(rt.alloc()).into_roomy();
    room.reserve(2).expect(&rt, "memory");
    let spare = room.spare();
    room.push_reserved(Id { node: 0, no: 5 });
    number(&rt, room.len() as u64, 1);
    holds(&rt, room.spare() < spare);
    let ids = room.into_ids().copy(rt.alloc()).expect(&rt, "memory");
    number(&rt, ids.len() as u64, 1);
    holds(&rt, ids.get(1).is_none());
}

/// A message has this port, and a value of this depth.
fn carries(rt: &impl Abort, outs: &Outs, at: usize, port: u32, depth: u32) {
    let msg = outs.get(at).expect(rt, "a message");
    number(rt, msg.port as u64, port as u64);
    number(rt, msg.val.depth() as u64, depth as u64);
}

#[test]
fn messages_are_copied(rt: HostRuntime) {
    let outs = two_messages(&rt).copy(rt.alloc()).expect(&rt, "memory");
    number(&rt, outs.len() as u64, 2);
    carries(&rt, &outs, 1, 1, 1);
}

fn grows(journal: &mut Journal) -> bool {
    journal.push(Event::Leave { caller: 0 }).is_ok()
}

#[test]
fn journals_grow(rt: HostRuntime) {
    let mut journal = Journal::of(Vec::new(rt.alloc()));
    holds(&rt, journal.reserve(1).is_ok());
    holds(&rt, grows(&mut journal));
    number(&rt, journal.len() as u64, 1);
    holds(&rt, journal.get(1).is_none());
}
