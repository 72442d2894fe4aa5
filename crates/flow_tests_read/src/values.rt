//! Values in words.

use flow_item::{Text, Val, Vals};
use std::process::Abort;

fn keep(rt: &impl Abort, parts: &mut Vals, val: Val) {
    parts.push(val).ok().expect(rt, "memory");
}

// A list of one number so many times.
fn wide(rt: &(impl Abort + AllocGlobal), count: u32) -> Val {
    let mut parts = Vals::new(rt.alloc());
    for _ in 0..count {
        keep(rt, &mut parts, Val::Int(1));
    }
    Val::List(parts)
}

// A list of the value alone.
fn list_of(rt: &(impl Abort + AllocGlobal), val: Val) -> Val {
    let mut parts = Vals::new(rt.alloc());
    keep(rt, &mut parts, val);
    Val::List(parts)
}

// A list of the number alone, so many times.
fn deep(rt: &(impl Abort + AllocGlobal), number: i64, count: u32) -> Val {
    let mut inner = Val::Int(number);
    for _ in 0..count {
        inner = list_of(rt, inner);
    }
    inner
}

fn long(rt: &(impl Abort + AllocGlobal), count: u32) -> Val {
    let mut text = String::new(rt.alloc());
    for _ in 0..count {
        text.push_str("x").expect(rt, "memory");
    }
    Val::Text(Text::from_string(text))
}

pub(crate) fn text(rt: &(impl Abort + AllocGlobal), text: &str) -> Text {
    Text::of(rt.alloc(), text).ok().expect(rt, "memory")
}

fn parts_of(val: Val) -> Option<Vals> {
    match val {
        Val::List(parts) => Some(parts),
        _ => None,
    }
}

// A list with one member more.
fn with_member(rt: &impl Abort, list: Val, member: Val) -> Val {
    let mut parts = parts_of(list).expect(rt, "a list");
    keep(rt, &mut parts, member);
    Val::List(parts)
}

fn int(rt: &impl Abort, word: &str) -> Val {
    Val::Int(word.parse::<i64>().ok().expect(rt, "a number"))
}

// The value of one word: a number, or one that is told by its size.
fn sized(rt: &(impl Abort + AllocGlobal), word: &str) -> Val {
    match word {
        "[]" => Val::List(Vals::new(rt.alloc())),
        "wide4094" => wide(rt, 4_094),
        "wide4095" => wide(rt, 4_095),
        "deep31" => deep(rt, 1, 31),
        "deep32" => deep(rt, 1, 32),
        "long4096" => long(rt, 4_096),
        number => int(rt, number),
    }
}

// The value of one word: a text after `'`, or another.
fn word(rt: &(impl Abort + AllocGlobal), word: &str) -> Val {
    match word.strip_prefix("'") {
        Some(letters) => Val::Text(text(rt, letters)),
        None => sized(rt, word),
    }
}

// Puts the last value into the list before it.
fn join(rt: &impl Abort, vals: &mut Vec<Val>) {
    let member = vals.pop().expect(rt, "a member");
    let list = vals.pop().expect(rt, "a list");
    add(rt, vals, with_member(rt, list, member));
}

fn add(rt: &impl Abort, vals: &mut Vec<Val>, val: Val) {
    vals.push(val).ok().expect(rt, "memory");
}

/// The value of words from left to right, where `+` puts the last value into the list before it.
pub(crate) fn value(rt: &(impl Abort + AllocGlobal), words: &str) -> Val {
    let mut vals = Vec::new(rt.alloc());
    for part in words.split_whitespace() {
        if part == "+" {
            join(rt, &mut vals);
        } else {
            add(rt, &mut vals, word(rt, part));
        }
    }
    vals.pop().expect(rt, "a value")
}
