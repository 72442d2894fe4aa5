use crate::told::{is, number, parted, same};
use crate::values::{text, value};
use flow_body::{
    Add, Body, Builtins, CountTo, Echo, FailMemory, Len, Mul, Named, Neg, Pair, Part, PlainEcho,
    PlainOutside, Shelf, SplitEven, builtin_shelf,
};
use flow_item::{Id, Item, Outs, Val};
use std::process::Abort;

fn item(val: Val) -> Item {
    Item {
        id: Id { node: 0, no: 3 },
        tag: 7,
        val,
    }
}

// Messages in words: port, tag and value of each.
fn told(rt: &(impl Abort + AllocGlobal), outs: &Outs) -> String {
    let mut words = String::new(rt.alloc());
    for k in 0..outs.len() {
        let msg = outs.get(k).expect(rt, "a message");
        let line = format!(in rt.alloc(); "{} {} {:?};", msg.port, msg.tag, msg.val).expect(
            rt, "memory",
        );
        words.push_str(line.as_str()).expect(rt, "memory");
    }
    words
}

// One message on this port in words, with the tag of the item.
fn one_told(rt: &(impl Abort + AllocGlobal), port: &str, val: &str) -> String {
    let val = value(rt, val);
    format!(in rt.alloc(); "{port} 7 {val:?};").expect(rt, "memory")
}

// The one message of a port and a value, or none.
fn expected(rt: &(impl Abort + AllocGlobal), words: &str) -> String {
    match words.split_once(' ') {
        Some((port, val)) => one_told(rt, port, val),
        None => String::new(rt.alloc()),
    }
}

// A body's name, an argument, a value, and the port and value of the one message of a single body.
const SINGLE: &str = "add | 1 | 9223372036854775807 | 0 -9223372036854775808
add | -1 | -9223372036854775808 | 0 9223372036854775807
add | -9223372036854775808 | -9223372036854775808 | 0 0
add | 9223372036854775807 | 9223372036854775807 | 0 -2
add | 0 | -5 | 0 -5
add | 'one | 5 | 0 5
add | [] | 5 | 0 5
add | 1 | 'five | 0 'five
add | 1 | [] 5 + | 0 [] 5 +
add | 'a | 'b | 0 'b
mul | 3 | 4 | 0 12
mul | -1 | -9223372036854775808 | 0 -9223372036854775808
mul | 2 | 9223372036854775807 | 0 -2
mul | 9223372036854775807 | 9223372036854775807 | 0 1
mul | 2 | 4611686018427387904 | 0 -9223372036854775808
mul | 0 | -9223372036854775808 | 0 0
mul | 'two | 5 | 0 5
mul | 2 | 'five | 0 'five
mul | 2 | [] 5 + 6 + | 0 [] 5 + 6 +
neg | 9 | 5 | 0 -5
neg | 9 | 0 | 0 0
neg | 9 | 9223372036854775807 | 0 -9223372036854775807
neg | 9 | -9223372036854775808 | 0 -9223372036854775808
neg | 9 | '-5 | 0 '-5
neg | 9 | [] -5 + | 0 [] -5 +
len | 9 | ' | 0 0
len | 9 | 'four | 0 4
len | 9 | '\u{e9} | 0 2
len | 9 | 'a\u{20ac}\u{1f600} | 0 8
len | 9 | long4096 | 0 4096
len | 9 | [] | 0 0
len | 9 | [] [] 1 + 2 + + 3 + | 0 2
len | 9 | wide4095 | 0 4095
len | 9 | -9223372036854775808 | 0 -9223372036854775808
part | 0 | [] 5 + 6 + | 0 5
part | 1 | [] 5 + 6 + | 0 6
part | 2 | [] 5 + 6 + | 0 [] 5 + 6 +
part | -1 | [] 5 + 6 + | 0 [] 5 + 6 +
part | 9223372036854775807 | [] 5 + | 0 [] 5 +
part | -9223372036854775808 | [] 5 + | 0 [] 5 +
part | 0 | [] | 0 []
part | 0 | [] [] 1 + 2 + + 3 + | 0 [] 1 + 2 +
part | 0 | deep32 | 0 deep31
part | '0 | [] 5 + | 0 [] 5 +
part | 0 | 5 | 0 5
part | 0 | 'text | 0 'text
pair | 2 | 1 | 0 [] 1 + 2 +
pair | 'b | [] | 0 [] [] + 'b +
pair | [] 2 + | '\u{e9} | 0 [] '\u{e9} + [] 2 + +
pair | 1 | wide4094 | 0 []
pair | 1 | deep32 | 0 []
pair | deep31 | 1 | 0 [] 1 + deep31 +
echo | 1 | 9223372036854775807 | 0 9223372036854775807
echo | 1 | '\u{1f600} | 0 '\u{1f600}
echo | 1 | wide4095 | 0 wide4095
echo | 1 | deep32 | 0 deep32";

// The same of other bodies, which may send none.
const OTHERS: &str = "split_even | 1 | 0 | 0 0
split_even | 1 | 1 | 1 1
split_even | 1 | -1 | 1 -1
split_even | 1 | -2 | 0 -2
split_even | 1 | 9223372036854775807 | 1 9223372036854775807
split_even | 1 | -9223372036854775808 | 0 -9223372036854775808
split_even | 1 | '2 | none
split_even | 1 | [] 2 + | none
split_even | 1 | [] | none
count_to | 3 | 2 | 0 2
count_to | 3 | 3 | none
count_to | 3 | 4 | none
count_to | 9223372036854775807 | -9223372036854775808 | 0 -9223372036854775808
count_to | -9223372036854775808 | -9223372036854775808 | none
count_to | -9223372036854775807 | -9223372036854775808 | 0 -9223372036854775808
count_to | 9223372036854775807 | 9223372036854775807 | none
count_to | '3 | 2 | none
count_to | 3 | '2 | none
count_to | [] 3 + | [] | none";

// The messages of a body in words.
fn run(
    rt: &(impl Abort + AllocGlobal),
    body: &(dyn Body + Send + Sync),
    arg: &Val,
    item: &Item,
) -> String {
    let outs = body.run(rt.alloc(), arg, item).ok().expect(rt, "memory");
    told(rt, &outs)
}

// The messages of the body of this name in words.
fn ran(rt: &(impl Abort + AllocGlobal), shelf: &Shelf, name: &str, arg: &str, val: &str) -> String {
    let found = shelf.find(name).expect(rt, "a name");
    let body = shelf.body(found).expect(rt, "a body");
    let arg = value(rt, arg);
    let item = item(value(rt, val));
    run(rt, body, &arg, &item)
}

fn answers(rt: &(impl Abort + AllocGlobal), shelf: &Shelf, line: &str) {
    let (name, rest) = parted(rt, line, " | ");
    let (arg, rest) = parted(rt, rest, " | ");
    let (val, message) = parted(rt, rest, " | ");
    let words = ran(rt, shelf, name, arg, val);
    let expected = expected(rt, message);
    same(rt, words.as_str(), expected.as_str());
}

fn answer(rt: &(impl Abort + AllocGlobal), shelf: &Shelf, lines: &str) {
    for line in lines.split('\n') {
        answers(rt, shelf, line);
    }
}

// Each name and its number, whether that body is pure and whether it is single.
const NAMES: &str = "add 0 true true
mul 1 true true
neg 2 true true
len 3 true true
part 4 true true
pair 5 true true
echo 6 true true
split_even 7 true false
count_to 8 true false
fail_memory 9 false false";

// What stands on the shelf by this name, as a line of the names.
fn described(rt: &(impl Abort + AllocGlobal), shelf: &Shelf, name: &str) -> String {
    let found = shelf.find(name).expect(rt, "a name");
    let body = shelf.body(found).expect(rt, "a body");
    format!(in rt.alloc(); "{name} {found} {} {}", body.is_pure(), body.is_single()).expect(
        rt, "memory",
    )
}

fn stands(rt: &(impl Abort + AllocGlobal), shelf: &Shelf, line: &str) {
    let (name, _rest) = parted(rt, line, " ");
    same(rt, described(rt, shelf, name).as_str(), line);
}

fn stand_in_order(rt: &(impl Abort + AllocGlobal), shelf: &Shelf) {
    for line in NAMES.split('\n') {
        stands(rt, shelf, line);
    }
    number(rt, shelf.len() as u64, 10);
    is(rt, shelf.body(10).is_none());
}

#[test]
fn built_in_bodies_answer(rt: HostRuntime) {
    let alloc = rt.alloc();
    let bodies = Builtins {
        add: Box::new(alloc, Add).expect(&rt, "memory"),
        mul: Box::new(alloc, Mul).expect(&rt, "memory"),
        neg: Box::new(alloc, Neg).expect(&rt, "memory"),
        len: Box::new(alloc, Len).expect(&rt, "memory"),
        part: Box::new(alloc, Part).expect(&rt, "memory"),
        pair: Box::new(alloc, Pair).expect(&rt, "memory"),
        echo: Box::new(alloc, Echo).expect(&rt, "memory"),
        split_even: Box::new(alloc, SplitEven).expect(&rt, "memory"),
        count_to: Box::new(alloc, CountTo).expect(&rt, "memory"),
        fail_memory: Box::new(alloc, FailMemory).expect(&rt, "memory"),
    };
    let shelf = builtin_shelf(alloc, bodies).ok().expect(&rt, "memory");
    stand_in_order(&rt, &shelf);
    answer(&rt, &shelf, SINGLE);
    answer(&rt, &shelf, OTHERS);
}

fn finds_memory(rt: &impl AllocGlobal, item: &Item) -> bool {
    FailMemory.run(rt.alloc(), &Val::Int(2), item).is_ok()
}

fn echoed(rt: &(impl Abort + AllocGlobal), item: &Item) -> String {
    let outs = PlainEcho
        .answer(rt.alloc(), &Val::Int(0), item)
        .ok()
        .expect(rt, "memory");
    told(rt, &outs)
}

#[test]
fn some_bodies_find_no_memory(rt: HostRuntime) {
    let item = item(value(&rt, "5"));
    is(&rt, !finds_memory(&rt, &item));
    same(
        &rt,
        echoed(&rt, &item).as_str(),
        expected(&rt, "0 5").as_str(),
    );
}

fn named(rt: &(impl Abort + AllocGlobal), name: &str, body: Box<dyn Body + Send + Sync>) -> Named {
    Named {
        name: text(rt, name),
        body,
    }
}

// Whether the shelf has this number for the name.
fn finds(shelf: &Shelf, name: &str, number: Option<u32>) -> bool {
    shelf.find(name) == number
}

#[test]
fn names_are_found(rt: HostRuntime) {
    let alloc = rt.alloc();
    let first = named(&rt, "add", Box::new(alloc, Add).expect(&rt, "memory"));
    let second = named(&rt, "neg", Box::new(alloc, Neg).expect(&rt, "memory"));
    let third = named(&rt, "add", Box::new(alloc, Echo).expect(&rt, "memory"));
    let bodies = vec![in alloc; first, second, third].expect(&rt, "memory");
    let shelf = Shelf::new(alloc, bodies).ok().expect(&rt, "memory");
    is(&rt, finds(&shelf, "add", Some(0)));
    is(&rt, finds(&shelf, "neg", Some(1)));
    is(&rt, finds(&shelf, "ad", None));
    is(&rt, shelf.body(0).is_some());
    is(&rt, shelf.body(3).is_none());
    number(&rt, shelf.len() as u64, 3);
    answers(&rt, &shelf, "add | 2 | 3 | 0 5");
}
