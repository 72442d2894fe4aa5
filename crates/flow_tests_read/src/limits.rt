use crate::read::{answer, refuses};
use crate::told::same;
use flow_doc::{Offered, QUEUES, WHOLE};
use std::process::Abort;

/// Names and kinds of nodes, and what each document is read as.
const NAMES: &str =
    r#"{"version":1,"nodes":[{"name":"aaaaaaaaaaaaaaaaaaaaaaaaaaaaaaaaaaaaaaaaaaaaaaaaaaaaaaaaaaaaaaaa","kind":"queue"},{"name":"A-z_0.9","kind":"queue"}],"edges":[],"callers":[],"sinks":[]} => read
{"version":1,"nodes":[{"name":"aaaaaaaaaaaaaaaaaaaaaaaaaaaaaaaaaaaaaaaaaaaaaaaaaaaaaaaaaaaaaaaaa","kind":"queue"}],"edges":[],"callers":[],"sinks":[]} => nodes/0/name Name
{"version":1,"nodes":[{"name":"","kind":"x"}],"edges":[],"callers":[],"sinks":[]} => nodes/0/name Name
{"version":1,"nodes":[{"name":"q","kind":"x","zz":1}],"edges":[],"callers":[],"sinks":[]} => nodes/0/kind Kind
{"version":1,"nodes":[{"name":"q","kind":"queue"},{"name":"q","kind":"x"}],"edges":[],"callers":[],"sinks":[]} => nodes/1/name New
{"version":1,"nodes":[{"name":"n","kind":"queue","capacity":3}],"edges":[],"callers":[],"sinks":[]} => nodes/0/capacity Known"#;

/// What is checked before what.
const ORDERS: &str =
    r#"{"version":1,"nodes":[{"name":"q","kind":"queue"}],"edges":[],"callers":[[{"put":"q","tag":null,"val":null}]],"sinks":[]} => callers/0/0/tag Tag
{"version":1,"nodes":[{"name":"q","kind":"queue"}],"edges":[],"callers":[[{"put":"q","port":1,"tag":null}]],"sinks":[]} => callers/0/0/port Caller
{"version":1,"nodes":[{"name":"q","kind":"queue"}],"edges":[],"callers":[[{"put":"q","port":"x","tag":null}]],"sinks":[]} => callers/0/0/port Whole
{"version":1,"nodes":[{"name":"q","kind":"queue"}],"edges":[],"callers":[[{"put":"r","port":"x"}]],"sinks":[]} => callers/0/0/put Node
{"version":1,"nodes":[{"name":"q","kind":"queue"}],"edges":[],"callers":[[{"put":"q","val":null,"zz":1}]],"sinks":[]} => callers/0/0/val Value
{"version":1,"nodes":[{"name":"q","kind":"queue"}],"edges":[],"callers":[[{"wait":null,"zz":1}]],"sinks":[]} => callers/0/0/wait Step
{"version":1,"nodes":[{"name":"q","kind":"queue"}],"edges":[],"callers":[[{"wait":true,"zz":1,"aa":1}]],"sinks":[]} => callers/0/0/aa Known
{"version":1,"nodes":[{"name":"q","kind":"queue"}],"edges":[],"callers":[[{"act":"q","zz":1}]],"sinks":[]} => callers/0/0/act Input
{"version":1,"nodes":[{"name":"q","kind":"queue"}],"edges":[],"callers":[[{"act":"r"}]],"sinks":[]} => callers/0/0/act Node
{"version":1,"nodes":[{"name":"q","kind":"queue"}],"edges":[],"callers":[[{"act":"q","wait":true}]],"sinks":[]} => callers/0/0/act Input
{"version":1,"nodes":[{"name":"q","kind":"queue"}],"edges":[{"from":"q","to":1,"out":"x"}],"callers":[],"sinks":[]} => edges/0/out Whole
{"version":1,"nodes":[{"name":"q","kind":"queue"}],"edges":[{"from":1,"to":1,"out":"x"}],"callers":[],"sinks":[]} => edges/0/from Node
{"version":1,"nodes":[{"name":"q","kind":"queue"}],"edges":[{"from":"q","to":1,"port":"x"}],"callers":[],"sinks":[]} => edges/0/to Node
{"version":1,"nodes":[{"name":"q","kind":"queue"},{"name":"r","kind":"queue"}],"edges":[{"from":"q","to":"r","port":"x","aa":1}],"callers":[],"sinks":[]} => edges/0/port Whole
{"version":1,"nodes":[{"name":"q","kind":"queue"},{"name":"r","kind":"queue"}],"edges":[{"from":"q","to":"r","zz":1,"aa":1}],"callers":[],"sinks":[]} => edges/0/aa Known
{"version":1,"nodes":[1],"edges":5} => nodes/0 Object
{"version":1,"nodes":[],"edges":[1],"callers":5} => edges/0 Object
{"version":1,"nodes":[],"edges":[],"callers":[1],"sinks":5} => callers/0 List
{"version":1,"nodes":[],"edges":[],"callers":[],"sinks":[1],"a":1} => sinks/0 Node
{"version":0,"nodes":5,"a":1} => version Version
{"version":1,"nodes":[{"name":"q","kind":"queue"}],"edges":[],"callers":[],"sinks":["q","q"]} => read
{"version":1,"nodes":[{"name":"q","kind":"queue"}],"edges":[],"callers":[],"sinks":["q","r"]} => sinks/1 Node
{"version":1,"nodes":[{"name":"q","kind":"queue"},{"name":"r","kind":"queue"}],"edges":[{"from":"q","out":1,"to":"r","port":1}],"callers":[],"sinks":[]} => shape G7 0
{"version":1,"nodes":[{"name":"q","kind":"queue"},{"name":"r","kind":"queue"}],"edges":[{"from":"q","to":"r","port":1},{"from":"q","out":1,"to":"r"}],"callers":[],"sinks":[]} => shape G7 1"#;

/// Numbers at their ends.
const NUMBERS: &str =
    r#"{"version":1,"nodes":[{"name":"q","kind":"queue"}],"edges":[],"callers":[[{"put":"q","val":-0}]],"sinks":[]} => callers/0/0/val Value
{"version":1,"nodes":[{"name":"q","kind":"queue"}],"edges":[],"callers":[[{"put":"q","val":1e309}]],"sinks":[]} => syntax
{"version":1,"nodes":[{"name":"q","kind":"queue"}],"edges":[],"callers":[[{"put":"q","val":1e3}]],"sinks":[]} => callers/0/0/val Value
{"version":1,"nodes":[{"name":"q","kind":"queue"}],"edges":[],"callers":[[{"put":"q","val":9223372036854775807}]],"sinks":[]} => read
{"version":1,"nodes":[{"name":"q","kind":"queue"}],"edges":[],"callers":[[{"put":"q","val":-9223372036854775808}]],"sinks":[]} => read
{"version":1,"nodes":[{"name":"q","kind":"queue"}],"edges":[],"callers":[[{"put":"q","val":-9223372036854775809}]],"sinks":[]} => callers/0/0/val Value
{"version":1,"nodes":[{"name":"q","kind":"queue"}],"edges":[],"callers":[[{"put":"q","tag":18446744073709551615,"val":0}]],"sinks":[]} => read
{"version":1,"nodes":[{"name":"q","kind":"queue"}],"edges":[],"callers":[[{"put":"q","tag":-0,"val":0}]],"sinks":[]} => callers/0/0/tag Tag
{"version":1,"nodes":[{"name":"q","kind":"queue"}],"edges":[],"callers":[[{"put":"q","port":4294967295,"val":0}]],"sinks":[]} => callers/0/0/port Caller
{"version":1,"nodes":[{"name":"q","kind":"queue"},{"name":"r","kind":"queue"}],"edges":[{"from":"q","out":4294967295,"to":"r"}],"callers":[],"sinks":[]} => shape G7 0
{"version":1,"nodes":[{"name":"q","kind":"queue"},{"name":"r","kind":"queue"}],"edges":[{"from":"q","to":"r","port":4294967295}],"callers":[],"sinks":[]} => shape G8 0"#;

/// JSON texts as such.
const TEXTS: &str =
    r#"{"version":1,"nodes":[{"name":"q","kind":"queue"}],"edges":[],"callers":[[{"put":"q","val":5,"val":null}]],"sinks":[]} => callers/0/0/val Value
{"version":1,"nodes":[{"name":"q","kind":"queue"}],"edges":[],"callers":[[{"put":"q","val":null,"val":5}]],"sinks":[]} => read
{"version":1,"nodes":[{"name":"q","kind":"queue"}],"edges":[],"callers":[[{"put":"q","val":"\udc00"}]],"sinks":[]} => syntax
{"version":1,"nodes":[{"name":"q","kind":"queue"}],"edges":[],"callers":[[{"put":"q","val":"\ud800"}]],"sinks":[]} => syntax
{"version":1,"nodes":[{"name":"q","kind":"queue"}],"edges":[],"callers":[[{"put":"q","val":"\ud83d\ude00"}]],"sinks":[]} => read
{"version":1,"nodes":[{"name":"q","kind":"queue"}],"edges":[],"callers":[[{"put":"q","val":"\/\u00Ff"}]],"sinks":[]} => read
{"version":1,"nodes":[{"name":"q","kind":"queue"}],"edges":[],"callers":[[{"put":"q","val":true}]],"sinks":[]} => callers/0/0/val Value
{"version":1,"nodes":[],"edges":[],"callers":[],"sinks":[]}{} => syntax
{"version":1,"nodes":[],"edges":[],"callers":[],"sinks":[]} x => syntax
[1,] => syntax
01 => syntax
null => . Object"#;

/// Space before and after a text that JSON has, and that it lacks.
const SPACES: &str =
    "\u{c}{\"version\":1,\"nodes\":[],\"edges\":[],\"callers\":[],\"sinks\":[]} => syntax
\t{\"version\":1,\"nodes\":[],\"edges\":[],\"callers\":[],\"sinks\":[]}\t => read
\u{feff}{\"version\":1,\"nodes\":[],\"edges\":[],\"callers\":[],\"sinks\":[]} => syntax";

/// What a version has.
const VERSIONS: &str =
    r#"{"version":3,"nodes":[{"name":"n","kind":"broadcast"}],"edges":[],"callers":[],"sinks":[]} => nodes/0/kind Kind
{"version":3,"nodes":[{"name":"n","kind":"continue","body":"add"}],"edges":[],"callers":[],"sinks":[]} => nodes/0/kind Kind
{"version":3,"nodes":[{"name":"n","kind":"split","outs":1}],"edges":[],"callers":[],"sinks":[]} => nodes/0/kind Kind
{"version":4,"nodes":[{"name":"n","kind":"broadcast"}],"edges":[],"callers":[],"sinks":[]} => read
{"version":4,"nodes":[{"name":"n","kind":"continue","body":"add"}],"edges":[],"callers":[],"sinks":[]} => read
{"version":4,"nodes":[{"name":"n","kind":"split","outs":1}],"edges":[],"callers":[],"sinks":[]} => read
{"version":4,"nodes":[{"name":"n","kind":"split"}],"edges":[],"callers":[],"sinks":[]} => nodes/0/outs Whole
{"version":3,"nodes":[{"name":"n","kind":"queue","capacity":3}],"edges":[],"callers":[],"sinks":[]} => read
{"version":4,"nodes":[{"name":"n","kind":"buffer","capacity":3}],"edges":[],"callers":[],"sinks":[]} => read
{"version":2,"nodes":[{"name":"n","kind":"priority","capacity":3}],"edges":[],"callers":[],"sinks":[]} => nodes/0/capacity Known
{"version":1,"nodes":[{"name":"n","kind":"queue","capacity":3}],"edges":[],"callers":[],"sinks":[]} => nodes/0/capacity Known
{"version":3,"nodes":[],"edges":[],"callers":[[{"cancel":true,"wait":true}]],"sinks":[]} => callers/0/0/cancel Known
{"version":2,"nodes":[],"edges":[],"callers":[[{"cancel":true}]],"sinks":[]} => callers/0/0 Step
{"version":4,"nodes":[],"edges":[],"callers":[[{"cancel":true}]],"sinks":[]} => read
{"version":3,"nodes":[],"edges":[],"callers":[[{"cancel":1}]],"sinks":[]} => callers/0/0/cancel Step
{"version":2,"nodes":[{"name":"n","kind":"queue","capacity":0},{"name":"r","kind":"queue"}],"edges":[{"from":"n","to":"n"}],"callers":[],"sinks":[]} => shape G9 0"#;

/// Members of each kind, and their order.
const KINDS: &str =
    r#"{"version":1,"nodes":[{"name":"n","kind":"join","policy":"rejecting","ports":"x"}],"edges":[],"callers":[],"sinks":[]} => nodes/0/policy Policy
{"version":1,"nodes":[{"name":"n","kind":"join","policy":"key","ports":"x","aa":1}],"edges":[],"callers":[],"sinks":[]} => nodes/0/ports Whole
{"version":1,"nodes":[{"name":"n","kind":"limiter","threshold":-1,"decrement":null}],"edges":[],"callers":[],"sinks":[]} => nodes/0/threshold Whole
{"version":1,"nodes":[{"name":"n","kind":"limiter","threshold":1,"decrement":null}],"edges":[],"callers":[],"sinks":[]} => nodes/0/decrement Decrement
{"version":1,"nodes":[{"name":"n","kind":"limiter","threshold":1,"decrement":"value"}],"edges":[],"callers":[],"sinks":[]} => read
{"version":1,"nodes":[{"name":"n","kind":"function","policy":1,"limit":"x","body":"add"}],"edges":[],"callers":[],"sinks":[]} => nodes/0/policy Policy
{"version":1,"nodes":[{"name":"n","kind":"function","limit":"x","body":1}],"edges":[],"callers":[],"sinks":[]} => nodes/0/limit Whole
{"version":1,"nodes":[{"name":"n","kind":"function","body":1,"arg":null}],"edges":[],"callers":[],"sinks":[]} => nodes/0/body Body
{"version":1,"nodes":[{"name":"n","kind":"function","body":"add","arg":null,"aa":1}],"edges":[],"callers":[],"sinks":[]} => nodes/0/arg Value
{"version":1,"nodes":[{"name":"n","kind":"multifunction","body":"add","arg":null,"outs":"x"}],"edges":[],"callers":[],"sinks":[]} => nodes/0/arg Value
{"version":1,"nodes":[{"name":"n","kind":"multifunction","body":"add"}],"edges":[],"callers":[],"sinks":[]} => nodes/0/outs Whole
{"version":1,"nodes":[{"name":"n","kind":"async","body":"add"}],"edges":[],"callers":[],"sinks":[]} => nodes/0/body Known
{"version":1,"nodes":[{"name":"n","kind":"input","body":"add","limit":1}],"edges":[],"callers":[],"sinks":[]} => nodes/0/limit Known
{"version":1,"nodes":[{"name":"n","kind":"priority","ports":1}],"edges":[],"callers":[],"sinks":[]} => nodes/0/ports Known
{"version":1,"nodes":[{"name":"n","kind":"limiter","threshold":1000000}],"edges":[],"callers":[],"sinks":[]} => read
{"version":1,"nodes":[{"name":"n","kind":"limiter","threshold":1000001}],"edges":[],"callers":[],"sinks":[]} => shape G5 0
{"version":1,"nodes":[{"name":"n","kind":"async","limit":1000000}],"edges":[],"callers":[],"sinks":[]} => read
{"version":1,"nodes":[{"name":"n","kind":"overwrite"}],"edges":[],"callers":[],"sinks":["n"]} => read
{"version":1,"nodes":[{"name":"n","kind":"write_once"}],"edges":[],"callers":[],"sinks":["n"]} => read
{"version":1,"nodes":[{"name":"n","kind":"limiter","threshold":1}],"edges":[],"callers":[],"sinks":["n"]} => sinks/0 Sink
{"version":1,"nodes":[{"name":"n","kind":"limiter","threshold":1}],"edges":[],"callers":[[{"put":"n","port":1,"val":1}]],"sinks":[]} => read
{"version":1,"nodes":[{"name":"n","kind":"limiter","threshold":1}],"edges":[],"callers":[[{"put":"n","val":1}]],"sinks":[]} => callers/0/0/port Caller
{"version":1,"nodes":[{"name":"n","kind":"join","policy":"reserving","ports":1}],"edges":[],"callers":[[{"put":"n","val":1}]],"sinks":[]} => callers/0/0/port Caller"#;

/// Reads each line's document, and compares with what it has after it.
fn answers(rt: &(impl Abort + AllocGlobal), offered: Offered, lines: &str) {
    for line in lines.split('\n') {
        refuses(rt, offered, line);
    }
}

#[test]
fn reads_documents_of_queues(rt: HostRuntime) {
    answers(&rt, QUEUES, NAMES);
    answers(&rt, QUEUES, ORDERS);
    answers(&rt, QUEUES, NUMBERS);
    answers(&rt, QUEUES, TEXTS);
    answers(&rt, QUEUES, SPACES);
}

#[test]
fn reads_documents_of_all_kinds(rt: HostRuntime) {
    answers(&rt, WHOLE, VERSIONS);
    answers(&rt, WHOLE, KINDS);
}

/// A text so many times.
fn times(rt: &(impl Abort + AllocGlobal), text: &str, count: u32) -> String {
    let mut all = String::new(rt.alloc());
    for _ in 0..count {
        all.push_str(text).expect(rt, "memory");
    }
    all
}

/// A list with so many equal members, without its brackets.
fn members(rt: &(impl Abort + AllocGlobal), member: &str, count: u32) -> String {
    let mut all = String::new(rt.alloc());
    for place in 0..count {
        all.push_str(if place > 0 { "," } else { "" })
            .expect(rt, "memory");
        all.push_str(member).expect(rt, "memory");
    }
    all
}

/// Reads a text as a document of queues.
fn is_read(rt: &(impl Abort + AllocGlobal), text: &str, expected: &str) {
    let words = answer(rt, text.as_bytes(), QUEUES);
    same(rt, words.as_str(), expected);
}

/// Reads a put of a value to a queue.
fn put_is_read(rt: &(impl Abort + AllocGlobal), value: &str, expected: &str) {
    let text = format!(in rt.alloc();
        r#"{{"version":1,"nodes":[{{"name":"q","kind":"queue"}}],"edges":[],"callers":[[{{"put":"q","val":{value}}}]],"sinks":[]}}"#
    ).expect(rt, "memory");
    is_read(rt, text.as_str(), expected);
}

/// Reads a put of a list of so many zeros.
fn zeros(rt: &(impl Abort + AllocGlobal), count: u32, expected: &str) {
    let zeros = members(rt, "0", count);
    let list = format!(in rt.alloc(); "[{zeros}]").expect(rt, "memory");
    put_is_read(rt, list.as_str(), expected);
}

/// Reads a put of a text of so many equal letters.
fn letters(rt: &(impl Abort + AllocGlobal), letter: &str, count: u32, expected: &str) {
    let letters = times(rt, letter, count);
    let text = format!(in rt.alloc(); "\"{letters}\"").expect(rt, "memory");
    put_is_read(rt, text.as_str(), expected);
}

/// So many lists, each in the one before.
fn nested(rt: &(impl Abort + AllocGlobal), depth: u32) -> String {
    let open = times(rt, "[", depth);
    let closed = times(rt, "]", depth);
    format!(in rt.alloc(); "{open}{closed}").expect(rt, "memory")
}

/// Reads a put of nested lists.
fn put_of_nested(rt: &(impl Abort + AllocGlobal), depth: u32, expected: &str) {
    let lists = nested(rt, depth);
    put_is_read(rt, lists.as_str(), expected);
}

/// What is said of a value that is none.
const NO_VALUE: &str = "callers/0/0/val Value";

#[test]
fn limits_of_values(rt: HostRuntime) {
    zeros(&rt, 4_095, "read");
    zeros(&rt, 4_096, NO_VALUE);
    letters(&rt, "a", 4_096, "read");
    letters(&rt, "a", 4_097, NO_VALUE);
    letters(&rt, "\u{e9}", 2_048, "read");
    letters(&rt, "\u{e9}", 2_049, NO_VALUE);
    put_of_nested(&rt, 32, "read");
    put_of_nested(&rt, 33, NO_VALUE);
}

/// So many queues with names of their own, without the brackets of their list.
fn queues(rt: &(impl Abort + AllocGlobal), nodes: u32) -> String {
    let mut queues = String::new(rt.alloc());
    for node in 0..nodes {
        let comma = if node > 0 { "," } else { "" };
        let queue = format!(in rt.alloc(); r#"{comma}{{"name":"n{node}","kind":"queue"}}"#).expect(
            rt, "memory",
        );
        queues.push_str(queue.as_str()).expect(rt, "memory");
    }
    queues
}

/// Reads so many queues, the first with so many edges to the second.
fn graph(rt: &(impl Abort + AllocGlobal), nodes: u32, edges: u32, expected: &str) {
    let queues = queues(rt, nodes);
    let edges = members(rt, r#"{"from":"n0","to":"n1"}"#, edges);
    let text = format!(in rt.alloc();
        r#"{{"version":1,"nodes":[{queues}],"edges":[{edges}],"callers":[],"sinks":[]}}"#
    ).expect(rt, "memory");
    is_read(rt, text.as_str(), expected);
}

/// Reads so many equal callers.
fn callers(rt: &(impl Abort + AllocGlobal), caller: &str, count: u32, expected: &str) {
    let callers = members(rt, caller, count);
    let text = format!(in rt.alloc();
        r#"{{"version":1,"nodes":[],"edges":[],"callers":[{callers}],"sinks":[]}}"#
    ).expect(rt, "memory");
    is_read(rt, text.as_str(), expected);
}

/// Reads nested lists in the place of a document.
fn lists(rt: &(impl Abort + AllocGlobal), depth: u32, expected: &str) {
    let lists = nested(rt, depth);
    is_read(rt, lists.as_str(), expected);
}

#[test]
fn limits_of_documents(rt: HostRuntime) {
    graph(&rt, 512, 0, "read");
    graph(&rt, 513, 0, "shape G1 513");
    graph(&rt, 2, 4_096, "read");
    graph(&rt, 2, 4_097, "shape G2 4097");
    callers(&rt, "[]", 64, "read");
    callers(&rt, "1", 65, "callers Callers");
    lists(&rt, 127, ". Object");
    lists(&rt, 128, "syntax");
}

/// Reads a document with an unknown member of so many letters and a last one, of which the path shows a part.
fn long_name(rt: &(impl Abort + AllocGlobal), letters: u32, last: &str, shown: &str) {
    let letters = times(rt, "a", letters);
    let text = format!(in rt.alloc();
        r#"{{"version":1,"nodes":[],"edges":[],"callers":[],"sinks":[],"{letters}{last}":1}}"#
    ).expect(rt, "memory");
    let expected = format!(in rt.alloc(); "{letters}{shown} Known").expect(rt, "memory");
    is_read(rt, text.as_str(), expected.as_str());
}

#[test]
fn cuts_a_long_path(rt: HostRuntime) {
    long_name(&rt, 4_096, "", "");
    long_name(&rt, 4_095, "\u{e9}", "");
    long_name(&rt, 4_092, "\u{1f600}", "\u{1f600}");
    long_name(&rt, 4_096, "a", "");
}

/// Reads bytes as a document of queues.
fn bytes_are_read(rt: &(impl Abort + AllocGlobal), bytes: &[u8], expected: &str) {
    let words = answer(rt, bytes, QUEUES);
    same(rt, words.as_str(), expected);
}

/// So many spaces.
fn spaces(rt: &(impl Abort + AllocGlobal), count: usize) -> Vec<u8> {
    vec![in rt.alloc(); 32u8; count].expect(rt, "memory")
}

#[test]
fn bytes_that_are_no_text(rt: HostRuntime) {
    bytes_are_read(&rt, &[34u8, 255, 34], "syntax");
    bytes_are_read(&rt, spaces(&rt, 67_108_865).as_slice(), "long");
}
