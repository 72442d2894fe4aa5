use crate::told::{is, parted, same};
use crate::values::text;
use flow_body::{Add, Body, Echo, Named, Shelf};
use flow_doc::{Doc, DocFault, Offered, QUEUES, STORES, WHOLE};
use flow_read::read_doc;
use std::process::Abort;

fn named(rt: &(impl Abort + AllocGlobal), name: &str, body: Box<dyn Body + Send + Sync>) -> Named {
    Named {
        name: text(rt, name),
        body,
    }
}

/// What bytes are read as, with a shelf of the bodies `add` and `echo`.
fn read(rt: &(impl Abort + AllocGlobal), bytes: &[u8], offered: Offered) -> Result<Doc, DocFault> {
    let alloc = rt.alloc();
    let add = named(rt, "add", Box::new(alloc, Add).expect(rt, "memory"));
    let echo = named(rt, "echo", Box::new(alloc, Echo).expect(rt, "memory"));
    let bodies = vec![in alloc; add, echo].expect(rt, "memory");
    let shelf = Shelf::new(alloc, bodies).ok().expect(rt, "memory");
    read_doc(alloc, bytes, &shelf, offered)
}

/// A fault in words.
fn words(rt: &(impl Abort + AllocGlobal), fault: &DocFault) -> String {
    let alloc = rt.alloc();
    let words = match fault {
        DocFault::TooLong => String::from_str(alloc, "long"),
        DocFault::Syntax => String::from_str(alloc, "syntax"),
        DocFault::Place { path, want } => format!(in alloc; "{} {:?}", path.as_str(), *want),
        DocFault::Shape(fault) => format!(in alloc; "shape {:?} {}", fault.rule, fault.at),
        DocFault::Memory => String::from_str(alloc, "memory"),
    };
    words.expect(rt, "memory")
}

/// The fault of bytes in words, or `read`.
pub(crate) fn answer(rt: &(impl Abort + AllocGlobal), bytes: &[u8], offered: Offered) -> String {
    match read(rt, bytes, offered) {
        Ok(_) => String::from_str(rt.alloc(), "read").expect(rt, "memory"),
        Err(fault) => words(rt, &fault),
    }
}

/// Reads the document that a line begins with, and compares with what the line has after it.
pub(crate) fn refuses(rt: &(impl Abort + AllocGlobal), offered: Offered, line: &str) {
    let (doc, fault) = parted(rt, line, " => ");
    let words = answer(rt, doc.as_bytes(), offered);
    same(rt, words.as_str(), fault);
}

const BASE: &str =
    "{\"version\":1,\"nodes\":[{\"name\":\"q\",\"kind\":\"queue\"},{\"name\":\"f\",\"kind\":\"function\",\"policy\":\"queueing\",\"body\":\"add\"},{\"name\":\"j\",\"kind\":\"join\",\"policy\":\"key\",\"ports\":2},{\"name\":\"l\",\"kind\":\"limiter\",\"threshold\":1},{\"name\":\"i\",\"kind\":\"input\",\"body\":\"echo\"}],\"edges\":[{\"from\":\"q\",\"to\":\"f\"},{\"from\":\"f\",\"to\":\"j\"}],\"callers\":[[{\"put\":\"q\",\"val\":5},{\"act\":\"i\"},{\"wait\":true}]],\"sinks\":[\"q\"]}";

// A change of one place of it in each line, and the fault there.
const CHANGES: &str = r#"t":"i => t":"q => callers/0/1/act Input
t":"i => t":"nobody => callers/0/1/act Node
dd" => dd","arg":true => nodes/1/arg Value
,"body":"add" =>  => nodes/1/body Body
dd => dds => nodes/1/body Body
[[{"put":"q","val":5},{"act":"i"},{"wait":true}]] => 5 => callers List
wait => cancel => callers/0/2 Step
1,"nodes":[{"name":"q","kind":"queue => 2,"nodes":[{"name":"q","kind":"queue","capacity":"2 => nodes/0/capacity Whole
d":1 => d":1,"decrement":"two" => nodes/3/decrement Decrement
from":"q"," =>  => edges/0/from Node
{"from":"f","to":"j"} => [] => edges/1 Object
o":"f" => o":"f","out":-1 => edges/0/out Whole
o":"f" => o":"f","port":"0" => edges/0/port Whole
o":"f => o":"nobody => edges/0/to Node
licy":"key","po =>  => nodes/2/policy Policy
,"kind":"queue" =>  => nodes/0/kind Kind
d":"queu => d":"pip => nodes/0/kind Kind
dd" => dd","zoo":1,"ants":2 => nodes/1/ants Known
dd" => dd","limit":null => nodes/1/limit Whole
dd" => dd","limit":4294967296 => nodes/1/limit Whole
dd" => dd","limit":1.0 => nodes/1/limit Whole
e":"q => e":" => nodes/0/name Name
name":"q"," =>  => nodes/0/name Name
e":"q => e":"xxxxxxxxxxxxxxxxxxxxxxxxxxxxxxxxxxxxxxxxxxxxxxxxxxxxxxxxxxxxxxxxx => nodes/0/name Name
e":"f => e":"q => nodes/1/name New
e":"q => e":"é => nodes/0/name Name
e":"q => e":"q\n => nodes/0/name Name
e":"q => e":"a b => nodes/0/name Name
{"name":"q","kind":"queue"} => 7 => nodes/0 Object
dd" => dd","outs":1 => nodes/1/outs Known
queueing => key => nodes/1/policy Policy
,"ports":2 =>  => nodes/2/ports Whole
5 => 5,"port":1 => callers/0/0/port Caller
5 => 5,"port":4294967296 => callers/0/0/port Whole
t":"q => t":"i => callers/0/0/port Caller
t":"q => t":"l => callers/0/0/port Caller
t":"q => t":"nobody => callers/0/0/put Node
5 => 5,"wait":true => callers/0/0/wait Known
[{"put":"q","val":5},{"act":"i"},{"wait":true}] => {} => callers/0 List
["q" => ["q","f" => sinks/1 Sink
["q" => [5 => sinks/0 Node
,"sinks":["q"] =>  => sinks List
queue" => split","outs":1 => nodes/0/kind Kind
{"put":"q","val":5} => 5 => callers/0/0 Step
"put":"q","val":5 =>  => callers/0/0 Step
5 => 5,"tag":-1 => callers/0/0/tag Tag
5 => 5,"tag":18446744073709551616 => callers/0/0/tag Tag
,"threshold":1 =>  => nodes/3/threshold Whole
"] => "],"extra":1 => extra Known
"] => "],"x/yé":1 => x/yé Known
,"val":5 =>  => callers/0/0/val Value
5 => [1,null] => callers/0/0/val Value
n":1 => n":0 => version Version
n":1 => n":5 => version Version
n": => n":- => version Version
n":1 => n":"1" => version Version
version":1," =>  => version Version
tru => fals => callers/0/2/wait Step"#;

// A document in each line, and its fault.
const REFUSED: &str = r#"{"version":1,"nodes":[{"name":"q => syntax
{"version":1,"nodes":[{"name":"q","kind":"queue"}],"edges":[{"from":"q","to":"q"}],"callers":[],"sinks":[]} => shape G9 0
 => syntax
{"version":1,"nodes":[{"name":"q","kind":"queue"}],"edges":[],"callers":[[{"put":"q","val":1.5}]],"sinks":["q"]} => callers/0/0/val Value
{"version":1} => nodes List
{"version":1,"nodes":[{"name":"q","kind":"queue"}],"edges":[],"callers":[[{"put":"q","val":9223372036854775808}]],"sinks":["q"]} => callers/0/0/val Value
{"version":1,"nodes":[{"name":"q","kind":"queue"},{"name":"q","kind":"queue"}],"edges":[],"callers":[[{"put":"q","val":5}]],"sinks":["q"]} => nodes/1/name New
{"version":1,"nodes":[{"name":"m","kind":"multifunction","policy":"queueing","outs":0,"body":"echo"}],"edges":[],"callers":[],"sinks":[]} => shape G3 0
{"version":1,"nodes":[{"name":"a","kind":"queue"},{"name":"j","kind":"join","policy":"key","ports":9}],"edges":[],"callers":[],"sinks":[]} => shape G3 1
{"version":1,"nodes":[{"name":"o","kind":"overwrite"},{"name":"w","kind":"write_once"},{"name":"j","kind":"join","policy":"reserving","ports":2}],"edges":[{"from":"o","to":"j"},{"from":"w","to":"j","port":1}],"callers":[],"sinks":[]} => shape G12 2
{"version":2,"nodes":[{"name":"q","kind":"buffer","capacity":1000001}],"edges":[],"callers":[],"sinks":[]} => shape G13 0
{"version":1,"nodes":[{"name":"a","kind":"queue"},{"name":"i","kind":"input","body":"echo"}],"edges":[{"from":"a","to":"i"}],"callers":[],"sinks":[]} => shape G8 0
{"version":1,"nodes":[{"name":"f","kind":"function","policy":"queueing","limit":0,"body":"echo"}],"edges":[],"callers":[],"sinks":[]} => shape G4 0
{"version":1,"nodes":[{"name":"a","kind":"async","limit":1000001}],"edges":[],"callers":[],"sinks":[]} => shape G4 0
{"version":1,"nodes":[{"name":"l","kind":"limiter","threshold":1},{"name":"j","kind":"join","policy":"reserving","ports":1}],"edges":[{"from":"l","to":"j"}],"callers":[],"sinks":[]} => shape G10 0
{"version":1,"nodes":[{"name":"a","kind":"queue"},{"name":"b","kind":"queue"}],"edges":[{"from":"a","to":"b"},{"from":"a","to":"b","port":1}],"callers":[],"sinks":[]} => shape G8 1
{"version":1,"nodes":[{"name":"a","kind":"queue"},{"name":"b","kind":"queue"}],"edges":[{"from":"a","out":1,"to":"b"}],"callers":[],"sinks":[]} => shape G7 0
{"version":1,"nodes":[{"name":"k","kind":"join","policy":"reserving","ports":1},{"name":"j","kind":"join","policy":"reserving","ports":1}],"edges":[{"from":"k","to":"j"}],"callers":[],"sinks":[]} => shape G10 0
{"version":1,"nodes":[{"name":"k","kind":"join","policy":"reserving","ports":1},{"name":"j","kind":"limiter","threshold":1}],"edges":[{"from":"k","to":"j"}],"callers":[],"sinks":[]} => shape G11 0
{"version":4,"nodes":[{"name":"m","kind":"split","outs":9}],"edges":[],"callers":[],"sinks":[]} => shape G3 0
{"version":1,"nodes":[{"name":"l","kind":"limiter","threshold":0}],"edges":[],"callers":[],"sinks":[]} => shape G5 0
[] => . Object
{"version":1,"nodes":[{"name":"q","kind":"queue","colour":1}],"edges":[],"callers":[[{"put":"q","val":5}]],"sinks":["q"]} => nodes/0/colour Known
{"version":9,"nodes":[{"name":"q","kind":"queue"}],"edges":[],"callers":[[{"put":"q","val":5}]],"sinks":["q"]} => version Version
{"version":1,"nodes":[{"name":"q","kind":"queue"},{"name":"f","kind":"function","policy":"queueing","body":"add"},{"name":"j","kind":"join","policy":"key","ports":2},{"name":"l","kind":"limiter","threshold":1},{"name":"i","kind":"input","body":"echo"}],"edges":[{"from":"q","to":"f"},{"from":"f","to":"j"}],"callers":[[],[],[],[],[],[],[],[],[],[],[],[],[],[],[],[],[],[],[],[],[],[],[],[],[],[],[],[],[],[],[],[],[],[],[],[],[],[],[],[],[],[],[],[],[],[],[],[],[],[],[],[],[],[],[],[],[],[],[],[],[],[],[],[],[]],"sinks":["q"]} => callers Callers
{"version":1,"nodes":{},"edges":[{"from":"q","to":"f"},{"from":"f","to":"j"}],"callers":[[{"put":"q","val":5},{"act":"i"},{"wait":true}]],"sinks":["q"]} => nodes List
{"version":1,"edges":[{"from":"q","to":"f"},{"from":"f","to":"j"}],"callers":[[{"put":"q","val":5},{"act":"i"},{"wait":true}]],"sinks":["q"]} => nodes List"#;

/// A document's version, its names, nodes, edges and scripts, the steps of the first script, and the sinks.
fn counted(rt: &impl Abort, doc: &Doc) -> [usize; 7] {
    let steps = doc.scripts.get(0).expect(rt, "a script").len();
    [
        doc.version as usize,
        doc.names.len(),
        doc.shape.nodes.len(),
        doc.shape.edges.len(),
        doc.scripts.len(),
        steps,
        doc.sinks.len(),
    ]
}

fn counts(rt: &(impl Abort + AllocGlobal), json: &str) -> [usize; 7] {
    let doc = read(rt, json.as_bytes(), WHOLE)
        .ok()
        .expect(rt, "a document");
    counted(rt, &doc)
}

#[test]
fn reads_a_document(rt: HostRuntime) {
    is(&rt, counts(&rt, BASE) == [1, 5, 5, 2, 1, 3, 1]);
}

/// The base with the change of one place.
fn changed(rt: &(impl Abort + AllocGlobal), old: &str, new: &str) -> String {
    let (front, back) = parted(rt, BASE, old);
    format!(in rt.alloc(); "{front}{new}{back}").expect(rt, "memory")
}

/// Reads the base with the change of a line, and compares with the fault that the line has after it.
fn breaks(rt: &(impl Abort + AllocGlobal), line: &str) {
    let (old, change) = parted(rt, line, " => ");
    let (new, fault) = parted(rt, change, " => ");
    let doc = changed(rt, old, new);
    let words = answer(rt, doc.as_bytes(), WHOLE);
    same(rt, words.as_str(), fault);
}

#[test]
fn refuses_what_a_change_breaks(rt: HostRuntime) {
    for line in CHANGES.split('\n') {
        breaks(&rt, line);
    }
}

#[test]
fn refuses_documents(rt: HostRuntime) {
    for line in REFUSED.split('\n') {
        refuses(&rt, WHOLE, line);
    }
}

// The words of a later stage aren't listed yet.
const LATER: &str =
    r#"{"version":2,"nodes":[],"edges":[],"callers":[],"sinks":[]} => version Version
{"version":1,"nodes":[{"name":"q","kind":"buffer"}],"edges":[],"callers":[],"sinks":[]} => nodes/0/kind Kind
{"version":1,"nodes":[{"name":"q","kind":"function","body":"add"}],"edges":[],"callers":[],"sinks":[]} => nodes/0/kind Kind
{"version":1,"nodes":[{"name":"q","kind":"queue"}],"edges":[],"callers":[],"sinks":[]} => read"#;

/// A policy that isn't listed yet.
const REJECTING: &str =
    r#"{"version":1,"nodes":[{"name":"f","kind":"function","body":"add","policy":"rejecting"}],"edges":[],"callers":[],"sinks":[]} => nodes/0/policy Policy"#;

#[test]
fn offers_no_later_words(rt: HostRuntime) {
    for line in LATER.split('\n') {
        refuses(&rt, QUEUES, line);
    }
    refuses(&rt, STORES, REJECTING);
}
