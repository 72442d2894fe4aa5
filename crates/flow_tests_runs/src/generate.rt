// The command `gen`.
use crate::called::{expect_rows, plain, same, sink, source};
use flow_doc::Kept;
use std::process::Abort;
use std::sync::Wait;
use std::test::*;
use std::thread::Threads;

// Of each row: a line of words, a document, the status and what is written. A row ends at `%`.
const ROWS: &str = r#"gen 1

0
gen 1
lines 1
sum 2
events 28 items 11 refused 0 status 0
%gen 2

0
gen 2
lines 2
sum 6
events 46 items 22 refused 0 status 0
%gen 50

0
gen 50
lines 50
sum 2550
events 910 items 550 refused 0 status 0
%gen 5 --text

0
{"version":1,"nodes":[{"name":"src","kind":"queue"},{"name":"pre","kind":"function","limit":4,"body":"add","arg":1},{"name":"left","kind":"function","body":"mul","arg":3},{"name":"right","kind":"function","limit":1,"body":"neg"},{"name":"both","kind":"join","policy":"key","ports":2},{"name":"out","kind":"sequencer"}],"edges":[{"from":"src","to":"pre"},{"from":"pre","to":"left"},{"from":"pre","to":"right"},{"from":"left","to":"both"},{"from":"right","to":"both","port":1},{"from":"both","to":"out"}],"callers":[[{"put":"src","val":0},{"put":"src","tag":4,"val":4}],[{"put":"src","tag":1,"val":1}],[{"put":"src","tag":2,"val":2}],[{"put":"src","tag":3,"val":3}]],"sinks":["out"]}
"#;

// What is kept, with the document and the events as text.
fn shown(rt: &(impl Abort + AllocGlobal), kept: &Kept) -> String {
    format!(in rt.alloc(); "{:?} {:?}", kept.doc, kept.journal).expect(rt, "memory")
}

fn line(rt: &(impl Abort + AllocGlobal), words: &str, count: &str) -> String {
    format!(in rt.alloc(); "{words} {count}").expect(rt, "memory")
}

// What the text of a number's document leaves under `plain`.
fn left_by_text(rt: &(impl Threads + Wait + Abort + AllocGlobal + Sync), count: &str) -> String {
    let words = line(rt, "gen --text", count);
    let text = plain(rt, words.as_str(), source(rt, ""), sink(rt));
    let mut read = source(rt, "");
    let written = text.sink;
    read.bytes = written.bytes;
    let left = plain(rt, "plain", read, sink(rt));
    shown(rt, &left.kept)
}

// What the run of a number's document leaves.
fn left_by_run(rt: &(impl Threads + Wait + Abort + AllocGlobal + Sync), count: &str) -> String {
    let words = line(rt, "gen", count);
    let left = plain(rt, words.as_str(), source(rt, ""), sink(rt));
    shown(rt, &left.kept)
}

fn reads_back(rt: &(impl Threads + Wait + Abort + AllocGlobal + Sync), count: &str) {
    let text = left_by_text(rt, count);
    let run = left_by_run(rt, count);
    same(rt, text.as_str(), run.as_str());
}

#[test]
fn numbers_are_generated(rt: HostRuntime) {
    expect_rows(&rt, ROWS);
}

// The text that is printed reads back to the document that is run.
#[test]
fn texts_read_back(rt: HostRuntime) {
    for count in "1 2 3 4 5 6 7 8 9 12 25 64".split(' ') {
        reads_back(&rt, count);
    }
}
