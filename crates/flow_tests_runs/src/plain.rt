// The command `plain`, and words that are no line of a command.
use crate::called::{
    broken_sink, broken_source, ends_with_code, expect, expect_rows, keeps_document, keeps_events,
    keeps_refused, number, plain, sink, source, writes,
};
use std::process::Abort;
use std::sync::Wait;
use std::test::*;
use std::thread::Threads;

const ONE_QUEUE: &str =
    r#"{"version":1,"nodes":[{"name":"q","kind":"queue"}],"edges":[],"callers":[[{"put":"q","val":5}]],"sinks":["q"]}"#;

// Of each row: a line of words, a document, the status and what is written. A row ends at `%`.
const REPORTS: &str = r#"plain
{"version":1,"nodes":[{"name":"q","kind":"queue"}],"edges":[],"callers":[[{"put":"q","val":5}]],"sinks":["q"]}
0
sinks 1
q 1
0 5
tally 1
q in 1 out 0 eaten 0 lost 0 over 0 kept 1
events 3 items 1 refused 0 status 0
%plain --journal
{"version":1,"nodes":[{"name":"q","kind":"queue"}],"edges":[],"callers":[[{"put":"q","val":5}]],"sinks":["q"]}
0
sinks 1
q 1
0 5
tally 1
q in 1 out 0 eaten 0 lost 0 over 0 kept 1
journal 3
put 0 0 0 0 accepted 0 kept 5
leave 0
idle 0
events 3 items 1 refused 0 status 0
%plain --journal
{"version":1,"nodes":[],"edges":[],"callers":[],"sinks":[]}
0
sinks 0
tally 0
journal 0
events 0 items 0 refused 0 status 0
%plain --items 0 --journal
{"version":1,"nodes":[{"name":"q","kind":"queue"}],"edges":[],"callers":[[{"put":"q","val":5}]],"sinks":["q"]}
8
sinks 1
q 0
tally 1
q in 0 out 0 eaten 0 lost 0 over 0 kept 0
journal 0
stopped put 0 0 0 0 accepted 0 kept 5
events 0 items 0 refused 0 status 8
%plain
{"version":1,"nodes":[{"name":"a","kind":"queue"},{"name":"b","kind":"queue"}],"edges":[{"from":"a","to":"b"}],"callers":[[{"put":"a","val":5}]],"sinks":["b"]}
0
sinks 1
b 1
0 5
tally 2
a in 1 out 1 eaten 0 lost 0 over 0 kept 0
b in 1 out 0 eaten 0 lost 0 over 0 kept 1
events 5 items 2 refused 0 status 0
%plain --items 1 --journal
{"version":1,"nodes":[{"name":"a","kind":"queue"},{"name":"b","kind":"queue"}],"edges":[{"from":"a","to":"b"}],"callers":[[{"put":"a","val":5}]],"sinks":["b"]}
8
sinks 1
b 0
tally 2
a in 1 out 0 eaten 0 lost 0 over 0 kept 1
b in 0 out 0 eaten 0 lost 0 over 0 kept 0
journal 2
put 0 0 0 0 accepted 0 kept 5
leave 0
stopped give 0 0 1 0 0 0 kept 0 5
events 2 items 1 refused 0 status 8
%plain --items=2 --journal
{"version":1,"nodes":[{"name":"a","kind":"queue"},{"name":"b","kind":"queue"}],"edges":[{"from":"a","to":"b"}],"callers":[[{"put":"a","val":5}]],"sinks":["b"]}
0
sinks 1
b 1
0 5
tally 2
a in 1 out 1 eaten 0 lost 0 over 0 kept 0
b in 1 out 0 eaten 0 lost 0 over 0 kept 1
journal 5
put 0 0 0 0 accepted 0 kept 5
leave 0
give 0 0 1 0 0 0 kept 0 5
idle 0
idle 1
events 5 items 2 refused 0 status 0
%plain
{"version":1,"nodes":[{"name":"q","kind":"queue"}],"edges":[],"callers":[[{"put":"q","val":[[[[[[[[[[[[[[[[[[[[[[[[[[[[[[[[]]]]]]]]]]]]]]]]]]]]]]]]]]]]]]]]}]],"sinks":["q"]}
0
sinks 1
q 1
0 [[[[[[[[[[[[[[[[[[[[[[[[[[[[[[[[]]]]]]]]]]]]]]]]]]]]]]]]]]]]]]]]
tally 1
q in 1 out 0 eaten 0 lost 0 over 0 kept 1
events 3 items 1 refused 0 status 0
"#;

// Documents that are refused.
const REFUSED: &str = r#"plain

5
error 5 syntax
%plain
{"version":1,"nodes":[{"name":"q
5
error 5 syntax
%plain
[[[[[[[[[[[[[[[[[[[[[[[[[[[[[[[[[[[[[[[[[[[[[[[[[[[[[[[[[[[[[[[[[[[[[[[[[[[[[[[[[[[[[[[[[[[[[[[[[[[[[[[[[[[[[[[[[[[[[[[[[[[[[[[[]]]]]]]]]]]]]]]]]]]]]]]]]]]]]]]]]]]]]]]]]]]]]]]]]]]]]]]]]]]]]]]]]]]]]]]]]]]]]]]]]]]]]]]]]]]]]]]]]]]]]]]]]]]]]]]]]]]]]]]]]]]]]]]]
5
error 5 syntax
%plain
[[[[[[[[[[[[[[[[[[[[[[[[[[[[[[[[[[[[[[[[[[[[[[[[[[[[[[[[[[[[[[[[[[[[[[[[[[[[[[[[[[[[[[[[[[[[[[[[[[[[[[[[[[[[[[[[[[[[[[[[[[[[[[[]]]]]]]]]]]]]]]]]]]]]]]]]]]]]]]]]]]]]]]]]]]]]]]]]]]]]]]]]]]]]]]]]]]]]]]]]]]]]]]]]]]]]]]]]]]]]]]]]]]]]]]]]]]]]]]]]]]]]]]]]]]]]]]
6
error 6 . object
%plain
{"version":1,"nodes":[{"name":"q","kind":"queue"}],"edges":[],"callers":[[{"put":"q","val":1.5}]],"sinks":["q"]}
6
error 6 callers/0/0/val value
%plain
{"version":1}
6
error 6 nodes list
%plain
{"version":9,"nodes":[{"name":"q","kind":"queue"}],"edges":[],"callers":[[{"put":"q","val":5}]],"sinks":["q"]}
6
error 6 version version
%plain
{"version":1,"nodes":[{"name":"q","kind":"queue","colour":1}],"edges":[],"callers":[[{"put":"q","val":5}]],"sinks":["q"]}
6
error 6 nodes/0/colour known
%plain
{"version":1,"nodes":[{"name":"q","kind":"queue"},{"name":"q","kind":"queue"}],"edges":[],"callers":[[{"put":"q","val":5}]],"sinks":["q"]}
6
error 6 nodes/1/name new
%plain
[]
6
error 6 . object
%plain
{"version":1,"nodes":[{"name":"q","kind":"queue","capacity":2}],"edges":[],"callers":[[{"put":"q","val":1},{"put":"q","tag":1,"val":2},{"put":"q","tag":2,"val":3}]],"sinks":["q"]}
6
error 6 nodes/0/capacity known
%plain
{"version":1,"nodes":[{"name":"q","kind":"queue"}],"edges":[{"from":"q","to":"q"}],"callers":[],"sinks":[]}
7
error 7 G9 edge 0
%plain
{"version":1,"nodes":[{"name":"a","kind":"queue"},{"name":"b","kind":"queue"}],"edges":[{"from":"a","out":1,"to":"b"}],"callers":[],"sinks":[]}
7
error 7 G7 edge 0
"#;

// Words that are no line of a command, on each line.
const WORDS: &str = r#"check now
gen 0
gen 90001
gen --text 5 --text
gen 5 6
gen
plain --help
-h
plain --items
plain --items x
plain --items 2000001
plain --items 5 --items 5
plain --journal --journal
run --live 0

run --workers 0
replay --workers 0
replay --workers 129
plain now
run --live 101
run --workers 65
walk
plain --workers 2
plain --journal=true
plain --items= 
plain --items=-0
plain -- x
plain --item 5
Plain
plain plain
plain --items 5 --journal --items=5"#;

fn expect_refused(rt: &(impl Threads + Wait + Abort + AllocGlobal + Sync), lines: &str) {
    for line in lines.split('\n') {
        expect(rt, line, ONE_QUEUE, 1, "error 1 words\n", line);
    }
}

#[test]
fn lines_and_documents(rt: HostRuntime) {
    expect_rows(&rt, REPORTS);
    expect_rows(&rt, REFUSED);
    expect_refused(&rt, WORDS);
}

#[test]
fn a_source_that_fails(rt: HostRuntime) {
    let left = plain(&rt, "plain", broken_source(&rt, ONE_QUEUE), sink(&rt));
    ends_with_code(&rt, &left, 2, "plain");
    writes(&rt, &left, "error 2 read\n", "plain");
    keeps_document(&rt, &left, false);
    keeps_events(&rt, &left, 0);
}

#[test]
fn a_sink_that_fails(rt: HostRuntime) {
    let left = plain(&rt, "plain", source(&rt, ONE_QUEUE), broken_sink(&rt));
    ends_with_code(&rt, &left, 3, "plain");
    writes(&rt, &left, "sinks 1\n", "plain");
    keeps_events(&rt, &left, 3);
}

#[test]
fn what_is_kept(rt: HostRuntime) {
    let left = plain(&rt, "plain --items 0", source(&rt, ONE_QUEUE), sink(&rt));
    ends_with_code(&rt, &left, 8, "plain --items 0");
    keeps_document(&rt, &left, true);
    keeps_refused(&rt, &left, true);
    keeps_events(&rt, &left, 0);
    number(&rt, left.source.at as u64, left.source.bytes.len() as u64);
}
