// Documents run on threads.
use crate::called::{
    Left, begins, broken_sink, broken_source, ends, ends_with_code, expect_threaded, is,
    keeps_document, keeps_events, keeps_refused, parted, plain, refuse_rows, same, sink, source,
    threaded, writes,
};
use flow_io::MemSink;
use flow_item::{Event, Journal, Text};
use flow_print::event_line;
use flow_run::NoGate;
use std::process::Abort;
use std::sync::Wait;
use std::test::*;
use std::thread::Threads;

// The lines of each run.
const LINES: &str = "run --workers 1%run --workers 4%run --workers 64";

// Of each row: a document, the end of the last line that is written, and its sinks and tallies. Each is the same in every
// order of the threads. A row ends at `%`.
const RUNS: &str = r#"{"version":1,"nodes":[],"edges":[],"callers":[],"sinks":[]}
events 0 items 0 refused 0 status 0
sinks 0
tally 0
%{"version":1,"nodes":[{"name":"q","kind":"queue"}],"edges":[],"callers":[[{"put":"q","val":5}]],"sinks":["q"]}
 items 1 refused 0 status 0
sinks 1
q 1
0 5
tally 1
q in 1 out 0 eaten 0 lost 0 over 0 kept 1
%{"version":1,"nodes":[{"name":"a","kind":"queue"},{"name":"b","kind":"queue"}],"edges":[{"from":"a","to":"b"}],"callers":[[{"put":"a","val":5},{"wait":true},{"put":"b","tag":7,"val":6},{"wait":true},{"put":"a","tag":1,"val":7}]],"sinks":["b"]}
 items 5 refused 0 status 0
sinks 1
b 3
0 5
7 6
1 7
tally 2
a in 2 out 2 eaten 0 lost 0 over 0 kept 0
b in 3 out 0 eaten 0 lost 0 over 0 kept 3
%{"version":1,"nodes":[{"name":"f","kind":"function","policy":"queueing","limit":1,"body":"add","arg":1},{"name":"s","kind":"queue"}],"edges":[{"from":"f","to":"s"}],"callers":[[{"put":"f","val":5}]],"sinks":["s"]}
 items 3 refused 0 status 0
sinks 1
s 1
0 6
tally 2
f in 2 out 1 eaten 1 lost 0 over 0 kept 0
s in 1 out 0 eaten 0 lost 0 over 0 kept 1
%{"version":1,"nodes":[{"name":"src","kind":"queue"},{"name":"pre","kind":"function","policy":"queueing","body":"add","arg":1},{"name":"left","kind":"function","policy":"queueing","body":"mul","arg":3},{"name":"right","kind":"function","policy":"queueing","body":"neg","limit":1},{"name":"both","kind":"join","policy":"key","ports":2},{"name":"out","kind":"sequencer"}],"edges":[{"from":"src","to":"pre"},{"from":"pre","to":"left"},{"from":"pre","to":"right"},{"from":"left","to":"both"},{"from":"right","to":"both","port":1},{"from":"both","to":"out"}],"callers":[[{"put":"src","val":7},{"put":"src","tag":2,"val":"x"}],[{"put":"src","tag":1,"val":1}]],"sinks":["out"]}
 items 33 refused 0 status 0
sinks 1
out 3
0 [24,-8]
1 [6,-2]
2 ["x","x"]
tally 6
src in 3 out 3 eaten 0 lost 0 over 0 kept 0
pre in 6 out 3 eaten 3 lost 0 over 0 kept 0
left in 6 out 3 eaten 3 lost 0 over 0 kept 0
right in 6 out 3 eaten 3 lost 0 over 0 kept 0
both in 9 out 3 eaten 6 lost 0 over 0 kept 0
out in 3 out 0 eaten 0 lost 0 over 0 kept 3
%{"version":1,"nodes":[{"name":"a","kind":"queue"},{"name":"b","kind":"queue"}],"edges":[{"from":"a","to":"b"}],"callers":[[{"put":"a","val":5}]],"sinks":["b"]}
 items 2 refused 0 status 0
sinks 1
b 1
0 5
tally 2
a in 1 out 1 eaten 0 lost 0 over 0 kept 0
b in 1 out 0 eaten 0 lost 0 over 0 kept 1
%{"version":1,"nodes":[{"name":"j","kind":"join","policy":"queueing","ports":2},{"name":"s","kind":"queue"}],"edges":[{"from":"j","to":"s"}],"callers":[[{"put":"j","tag":3,"val":1},{"put":"j","port":1,"tag":8,"val":2}]],"sinks":["s"]}
 items 4 refused 0 status 0
sinks 1
s 1
3 [1,2]
tally 2
j in 3 out 1 eaten 2 lost 0 over 0 kept 0
s in 1 out 0 eaten 0 lost 0 over 0 kept 1
%{"version":1,"nodes":[{"name":"s","kind":"sequencer"},{"name":"t","kind":"queue"}],"edges":[{"from":"s","to":"t"}],"callers":[[{"put":"s","tag":2,"val":"c"},{"put":"s","val":"a"},{"put":"s","val":"x"},{"put":"s","tag":1,"val":"b"}]],"sinks":["t"]}
 items 6 refused 1 status 0
sinks 1
t 3
0 "a"
1 "b"
2 "c"
tally 2
s in 3 out 3 eaten 0 lost 0 over 0 kept 0
t in 3 out 0 eaten 0 lost 0 over 0 kept 3
%{"version":1,"nodes":[{"name":"q","kind":"queue"},{"name":"s","kind":"sequencer"},{"name":"t","kind":"queue"}],"edges":[{"from":"q","to":"s"},{"from":"s","to":"t"}],"callers":[[{"put":"q","tag":2,"val":"c"},{"put":"q","val":"a"},{"put":"q","val":"x"},{"put":"q","tag":1,"val":"b"}]],"sinks":["t"]}
 items 11 refused 0 status 0
sinks 1
t 3
0 "a"
1 "b"
2 "c"
tally 3
q in 4 out 4 eaten 0 lost 0 over 0 kept 0
s in 4 out 3 eaten 0 lost 1 over 0 kept 0
t in 3 out 0 eaten 0 lost 0 over 0 kept 3
%{"version":1,"nodes":[{"name":"p","kind":"priority"}],"edges":[],"callers":[[{"put":"p","val":3},{"put":"p","tag":1,"val":"z"},{"put":"p","tag":2,"val":3},{"put":"p","tag":3,"val":-9223372036854775808}]],"sinks":["p"]}
 items 4 refused 0 status 0
sinks 1
p 4
0 3
2 3
3 -9223372036854775808
1 "z"
tally 1
p in 4 out 0 eaten 0 lost 0 over 0 kept 4
%{"version":1,"nodes":[{"name":"j","kind":"join","policy":"key","ports":2},{"name":"s","kind":"queue"}],"edges":[{"from":"j","to":"s"}],"callers":[[{"put":"j","tag":7,"val":1},{"put":"j","tag":7,"val":2},{"put":"j","port":1,"tag":7,"val":3},{"put":"j","port":1,"tag":7,"val":4}]],"sinks":["s"]}
 items 8 refused 0 status 0
sinks 1
s 2
7 [1,3]
7 [2,4]
tally 2
j in 6 out 2 eaten 4 lost 0 over 0 kept 0
s in 2 out 0 eaten 0 lost 0 over 0 kept 2
%{"version":1,"nodes":[{"name":"q","kind":"queue"}],"edges":[],"callers":[[{"put":"q","val":[[[[[[[[[[[[[[[[[[[[[[[[[[[[[[[[]]]]]]]]]]]]]]]]]]]]]]]]]]]]]]]]}]],"sinks":["q"]}
 items 1 refused 0 status 0
sinks 1
q 1
0 [[[[[[[[[[[[[[[[[[[[[[[[[[[[[[[[]]]]]]]]]]]]]]]]]]]]]]]]]]]]]]]]
tally 1
q in 1 out 0 eaten 0 lost 0 over 0 kept 1
"#;

const ONE_QUEUE: &str =
    r#"{"version":1,"nodes":[{"name":"q","kind":"queue"}],"edges":[],"callers":[[{"put":"q","val":5}]],"sinks":["q"]}"#;

const TWO_QUEUES: &str =
    r#"{"version":1,"nodes":[{"name":"a","kind":"queue"},{"name":"b","kind":"queue"}],"edges":[{"from":"a","to":"b"}],"callers":[[{"put":"a","val":5}]],"sinks":["b"]}"#;

const TWO_QUEUES_BEGIN: &str = r#"sinks 1
b 1
0 5
tally 2
a in 1 out 1 eaten 0 lost 0 over 0 kept 0
b in 1 out 0 eaten 0 lost 0 over 0 kept 1
"#;

// A document on the lines of each run: what is written begins and ends so.
fn expect_all(
    rt: &(impl Threads + Wait + Abort + AllocGlobal + Sync),
    document: &str,
    start: &str,
    end: &str,
) {
    for line in LINES.split('%') {
        expect_threaded(rt, line, document, 0, start, end);
    }
}

fn expect_row(rt: &(impl Threads + Wait + Abort + AllocGlobal + Sync), row: &str) {
    let (document, rest) = parted(rt, row);
    let (end, start) = parted(rt, rest);
    expect_all(rt, document, start, end);
}

#[test]
fn documents_on_threads(rt: HostRuntime) {
    for row in RUNS.split('%') {
        expect_row(&rt, row);
    }
}

// A line with one word more.
fn with_word(rt: &(impl Abort + AllocGlobal), line: &str, word: &str) -> String {
    format!(in rt.alloc(); "{line} {word}").expect(rt, "memory")
}

// A limit of no item.
fn expect_none(rt: &(impl Threads + Wait + Abort + AllocGlobal + Sync), line: &str) {
    let line = with_word(rt, line, "--items=0");
    expect_threaded(
        rt,
        line.as_str(),
        ONE_QUEUE,
        8,
        "sinks 1\nq 0\ntally 1\nq in 0 out 0 eaten 0 lost 0 over 0 kept 0\nstopped put 0 0 0 0 accepted 0 kept 5\n",
        "\nevents 0 items 0 refused 0 status 8",
    );
}

// A limit of one item.
fn expect_one(rt: &(impl Threads + Wait + Abort + AllocGlobal + Sync), line: &str) {
    let line = with_word(rt, line, "--items=1");
    expect_threaded(
        rt,
        line.as_str(),
        TWO_QUEUES,
        8,
        "sinks 1\nb 0\ntally 2\na in 1 out 0 eaten 0 lost 0 over 0 kept 1\nb in 0 out 0 eaten 0 lost 0 over 0 kept 0\nstopped give 0 0 1 0 0 0 kept 0 5\nevents ",
        " items 1 refused 0 status 8",
    );
}

// A limit that is just enough.
fn expect_enough(rt: &(impl Threads + Wait + Abort + AllocGlobal + Sync), line: &str) {
    let line = with_word(rt, line, "--items=2");
    let end = " items 2 refused 0 status 0";
    expect_threaded(rt, line.as_str(), TWO_QUEUES, 0, TWO_QUEUES_BEGIN, end);
}

// A body that finds no memory.
fn expect_memory(rt: &(impl Threads + Wait + Abort + AllocGlobal + Sync), line: &str) {
    expect_threaded(rt, line, NO_MEMORY, 9, "error 9 memory\n", "error 9 memory");
}

// A run ends at the limit on items, whose refused event is the same in every order of the threads; a limit that is just
// enough; and a body that finds no memory.
#[test]
fn limits_on_threads(rt: HostRuntime) {
    for line in LINES.split('%') {
        expect_none(&rt, line);
        expect_one(&rt, line);
        expect_enough(&rt, line);
        expect_memory(&rt, line);
    }
}

const NO_MEMORY: &str =
    r#"{"version":1,"nodes":[{"name":"f","kind":"function","policy":"queueing","body":"fail_memory"}],"edges":[],"callers":[[{"put":"f","val":5}]],"sinks":[]}"#;

// What is refused before anything is run, or ends for want of memory. Of each row: a line of words, a document, the status
// and what is written. A row ends at `%`.
const REFUSED: &str = r#"run
{
5
error 5 syntax
%run --workers 64
[]
6
error 6 . object
%run --journal
{"version":1,"nodes":[{"name":"q","kind":"queue"}],"edges":[{"from":"q","to":"q"}],"callers":[],"sinks":[]}
7
error 7 G9 edge 0
%run --workers 4
{"version":1,"nodes":[{"name":"f","kind":"function","policy":"queueing","body":"fail_memory"}],"edges":[],"callers":[[{"put":"f","val":5}]],"sinks":[]}
9
error 9 memory
%
{
1
error 1 words
%plain
{
1
error 1 words
%run run
{
1
error 1 words
%run --workers 0
{
1
error 1 words
%run --workers 65
{
1
error 1 words
%run --workers
{
1
error 1 words
%run --live 1
{
1
error 1 words
%run --items 2000001
{
1
error 1 words
"#;

#[test]
fn refused_on_threads(rt: HostRuntime) {
    refuse_rows(&rt, REFUSED);
}

const CYCLE: &str =
    r#"{"version":1,"nodes":[{"name":"q","kind":"queue"},{"name":"f","kind":"function","policy":"queueing","limit":1,"body":"add","arg":1}],"edges":[{"from":"q","to":"f"},{"from":"f","to":"q"}],"callers":[[{"put":"q","val":0}]],"sinks":["q"]}"#;

// Whether the text stands somewhere in the bytes.
fn has_text(bytes: &[u8], text: &str) -> bool {
    for at in 0..bytes.len() {
        if bytes[at..].starts_with(text.as_bytes()) {
            return true;
        }
    }
    false
}

// The text stands somewhere in what is written.
fn tells(rt: &impl Abort, left: &Left, text: &str) {
    is(rt, has_text(left.sink.bytes.as_slice(), text));
}

// What a run round for ever comes to at a limit of ten items. Whether the function's cast has ended then differs.
fn expect_limit(rt: &(impl Threads + Wait + Abort + AllocGlobal + Sync), line: &str) {
    let left = threaded(rt, line, source(rt, CYCLE), sink(rt), &NoGate);
    ends_with_code(rt, &left, 8, line);
    begins(
        rt,
        &left,
        "sinks 1\nq 1\n0 3\ntally 2\nq in 4 out 3 eaten 0 lost 0 over 0 kept 1\nf in 6 out ",
        line,
    );
    tells(rt, &left, "\nstopped give 0 0 1 0 3 6 kept 0 3\nevents ");
    ends(rt, &left, " items 10 refused 0 status 8", line);
}

// The event that a limit refused is printed.
#[test]
fn a_limit_on_threads(rt: HostRuntime) {
    expect_limit(&rt, "run --workers 1 --items 10");
    expect_limit(&rt, "run --workers 4 --items 10");
    expect_limit(&rt, "run --workers 64 --items 10");
}

// The event that was refused, as the journal prints it.
fn refused_line(rt: &(impl Abort + AllocGlobal), left: &Left) -> Text {
    let refused = left.kept.refused.as_ref().expect(rt, "a refused event");
    event_line(rt.alloc(), refused).ok().expect(rt, "memory")
}

// The event that a limit refused, of what a run keeps.
#[test]
fn a_refused_event_on_threads(rt: HostRuntime) {
    let left = threaded(
        &rt,
        "run --items 10",
        source(&rt, CYCLE),
        sink(&rt),
        &NoGate,
    );
    let line = refused_line(&rt, &left);
    same(&rt, line.as_str(), "give 0 0 1 0 3 6 kept 0 3");
}

fn expect_journal(rt: &(impl Threads + Wait + Abort + AllocGlobal + Sync), line: &str) {
    expect_threaded(
        rt,
        line,
        ONE_QUEUE,
        0,
        "sinks 1\nq 1\n0 5\ntally 1\nq in 1 out 0 eaten 0 lost 0 over 0 kept 1\njournal 3\nput 0 0 0 0 accepted 0 kept 5\n",
        "\nevents 3 items 1 refused 0 status 0",
    );
}

// A journal is printed where it is asked for, and the put is its first event in every order of the threads.
#[test]
fn a_journal_on_threads(rt: HostRuntime) {
    expect_journal(&rt, "run --workers 1 --journal");
    expect_journal(&rt, "run --journal");
    expect_journal(&rt, "run --journal --workers 64");
}

// A source that fails at once: nothing is run or kept.
#[test]
fn a_source_that_fails_on_threads(rt: HostRuntime) {
    let left = threaded(
        &rt,
        "run",
        broken_source(&rt, ONE_QUEUE),
        sink(&rt),
        &NoGate,
    );
    ends_with_code(&rt, &left, 2, "run");
    writes(&rt, &left, "error 2 read\n", "run");
    keeps_document(&rt, &left, false);
    keeps_events(&rt, &left, 0);
}

// A sink that takes one byte a call and fails at the ninth: eight bytes are written, and what was run is kept.
#[test]
fn a_sink_that_fails_on_threads(rt: HostRuntime) {
    let left = threaded(
        &rt,
        "run",
        source(&rt, ONE_QUEUE),
        broken_sink(&rt),
        &NoGate,
    );
    ends_with_code(&rt, &left, 3, "run");
    writes(&rt, &left, "sinks 1\n", "run");
    keeps_events(&rt, &left, 3);
}

// Whether a body was started.
fn has_start(journal: &Journal) -> bool {
    let mut started = false;
    for event in journal.as_slice() {
        started = started || matches!(event, Event::Start { .. });
    }
    started
}

// A body was started.
fn started(rt: &impl Abort, left: &Left) {
    is(rt, has_start(&left.kept.journal));
}

// What stands in the journal after a body found no memory.
#[test]
fn a_body_without_memory(rt: HostRuntime) {
    let left = threaded(&rt, "run", source(&rt, NO_MEMORY), sink(&rt), &NoGate);
    ends_with_code(&rt, &left, 9, "run");
    started(&rt, &left);
    keeps_refused(&rt, &left, false);
}

// A sink that takes much at once.
fn wide_sink(rt: &impl AllocGlobal) -> MemSink {
    let mut sink = sink(rt);
    sink.most = 65_536;
    sink
}

// The text of the generated document by this line.
fn generated(rt: &(impl Threads + Wait + Abort + AllocGlobal + Sync), line: &str) -> String {
    let left = plain(rt, line, source(rt, ""), wide_sink(rt));
    ends_with_code(rt, &left, 0, line);
    let sink = left.sink;
    String::from_utf8(sink.bytes).ok().expect(rt, "a text")
}

fn add(rt: &impl Abort, text: &mut String, more: &str) {
    text.push_str(more).ok().expect(rt, "memory");
}

// The result of a number's line.
fn generated_line(rt: &(impl Abort + AllocGlobal), place: u32) -> String {
    let k = u64::from(place);
    format!(in rt.alloc(); "{k} [{},-{}]\n", 3 * (k + 1), k + 1).expect(rt, "memory")
}

// Its sinks, by what it means.
fn generated_sinks(rt: &(impl Abort + AllocGlobal), count: u32) -> String {
    let mut text = format!(in rt.alloc(); "sinks 1\nout {count}\n").expect(rt, "memory");
    for place in 0..count {
        let line = generated_line(rt, place);
        add(rt, &mut text, line.as_str());
    }
    text
}

#[test]
fn generated_on_threads(rt: HostRuntime) {
    let document = generated(&rt, "gen 100 --text");
    let sinks = generated_sinks(&rt, 100);
    let end = " items 1100 refused 0 status 0";
    expect_all(&rt, document.as_str(), sinks.as_str(), end);
}

// Many numbers and workers: the sinks are what the document means.
#[test]
fn many_generated_on_threads(rt: HostRuntime) {
    let document = generated(&rt, "gen 20000 --text");
    let sinks = generated_sinks(&rt, 20000);
    let mut source = source(&rt, document.as_str());
    source.most = 65_536;
    let left = threaded(&rt, "run --workers 64", source, wide_sink(&rt), &NoGate);
    ends_with_code(&rt, &left, 0, "many");
    begins(&rt, &left, sinks.as_str(), "many");
    ends(&rt, &left, " items 220000 refused 0 status 0", "many");
}

const PIPELINE: &str =
    r#"{"version":1,"nodes":[{"name":"src","kind":"queue"},{"name":"parse","kind":"function","policy":"queueing","body":"add","arg":1000},{"name":"left","kind":"function","policy":"queueing","body":"mul","arg":2},{"name":"right","kind":"function","policy":"queueing","limit":1,"body":"neg"},{"name":"both","kind":"join","policy":"key","ports":2},{"name":"out","kind":"sequencer"}],"edges":[{"from":"src","to":"parse"},{"from":"parse","to":"left"},{"from":"parse","to":"right"},{"from":"left","to":"both"},{"from":"right","to":"both","port":1},{"from":"both","to":"out"}],"callers":["#;

const PIPELINE_TALLY: &str = r#"tally 6
src in 100 out 100 eaten 0 lost 0 over 0 kept 0
parse in 200 out 100 eaten 100 lost 0 over 0 kept 0
left in 200 out 100 eaten 100 lost 0 over 0 kept 0
right in 200 out 100 eaten 100 lost 0 over 0 kept 0
both in 300 out 100 eaten 200 lost 0 over 0 kept 0
out in 100 out 0 eaten 0 lost 0 over 0 kept 100
"#;

// A put of the number k.
fn step(rt: &(impl Abort + AllocGlobal), k: u64) -> String {
    let mark = if k < 2 { "" } else { "," };
    format!(in rt.alloc(); "{mark}{{\"put\":\"src\",\"tag\":{k},\"val\":{k}}}").expect(rt, "memory")
}

// The puts of the fifty even numbers or, with 1, of the odd ones.
fn add_steps(rt: &(impl Abort + AllocGlobal), text: &mut String, first: u32) {
    for half in 0..50u64 {
        let step = step(rt, 2 * half + u64::from(first));
        add(rt, text, step.as_str());
    }
}

// The document of a pipeline whose numbers two callers put, the even ones and the odd ones.
fn pipeline(rt: &(impl Abort + AllocGlobal)) -> String {
    let mut text = String::from_str(rt.alloc(), PIPELINE).expect(rt, "memory");
    add(rt, &mut text, "[");
    add_steps(rt, &mut text, 0);
    add(rt, &mut text, "],[");
    add_steps(rt, &mut text, 1);
    add(rt, &mut text, "]],\"sinks\":[\"out\"]}");
    text
}

// What becomes of the number.
fn pipeline_line(rt: &(impl Abort + AllocGlobal), number: u32) -> String {
    let k = u64::from(number);
    format!(in rt.alloc(); "{k} [{},-{}]\n", 2 * (k + 1000), k + 1000).expect(rt, "memory")
}

// What its nodes have in the end.
fn pipeline_report(rt: &(impl Abort + AllocGlobal)) -> String {
    let mut text = String::from_str(rt.alloc(), "sinks 1\nout 100\n").expect(rt, "memory");
    for number in 0..100u32 {
        let line = pipeline_line(rt, number);
        add(rt, &mut text, line.as_str());
    }
    add(rt, &mut text, PIPELINE_TALLY);
    text
}

#[test]
fn two_callers_feed_a_pipeline(rt: HostRuntime) {
    let document = pipeline(&rt);
    let report = pipeline_report(&rt);
    let end = " items 1100 refused 0 status 0";
    expect_all(&rt, document.as_str(), report.as_str(), end);
}
