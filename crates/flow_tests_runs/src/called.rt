//! The top calls over memory, with the shelf of the built-in bodies, and what is asked of their answers.
ghost use Rattle.std.specs.Prelude.{◌≡◌, true, length, map};
ghost use Rattle.flow_gen.specs.Generated.{has_bodies};

use flow_body::{
    Add, Builtins, CountTo, Echo, FailMemory, Len, Mul, Neg, Pair, Part, Shelf, SplitEven,
    builtin_shelf,
};
use flow_cli::{flow_top, plain_top};
use flow_doc::Kept;
use flow_io::{MemSink, MemSource};
use flow_run::{Builtin, Gate, NoGate};
use std::alloc::Global;
use std::process::Abort;
use std::sync::Wait;
use std::thread::Threads;

/// What a call leaves.
#[derive(Drop)]
pub(crate) struct Left {
    pub(crate) code: u8,
    pub(crate) kept: Kept,
    pub(crate) source: MemSource,
    pub(crate) sink: MemSink,
}

pub(crate) fn source(rt: &(impl Abort + AllocGlobal), input: &str) -> MemSource {
    let alloc = rt.alloc();
    MemSource {
        bytes: Vec::from_slice(alloc, input.as_bytes()).expect(rt, "memory"),
        at: 0,
        calls: 0,
        fail: Vec::new(alloc),
        most: 7,
    }
}

/// A source that fails at once.
pub(crate) fn broken_source(rt: &(impl Abort + AllocGlobal), input: &str) -> MemSource {
    let mut source = source(rt, input);
    source.fail = vec![in rt.alloc(); 0u64].expect(rt, "memory");
    source
}

pub(crate) fn sink(rt: &impl AllocGlobal) -> MemSink {
    let alloc = rt.alloc();
    MemSink {
        bytes: Vec::new(alloc),
        calls: 0,
        fail: Vec::new(alloc),
        most: 5,
        refused: 0,
    }
}

/// A sink that takes one byte a call and fails at the ninth.
pub(crate) fn broken_sink(rt: &(impl Abort + AllocGlobal)) -> MemSink {
    let mut sink = sink(rt);
    sink.most = 1;
    sink.fail = vec![in rt.alloc(); 8u64].expect(rt, "memory");
    sink
}

fn words_of(rt: &(impl Abort + AllocGlobal), line: &str) -> Vec<String> {
    let alloc = rt.alloc();
    let mut words = Vec::new(alloc);
    for word in line.split_whitespace() {
        let word = String::from_str(alloc, word).expect(rt, "memory");
        words.push(word).ok().expect(rt, "memory");
    }
    words
}

fn plain_call(
    alloc: Global,
    words: &[String],
    source: &mut MemSource,
    sink: &mut MemSink,
    shelf: &Shelf,
) -> (u8, Kept)
    requires { has_bodies (map (λ b. b.name) shelf.now.bodies.items) ≡ true }
{
    let mut kept = Kept::new(alloc);
    let status = plain_top(alloc, words, source, sink, shelf, &mut kept);
    (status.code(), kept)
}

fn threads_call<R: Threads + Wait + Sync, G: Gate>(
    rt: &R,
    alloc: Global,
    words: &[String],
    source: &mut MemSource,
    sink: &mut MemSink,
    shelf: &Shelf,
    gate: &G,
) -> (u8, Kept)
    requires count { length shelf.now.bodies.items ≡ 10 }
{
    let mut kept = Kept::new(alloc);
    let status = flow_top(
        rt, alloc, words, source, sink, shelf, &Builtin, gate, &mut kept,
    );
    (status.code(), kept)
}

// The built-in bodies, of which documents choose.
fn serve<R: Threads + Wait + Abort + AllocGlobal + Sync, G: Gate>(
    rt: &R,
    threads: bool,
    words: &[String],
    source: &mut MemSource,
    sink: &mut MemSink,
    gate: &G,
) -> (u8, Kept) {
    let alloc = rt.alloc();
    let bodies = Builtins {
        add: Box::new(alloc, Add).expect(rt, "memory"),
        mul: Box::new(alloc, Mul).expect(rt, "memory"),
        neg: Box::new(alloc, Neg).expect(rt, "memory"),
        len: Box::new(alloc, Len).expect(rt, "memory"),
        part: Box::new(alloc, Part).expect(rt, "memory"),
        pair: Box::new(alloc, Pair).expect(rt, "memory"),
        echo: Box::new(alloc, Echo).expect(rt, "memory"),
        split_even: Box::new(alloc, SplitEven).expect(rt, "memory"),
        count_to: Box::new(alloc, CountTo).expect(rt, "memory"),
        fail_memory: Box::new(alloc, FailMemory).expect(rt, "memory"),
    };
    let Ok(shelf) = builtin_shelf(alloc, bodies) else {
        panic!(rt; "no memory")
    };
    if threads {
        threads_call(rt, alloc, words, source, sink, &shelf, gate)
    } else {
        plain_call(alloc, words, source, sink, &shelf)
    }
}

/// What a line of words leaves under `plain_top`.
pub(crate) fn plain(
    rt: &(impl Threads + Wait + Abort + AllocGlobal + Sync),
    line: &str,
    source: MemSource,
    sink: MemSink,
) -> Left {
    let mut source = source;
    let mut sink = sink;
    let words = words_of(rt, line);
    let (code, kept) = serve(rt, false, words.as_slice(), &mut source, &mut sink, &NoGate);
    Left {
        code,
        kept,
        source,
        sink,
    }
}

/// What a line of words leaves under `flow_top`, past this gate.
pub(crate) fn threaded<G: Gate>(
    rt: &(impl Threads + Wait + Abort + AllocGlobal + Sync),
    line: &str,
    source: MemSource,
    sink: MemSink,
    gate: &G,
) -> Left {
    let mut source = source;
    let mut sink = sink;
    let words = words_of(rt, line);
    let (code, kept) = serve(rt, true, words.as_slice(), &mut source, &mut sink, gate);
    Left {
        code,
        kept,
        source,
        sink,
    }
}

pub(crate) fn is(rt: &impl Abort, so: bool) {
    assert!(rt; so);
}

pub(crate) fn number(rt: &impl Abort, got: u64, want: u64) {
    assert!(rt; got == want, "{got} and not {want}");
}

pub(crate) fn same(rt: &impl Abort, got: &str, want: &str) {
    assert!(rt; got == want, "{got} and not {want}");
}

/// The status has this number.
pub(crate) fn ends_with_code(rt: &impl Abort, left: &Left, code: u8, row: &str) {
    assert!(rt; left.code == code, "{}: {row}", left.code);
}

/// This is written, and nothing more.
pub(crate) fn writes(rt: &impl Abort, left: &Left, output: &str, row: &str) {
    assert!(rt; left.sink.bytes.as_slice() == output.as_bytes(), "{row}");
}

/// What is written begins so.
pub(crate) fn begins(rt: &impl Abort, left: &Left, start: &str, row: &str) {
    assert!(rt;
        left.sink.bytes.as_slice().starts_with(start.as_bytes()),
        "{row}"
    );
}

/// What is written ends so, and with the line.
pub(crate) fn ends(rt: &impl Abort, left: &Left, end: &str, row: &str) {
    let bytes = left.sink.bytes.as_slice();
    let line = bytes
        .strip_suffix(b"\n".as_slice())
        .expect(rt, "the end of a line");
    assert!(rt; line.ends_with(end.as_bytes()), "{row}");
}

/// So many events are kept.
pub(crate) fn keeps_events(rt: &impl Abort, left: &Left, count: u64) {
    number(rt, left.kept.journal.len() as u64, count);
}

/// A document is kept, or none.
pub(crate) fn keeps_document(rt: &impl Abort, left: &Left, so: bool) {
    is(rt, left.kept.doc.is_some() == so);
}

/// A refused event is kept, or none.
pub(crate) fn keeps_refused(rt: &impl Abort, left: &Left, so: bool) {
    is(rt, left.kept.refused.is_some() == so);
}

/// The first line of a text, and what follows it.
pub(crate) fn parted<'a>(rt: &impl Abort, text: &'a str) -> (&'a str, &'a str) {
    text.split_once('\n').expect(rt, "a line")
}

// The number that a figure stands for.
fn figure(rt: &impl Abort, text: &str) -> u8 {
    let byte = *text.as_bytes().first().expect(rt, "a figure");
    byte.wrapping_sub(b'0')
}

/// What `plain_top` does with a line of words and a document.
pub(crate) fn expect(
    rt: &(impl Threads + Wait + Abort + AllocGlobal + Sync),
    line: &str,
    input: &str,
    code: u8,
    output: &str,
    row: &str,
) {
    let left = plain(rt, line, source(rt, input), sink(rt));
    ends_with_code(rt, &left, code, row);
    writes(rt, &left, output, row);
}

// A row: a line of words, a document, the status and what is written.
fn expect_row(rt: &(impl Threads + Wait + Abort + AllocGlobal + Sync), row: &str) {
    let (line, rest) = parted(rt, row);
    let (input, rest) = parted(rt, rest);
    let (code, output) = parted(rt, rest);
    expect(rt, line, input, figure(rt, code), output, row);
}

/// What `plain_top` does with each row.
pub(crate) fn expect_rows(rt: &(impl Threads + Wait + Abort + AllocGlobal + Sync), rows: &str) {
    for row in rows.split('%') {
        expect_row(rt, row);
    }
}

/// What `flow_top` does with a line of words and a document: what is written begins and ends so.
pub(crate) fn expect_threaded(
    rt: &(impl Threads + Wait + Abort + AllocGlobal + Sync),
    line: &str,
    document: &str,
    code: u8,
    start: &str,
    end: &str,
) {
    let left = threaded(rt, line, source(rt, document), sink(rt), &NoGate);
    ends_with_code(rt, &left, code, document);
    begins(rt, &left, start, document);
    ends(rt, &left, end, document);
}

// A row of words that `flow_top` refuses: a line of words, a document, the status and how what is written begins and ends.
fn refuse_row(rt: &(impl Threads + Wait + Abort + AllocGlobal + Sync), row: &str) {
    let (line, rest) = parted(rt, row);
    let (input, rest) = parted(rt, rest);
    let (code, output) = parted(rt, rest);
    let (end, _) = parted(rt, output);
    expect_threaded(rt, line, input, figure(rt, code), output, end);
}

/// What `flow_top` writes, one line, of each row.
pub(crate) fn refuse_rows(rt: &(impl Threads + Wait + Abort + AllocGlobal + Sync), rows: &str) {
    for row in rows.split('%') {
        refuse_row(rt, row);
    }
}
