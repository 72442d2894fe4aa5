ghost use Rattle.flow_print.specs.Report.{MayBePrinted};
ghost use Rattle.flow_print.specs.Replayed.{IsBuilt};

use crate::told::{is, same, text};
use flow_doc::{Doc, DocFault, Kept, Lives, Names, Nodes, Scripts, Want};
use flow_io::MemSink;
use flow_item::{
    Cause, Ended, Event, Id, Ids, Item, Journal, Land, Link, Outs, PutAnswer, Val, Vals,
};
use flow_print::{
    PrintFault, Status, event_line, fault_text, journal_text, memory_text, print_report, read_text,
    words_text,
};
use flow_shape::{Edges, Kinds, Rule, Shape, ShapeFault};
use std::alloc::Global;
use std::process::Abort;

const OVER: Link = Link {
    edge: 0,
    from: 0,
    to: 1,
    port: 0,
};

// Compares an event's line.
fn prints(rt: &(impl Abort + AllocGlobal), e: &Event, line: &str) {
    let printed = event_line(rt.alloc(), e).ok().expect(rt, "memory");
    same(rt, printed.as_str(), line);
}

// Compares the line of a put of the first caller to the first node.
fn prints_put(rt: &(impl Abort + AllocGlobal), tag: u64, val: Val, answer: PutAnswer, line: &str) {
    let put = Event::Put {
        caller: 0,
        node: 0,
        port: 0,
        tag,
        val,
        answer,
    };
    prints(rt, &put, line);
}

// Compares the line of a put that is refused.
fn prints_refused(rt: &(impl Abort + AllocGlobal), tag: u64, val: Val, cause: Cause, line: &str) {
    prints_put(rt, tag, val, PutAnswer::Refused(cause), line);
}

#[test]
fn puts(rt: HostRuntime) {
    let accepted = PutAnswer::Accepted {
        no: 0,
        land: Land::Kept,
    };
    prints_put(
        &rt,
        0,
        Val::Int(5),
        accepted,
        "put 0 0 0 0 accepted 0 kept 5",
    );
    prints_refused(&rt, 1, Val::Int(6), Cause::Busy(1), "put 0 0 0 1 busy 1 6");
    prints_refused(
        &rt,
        2,
        Val::Int(-3),
        Cause::Full(2),
        "put 0 0 0 2 full 2 -3",
    );
    prints_refused(&rt, 3, Val::Int(0), Cause::Set, "put 0 0 0 3 set 0");
    prints_refused(
        &rt,
        4,
        Val::Int(7),
        Cause::Duplicate,
        "put 0 0 0 4 duplicate 7",
    );
}

fn keep(rt: &impl Abort, parts: &mut Vals, val: Val) {
    parts.push(val).ok().expect(rt, "memory");
}

// The list of 1, 2 and an empty list.
fn list(rt: &(impl Abort + AllocGlobal)) -> Val {
    let mut parts = Vals::new(rt.alloc());
    keep(rt, &mut parts, Val::Int(1));
    keep(rt, &mut parts, Val::Int(2));
    keep(rt, &mut parts, Val::List(Vals::new(rt.alloc())));
    Val::List(parts)
}

#[test]
fn values(rt: HostRuntime) {
    let letters = Val::Text(text(&rt, "a\"\\\n\u{1}é"));
    let line = "put 0 0 0 1 set \"a\\\"\\\\\\n\\u0001é\"";
    prints_refused(&rt, 1, letters, Cause::Set, line);
    prints_refused(&rt, 2, list(&rt), Cause::Set, "put 0 0 0 2 set [1,2,[]]");
}

fn give() -> Event {
    let item = Item {
        id: Id { node: 0, no: 0 },
        tag: 0,
        val: Val::Int(5),
    };
    Event::Give {
        link: OVER,
        item,
        no: 0,
        land: Land::Kept,
    }
}

fn end(alloc: Global) -> Event {
    Event::End {
        worker: 0,
        node: 0,
        item: 0,
        first: 1,
        outs: Outs::new(alloc),
    }
}

fn add(rt: &impl Abort, parts: &mut Ids, id: Id) {
    parts.push(id).ok().expect(rt, "memory");
}

// An event that forms a tuple of two parts.
fn form(rt: &(impl Abort + AllocGlobal)) -> Event {
    let mut parts = Ids::new(rt.alloc());
    add(rt, &mut parts, Id { node: 0, no: 0 });
    add(rt, &mut parts, Id { node: 0, no: 1 });
    Event::Form {
        node: 0,
        no: 2,
        parts,
    }
}

#[test]
fn others(rt: HostRuntime) {
    prints(&rt, &give(), "give 0 0 1 0 0 0 kept 0 5");
    let refuse = Event::Refuse {
        link: OVER,
        item: 1,
    };
    prints(&rt, &refuse, "refuse 0 0 1 0 1");
    prints(&rt, &Event::None { link: OVER }, "none 0 0 1 0");
    prints(&rt, &end(rt.alloc()), "end 0 0 0 1 []");
    let shut = Event::Shut {
        node: 1,
        item: 1,
        ended: Ended::Lost,
    };
    prints(&rt, &shut, "shut 1 1 lost");
    prints(&rt, &form(&rt), "form 0 2 0.0,0.1");
}

// Compares a fault's line.
fn says(rt: &(impl Abort + AllocGlobal), fault: &DocFault, line: &str) {
    let said = fault_text(rt.alloc(), fault).ok().expect(rt, "memory");
    same(rt, said.as_str(), line);
}

fn says_of_journal(rt: &(impl Abort + AllocGlobal), number: u64, line: &str) {
    let said = journal_text(rt.alloc(), number).ok().expect(rt, "memory");
    same(rt, said.as_str(), line);
}

#[test]
fn faults(rt: HostRuntime) {
    let place = DocFault::Place {
        path: text(&rt, "callers/0/0/val"),
        want: Want::Value,
    };
    says(&rt, &place, "error 6 callers/0/0/val value\n");
    let shape = DocFault::Shape(ShapeFault {
        rule: Rule::G9,
        at: 0,
    });
    says(&rt, &shape, "error 7 G9 edge 0\n");
    says(&rt, &DocFault::TooLong, "error 4 long\n");
    says(&rt, &DocFault::Syntax, "error 5 syntax\n");
    says(&rt, &DocFault::Memory, memory_text());
    same(&rt, words_text(), "error 1 words\n");
    same(&rt, read_text(), "error 2 read\n");
    says_of_journal(&rt, 3, "error 10 line 3\n");
}

fn kept_of_nothing(alloc: Global) -> Kept
    ensures kept { MayBePrinted result.doc result.journal }
    ensures built { IsBuilt result.doc }
{
    let shape = Shape {
        nodes: Kinds::new(alloc),
        edges: Edges::new(alloc),
    };
    let doc = Doc {
        version: 1,
        names: Names::new(alloc),
        shape,
        scripts: Scripts::new(alloc),
        sinks: Nodes::new(alloc),
    };
    Kept {
        doc: Some(doc),
        journal: Journal::new(alloc),
        refused: None,
        live: Lives::new(alloc),
    }
}

// A sink that takes seven bytes a call.
fn small_sink(alloc: Global, fail: Vec<u64>) -> MemSink {
    MemSink {
        bytes: Vec::new(alloc),
        calls: 0,
        fail,
        most: 7,
        refused: 0,
    }
}

// What a printed report answered.
fn word(answer: Result<(), PrintFault>) -> &'static str {
    match answer {
        Ok(()) => "done",
        Err(PrintFault::Write) => "write",
        Err(_) => "memory",
    }
}

// Prints the report of nothing, and says what was answered.
fn report(alloc: Global, sink: &mut MemSink) -> &'static str {
    let kept = kept_of_nothing(alloc);
    word(print_report(alloc, &kept, Status::Done, false, sink))
}

// Prints the report of nothing to a sink that fails at these calls, and compares what was answered and written.
fn reports(rt: &(impl Abort + AllocGlobal), fail: Vec<u64>, answer: &str, written: &[u8]) {
    let mut sink = small_sink(rt.alloc(), fail);
    same(rt, report(rt.alloc(), &mut sink), answer);
    is(rt, sink.bytes.as_slice() == written);
}

#[test]
fn report_of_nothing(rt: HostRuntime) {
    let whole = b"sinks 0\ntally 0\nevents 0 items 0 refused 0 status 0\n";
    reports(&rt, Vec::new(rt.alloc()), "done", whole.as_slice());
}

#[test]
fn report_stops_at_a_failed_write(rt: HostRuntime) {
    let fail = vec![in rt.alloc(); 3u64].expect(&rt, "memory");
    reports(&rt, fail, "write", b"sinks 0\ntally 0".as_slice());
}
