//! A book over two queues in a row, from one thread and from four.
use crate::checks::{holds, named, number};
use crate::letters::reads;
use flow_item::{Event, Land, PutAnswer};
use flow_row::{Ran, run};
use std::marker::Brand;
use std::process::Abort;
use std::sync::Wait;
use std::thread::Threads;

// Takes the next number, which it has to be.
fn is_next(next: &mut u64, number: u64) -> bool {
    let is = *next == number;
    *next = next.saturating_add(1);
    is
}

// Whether so many values came into the row and went on in their order, each after it came.
fn go_in_order(journal: &[Event], values: u64) -> bool {
    let mut put = 0;
    let mut given = 0;
    for event in journal {
        let next = match event {
            Event::Put {
                node: 0,
                answer: PutAnswer::Accepted {
                    no,
                    land: Land::Kept,
                },
                ..
            } => { is_next(&mut put, *no) }
            Event::Give { item, no, .. } => {
                given < put && item.id.no == *no && is_next(&mut given, *no)
            }
            Event::Leave { .. } | Event::Idle { .. } => true,
            _ => false,
        };
        if !next {
            return false;
        }
    }
    put == values && given == values
}

// A run of so many threads and puts.
fn ran<R: Threads + Wait + Abort + AllocGlobal + Sync>(rt: &R, threads: u64, puts: u64) -> Ran {
    let opened = named(rt);
    match run::<Brand, _>(rt, rt.alloc(), threads, puts, opened) {
        Ok(ran) => ran,
        Err(_) => panic!(rt; "no memory for a row"),
    }
}

#[test]
fn a_value_goes_through(rt: HostRuntime) {
    let ran = ran(&rt, 1, 1);
    holds(&rt, reads(ran.journal.as_slice(), b"pgiill"));
}

#[test]
fn four_threads_put_and_serve(rt: HostRuntime) {
    let ran = ran(&rt, 4, 100);
    holds(&rt, go_in_order(ran.journal.as_slice(), 400));
    number(&rt, ran.open, 0);
    number(&rt, ran.left as u64, 4);
    holds(&rt, ran.kept.is_none());
}
