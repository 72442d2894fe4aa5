//! What a test asks of an answer.
use flow_book::GraphMachine;
use flow_line::Opened;
use std::process::Abort;

pub fn holds(rt: &impl Abort, it: bool) {
    assert!(rt; it);
}

pub fn number(rt: &impl Abort, got: u64, want: u64) {
    assert!(rt; got == want, "{got} and not {want}");
}

/// The name of a line.
pub fn named(rt: &(impl Abort + AllocGlobal)) -> Opened<GraphMachine> {
    match Opened::new(rt.alloc()) {
        Ok(opened) => opened,
        Err(_) => panic!(rt; "no memory for a line"),
    }
}
