//! Who serves a node, and where it stands.
use std::sync::Wait;
use std::sync::atomic::{AtomicU64, Ordering};

// The node stands in a queue of the pool.
const QUEUED: u64 = 1;

// Somebody tends the node: serves it until it rests.
const TENDED: u64 = 2;

// Since who tends the node looked last, another made an event of it.
const NEWS: u64 = 4;

// What is done to a mark.
#[derive(Clone, Copy)]
enum Deed {
    Tell,
    Take,
    Resume,
}

// The word after a deed.
fn word_after(seen: u64, deed: Deed) -> u64 {
    let tended = seen & TENDED != 0;
    match deed {
        Deed::Tell => { if tended { seen | NEWS } else { QUEUED } }
        Deed::Take => { if tended { seen & !QUEUED } else { TENDED } }
        Deed::Resume => { if tended { seen | NEWS } else { seen | TENDED } }
    }
}

/// By a node's mark it stands in the pool once at most, and nobody serves it but who tends it. Who makes an event of a node that
/// another tends only leaves word of it. It tells nothing: whoever comes to a node looks what it has to do.
///
/// A node may stand in a queue while it is tended, from the last time that one who tended it started a body. Who takes it
/// out of the queue then leaves it alone.
#[derive(Drop)]
pub(crate) struct Mark {
    word: AtomicU64,
}

impl Mark {
    // Nobody tends the node, and it stands in no queue.
    pub(crate) fn new() -> Mark {
        Mark {
            word: AtomicU64::new(0),
        }
    }

    // Does a deed. Answers what the word was before it.
    fn step<R: Wait>(&self, rt: &R, deed: Deed) -> u64 {
        let mut seen = self.word.load(Ordering::SeqCst);
        for _ in rt.forever() {
            let next = word_after(seen, deed);
            if next == seen {
                return seen;
            }
            match self
                .word
                .compare_exchange(seen, next, Ordering::SeqCst, Ordering::SeqCst)
            {
                Ok(_) => return seen,
                Err(now) => seen = now,
            }
        }
        unreachable!()
    }

    // An event of the node was made by one who doesn't tend it. Answers whether it is to be put into the pool.
    pub(crate) fn tell<R: Wait>(&self, rt: &R) -> bool {
        self.step(rt, Deed::Tell) == 0
    }

    // The node was taken out of the pool. Answers whether who took it tends it: else another does.
    pub(crate) fn take<R: Wait>(&self, rt: &R) -> bool {
        self.step(rt, Deed::Take) & TENDED == 0
    }

    // An event of the node was made by one who doesn't tend it, and would like to. Answers whether he does: else another does.
    pub(crate) fn resume<R: Wait>(&self, rt: &R) -> bool {
        self.step(rt, Deed::Resume) & TENDED == 0
    }

    // Who tended the node tends it no more, and others may. Answers whether it is to be put into the pool.
    pub(crate) fn leave(&self) -> bool {
        self.word.swap(QUEUED, Ordering::SeqCst) & QUEUED == 0
    }

    // Who tends the node found it at rest. Answers whether it is left: else it is to be looked at again.
    pub(crate) fn rest(&self) -> bool {
        let seen = self.word.load(Ordering::SeqCst);
        if seen & NEWS != 0 {
            self.word.fetch_and(!NEWS, Ordering::SeqCst);
            return false;
        }
        self.word
            .compare_exchange(seen, seen & !TENDED, Ordering::SeqCst, Ordering::SeqCst)
            .is_ok()
    }
}
