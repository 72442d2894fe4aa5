//! The bell that wakes who waits for work.
use std::sync::Wait;
use std::sync::atomic::{AtomicU64, Ordering};

// A word to sleep on. Who finds no node says so before it looks once more, and then sleeps until a ring that came after
// it said so. So no ring is missed, and nobody who sleeps burns a core.
//
// While one is called and hasn't come, no other is. Who begins to listen or ends it forgets the call: after that it looks
// once more, or rings again.
#[derive(Drop)]
struct Rope {
    // How often it rang.
    rings: AtomicU64,
    // How many sleep, or are about to.
    listeners: AtomicU64,
    // Whether one is called, and hasn't come: 1 or 0.
    called: AtomicU64,
}

impl Rope {
    // It hasn't rung, and nobody listens.
    fn new() -> Rope {
        Rope {
            rings: AtomicU64::new(0),
            listeners: AtomicU64::new(0),
            called: AtomicU64::new(0),
        }
    }

    // Listens from now on. Answers which ring was the last.
    fn listen(&self) -> u32 {
        self.listeners.fetch_add(1, Ordering::SeqCst);
        let last = (self.rings.load(Ordering::SeqCst) % (1 << 32)) as u32;
        self.called.store(0, Ordering::SeqCst);
        last
    }

    // Listens no more. Whether one was called.
    fn leave(&self) -> bool {
        self.listeners.fetch_sub(1, Ordering::SeqCst);
        self.called.swap(0, Ordering::SeqCst) != 0
    }

    // Whether somebody listens.
    fn is_heard(&self) -> bool {
        self.listeners.load(Ordering::SeqCst) != 0
    }

    // Whether nobody was called: from now on one is.
    fn begins_call(&self) -> bool {
        self.called.load(Ordering::SeqCst) == 0 && self.called.swap(1, Ordering::SeqCst) == 0
    }

    // Wakes one who listens, unless one is called already.
    fn ring(&self) {
        if !self.begins_call() {
            return;
        }
        if self.is_heard() {
            self.rings.fetch_add(1, Ordering::SeqCst);
            self.rings.wake_one();
        } else {
            self.called.store(0, Ordering::SeqCst);
        }
    }

    // Wakes all who listen.
    fn ring_all(&self) {
        if self.is_heard() {
            self.rings.fetch_add(1, Ordering::SeqCst);
            self.rings.wake_all();
        }
    }
}

/// It tells nothing: whoever is woken looks and asks again.
///
/// Who is at work and has no node hunts for one before it listens. While somebody hunts nobody is woken, so who found a
/// node wakes another: there may be more of them.
///
/// Something is open as long as somebody is at work. So only the last who finds no node, where an event was made since,
/// calls on the others to ask what is open: on the callers that wait, and on the workers once all callers have left. A
/// refusal calls on all, and so does the caller that leaves last.
#[derive(Drop)]
pub(crate) struct Bell {
    workers: Rope,
    // Those that wait.
    callers: Rope,
    // How many are at work.
    busy: AtomicU64,
    // How many of those have no node.
    hunters: AtomicU64,
    // Whether an event was made since all were called on: 1 or 0.
    news: AtomicU64,
    // How often all were called on.
    calls: AtomicU64,
    // How many callers have left.
    gone: AtomicU64,
}

impl Bell {
    // It hasn't rung, and nobody is there.
    pub(crate) fn new() -> Bell {
        Bell {
            workers: Rope::new(),
            callers: Rope::new(),
            busy: AtomicU64::new(0),
            hunters: AtomicU64::new(0),
            news: AtomicU64::new(0),
            calls: AtomicU64::new(0),
            gone: AtomicU64::new(0),
        }
    }

    fn rope(&self, waits: bool) -> &Rope {
        if waits { &self.callers } else { &self.workers }
    }

    // Is at work from now on.
    pub(crate) fn come(&self) {
        self.busy.fetch_add(1, Ordering::SeqCst);
    }

    // Is at work no more. All were called on.
    pub(crate) fn go(&self) {
        self.busy.fetch_sub(1, Ordering::SeqCst);
    }

    // Has no node, and hunts for one.
    pub(crate) fn hunt(&self) {
        self.hunters.fetch_add(1, Ordering::SeqCst);
    }

    // Found a node. Another may find one too.
    pub(crate) fn find(&self) {
        self.hunters.fetch_sub(1, Ordering::SeqCst);
        self.ring();
    }

    // Found no node, and listens from now on. Answers which ring was the last.
    pub(crate) fn listen(&self, waits: bool) -> u32 {
        let last = self.rope(waits).listen();
        self.busy.fetch_sub(1, Ordering::SeqCst);
        self.hunters.fetch_sub(1, Ordering::SeqCst);
        last
    }

    // Listens no more, and isn't at work. Another comes for it where it was called.
    pub(crate) fn quit(&self, waits: bool) {
        if self.rope(waits).leave() {
            self.ring();
        }
    }

    // Is at work again with a node, and listens no more. Another may find one too.
    pub(crate) fn leave(&self, waits: bool) {
        self.busy.fetch_add(1, Ordering::SeqCst);
        self.rope(waits).leave();
        self.ring();
    }

    // Sleeps until a ring after that one. Then it is at work again, and hunts.
    pub(crate) fn sleep<R: Wait>(&self, rt: &R, waits: bool, last: u32) {
        self.rope(waits).rings.park(rt, last);
        self.busy.fetch_add(1, Ordering::SeqCst);
        self.hunters.fetch_add(1, Ordering::SeqCst);
        self.rope(waits).leave();
    }

    // An event was made.
    pub(crate) fn tell(&self) {
        if self.news.load(Ordering::SeqCst) == 0 {
            self.news.store(1, Ordering::SeqCst);
        }
    }

    // Wakes one who listens, a worker where there is one, unless somebody hunts.
    pub(crate) fn ring(&self) {
        if self.hunters.load(Ordering::SeqCst) != 0 {
            return;
        }
        if self.workers.is_heard() {
            self.workers.ring();
        } else if self.callers.is_heard() {
            self.callers.ring();
        }
    }

    // Calls on all.
    pub(crate) fn call(&self) {
        self.calls.fetch_add(1, Ordering::SeqCst);
        self.callers.ring_all();
        self.workers.ring_all();
    }

    // One of so many callers has left.
    pub(crate) fn leave_last(&self, callers: u32) {
        self.gone.fetch_add(1, Ordering::SeqCst);
        if self.is_deserted(callers) {
            self.call();
        }
    }

    // Whether so many callers have left.
    fn is_deserted(&self, callers: u32) -> bool {
        u64::from(callers) <= self.gone.load(Ordering::SeqCst)
    }

    // Whether who listens is to ask what is open, since it didn't after so many calls.
    pub(crate) fn is_called(&self, callers: u32, heard: &mut u64) -> bool {
        if self.busy.load(Ordering::SeqCst) == 0 {
            self.call_last(callers);
        }
        let calls = self.calls.load(Ordering::SeqCst);
        let asks = *heard != calls;
        *heard = calls;
        asks
    }

    // Nobody is at work. Where an event was made, those are called on whom it may concern.
    fn call_last(&self, callers: u32) {
        if self.is_deserted(callers) {
            if self.news.swap(0, Ordering::SeqCst) != 0 {
                self.call();
            }
        } else if self.callers.is_heard() && self.news.swap(0, Ordering::SeqCst) != 0 {
            self.calls.fetch_add(1, Ordering::SeqCst);
            self.callers.ring_all();
        }
    }
}
