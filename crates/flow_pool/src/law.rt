//! What it says that a queue was empty.
ghost use Rattle.std.specs.Prelude.{◌≡◌, ℕ, true};
ghost use Rattle.flow_pool.specs.declared.hand.Hand.{Hand};
ghost use Rattle.flow_pool.specs.Rule.{copies, SawEmpty};

/// Where there is one post, an empty queue has lost to it all that it pushed there: for each node it took as many copies
/// as it pushed.
pub fn who_is_alone_took_all()
    ensures { (h : Hand) → h.alone ≡ true → SawEmpty h → (x : ℕ) → copies x h.taken ≡ copies x h.pushed }
{}
