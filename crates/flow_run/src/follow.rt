//! How a caller follows its script.
ghost use Rattle.std.specs.Prelude.{◌≡◌, ◌+◌, ◌<◌, true, false, length, slice_get, Some, None, OnOk, OnErr};
ghost use Rattle.std.specs.List.{list_all};
ghost use Rattle.flow_item.specs.declared.event.PutAnswer.{PutAnswer};
ghost use Rattle.flow_item.specs.declared.event.Event.TheVariants as E;
ghost use Rattle.flow_machine.specs.Machine.{open_after};
ghost use Rattle.flow_pool.specs.Posts.{IsPostOf};
ghost use Rattle.flow_book.specs.Answers.{IsDone, IsSame};
ghost use Rattle.flow_book.specs.Callers.{number_of, may_call, takes_puts, takes_acts};
ghost use Rattle.flow_work.specs.Runs.{is_good_step};
ghost use Rattle.flow_crew.specs.Crew.{IsCaller, IsWorker};
ghost use Rattle.flow_run.specs.Following.{HasAllOwn, DoesStep, IsOfStep, StopsBy, LeavesOr, IsAt, HasFollowed, FollowsOwn, IsNew};

use flow_crew::{Bodies, Caller, Gate, Graph, Waited};
use flow_doc::Doc;
use flow_item::{Items, Stop, Val};
use flow_line::Naming;
use flow_shape::Step;
use std::alloc::Global;
use std::sync::Wait;

// Puts a value.
fn put<B: Naming, R: Wait, S: Bodies, G: Gate>(
    rt: &R,
    alloc: Global,
    graph: &Graph<S, G, B>,
    caller: &mut Caller<B>,
    node: u32,
    port: u32,
    tag: u64,
    val: &Val,
) -> Result<(), Stop>
    requires of { IsCaller (S.meanings graph.now.bench.bodies.now) graph.now.book.run graph.now.book.items graph.now.book.events caller.old.chair }
    requires worker { IsWorker (S.meanings graph.now.bench.bodies.now) graph.now.book.run graph.now.book.items graph.now.book.events caller.old.worker.chair caller.old.worker.busy }
    requires post { IsPostOf graph.now.pool caller.old.worker.post }
    requires calls { may_call graph.now.book.run caller.old.chair ≡ true }
    requires port { takes_puts graph.now.book.run.shape node port ≡ true }
    ensures of { IsCaller (S.meanings graph.now.bench.bodies.now) graph.now.book.run graph.now.book.items graph.now.book.events caller.new.chair }
    ensures worker { IsWorker (S.meanings graph.now.bench.bodies.now) graph.now.book.run graph.now.book.items graph.now.book.events caller.new.worker.chair caller.new.worker.busy }
    ensures post { IsPostOf graph.now.pool caller.new.worker.post }
    ensures party { (caller.new.chair.party ≡ caller.old.chair.party) × (caller.new.worker.chair.party ≡ caller.old.worker.chair.party) }
    ensures calls { may_call graph.now.book.run caller.new.chair ≡ true }
    ensures kept { OnOk result (caller.new.chair.kept ≡ caller.old.chair.kept) }
    ensures done { OnOk result ((a : PutAnswer) × IsDone caller.old.chair (E.Put (number_of caller.old.chair.party) node port tag val.now a) caller.new.chair) }
    ensures stopped { OnErr result (StopsBy (λ e. (a : PutAnswer) × (e ≡ E.Put (number_of caller.old.chair.party) node port tag val.now a)) caller.old.chair caller.new.chair) }
{
    match caller.put(rt, alloc, graph, node, port, tag, val) {
        Ok(_) => Ok(()),
        Err(stop) => Err(stop),
    }
}

// Starts an input.
fn activate<B: Naming, R: Wait, S: Bodies, G: Gate>(
    rt: &R,
    graph: &Graph<S, G, B>,
    caller: &mut Caller<B>,
    node: u32,
) -> Result<(), Stop>
    requires of { IsCaller (S.meanings graph.now.bench.bodies.now) graph.now.book.run graph.now.book.items graph.now.book.events caller.old.chair }
    requires worker { IsWorker (S.meanings graph.now.bench.bodies.now) graph.now.book.run graph.now.book.items graph.now.book.events caller.old.worker.chair caller.old.worker.busy }
    requires post { IsPostOf graph.now.pool caller.old.worker.post }
    requires calls { may_call graph.now.book.run caller.old.chair ≡ true }
    requires input { takes_acts graph.now.book.run.shape node ≡ true }
    ensures of { IsCaller (S.meanings graph.now.bench.bodies.now) graph.now.book.run graph.now.book.items graph.now.book.events caller.new.chair }
    ensures worker { IsWorker (S.meanings graph.now.bench.bodies.now) graph.now.book.run graph.now.book.items graph.now.book.events caller.new.worker.chair caller.new.worker.busy }
    ensures post { IsPostOf graph.now.pool caller.new.worker.post }
    ensures party { (caller.new.chair.party ≡ caller.old.chair.party) × (caller.new.worker.chair.party ≡ caller.old.worker.chair.party) }
    ensures calls { may_call graph.now.book.run caller.new.chair ≡ true }
    ensures kept { OnOk result (caller.new.chair.kept ≡ caller.old.chair.kept) }
    ensures done { OnOk result (IsDone caller.old.chair (E.Act (number_of caller.old.chair.party) node) caller.new.chair) }
    ensures stopped { OnErr result (StopsBy (λ e. e ≡ E.Act (number_of caller.old.chair.party) node) caller.old.chair caller.new.chair) }
{
    match caller.activate(rt, graph, node) {
        Ok(()) => Ok(()),
        Err(stop) => Err(stop),
    }
}

// Waits until nothing is open.
fn wait<B: Naming, R: Wait, S: Bodies, G: Gate>(
    rt: &R,
    alloc: Global,
    graph: &Graph<S, G, B>,
    caller: &mut Caller<B>,
) -> Result<(), Stop>
    requires of { IsCaller (S.meanings graph.now.bench.bodies.now) graph.now.book.run graph.now.book.items graph.now.book.events caller.old.chair }
    requires worker { IsWorker (S.meanings graph.now.bench.bodies.now) graph.now.book.run graph.now.book.items graph.now.book.events caller.old.worker.chair caller.old.worker.busy }
    requires post { IsPostOf graph.now.pool caller.old.worker.post }
    requires calls { may_call graph.now.book.run caller.old.chair ≡ true }
    ensures of { IsCaller (S.meanings graph.now.bench.bodies.now) graph.now.book.run graph.now.book.items graph.now.book.events caller.new.chair }
    ensures worker { IsWorker (S.meanings graph.now.bench.bodies.now) graph.now.book.run graph.now.book.items graph.now.book.events caller.new.worker.chair caller.new.worker.busy }
    ensures post { IsPostOf graph.now.pool caller.new.worker.post }
    ensures party { (caller.new.chair.party ≡ caller.old.chair.party) × (caller.new.worker.chair.party ≡ caller.old.worker.chair.party) }
    ensures calls { may_call graph.now.book.run caller.new.chair ≡ true }
    ensures same { IsSame caller.old.chair caller.new.chair }
    ensures done { OnOk result (open_after graph.now.book.run.shape caller.new.chair.seen ≡ 0) }
{
    match caller.wait_for_all(rt, alloc, graph) {
        Waited::Quiet => Ok(()),
        Waited::Halted(stop) => Err(stop),
    }
}

// Does a step.
fn do_step<B: Naming, R: Wait, S: Bodies, G: Gate>(
    rt: &R,
    alloc: Global,
    graph: &Graph<S, G, B>,
    caller: &mut Caller<B>,
    step: &Step,
) -> Result<(), Stop>
    requires of { IsCaller (S.meanings graph.now.bench.bodies.now) graph.now.book.run graph.now.book.items graph.now.book.events caller.old.chair }
    requires worker { IsWorker (S.meanings graph.now.bench.bodies.now) graph.now.book.run graph.now.book.items graph.now.book.events caller.old.worker.chair caller.old.worker.busy }
    requires post { IsPostOf graph.now.pool caller.old.worker.post }
    requires calls { may_call graph.now.book.run caller.old.chair ≡ true }
    requires good { is_good_step graph.now.book.run.shape step.now ≡ true }
    ensures of { IsCaller (S.meanings graph.now.bench.bodies.now) graph.now.book.run graph.now.book.items graph.now.book.events caller.new.chair }
    ensures worker { IsWorker (S.meanings graph.now.bench.bodies.now) graph.now.book.run graph.now.book.items graph.now.book.events caller.new.worker.chair caller.new.worker.busy }
    ensures post { IsPostOf graph.now.pool caller.new.worker.post }
    ensures party { (caller.new.chair.party ≡ caller.old.chair.party) × (caller.new.worker.chair.party ≡ caller.old.worker.chair.party) }
    ensures calls { may_call graph.now.book.run caller.new.chair ≡ true }
    ensures kept { OnOk result (caller.new.chair.kept ≡ caller.old.chair.kept) }
    ensures done { OnOk result (DoesStep graph.now.book.run.shape step.now caller.old.chair caller.new.chair) }
    ensures stopped { OnErr result (StopsBy (IsOfStep (number_of caller.old.chair.party) step.now) caller.old.chair caller.new.chair) }
{
    match step {
        Step::Put {
            node,
            port,
            tag,
            val,
        } => put(rt, alloc, graph, caller, *node, *port, *tag, val),
        Step::Act { node } => activate(rt, graph, caller, *node),
        Step::Wait => wait(rt, alloc, graph, caller),
        Step::Cancel => unreachable!(),
    }
}

// The next step of a script, and whether it was done.
fn next_step<B: Naming, R: Wait, S: Bodies, G: Gate>(
    rt: &R,
    alloc: Global,
    graph: &Graph<S, G, B>,
    caller: &mut Caller<B>,
    script: &Items<Step>,
    at: usize,
) -> bool
    requires of { IsCaller (S.meanings graph.now.bench.bodies.now) graph.now.book.run graph.now.book.items graph.now.book.events caller.old.chair }
    requires worker { IsWorker (S.meanings graph.now.bench.bodies.now) graph.now.book.run graph.now.book.items graph.now.book.events caller.old.worker.chair caller.old.worker.busy }
    requires post { IsPostOf graph.now.pool caller.old.worker.post }
    requires calls { may_call graph.now.book.run caller.old.chair ≡ true }
    requires good { list_all (is_good_step graph.now.book.run.shape) script.now ≡ true }
    requires within { at < length script.now }
    requires none { caller.old.chair.kept ≡ None }
    requires at { IsAt graph.now.book.run.shape script.now at caller.old.chair }
    ensures of { IsCaller (S.meanings graph.now.bench.bodies.now) graph.now.book.run graph.now.book.items graph.now.book.events caller.new.chair }
    ensures worker { IsWorker (S.meanings graph.now.bench.bodies.now) graph.now.book.run graph.now.book.items graph.now.book.events caller.new.worker.chair caller.new.worker.busy }
    ensures post { IsPostOf graph.now.pool caller.new.worker.post }
    ensures party { (caller.new.chair.party ≡ caller.old.chair.party) × (caller.new.worker.chair.party ≡ caller.old.worker.chair.party) }
    ensures calls { may_call graph.now.book.run caller.new.chair ≡ true }
    ensures next { result ≡ true → (caller.new.chair.kept ≡ None) × IsAt graph.now.book.run.shape script.now (at + 1) caller.new.chair }
    ensures followed { result ≡ false → HasFollowed graph.now.book.run.shape script.now caller.new.chair }
{
    match script.get(at) {
        Some(step) => {
            let did = do_step(rt, alloc, graph, caller, step);
            let _ = caller.number(graph);
            match did {
                Ok(()) => true,
                Err(_) => false,
            }
        }
        None => unreachable!(),
    }
}

// Leaves.
fn leave<B: Naming, R: Wait, S: Bodies, G: Gate>(
    rt: &R,
    graph: &Graph<S, G, B>,
    caller: &mut Caller<B>,
)
    requires of { IsCaller (S.meanings graph.now.bench.bodies.now) graph.now.book.run graph.now.book.items graph.now.book.events caller.old.chair }
    requires worker { IsWorker (S.meanings graph.now.bench.bodies.now) graph.now.book.run graph.now.book.items graph.now.book.events caller.old.worker.chair caller.old.worker.busy }
    requires post { IsPostOf graph.now.pool caller.old.worker.post }
    requires calls { may_call graph.now.book.run caller.old.chair ≡ true }
    ensures of { IsCaller (S.meanings graph.now.bench.bodies.now) graph.now.book.run graph.now.book.items graph.now.book.events caller.new.chair }
    ensures worker { IsWorker (S.meanings graph.now.bench.bodies.now) graph.now.book.run graph.now.book.items graph.now.book.events caller.new.worker.chair caller.new.worker.busy }
    ensures post { IsPostOf graph.now.pool caller.new.worker.post }
    ensures party { (caller.new.chair.party ≡ caller.old.chair.party) × (caller.new.worker.chair.party ≡ caller.old.worker.chair.party) }
    ensures left { LeavesOr caller.old.chair caller.new.chair }
    ensures own { HasAllOwn caller.new.chair }
{
    let left = caller.leave(rt, graph);
    let _ = caller.number(graph);
    match left {
        Ok(()) => {}
        Err(_) => {}
    }
}

// Follows a script to its end, and then leaves, or to the first refusal.
fn follow_script<B: Naming, R: Wait, S: Bodies, G: Gate>(
    rt: &R,
    alloc: Global,
    graph: &Graph<S, G, B>,
    caller: &mut Caller<B>,
    script: &Items<Step>,
)
    requires of { IsCaller (S.meanings graph.now.bench.bodies.now) graph.now.book.run graph.now.book.items graph.now.book.events caller.old.chair }
    requires worker { IsWorker (S.meanings graph.now.bench.bodies.now) graph.now.book.run graph.now.book.items graph.now.book.events caller.old.worker.chair caller.old.worker.busy }
    requires post { IsPostOf graph.now.pool caller.old.worker.post }
    requires calls { may_call graph.now.book.run caller.old.chair ≡ true }
    requires good { list_all (is_good_step graph.now.book.run.shape) script.now ≡ true }
    requires new { IsNew caller.old.chair }
    ensures of { IsCaller (S.meanings graph.now.bench.bodies.now) graph.now.book.run graph.now.book.items graph.now.book.events caller.new.chair }
    ensures worker { IsWorker (S.meanings graph.now.bench.bodies.now) graph.now.book.run graph.now.book.items graph.now.book.events caller.new.worker.chair caller.new.worker.busy }
    ensures post { IsPostOf graph.now.pool caller.new.worker.post }
    ensures party { (caller.new.chair.party ≡ caller.old.chair.party) × (caller.new.worker.chair.party ≡ caller.old.worker.chair.party) }
    ensures followed { HasFollowed graph.now.book.run.shape script.now caller.new.chair }
{
    let mut at = 0;
    'steps: while at < script.len() {
        if !next_step(rt, alloc, graph, caller, script, at) {
            return;
        }
        at += 1;
    }
    leave(rt, graph, caller);
}

/// A caller follows its script of the document.
pub(crate) fn follow<B: Naming, R: Wait, S: Bodies, G: Gate>(
    rt: &R,
    alloc: Global,
    graph: &Graph<S, G, B>,
    caller: &mut Caller<B>,
    doc: &Doc,
)
    requires of { IsCaller (S.meanings graph.now.bench.bodies.now) graph.now.book.run graph.now.book.items graph.now.book.events caller.old.chair }
    requires worker { IsWorker (S.meanings graph.now.bench.bodies.now) graph.now.book.run graph.now.book.items graph.now.book.events caller.old.worker.chair caller.old.worker.busy }
    requires post { IsPostOf graph.now.pool caller.old.worker.post }
    requires calls { may_call graph.now.book.run caller.old.chair ≡ true }
    requires new { IsNew caller.old.chair }
    requires scripts { (graph.now.book.run.callers ≡ length doc.now.scripts) × (list_all (list_all (is_good_step graph.now.book.run.shape)) doc.now.scripts ≡ true) }
    ensures of { IsCaller (S.meanings graph.now.bench.bodies.now) graph.now.book.run graph.now.book.items graph.now.book.events caller.new.chair }
    ensures worker { IsWorker (S.meanings graph.now.bench.bodies.now) graph.now.book.run graph.now.book.items graph.now.book.events caller.new.worker.chair caller.new.worker.busy }
    ensures post { IsPostOf graph.now.pool caller.new.worker.post }
    ensures party { (caller.new.chair.party ≡ caller.old.chair.party) × (caller.new.worker.chair.party ≡ caller.old.worker.chair.party) }
    ensures followed { FollowsOwn graph.now.book.run.shape doc.now.scripts caller.new.chair }
{
    match doc.scripts.get(caller.number(graph) as usize) {
        Some(script) => follow_script(rt, alloc, graph, caller, script),
        None => unreachable!(),
    }
}
