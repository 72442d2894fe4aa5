//! Whether a document is determinate, and what it means.

ghost use Rattle.std.specs.Prelude.{◌≡◌, ◌<◌, ◌^◌, ◌&&◌, true, [], length, get_or, slice_get, IfOk, IfSome};
ghost use Rattle.std.specs.List.{list_all};
ghost use Rattle.flow_item.specs.Lists.{has};
ghost use Rattle.flow_shape.specs.Rules.{IsValid};
ghost use Rattle.flow_body.specs.Shelves.{meanings_of_shelf};
ghost use Rattle.flow_doc.specs.Fits.{doc_fits, kind_fits};
ghost use Rattle.flow_mean.specs.Meaning.{meaning, is_sequencer};
ghost use Rattle.flow_shape.specs.Wiring.{is_some_and};
ghost use Rattle.flow_mean.specs.Determinate.{determinate, IsDeterminate};
ghost use Rattle.flow_mean.specs.Judging.{Judges, loose_at, or_else, early, late};
ghost use Rattle.flow_mean.specs.Passing.{IsTidy};
ghost use Rattle.flow_mean.specs.Whole.{IsWhole, Finds, meant_at};

use crate::cycles::cyclic;
use crate::flow::{Flow, flow_of};
use crate::kinds::is_sequencer;
use crate::rules::{cancelled, disorderly, forked, free, losing, repeating, unsorted};
use crate::tables::{has_cancel, outs_of, put_marks, sink_marks, unasked_marks};
use crate::tag_map::{Pairs, TagMap};
use crate::{Loose, LooseRule, MeanFault};
use flow_body::Shelf;
use flow_doc::Doc;
use flow_item::{NoMemory, Val};
use std::alloc::Global;

/// A rule that fails at this node.
fn loose_at(rule: LooseRule, at: Option<usize>) -> Option<Loose>
    requires { IfSome at (λ n. n < 2 ^ 32) }
    ensures { result ≡ loose_at rule at }
{
    match at {
        None => None,
        Some(at) => Some(Loose {
            rule,
            at: at as u32,
        }),
    }
}

/// The first of two.
fn either(first: Option<Loose>, later: Option<Loose>) -> Option<Loose>
    ensures { result ≡ or_else first later }
{
    match first {
        Some(loose) => Some(loose),
        None => later,
    }
}

/// The first rule that fails, of those that look at no tag.
fn early(alloc: Global, doc: &Doc, shelf: &Shelf) -> Result<Option<Loose>, NoMemory>
    requires valid { IsValid doc.now.shape }
    requires kinds { list_all (kind_fits (length shelf.now.bodies.items)) doc.now.shape.nodes ≡ true }
    ensures { IfOk result (λ o. o ≡ early (meanings_of_shelf (λ n. pure (n.body.vtable, n.body.value)) (λ n. single (n.body.vtable, n.body.value)) (λ n. out (n.body.vtable, n.body.value)) shelf.now.bodies.items) doc.now) }
{
    let outs = outs_of(alloc, &doc.shape)?;
    let puts = put_marks(alloc, doc)?;
    let unasked = unasked_marks(alloc, doc, outs.as_slice())?;
    let kind = loose_at(LooseRule::N1, disorderly(doc));
    let cycle = loose_at(LooseRule::N2, cyclic(alloc, &doc.shape)?);
    let fork = loose_at(LooseRule::N3, forked(doc, outs.as_slice()));
    let loss = loose_at(
        LooseRule::N4,
        losing(doc, outs.as_slice(), puts.as_slice(), unasked.as_slice()),
    );
    let body = loose_at(LooseRule::N5, free(doc, shelf));
    Ok(either(kind, either(cycle, either(fork, either(loss, body)))))
}

/// The first rule that fails, of the others.
fn late(alloc: Global, doc: &Doc, shelf: &Shelf, flow: &Flow) -> Result<Option<Loose>, NoMemory>
    requires valid { IsValid doc.now.shape }
    requires whole { IsWhole (meanings_of_shelf (λ n. pure (n.body.vtable, n.body.value)) (λ n. single (n.body.vtable, n.body.value)) (λ n. out (n.body.vtable, n.body.value)) shelf.now.bodies.items) doc.now flow.now }
    ensures { IfOk result (λ o. o ≡ late (meanings_of_shelf (λ n. pure (n.body.vtable, n.body.value)) (λ n. single (n.body.vtable, n.body.value)) (λ n. out (n.body.vtable, n.body.value)) shelf.now.bodies.items) doc.now) }
{
    let sinks = sink_marks(alloc, doc)?;
    let cancels = has_cancel(doc);
    let repeat = loose_at(LooseRule::N6, repeating(doc, flow.repeats.as_slice()));
    let sink = loose_at(LooseRule::N7, unsorted(doc, sinks.as_slice()));
    let cancel = loose_at(LooseRule::N8, cancelled(doc, cancels));
    Ok(either(repeat, either(sink, cancel)))
}

/// What a determinate document means, found for all its nodes at once.
#[derive(Drop)]
pub struct Meant {
    flow: Flow,
}

impl Meant {
    /// What a node passes; what it keeps, where it is a sequencer that is a sink. By rising tag.
    pub fn at(&self, doc: &Doc, node: u32) -> &[(u64, Val)]
        ensures { result.now ≡ meant_at doc.now self.now node }
    {
        if is_shown(doc, node) {
            return pairs_at(self.flow.kept.as_slice(), node as usize);
        }
        pairs_at(self.flow.passed.as_slice(), node as usize)
    }
}

/// The pairs at a place, none past the end.
fn pairs_at(lists: &[Pairs], place: usize) -> &[(u64, Val)]
    ensures { result.now ≡ get_or lists.now place [] }
{
    match lists.get(place) {
        Some(pairs) => pairs.as_slice(),
        None => &[],
    }
}

/// What a document means that keeps the rules that look at no tag, or the first of the others that fails.
fn settled(alloc: Global, doc: &Doc, shelf: &Shelf) -> Result<Meant, MeanFault>
    requires valid { IsValid doc.now.shape }
    requires kinds { list_all (kind_fits (length shelf.now.bodies.items)) doc.now.shape.nodes ≡ true }
    requires tidy { IsTidy (meanings_of_shelf (λ n. pure (n.body.vtable, n.body.value)) (λ n. single (n.body.vtable, n.body.value)) (λ n. out (n.body.vtable, n.body.value)) shelf.now.bodies.items) doc.now }
    ensures { Finds (meanings_of_shelf (λ n. pure (n.body.vtable, n.body.value)) (λ n. single (n.body.vtable, n.body.value)) (λ n. out (n.body.vtable, n.body.value)) shelf.now.bodies.items) doc.now result }
{
    let flow = flow_of(alloc, doc, shelf)?;
    match late(alloc, doc, shelf, &flow)? {
        Some(loose) => Err(MeanFault::Loose(loose)),
        None => Ok(Meant { flow }),
    }
}

/// What a document means, or the first rule of determinate documents that fails, at its least node.
///
/// In n log n time in the nodes, edges, puts and messages, where no way leads from a node back to it.
pub fn judged(alloc: Global, doc: &Doc, shelf: &Shelf) -> Result<Meant, MeanFault>
    requires { doc_fits (length shelf.now.bodies.items) doc.now ≡ true }
    ensures { Finds (meanings_of_shelf (λ n. pure (n.body.vtable, n.body.value)) (λ n. single (n.body.vtable, n.body.value)) (λ n. out (n.body.vtable, n.body.value)) shelf.now.bodies.items) doc.now result }
{
    match early(alloc, doc, shelf)? {
        Some(loose) => Err(MeanFault::Loose(loose)),
        None => settled(alloc, doc, shelf),
    }
}

/// The first rule of determinate documents that fails, at its least node.
///
/// In the time of `judged`.
pub fn determinate(alloc: Global, doc: &Doc, shelf: &Shelf) -> Result<(), MeanFault>
    requires { doc_fits (length shelf.now.bodies.items) doc.now ≡ true }
    ensures { Judges (determinate (meanings_of_shelf (λ n. pure (n.body.vtable, n.body.value)) (λ n. single (n.body.vtable, n.body.value)) (λ n. out (n.body.vtable, n.body.value)) shelf.now.bodies.items) doc.now) result }
{
    match judged(alloc, doc, shelf) {
        Ok(_meant) => Ok(()),
        Err(fault) => Err(fault),
    }
}

/// What a node of a determinate document passes; what it keeps, where it is a sequencer that is a sink.
///
/// In n log n time in the nodes, edges, puts and messages.
pub fn meaning(alloc: Global, doc: &Doc, shelf: &Shelf, node: u32) -> Result<TagMap, NoMemory>
    requires fits { doc_fits (length shelf.now.bodies.items) doc.now ≡ true }
    requires determinate { IsDeterminate (meanings_of_shelf (λ n. pure (n.body.vtable, n.body.value)) (λ n. single (n.body.vtable, n.body.value)) (λ n. out (n.body.vtable, n.body.value)) shelf.now.bodies.items) doc.now }
    requires within { node < length doc.now.shape.nodes }
    ensures { IfOk result (λ m. m.pairs ≡ meaning (meanings_of_shelf (λ n. pure (n.body.vtable, n.body.value)) (λ n. single (n.body.vtable, n.body.value)) (λ n. out (n.body.vtable, n.body.value)) shelf.now.bodies.items) doc.now node) }
{
    let mut flow = flow_of(alloc, doc, shelf)?;
    let shown = is_shown(doc, node);
    Ok(TagMap::of(flow.take_pairs(alloc, node as usize, shown)))
}

/// Whether the node is a sequencer that is a sink.
fn is_shown(doc: &Doc, node: u32) -> bool
    ensures { result ≡ (has doc.now.sinks node && is_some_and is_sequencer (slice_get doc.now.shape.nodes node)) }
{
    match doc.shape.nodes.get(node as usize) {
        Some(kind) => is_sequencer(kind) && is_sink(doc, node),
        None => false,
    }
}

fn is_sink(doc: &Doc, node: u32) -> bool
    ensures { result ≡ has doc.now.sinks node }
{
    doc.sinks.as_slice().iter().any(|sink| *sink == node)
}
