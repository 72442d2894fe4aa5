//! The rules of determinate documents, each with the least node where it fails.

ghost use Rattle.std.specs.Prelude.{◌≡◌, ◌<◌, ◌&&◌, ◌||◌, ℕ, true, not, length, IfSome};
ghost use Rattle.std.specs.List.{list_all, list_any};
ghost use Rattle.flow_item.specs.Lists.{has};
ghost use Rattle.flow_shape.specs.Kinds.{is_single_push};
ghost use Rattle.flow_machine.specs.Bodies.{Meanings};
ghost use Rattle.flow_doc.specs.declared.Doc.{Doc};
ghost use Rattle.flow_body.specs.Shelves.{meanings_of_shelf};
ghost use Rattle.flow_doc.specs.Fits.{kind_fits};
ghost use Rattle.flow_mean.specs.Meaning.{is_sequencer};
ghost use Rattle.flow_mean.specs.Determinate.{is_orderly, is_function, is_cancel, is_put_to, has_several_out_edges, may_lose, has_loose_body, repeats_tag};
ghost use Rattle.flow_mean.specs.Judging.{least, AreOuts, AreMarks, AreRepeats, comes_unasked_to};

use crate::kinds::{is_bounded, is_function, is_orderly, is_sequencer, may_refuse};
use flow_body::Shelf;
use flow_doc::Doc;
use flow_shape::Kind;

/// Whether a node passes each item to one successor, and has several edges out.
fn is_forked(doc: &Doc, outs: &[u32], node: usize, kind: &Kind) -> bool
    requires outs { AreOuts doc.now.shape outs.now }
    requires within { node < length doc.now.shape.nodes }
    ensures { result ≡ (is_single_push kind.now && has_several_out_edges doc.now node) }
{
    kind.is_single_push() && outs[node] > 1
}

/// Whether a node is a sink and no sequencer.
fn is_unsorted(doc: &Doc, sinks: &[bool], node: usize, kind: &Kind) -> bool
    requires sinks { AreMarks (length doc.now.shape.nodes) (has doc.now.sinks) sinks.now }
    requires within { node < length doc.now.shape.nodes }
    ensures { result ≡ (has doc.now.sinks node && not (is_sequencer kind.now)) }
{
    sinks[node] && !is_sequencer(kind)
}

/// Whether a node is a function, and a caller cancels.
fn is_cancelled(kind: &Kind, cancels: bool) -> bool
    ensures { result ≡ (is_function kind.now && cancels) }
{
    is_function(kind) && cancels
}

/// Whether a body isn't pure, or doesn't answer one message.
fn is_free(is_pure: bool, is_single: bool) -> bool
    ensures { result ≡ not (is_pure && is_single) }
{
    !(is_pure && is_single)
}

/// Whether a function's body isn't pure, or doesn't answer one message.
fn has_free_body(shelf: &Shelf, kind: &Kind) -> bool
    requires { kind_fits (length shelf.now.bodies.items) kind.now ≡ true }
    ensures { (doc : Doc) (n : ℕ) → result ≡ has_loose_body (meanings_of_shelf (λ n. pure (n.body.vtable, n.body.value)) (λ n. single (n.body.vtable, n.body.value)) (λ n. out (n.body.vtable, n.body.value)) shelf.now.bodies.items) doc n kind.now }
{
    match kind {
        Kind::Function { body, .. } => match shelf.body(*body) {
            Some(body) => is_free(body.is_pure(), body.is_single()),
            None => unreachable!(),
        },
        _ => false,
    }
}

/// A node of a kind that no determinate document has.
pub fn disorderly(doc: &Doc) -> Option<usize>
    ensures first { result ≡ least doc.now (λ n k. not (is_orderly k)) }
    ensures within { IfSome result (λ n. n < length doc.now.shape.nodes) }
{
    for (node, kind) in doc.shape.nodes.as_slice().iter().enumerate() {
        if !is_orderly(kind) {
            return Some(node);
        }
    }
    None
}

/// A node that passes each item to one successor, and has several edges out.
pub fn forked(doc: &Doc, outs: &[u32]) -> Option<usize>
    requires outs { AreOuts doc.now.shape outs.now }
    ensures first { result ≡ least doc.now (λ n k. is_single_push k && has_several_out_edges doc.now n) }
    ensures within { IfSome result (λ n. n < length doc.now.shape.nodes) }
{
    for (node, kind) in doc.shape.nodes.as_slice().iter().enumerate() {
        if is_forked(doc, outs, node, kind) {
            return Some(node);
        }
    }
    None
}

/// A node that may lose an item: one that may refuse what comes unasked, or a bounded one that never gives.
pub fn losing(doc: &Doc, outs: &[u32], puts: &[bool], unasked: &[bool]) -> Option<usize>
    requires outs { AreOuts doc.now.shape outs.now }
    requires puts { AreMarks (length doc.now.shape.nodes) (is_put_to doc.now) puts.now }
    requires unasked { AreMarks (length doc.now.shape.nodes) (comes_unasked_to doc.now) unasked.now }
    ensures first { result ≡ least doc.now (may_lose doc.now) }
    ensures within { IfSome result (λ n. n < length doc.now.shape.nodes) }
{
    for (node, kind) in doc.shape.nodes.as_slice().iter().enumerate() {
        if (may_refuse(kind) && (puts[node] || unasked[node]))
            || (is_bounded(kind) && outs[node] == 0)
        {
            return Some(node);
        }
    }
    None
}

/// A function whose body isn't pure, or doesn't answer one message.
pub fn free(doc: &Doc, shelf: &Shelf) -> Option<usize>
    requires { list_all (kind_fits (length shelf.now.bodies.items)) doc.now.shape.nodes ≡ true }
    ensures first { result ≡ least doc.now (has_loose_body (meanings_of_shelf (λ n. pure (n.body.vtable, n.body.value)) (λ n. single (n.body.vtable, n.body.value)) (λ n. out (n.body.vtable, n.body.value)) shelf.now.bodies.items) doc.now) }
    ensures within { IfSome result (λ n. n < length doc.now.shape.nodes) }
{
    for (node, kind) in doc.shape.nodes.as_slice().iter().enumerate() {
        if has_free_body(shelf, kind) {
            return Some(node);
        }
    }
    None
}

/// A node to a port of which a tag comes twice.
pub fn repeating(doc: &Doc, repeats: &[bool]) -> Option<usize>
    requires size { length repeats.now ≡ length doc.now.shape.nodes }
    ensures first { (meanings : Meanings) → AreRepeats meanings doc.now repeats.now → result ≡ least doc.now (repeats_tag meanings doc.now) }
    ensures within { IfSome result (λ n. n < length doc.now.shape.nodes) }
{
    for (node, kind) in doc.shape.nodes.as_slice().iter().enumerate() {
        if repeats[node] {
            return Some(node);
        }
    }
    None
}

/// A sink that is no sequencer.
pub fn unsorted(doc: &Doc, sinks: &[bool]) -> Option<usize>
    requires sinks { AreMarks (length doc.now.shape.nodes) (has doc.now.sinks) sinks.now }
    ensures first { result ≡ least doc.now (λ n k. has doc.now.sinks n && not (is_sequencer k)) }
    ensures within { IfSome result (λ n. n < length doc.now.shape.nodes) }
{
    for (node, kind) in doc.shape.nodes.as_slice().iter().enumerate() {
        if is_unsorted(doc, sinks, node, kind) {
            return Some(node);
        }
    }
    None
}

/// A function, where a caller cancels.
pub fn cancelled(doc: &Doc, cancels: bool) -> Option<usize>
    requires cancels { cancels ≡ list_any (list_any is_cancel) doc.now.scripts }
    ensures first { result ≡ least doc.now (λ n k. is_function k && list_any (list_any is_cancel) doc.now.scripts) }
    ensures within { IfSome result (λ n. n < length doc.now.shape.nodes) }
{
    for (node, kind) in doc.shape.nodes.as_slice().iter().enumerate() {
        if is_cancelled(kind, cancels) {
            return Some(node);
        }
    }
    None
}
