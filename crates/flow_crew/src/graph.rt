//! What the callers and workers of a graph share.
ghost use Rattle.std.specs.Prelude.{◌≡◌, ◌<◌, true, length, IfSome};
ghost use Rattle.std.specs.List.{list_all};
ghost use Rattle.flow_shape.specs.Rules.{IsValid};
ghost use Rattle.flow_doc.specs.Fits.{kind_fits};
ghost use Rattle.flow_node.specs.Built.{is_built};
ghost use Rattle.flow_pool.specs.Posts.{IsPostOf};
ghost use Rattle.flow_book.specs.Answers.{about_of, IsSame};
ghost use Rattle.flow_book.specs.Stopped.{Shows, KeepsRefused};

use crate::bell::Bell;
use crate::bodies::{Bench, Bodies};
use crate::mark::Mark;
use flow_book::{Book, Gate, GraphMachine};
use flow_doc::Doc;
use flow_item::Stop;
use flow_line::{Chair, Naming};
use flow_pool::{Pool, Post};
use std::sync::Wait;

/// A document's nodes behind their locks, the pool of those that may have work, and the bodies.
#[derive(Drop)]
pub struct Graph<'a, S: Bodies, G: Gate, B: Naming> {
    pub(crate) doc: &'a Doc,
    pub(crate) book: Book<B>,
    pub(crate) pool: Pool,
    pub(crate) bench: Bench<'a, S>,
    pub(crate) gate: &'a G,
    pub(crate) bell: Bell,
    // A mark for each node.
    pub(crate) marks: Vec<Mark>,
    // How many callers there are.
    pub(crate) callers: u32,
    ghost scripted: { book.run.callers ≡ length doc.now.scripts },
    ghost counted: { callers ≡ book.run.callers },
    ghost pooled: { pool.nodes ≡ length book.run.shape.nodes },
    ghost marked: { length marks.items ≡ length book.run.shape.nodes },
    ghost built: { list_all is_built book.run.shape.nodes ≡ true },
    ghost shelved: { list_all (kind_fits bench.count) book.run.shape.nodes ≡ true },
}

impl<'a, S: Bodies, G: Gate, B: Naming> Graph<'a, S, G, B> {
    // The node's mark.
    pub(crate) fn mark(&self, node: u32) -> &Mark
        requires { node < length self.now.book.run.shape.nodes }
    {
        &self.marks[node as usize]
    }

    // Puts a node that may have work into the post's own queue, where others find it. Where there is no memory for it, the
    // graph is halted.
    fn push<R: Wait>(&self, rt: &R, post: &mut Post, node: u32) -> bool
        requires post { IsPostOf self.now.pool post.old }
        requires node { node < length self.now.book.run.shape.nodes }
        ensures { IsPostOf self.now.pool post.new }
    {
        match self.pool.push(post, node) {
            Ok(()) => {
                self.bell.ring();
                true
            }
            Err(_) => {
                self.book.halt(rt);
                false
            }
        }
    }

    // An event was made of a node by one who doesn't tend it: where nobody does, and it isn't in the pool, it comes there.
    pub(crate) fn tell<R: Wait>(&self, rt: &R, post: &mut Post, node: u32) -> bool
        requires post { IsPostOf self.now.pool post.old }
        requires node { node < length self.now.book.run.shape.nodes }
        ensures { IsPostOf self.now.pool post.new }
    {
        if !self.mark(node).tell(rt) {
            return true;
        }
        self.push(rt, post, node)
    }

    // The same for the node at the other end of an edge, if there was one.
    pub(crate) fn tell_other<R: Wait>(&self, rt: &R, post: &mut Post, other: Option<u32>) -> bool
        requires post { IsPostOf self.now.pool post.old }
        requires other { IfSome other (λ n. n < length self.now.book.run.shape.nodes) }
        ensures { IsPostOf self.now.pool post.new }
    {
        match other {
            None => true,
            Some(node) => self.tell(rt, post, node),
        }
    }

    // Who tended the node leaves it to others.
    pub(crate) fn leave<R: Wait>(&self, rt: &R, post: &mut Post, node: u32) -> bool
        requires post { IsPostOf self.now.pool post.old }
        requires node { node < length self.now.book.run.shape.nodes }
        ensures { IsPostOf self.now.pool post.new }
    {
        if !self.mark(node).leave() {
            return true;
        }
        self.push(rt, post, node)
    }

    // A caller made an event of a node: where nobody tends it, and it isn't in the pool, it comes there, where all look. Where
    // there is no memory for it, the graph is halted.
    pub(crate) fn inject<R: Wait>(&self, rt: &R, post: &mut Post, node: u32)
        requires post { IsPostOf self.now.pool post.old }
        requires node { node < length self.now.book.run.shape.nodes }
        ensures { IsPostOf self.now.pool post.new }
    {
        self.bell.tell();
        if !self.mark(node).tell(rt) {
            return;
        }
        match self.pool.inject(rt, post, node) {
            Ok(()) => self.bell.ring(),
            Err(_) => {
                self.book.halt(rt);
                self.bell.call();
            }
        }
    }

    // The first refusal, which stands behind its lock before a refused call answers.
    pub(crate) fn refusal<R: Wait>(&self, rt: &R, c: &mut Chair<GraphMachine, B>) -> Stop
        requires kept { KeepsRefused c.old }
        ensures shown { Shows c.new result }
        ensures same { IsSame c.old c.new }
    {
        self.bell.call();
        for _ in rt.forever() {
            if let Some(stop) = self.book.stopped(rt, c) {
                return stop;
            }
        }
        unreachable!()
    }
}
