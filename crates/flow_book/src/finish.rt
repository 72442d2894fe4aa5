//! How bodies end.
ghost use Rattle.std.specs.Prelude.{◌≡◌, ◌<◌, ◌≤◌, ℕ, true, [], take, length, Some, OnOk, IfOk, IfErr};
ghost use Rattle.flow_item.specs.declared.event.Event.TheVariants as E;
ghost use Rattle.flow_item.specs.declared.event.Party.TheVariants.{Node as of_node};
ghost use Rattle.flow_shape.specs.Kinds.{is_input};
ghost use Rattle.flow_shape.specs.Wiring.{at_node};
ghost use Rattle.flow_machine.specs.Enabled.{has_ticket};
ghost use Rattle.flow_machine.specs.Machine.{Task, task_of};
ghost use Rattle.flow_book.specs.Answers.{about_of, IsDone, IsHalted, Was, IsPlaced, event_back, AtLimit, IsUpTo};
ghost use Rattle.flow_book.specs.Callers.{number_of, is_worker_about, is_idle_worker};
ghost use Rattle.flow_book.specs.Jobs.{RunsJob, is_submit, Ends, IsEnded, outs_back, answers_about, is_asked, Brings, IsBrought, IsBack};
ghost use Rattle.flow_book.specs.Serving.{RunnableAbout};

use crate::book::Book;
use crate::gate::{Gate, Point};
use crate::job::{Job, Took, Unfinished, outs_in, outs_unless_kept};
use crate::machine::GraphMachine;
use crate::post::{Post, Refused};
use crate::ticket::{has_ticket, submits};
use flow_body::Ask;
use flow_item::{Event, NoMemory, Outs, Party, Stop};
use flow_line::{Chair, Line, Naming};
use flow_shape::{Kind, Shape};
use std::alloc::Global;
use std::sync::Wait;

impl<B: Naming> Post<B> {
    /// Ends the body that the worker runs on an item of the node.
    pub(crate) fn make_end<R: Wait, G: Gate>(
        &mut self,
        rt: &R,
        line: &Line<GraphMachine, B>,
        w: &mut Chair<GraphMachine, B>,
        item: u64,
        outs: Outs,
        gate: &G,
    ) -> Result<(), Refused>
        requires runs { RunnableAbout self.old.chair.about }
        requires about { w.old.about ≡ self.old.chair.about }
        requires seen { w.old.seen ≡ self.old.chair.seen }
        requires worker { is_worker_about w.old.about w.old.party ≡ true }
        requires task { let t : Task = Some (number_of self.old.chair.party, item) in task_of w.old.own ≡ t }
        requires outs { answers_about self.old.chair.about (number_of self.old.chair.party) outs ≡ true }
        ensures ended { OnOk result ((first : ℕ) × IsDone w.old (E.End (number_of w.old.party) (number_of self.old.chair.party) item first outs) w.new) }
        ensures refused { IfErr result (λ r. (first : ℕ) × IsHalted w.old (Was (E.End (number_of w.old.party) (number_of self.old.chair.party) item first outs)) w.new r.stop
            × (r.event ≡ event_back w.old.kept r.stop (E.End (number_of w.old.party) (number_of self.old.chair.party) item first outs))) }
    {
        let Party::Worker(worker) = w.party() else {
            unreachable!()
        };
        let node = self.number();
        self.known();
        let _ = w.own_len();
        let first = self.node().made();
        let event = Event::End {
            worker,
            node,
            item,
            first,
            outs,
        };
        match self.make_by(rt, line, w, event, gate) {
            Ok(()) => Ok(()),
            Err(refused) => Err(refused),
        }
    }
}

impl<B: Naming> Post<B> {
    /// Brings an open ticket of the node back.
    pub(crate) fn make_back<R: Wait, G: Gate>(
        &mut self,
        rt: &R,
        line: &Line<GraphMachine, B>,
        w: &mut Chair<GraphMachine, B>,
        ticket: u64,
        outs: Outs,
        gate: &G,
    ) -> Result<(), Refused>
        requires runs { RunnableAbout self.old.chair.about }
        requires about { w.old.about ≡ self.old.chair.about }
        requires seen { w.old.seen ≡ self.old.chair.seen }
        requires worker { is_idle_worker w.old ≡ true }
        requires ticket { has_ticket self.old.node.state.part ticket ≡ true }
        ensures brought { OnOk result ((first : ℕ) × IsDone w.old (E.Back (number_of w.old.party) (number_of self.old.chair.party) ticket first outs) w.new
            × IsPlaced self.old.chair (E.Back (number_of w.old.party) (number_of self.old.chair.party) ticket first outs) w.new) }
        ensures refused { IfErr result (λ r. (first : ℕ) × IsHalted w.old (Was (E.Back (number_of w.old.party) (number_of self.old.chair.party) ticket first outs)) w.new r.stop
            × (r.event ≡ event_back w.old.kept r.stop (E.Back (number_of w.old.party) (number_of self.old.chair.party) ticket first outs))) }
        ensures own { IfErr result (λ r. AtLimit r.stop (IsUpTo self.old.chair w.new)) }
    {
        let Party::Worker(worker) = w.party() else {
            unreachable!()
        };
        let node = self.number();
        self.known();
        let _ = w.own_len();
        let first = self.node().made();
        let event = Event::Back {
            worker,
            node,
            item: ticket,
            first,
            outs,
        };
        match self.make_by(rt, line, w, event, gate) {
            Ok(()) => Ok(()),
            Err(refused) => Err(refused),
        }
    }
}

// The first message alone. The values of messages fit.
fn first_alone(alloc: Global, outs: &Outs) -> Result<Outs, NoMemory>
    ensures { IfOk result (λ o. o ≡ take 1 outs.now) }
{
    let mut alone = Outs::new(alloc);
    match outs.get(0) {
        Some(msg) => {
            let val = msg.val.copy(alloc)?;
            if !val.fits() || alone.push(alloc, msg.port, msg.tag, val).is_err() {
                return Err(NoMemory);
            }
            Ok(alone)
        }
        None => Ok(alone),
    }
}

// Whether the node is an input.
fn is_input(shape: &Shape, n: u32) -> bool
    ensures { result ≡ at_node shape.now n is_input }
{
    matches!(shape.nodes.get(n as usize), Some(Kind::Input { .. }))
}

impl<B: Naming> Book<B> {
    /// Ends a job that the worker runs, with the messages of its body: at an input node the first goes alone. Waits for
    /// the node's lock, and with it for the journal's. The journal takes the messages, and each is copied once for the
    /// node; the first of several at an input is copied once more. It stops as `put` does: then the job still runs, and
    /// comes back, with its messages unless the chair keeps the event that has them.
    pub fn finish<R: Wait, G: Gate>(
        &self,
        rt: &R,
        alloc: Global,
        w: &mut Chair<GraphMachine, B>,
        job: Job,
        outs: Outs,
        gate: &G,
    ) -> Result<(), Unfinished>
        requires of { w.old.about ≡ about_of self.now.run self.now.items self.now.events }
        requires worker { is_worker_about w.old.about w.old.party ≡ true }
        requires runs { RunsJob self.now.run w.old job }
        requires outs { is_submit job.body ≡ true → outs ≡ [] }
        ensures ended { OnOk result (IsEnded self.now.run.shape w.old job outs w.new) }
        ensures stopped { IfErr result (λ u. IsHalted w.old (Ends self.now.run.shape w.old.party job outs) w.new u.stop) }
        ensures job { IfErr result (λ u. u.job ≡ job) }
        ensures outs { IfErr result (λ u. u.outs ≡ outs_back w.old.kept u.stop outs) }
    {
        match self.try_finish(rt, alloc, w, job, outs, gate) {
            Ok(()) => Ok(()),
            Err(unfinished) => {
                self.store(rt, w, unfinished.stop);
                Err(unfinished)
            }
        }
    }

    // Ends a job. A refusal is not yet stored.
    fn try_finish<R: Wait, G: Gate>(
        &self,
        rt: &R,
        alloc: Global,
        w: &mut Chair<GraphMachine, B>,
        job: Job,
        outs: Outs,
        gate: &G,
    ) -> Result<(), Unfinished>
        requires of { w.old.about ≡ about_of self.now.run self.now.items self.now.events }
        requires worker { is_worker_about w.old.about w.old.party ≡ true }
        requires runs { RunsJob self.now.run w.old job }
        requires outs { is_submit job.body ≡ true → outs ≡ [] }
        ensures ended { OnOk result (IsEnded self.now.run.shape w.old job outs w.new) }
        ensures stopped { IfErr result (λ u. IsHalted w.old (Ends self.now.run.shape w.old.party job outs) w.new u.stop) }
        ensures job { IfErr result (λ u. u.job ≡ job) }
        ensures outs { IfErr result (λ u. u.outs ≡ outs_back w.old.kept u.stop outs) }
    {
        if is_input(&self.run.shape, job.node) && outs.len() > 1 {
            self.finish_first(rt, alloc, w, job, outs, gate)
        } else {
            self.finish_all(rt, alloc, w, job, outs, gate)
        }
    }

    // Ends a job of an input node with the first of several messages.
    fn finish_first<R: Wait, G: Gate>(
        &self,
        rt: &R,
        alloc: Global,
        w: &mut Chair<GraphMachine, B>,
        job: Job,
        outs: Outs,
        gate: &G,
    ) -> Result<(), Unfinished>
        requires of { w.old.about ≡ about_of self.now.run self.now.items self.now.events }
        requires worker { is_worker_about w.old.about w.old.party ≡ true }
        requires runs { RunsJob self.now.run w.old job }
        requires input { at_node self.now.run.shape job.node is_input ≡ true }
        ensures ended { OnOk result (IsEnded self.now.run.shape w.old job outs w.new) }
        ensures stopped { IfErr result (λ u. IsHalted w.old (Ends self.now.run.shape w.old.party job outs) w.new u.stop) }
        ensures job { IfErr result (λ u. u.job ≡ job) }
        ensures outs { IfErr result (λ u. u.outs ≡ outs_back w.old.kept u.stop outs) }
    {
        let Ok(first) = first_alone(alloc, &outs) else {
            return Err(Unfinished {
                job,
                outs,
                stop: Stop::Memory,
            });
        };
        match self.end_job(rt, w, job.node, job.item.id.no, first, gate) {
            Ok(()) => {
                drop((job, outs));
                Ok(())
            }
            Err(Refused { stop, event }) => Err(Unfinished {
                job,
                outs: outs_unless_kept(alloc, event, outs),
                stop,
            }),
        }
    }

    // Ends a job with all messages.
    fn finish_all<R: Wait, G: Gate>(
        &self,
        rt: &R,
        alloc: Global,
        w: &mut Chair<GraphMachine, B>,
        job: Job,
        outs: Outs,
        gate: &G,
    ) -> Result<(), Unfinished>
        requires of { w.old.about ≡ about_of self.now.run self.now.items self.now.events }
        requires worker { is_worker_about w.old.about w.old.party ≡ true }
        requires runs { RunsJob self.now.run w.old job }
        requires outs { is_submit job.body ≡ true → outs ≡ [] }
        requires all { at_node self.now.run.shape job.node is_input ≡ true → length outs ≤ 1 }
        ensures ended { OnOk result (IsEnded self.now.run.shape w.old job outs w.new) }
        ensures stopped { IfErr result (λ u. IsHalted w.old (Ends self.now.run.shape w.old.party job outs) w.new u.stop) }
        ensures job { IfErr result (λ u. u.job ≡ job) }
        ensures outs { IfErr result (λ u. u.outs ≡ outs_back w.old.kept u.stop outs) }
    {
        match self.end_job(rt, w, job.node, job.item.id.no, outs, gate) {
            Ok(()) => {
                drop(job);
                Ok(())
            }
            Err(Refused { stop, event }) => Err(Unfinished {
                job,
                outs: outs_in(alloc, event),
                stop,
            }),
        }
    }

    // Ends the body that the worker runs on the item of the node.
    fn end_job<R: Wait, G: Gate>(
        &self,
        rt: &R,
        w: &mut Chair<GraphMachine, B>,
        node: u32,
        item: u64,
        outs: Outs,
        gate: &G,
    ) -> Result<(), Refused>
        requires of { w.old.about ≡ about_of self.now.run self.now.items self.now.events }
        requires worker { is_worker_about w.old.about w.old.party ≡ true }
        requires task { let t : Task = Some (node, item) in task_of w.old.own ≡ t }
        requires outs { answers_about w.old.about node outs ≡ true }
        ensures ended { OnOk result ((first : ℕ) × IsDone w.old (E.End (number_of w.old.party) node item first outs) w.new) }
        ensures refused { IfErr result (λ r. (first : ℕ) × IsHalted w.old (Was (E.End (number_of w.old.party) node item first outs)) w.new r.stop
            × (r.event ≡ event_back w.old.kept r.stop (E.End (number_of w.old.party) node item first outs))) }
    {
        let mut post = self.post(rt, node);
        gate.at(rt, Point::Locked { node });
        post.meet(&self.line, w);
        match post.make_end(rt, &self.line, w, item, outs, gate) {
            Ok(()) => Ok(()),
            Err(refused) => Err(refused),
        }
    }

    /// Brings an answer from outside back to the node that asked: the messages are the node's, and the ticket of the ask
    /// is no longer open. It is a `Stranger` where, in the whole journal as it is at a moment of the call, no open ticket
    /// of the node is that of the ask, with its item and the node's argument, or there is no such node; then nothing
    /// changes. Waits for the node's lock, and with it for the journal's. Takes the time of a look at each open ticket
    /// before its own, and of the copies that `finish` makes. It stops as `put` does, and the messages come back, unless
    /// the chair keeps the event that has them.
    pub fn back<R: Wait, G: Gate>(
        &self,
        rt: &R,
        alloc: Global,
        w: &mut Chair<GraphMachine, B>,
        ask: &Ask,
        outs: Outs,
        gate: &G,
    ) -> Result<Took, (Outs, Stop)>
        requires of { w.old.about ≡ about_of self.now.run self.now.items self.now.events }
        requires worker { is_idle_worker w.old ≡ true }
        ensures took { IfOk result (λ t. IsBrought self.now.run.shape w.old ask.now outs t w.new) }
        ensures stopped { IfErr result (λ r. IsHalted w.old (Brings self.now.run.shape w.old.party ask.now outs w.new.seen) w.new r.1) }
        ensures outs { IfErr result (λ r. r.0 ≡ outs_back w.old.kept r.1 outs) }
    {
        self.line.look(w);
        if self.run.shape.nodes.len() <= ask.node as usize {
            drop(outs);
            return Ok(Took::Stranger);
        }
        match self.back_at(rt, alloc, w, ask, outs, gate) {
            Ok(took) => Ok(took),
            Err(refused) => {
                self.store(rt, w, refused.1);
                Err(refused)
            }
        }
    }

    // Brings an answer back to a node of the graph.
    fn back_at<R: Wait, G: Gate>(
        &self,
        rt: &R,
        alloc: Global,
        w: &mut Chair<GraphMachine, B>,
        ask: &Ask,
        outs: Outs,
        gate: &G,
    ) -> Result<Took, (Outs, Stop)>
        requires of { w.old.about ≡ about_of self.now.run self.now.items self.now.events }
        requires worker { is_idle_worker w.old ≡ true }
        requires node { ask.now.node < length self.now.run.shape.nodes }
        ensures took { IfOk result (λ t. IsBack self.now.run.shape w.old ask.now outs t w.new) }
        ensures stopped { IfErr result (λ r. IsHalted w.old (Brings self.now.run.shape w.old.party ask.now outs w.new.seen) w.new r.1) }
        ensures outs { IfErr result (λ r. r.0 ≡ outs_back w.old.kept r.1 outs) }
    {
        let mut post = self.post(rt, ask.node);
        gate.at(rt, Point::Locked { node: ask.node });
        post.meet(&self.line, w);
        post.known();
        if !self.is_asked(&post, ask) {
            drop(outs);
            return Ok(Took::Stranger);
        }
        match post.make_back(rt, &self.line, w, ask.ticket, outs, gate) {
            Ok(()) => Ok(Took::Took),
            Err(Refused { stop, event }) => Err((outs_in(alloc, event), stop)),
        }
    }

    // Whether the ask is that of an open ticket of the node.
    fn is_asked(&self, post: &Post<B>, ask: &Ask) -> bool
        requires of { post.now.chair.about ≡ about_of self.now.run self.now.items self.now.events }
        requires node { post.now.chair.party ≡ of_node ask.now.node }
        ensures { result ≡ is_asked self.now.run.shape post.now.chair.seen ask.now }
    {
        post.known();
        let Some(kind) = self.run.shape.nodes.get(ask.node as usize) else {
            return false;
        };
        if !submits(kind, &ask.arg) {
            return false;
        }
        has_ticket(post.node(), ask.ticket, &ask.item)
    }
}
