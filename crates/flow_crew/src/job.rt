//! The body of a job.
ghost use Rattle.std.specs.Prelude.{◌≡◌, true, false, IfOk, IfSome};
ghost use Rattle.flow_book.specs.Jobs.{is_submit};
ghost use Rattle.flow_crew.specs.Bodies.{answers_job};
ghost use Rattle.flow_crew.specs.Crew.{HasBody};

use crate::bodies::Bodies;
use crate::graph::Graph;
use flow_book::{Gate, Job, JobBody, Point};
use flow_item::{NoMemory, Outs};
use flow_line::Naming;
use std::alloc::Global;
use std::sync::Wait;

impl<'a, S: Bodies, G: Gate, B: Naming> Graph<'a, S, G, B> {
    // The messages of a job's body.
    fn answer(&self, alloc: Global, job: &Job) -> Result<Outs, NoMemory>
        requires { HasBody self.now.book.run job.now.node job.now.body }
        ensures runs { IfOk result (λ outs. is_submit job.now.body ≡ false) }
        ensures answers { IfOk result (λ outs. answers_job (S.meanings self.now.bench.bodies.now) job.now.body job.now.item outs ≡ true) }
    {
        match &job.body {
            JobBody::Run { body, arg } => self.bench.run(alloc, *body, arg, &job.item),
            JobBody::Submit { .. } => unreachable!(),
        }
    }

    // Runs a job's body. Where it finds no memory, the graph is halted.
    pub(crate) fn run_job<R: Wait>(&self, rt: &R, alloc: Global, job: &Job) -> Option<Outs>
        requires { HasBody self.now.book.run job.now.node job.now.body }
        ensures runs { IfSome result (λ outs. is_submit job.now.body ≡ false) }
        ensures answers { IfSome result (λ outs. answers_job (S.meanings self.now.bench.bodies.now) job.now.body job.now.item outs ≡ true) }
    {
        let node = job.node;
        let no = job.item.id.no;
        self.gate.at(rt, Point::BodyBegins { node, no });
        let answer = self.answer(alloc, job);
        self.gate.at(rt, Point::BodyEnds { node, no });
        match answer {
            Ok(outs) => Some(outs),
            Err(_) => {
                self.book.halt(rt);
                None
            }
        }
    }
}
