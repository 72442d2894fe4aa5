//! The first refusal of a run.
ghost use Rattle.std.specs.Prelude.{◌≡◌, Some, None, IfSome, IfNone};
ghost use Rattle.flow_item.specs.declared.event.Stop.TheVariants.{Limit, Memory};
ghost use Rattle.flow_book.specs.Answers.{IsSame};
ghost use Rattle.flow_book.specs.Stopped.{HasPassed, Shows, KeepsRefused, first_stop, told_stop};

use crate::book::Book;
use crate::machine::GraphMachine;
use flow_item::Stop;
use flow_line::{Chair, Line, Naming};
use std::sync::Wait;

// The first refusal of a run's calls, beside the chair of one party more, which makes no event. Where a limit is
// stored, the chair has seen that it was reached.
#[derive(Drop)]
pub(crate) struct Stopper<B: Naming> {
    chair: Chair<GraphMachine, B>,
    first: Option<Stop>,
    ghost reached: { first ≡ Some Limit → HasPassed chair.about chair.seen },
}

impl<B: Naming> Stopper<B> {
    // Nothing is refused yet.
    pub(crate) fn new(chair: Chair<GraphMachine, B>) -> Stopper<B>
        ensures chair { result.chair ≡ chair }
        ensures first { result.first ≡ None }
    {
        Stopper { chair, first: None }
    }

    // Stores a refusal of a call that was given this chair, unless one is stored: the first counts.
    pub(crate) fn store(
        &mut self,
        line: &Line<GraphMachine, B>,
        c: &mut Chair<GraphMachine, B>,
        stop: Stop,
    )
        requires shown { Shows c.old stop }
        ensures first { self.new.first ≡ first_stop self.old.first stop }
        ensures same { c.new ≡ c.old }
    {
        match self.first {
            Some(_) => {}
            None => {
                line.tell(c, &mut self.chair);
                self.first = Some(stop);
            }
        }
    }

    // Stores want of memory, unless a refusal is stored.
    pub(crate) fn halt(&mut self)
        ensures { self.new.first ≡ first_stop self.old.first Memory }
    {
        if self.first.is_none() {
            self.first = Some(Stop::Memory);
        }
    }

    // The first refusal. Both chairs have then seen the longer of their two lists.
    pub(crate) fn stopped(
        &mut self,
        line: &Line<GraphMachine, B>,
        c: &mut Chair<GraphMachine, B>,
    ) -> Option<Stop>
        requires kept { KeepsRefused c.old }
        ensures value { result ≡ told_stop self.old.first c.old.kept }
        ensures none { IfNone result (c.old.kept ≡ None) }
        ensures shown { IfSome result (Shows c.new) }
        ensures same { IsSame c.old c.new }
        ensures first { self.new.first ≡ self.old.first }
    {
        line.look2(c, &mut self.chair);
        match self.first {
            Some(stop) => Some(stop),
            None => { if c.keeps() { Some(Stop::Limit) } else { None } }
        }
    }
}

impl<B: Naming> Book<B> {
    // Stores a refusal of a call that was given this chair, unless one is stored.
    pub(crate) fn store<R: Wait>(&self, rt: &R, c: &mut Chair<GraphMachine, B>, stop: Stop)
        requires { Shows c.old stop }
        ensures { c.new ≡ c.old }
    {
        self.stopper.lock(rt).store(&self.line, c, stop);
    }

    /// Stores want of memory as the first refusal, unless one is stored. It is for what runs beside the book's calls.
    /// Takes no memory.
    pub fn halt<R: Wait>(&self, rt: &R) {
        self.stopper.lock(rt).halt();
    }

    /// The first refusal of all calls of the book. Where none is stored, it is a limit if the chair keeps an event. The
    /// chair has then seen that a limit was reached, where the answer tells of one.
    pub fn stopped<R: Wait>(&self, rt: &R, c: &mut Chair<GraphMachine, B>) -> Option<Stop>
        requires { KeepsRefused c.old }
        ensures none { IfNone result (c.old.kept ≡ None) }
        ensures shown { IfSome result (Shows c.new) }
        ensures same { IsSame c.old c.new }
    {
        self.stopper.lock(rt).stopped(&self.line, c)
    }
}
