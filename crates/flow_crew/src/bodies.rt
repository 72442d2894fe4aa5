//! The bodies that a graph runs.
ghost use Rattle.std.specs.Prelude.{◌≡◌, ◌<◌, ℕ, true, IfOk};
ghost use Rattle.flow_machine.specs.Bodies.{Meanings};

use flow_body::{Add, Body, CountTo, Echo, FailMemory, Len, Mul, Neg, Pair, Part, SplitEven};
use flow_item::{Item, NoMemory, Outs, Val};
use std::alloc::Global;

/// Bodies by their numbers, as those of a shelf. A graph is generic over it: what stands behind locks isn't stated beside
/// a `dyn`.
pub trait Bodies: Sync {
    /// How many there are.
    ghost count: { Self → ℕ };

    /// What they mean.
    ghost meanings: { Self → Meanings };

    /// How many there are.
    fn count(&self) -> u32
        ensures { result ≡ count self.now };

    /// The messages of the body of this number for an item under a node's argument. Want of memory is the one error.
    fn run(&self, alloc: Global, body: u32, arg: &Val, item: &Item) -> Result<Outs, NoMemory>
        requires { body < count self.now }
        ensures { (meanings self.now).is_pure body ≡ true
            → IfOk result (λ outs. outs ≡ (meanings self.now).out body arg.now item.now.tag item.now.val) };

    ghost use Rattle.flow_crew.specs.Bodies.{AnswersOnce};

    // a body that is pure and single answers one message, on port 0 and with the item's tag
    ghost answers_once: { (s : Self) → AnswersOnce (meanings s) };
}

/// The built-in bodies, by their numbers on their shelf.
#[derive(Clone, Copy, Debug)]
pub struct Builtin;

impl Bodies for Builtin {
    ghost use Rattle.flow_body.specs.Builtin.{meanings_of, builtin_bodies};

    ghost count = { λ b. 10 };

    ghost meanings = { λ b. meanings_of builtin_bodies };

    ghost use Rattle.flow_crew.specs.Bodies.{builtin-answers-once};

    ghost answers_once = { λ b. builtin-answers-once };

    fn count(&self) -> u32 {
        10
    }

    fn run(&self, alloc: Global, body: u32, arg: &Val, item: &Item) -> Result<Outs, NoMemory> {
        match body {
            0 => Add.run(alloc, arg, item),
            1 => Mul.run(alloc, arg, item),
            2 => Neg.run(alloc, arg, item),
            3 => Len.run(alloc, arg, item),
            4 => Part.run(alloc, arg, item),
            5 => Pair.run(alloc, arg, item),
            6 => Echo.run(alloc, arg, item),
            7 => SplitEven.run(alloc, arg, item),
            8 => CountTo.run(alloc, arg, item),
            _ => FailMemory.run(alloc, arg, item),
        }
    }
}

// Bodies, lent, with their number.
#[derive(Drop)]
pub(crate) struct Bench<'a, S: Bodies> {
    pub(crate) bodies: &'a S,
    pub(crate) count: u32,
    ghost counted: { count ≡ S.count bodies.now },
}

impl<'a, S: Bodies> Bench<'a, S> {
    // These bodies.
    pub(crate) fn of(bodies: &'a S) -> Bench<'a, S>
        ensures count { result.count ≡ S.count bodies.now }
        ensures bodies { result.bodies.now ≡ bodies.now }
    {
        Bench {
            bodies,
            count: bodies.count(),
        }
    }

    // The messages of a body.
    pub(crate) fn run(
        &self,
        alloc: Global,
        body: u32,
        arg: &Val,
        item: &Item,
    ) -> Result<Outs, NoMemory>
        requires { body < self.now.count }
        ensures { (S.meanings self.now.bodies.now).is_pure body ≡ true
            → IfOk result (λ outs. outs ≡ (S.meanings self.now.bodies.now).out body arg.now item.now.tag item.now.val) }
    {
        self.bodies.run(alloc, body, arg, item)
    }
}
