// The shelf of all built-in bodies.
ghost use Rattle.std.specs.Prelude.{◌≡◌, map, IfOk, OnOk, [], ◌∷◌, ◌++◌};
ghost use Rattle.flow_body.specs.Builtin.{body_of, named_body, with_names, builtin_bodies};

use crate::body::Body;
use crate::shelf::{Named, Shelf};
use flow_item::{NoMemory, Text};
use std::alloc::Global;

/// The built-in bodies, each boxed by the caller in the field of its name.
#[derive(Drop)]
pub struct Builtins {
    pub add: Box<dyn Body + Send + Sync>,
    pub mul: Box<dyn Body + Send + Sync>,
    pub neg: Box<dyn Body + Send + Sync>,
    pub len: Box<dyn Body + Send + Sync>,
    pub part: Box<dyn Body + Send + Sync>,
    pub pair: Box<dyn Body + Send + Sync>,
    pub echo: Box<dyn Body + Send + Sync>,
    pub split_even: Box<dyn Body + Send + Sync>,
    pub count_to: Box<dyn Body + Send + Sync>,
    pub fail_memory: Box<dyn Body + Send + Sync>,
}

/// Adds a body by its name.
fn put(
    alloc: Global,
    all: &mut Vec<Named>,
    name: &str,
    body: Box<dyn Body + Send + Sync>,
) -> Result<(), NoMemory>
    ensures { OnOk
        result
        (map (λ n. named_body n.name (pure n.body) (single n.body) (out n.body)) all.new.items
        ≡ map (λ n. named_body n.name (pure n.body) (single n.body) (out n.body)) all.old.items ++ named_body name.now (pure body) (single body) (out body) ∷ []) }
{
    let name = Text::of(alloc, name)?;
    all.push(Named { name, body })?;
    Ok(())
}

/// The shelf of the built-in bodies in their order, each by its name. Where the boxes have the meanings of the types that
/// their fields are named for, so has the shelf.
pub fn builtin_shelf(alloc: Global, bodies: Builtins) -> Result<Shelf, NoMemory>
    ensures shelved { IfOk result (λ s. map (λ n. named_body n.name (pure n.body) (single n.body) (out n.body)) s.bodies.items
        ≡ with_names (map (λ b. b.0) builtin_bodies) (map (λ b. body_of (pure b) (single b) (out b)) (bodies.add ∷ bodies.mul ∷ bodies.neg ∷ bodies.len ∷ bodies.part ∷ bodies.pair ∷ bodies.echo ∷ bodies.split_even ∷ bodies.count_to ∷ bodies.fail_memory ∷ []))) }
    ensures builtin { map (λ b. body_of (pure b) (single b) (out b)) (bodies.add ∷ bodies.mul ∷ bodies.neg ∷ bodies.len ∷ bodies.part ∷ bodies.pair ∷ bodies.echo ∷ bodies.split_even ∷ bodies.count_to ∷ bodies.fail_memory ∷ []) ≡ map (λ b. b.1) builtin_bodies
        → IfOk result (λ s. map (λ n. named_body n.name (pure n.body) (single n.body) (out n.body)) s.bodies.items ≡ builtin_bodies) }
{
    let mut all = Vec::new(alloc);
    put(alloc, &mut all, "add", bodies.add)?;
    put(alloc, &mut all, "mul", bodies.mul)?;
    put(alloc, &mut all, "neg", bodies.neg)?;
    put(alloc, &mut all, "len", bodies.len)?;
    put(alloc, &mut all, "part", bodies.part)?;
    put(alloc, &mut all, "pair", bodies.pair)?;
    put(alloc, &mut all, "echo", bodies.echo)?;
    put(alloc, &mut all, "split_even", bodies.split_even)?;
    put(alloc, &mut all, "count_to", bodies.count_to)?;
    put(alloc, &mut all, "fail_memory", bodies.fail_memory)?;
    let shelf = Shelf::new(alloc, all)?;
    Ok(shelf)
}
