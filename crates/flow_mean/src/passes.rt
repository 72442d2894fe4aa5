//! What a node passes of what its ports have.

ghost use Rattle.std.specs.Prelude.{if◌then◌else◌, ◌≡◌, ◌≤◌, ◌<◌, ◌++◌, ◌∷◌, ℕ, Some, [], true, false, length, slice_get, map, take, drop, get_or, IfOk, OnOk};
ghost use Rattle.std.specs.List.{flat_map, filter_map, AllByRecursion};
ghost use Rattle.std.specs.Option.{option_copied};
ghost use Rattle.flow_item.specs.Pairs.{Pair, pair_of_msg};
ghost use Rattle.flow_shape.specs.Kinds.{inputs};
ghost use Rattle.flow_doc.specs.Fits.{kind_fits};
ghost use Rattle.flow_body.specs.Shelves.{meanings_of_shelf};
ghost use Rattle.flow_mean.specs.Maps.{map_of, run_from, past_run, value_at, values_at, tuple_at, join_of};
ghost use Rattle.flow_mean.specs.Meaning.{is_sequencer, passed_by};
ghost use Rattle.flow_mean.specs.Determinate.{is_function, is_orderly};
ghost use Rattle.flow_mean.specs.Judging.{has_free_body};
ghost use Rattle.flow_mean.specs.Passing.{Rising, kept_by, tuples_of};

use crate::kinds::{is_function, is_key_join, is_sequencer};
use crate::tag_map::{Pairs, sorted};
use flow_body::{Body, Shelf};
use flow_item::{Id, Item, Msg, NoMemory, Outs, Val, Vals};
use flow_shape::Kind;
use std::alloc::Global;

/// How many tags from 0 on are there without a gap.
fn run_len(row: &[(u64, Val)]) -> usize
    ensures run { run_from 0 row.now ≡ take result row.now }
    ensures past { past_run 0 row.now ≡ drop result row.now }
    ensures within { result ≤ length row.now }
{
    for (at, pair) in row.iter().enumerate() {
        if pair.0 != at as u64 {
            return at;
        }
    }
    row.len()
}

/// What a node passes, and what it keeps.
#[derive(Drop)]
pub struct Passing {
    pub passed: Pairs,
    pub kept: Pairs,
}

/// A sequencer passes the tags from 0 up to the first that is missing, and keeps the others.
fn pass_run(map: Pairs) -> Result<Passing, NoMemory>
    ensures passed { IfOk result (λ p. p.passed ≡ run_from 0 map) }
    ensures kept { IfOk result (λ p. p.kept ≡ past_run 0 map) }
{
    let mut row = map.into_vec();
    let count = run_len(row.as_slice());
    let past = row.split_off(count)?;
    Ok(Passing {
        passed: Pairs::from_vec(row),
        kept: Pairs::from_vec(past),
    })
}

/// The first place whose tag isn't below this one, by halves.
fn place_of(map: &[(u64, Val)], tag: u64) -> usize
    requires { Rising map.now }
    ensures below { (i : ℕ) (p : Pair) → i < result → slice_get map.now i ≡ Some p → p.0 < tag }
    ensures above { (i : ℕ) (p : Pair) → result ≤ i → slice_get map.now i ≡ Some p → tag ≤ p.0 }
{
    let mut low = 0;
    let mut high = map.len();
    while low < high {
        let middle = low + (high - low) / 2;
        if map[middle].0 < tag {
            low = middle + 1;
        } else {
            high = middle;
        }
    }
    low
}

/// The value of a tag in a map, by halves.
fn value_of(map: &[(u64, Val)], tag: u64) -> Option<&Val>
    requires { Rising map.now }
    ensures { option_copied result ≡ value_at tag map.now }
{
    let place = place_of(map, tag);
    if place >= map.len() {
        return None;
    }
    if map[place].0 == tag {
        Some(&map[place].1)
    } else {
        None
    }
}

/// Copies of the values of a tag, where each map has it.
fn values_of(alloc: Global, maps: &[Pairs], tag: u64) -> Result<Option<Vals>, NoMemory>
    requires { AllByRecursion Rising maps.now }
    ensures { IfOk result (λ o. o ≡ values_at tag maps.now) }
{
    let mut values = Vec::with_capacity(alloc, maps.len())?;
    for map in maps {
        match value_of(map.as_slice(), tag) {
            Some(value) => values.push(value.copy(alloc)?)?,
            None => return Ok(None),
        }
    }
    Ok(Some(Vals::from_vec(values)))
}

/// Adds the tuple of a tag, where each map has it.
fn add_tuple(
    alloc: Global,
    maps: &[Pairs],
    tuples: &mut Vec<(u64, Val)>,
    tag: u64,
) -> Result<(), NoMemory>
    requires { AllByRecursion Rising maps.now }
    ensures { OnOk result (tuples.new.items ≡ tuples.old.items ++ tuples_of maps.now tag) }
{
    if let Some(values) = values_of(alloc, maps, tag)? {
        tuples.push((tag, Val::list(alloc, values)))?;
    }
    Ok(())
}

/// For each tag of a map that all maps have, the list of its values.
fn tuples_along(alloc: Global, maps: &[Pairs], row: &[(u64, Val)]) -> Result<Pairs, NoMemory>
    requires { AllByRecursion Rising maps.now }
    ensures { IfOk result (λ m. m ≡ filter_map (tuple_at maps.now) row.now) }
{
    let mut tuples = Vec::new(alloc);
    for pair in row {
        add_tuple(alloc, maps, &mut tuples, pair.0)?;
    }
    Ok(Pairs::from_vec(tuples))
}

/// For each tag that all maps have, the list of its values. Each value is copied once, and found by halves.
fn join(alloc: Global, maps: &[Pairs]) -> Result<Pairs, NoMemory>
    requires { AllByRecursion Rising maps.now }
    ensures { IfOk result (λ m. m ≡ join_of maps.now) }
{
    if maps.len() == 0 {
        return Ok(Pairs::new(alloc));
    }
    let tuples = tuples_along(alloc, maps, maps[0].as_slice())?;
    Ok(tuples)
}

/// Adds a copy of a message, as its tag and value.
fn add_message(alloc: Global, msg: &Msg, pairs: &mut Vec<(u64, Val)>) -> Result<(), NoMemory>
    ensures { OnOk result (pairs.new.items ≡ pairs.old.items ++ pair_of_msg msg.now ∷ []) }
{
    pairs.push((msg.tag, msg.val.copy(alloc)?))?;
    Ok(())
}

/// Adds copies of messages, each as its tag and value.
fn add_messages(alloc: Global, outs: &Outs, pairs: &mut Vec<(u64, Val)>) -> Result<(), NoMemory>
    ensures { OnOk result (pairs.new.items ≡ pairs.old.items ++ map pair_of_msg outs.now) }
{
    for at in 0..outs.len() {
        match outs.get(at) {
            Some(msg) => add_message(alloc, msg, pairs)?,
            None => unreachable!(),
        }
    }
    Ok(())
}

/// Adds what a pure body answers to a pair.
fn answer(
    alloc: Global,
    body: &(dyn Body + Send + Sync),
    arg: &Val,
    tag: u64,
    val: Val,
    pairs: &mut Vec<(u64, Val)>,
) -> Result<(), NoMemory>
    requires { pure body.now ≡ true }
    ensures { OnOk result (pairs.new.items ≡ pairs.old.items ++ map pair_of_msg (out body.now arg.now tag val)) }
{
    let id = Id { node: 0, no: 0 };
    let item = Item { id, tag, val };
    let outs = body.run(alloc, arg, &item)?;
    add_messages(alloc, &outs, pairs)?;
    Ok(())
}

/// What a pure body answers to each pair, in order.
fn answers(
    alloc: Global,
    body: &(dyn Body + Send + Sync),
    arg: &Val,
    arrived: Pairs,
) -> Result<Pairs, NoMemory>
    requires { pure body.now ≡ true }
    ensures { IfOk result (λ ps. ps ≡ flat_map (λ p. map pair_of_msg (out body.now arg.now p.0 p.1)) arrived) }
{
    let mut left = arrived.into_vec();
    left.reverse();
    let mut pairs = Vec::with_capacity(alloc, left.len())?;
    while let Some(pair) = left.pop() {
        answer(alloc, body, arg, pair.0, pair.1, &mut pairs)?;
    }
    Ok(Pairs::from_vec(pairs))
}

/// What a function passes.
fn apply(alloc: Global, shelf: &Shelf, kind: &Kind, map: Pairs) -> Result<Pairs, NoMemory>
    requires fits { kind_fits (length shelf.now.bodies.items) kind.now ≡ true }
    requires function { is_function kind.now ≡ true }
    requires tied { has_free_body (meanings_of_shelf (λ n. pure (n.body.vtable, n.body.value)) (λ n. single (n.body.vtable, n.body.value)) (λ n. out (n.body.vtable, n.body.value)) shelf.now.bodies.items) kind.now ≡ false }
    ensures { IfOk result (λ m. m ≡ passed_by (meanings_of_shelf (λ n. pure (n.body.vtable, n.body.value)) (λ n. single (n.body.vtable, n.body.value)) (λ n. out (n.body.vtable, n.body.value)) shelf.now.bodies.items) kind.now (λ port. map)) }
{
    match kind {
        Kind::Function { body, arg, .. } => match shelf.body(*body) {
            Some(body) => {
                let pairs = answers(alloc, body, arg, map)?;
                let passed = sorted(pairs)?;
                Ok(passed)
            }
            None => unreachable!(),
        },
        _ => unreachable!(),
    }
}

/// The map at port 0.
fn first(alloc: Global, maps: Vec<Pairs>) -> Pairs
    ensures { result ≡ get_or maps.items 0 [] }
{
    let mut maps = maps;
    if maps.len() == 0 {
        return Pairs::new(alloc);
    }
    maps.remove(0)
}

/// What a node with edges out passes that keeps nothing.
fn pass_all(alloc: Global, shelf: &Shelf, kind: &Kind, maps: Vec<Pairs>) -> Result<Pairs, NoMemory>
    requires fits { kind_fits (length shelf.now.bodies.items) kind.now ≡ true }
    requires orderly { is_orderly kind.now ≡ true }
    requires unsorted { is_sequencer kind.now ≡ false }
    requires tied { has_free_body (meanings_of_shelf (λ n. pure (n.body.vtable, n.body.value)) (λ n. single (n.body.vtable, n.body.value)) (λ n. out (n.body.vtable, n.body.value)) shelf.now.bodies.items) kind.now ≡ false }
    requires ports { length maps.items ≡ inputs kind.now }
    requires rising { AllByRecursion Rising maps.items }
    ensures { IfOk result (λ m. m ≡ passed_by (meanings_of_shelf (λ n. pure (n.body.vtable, n.body.value)) (λ n. single (n.body.vtable, n.body.value)) (λ n. out (n.body.vtable, n.body.value)) shelf.now.bodies.items) kind.now (λ port. get_or maps.items port [])) }
{
    if is_key_join(kind) {
        let tuples = join(alloc, maps.as_slice())?;
        return Ok(tuples);
    }
    if is_function(kind) {
        let applied = apply(alloc, shelf, kind, first(alloc, maps))?;
        return Ok(applied);
    }
    Ok(first(alloc, maps))
}

/// What a node with edges out passes, and what it keeps.
fn pass(alloc: Global, shelf: &Shelf, kind: &Kind, maps: Vec<Pairs>) -> Result<Passing, NoMemory>
    requires fits { kind_fits (length shelf.now.bodies.items) kind.now ≡ true }
    requires orderly { is_orderly kind.now ≡ true }
    requires tied { has_free_body (meanings_of_shelf (λ n. pure (n.body.vtable, n.body.value)) (λ n. single (n.body.vtable, n.body.value)) (λ n. out (n.body.vtable, n.body.value)) shelf.now.bodies.items) kind.now ≡ false }
    requires ports { length maps.items ≡ inputs kind.now }
    requires rising { AllByRecursion Rising maps.items }
    ensures passed { IfOk result (λ p. p.passed ≡ passed_by (meanings_of_shelf (λ n. pure (n.body.vtable, n.body.value)) (λ n. single (n.body.vtable, n.body.value)) (λ n. out (n.body.vtable, n.body.value)) shelf.now.bodies.items) kind.now (λ port. get_or maps.items port [])) }
    ensures kept { IfOk result (λ p. p.kept ≡ kept_by kind.now (get_or maps.items 0 [])) }
{
    if is_sequencer(kind) {
        let passing = pass_run(first(alloc, maps))?;
        return Ok(passing);
    }
    let passed = pass_all(alloc, shelf, kind, maps)?;
    Ok(Passing {
        passed,
        kept: Pairs::new(alloc),
    })
}

/// A node without edges out passes nothing, and keeps all.
fn keep(alloc: Global, maps: Vec<Pairs>) -> Passing
    ensures passed { result.passed ≡ [] }
    ensures kept { result.kept ≡ get_or maps.items 0 [] }
{
    Passing {
        passed: Pairs::new(alloc),
        kept: first(alloc, maps),
    }
}

/// What a node passes and keeps of what comes to its ports, by whether it ends there.
pub fn pass_on(
    alloc: Global,
    shelf: &Shelf,
    kind: &Kind,
    ends: bool,
    maps: Vec<Pairs>,
) -> Result<Passing, NoMemory>
    requires fits { kind_fits (length shelf.now.bodies.items) kind.now ≡ true }
    requires orderly { is_orderly kind.now ≡ true }
    requires tied { has_free_body (meanings_of_shelf (λ n. pure (n.body.vtable, n.body.value)) (λ n. single (n.body.vtable, n.body.value)) (λ n. out (n.body.vtable, n.body.value)) shelf.now.bodies.items) kind.now ≡ false }
    requires ports { length maps.items ≡ inputs kind.now }
    requires rising { AllByRecursion Rising maps.items }
    ensures passed { IfOk result (λ p. p.passed ≡ (if ends then [] else passed_by (meanings_of_shelf (λ n. pure (n.body.vtable, n.body.value)) (λ n. single (n.body.vtable, n.body.value)) (λ n. out (n.body.vtable, n.body.value)) shelf.now.bodies.items) kind.now (λ port. get_or maps.items port []))) }
    ensures kept { IfOk result (λ p. p.kept ≡ (if ends then get_or maps.items 0 [] else kept_by kind.now (get_or maps.items 0 []))) }
{
    if ends {
        return Ok(keep(alloc, maps));
    }
    let passing = pass(alloc, shelf, kind, maps)?;
    Ok(passing)
}
