// The generated document.
ghost use Rattle.std.specs.Prelude.{◌≡◌, [], ◌∷◌, ◌++◌, IfOk, OnOk, map};
ghost use Rattle.flow_gen.specs.Generated.{generated_names, generated_nodes, generated_edges, generated_put, generated_script, generated_scripts, generated, generated_from, edge};
ghost use Rattle.flow_gen.specs.Texts.{if_own};

use flow_body::Shelf;
use flow_doc::{Doc, Names, Nodes, Script, Scripts};
use flow_item::{NoMemory, Text, Val};
use flow_shape::{Edge, Edges, Kind, Kinds, Shape, Step};
use std::alloc::Global;

fn names(alloc: Global) -> Result<Names, NoMemory>
    ensures { IfOk result (λ names. names ≡ generated_names) }
{
    let mut names = Vec::new(alloc);
    names.push(Text::of(alloc, "src")?)?;
    names.push(Text::of(alloc, "pre")?)?;
    names.push(Text::of(alloc, "left")?)?;
    names.push(Text::of(alloc, "right")?)?;
    names.push(Text::of(alloc, "both")?)?;
    names.push(Text::of(alloc, "out")?)?;
    Ok(Names::from_vec(names))
}

fn nodes(alloc: Global, add: u32, mul: u32, neg: u32) -> Result<Kinds, NoMemory>
    ensures { IfOk result (λ nodes. nodes ≡ generated_nodes add mul neg) }
{
    let mut nodes = Vec::new(alloc);
    nodes.push(Kind::Queue { capacity: None })?;
    nodes.push(Kind::Function {
        reject: false,
        limit: Some(4),
        body: add,
        arg: Val::Int(1),
    })?;
    nodes.push(Kind::Function {
        reject: false,
        limit: None,
        body: mul,
        arg: Val::Int(3),
    })?;
    nodes.push(Kind::Function {
        reject: false,
        limit: Some(1),
        body: neg,
        arg: Val::Int(0),
    })?;
    nodes.push(Kind::KeyJoin { ports: 2 })?;
    nodes.push(Kind::Sequencer)?;
    Ok(Kinds::from_vec(nodes))
}

fn edge(from: u32, to: u32, port: u32) -> Edge
    ensures { result ≡ edge from to port }
{
    Edge {
        from,
        out: 0,
        to,
        port,
    }
}

fn edges(alloc: Global) -> Result<Edges, NoMemory>
    ensures { IfOk result (λ edges. edges ≡ generated_edges) }
{
    let mut edges = Vec::new(alloc);
    edges.push(edge(0, 1, 0))?;
    edges.push(edge(1, 2, 0))?;
    edges.push(edge(1, 3, 0))?;
    edges.push(edge(2, 4, 0))?;
    edges.push(edge(3, 4, 1))?;
    edges.push(edge(4, 5, 0))?;
    Ok(Edges::from_vec(edges))
}

// A number put with itself as its tag.
fn put(number: u32) -> Step
    ensures { result ≡ generated_put number }
{
    Step::Put {
        node: 0,
        port: 0,
        tag: u64::from(number),
        val: Val::Int(i64::from(number)),
    }
}

// Adds the put of a number that is `caller` more than a multiple of 4.
#[tactic(auto, using(crate::proofs::Numbers::own_is, crate::proofs::Numbers::own_not))]
fn add_own(steps: &mut Vec<Step>, number: u32, caller: u32) -> Result<(), NoMemory>
    ensures { OnOk result (steps.new.items ≡ steps.old.items ++ map generated_put (if_own caller number)) }
{
    if number % 4 != caller {
        return Ok(());
    }
    steps.push(put(number))?;
    Ok(())
}

// The puts of the numbers below `count` that are `caller` more than a multiple of 4.
fn script(alloc: Global, count: u32, caller: u32) -> Result<Script, NoMemory>
    ensures { IfOk result (λ script. script ≡ generated_script count caller) }
{
    let mut steps = Vec::new(alloc);
    for number in 0..count {
        add_own(&mut steps, number, caller)?;
    }
    Ok(Script::from_vec(steps))
}

fn scripts(alloc: Global, count: u32) -> Result<Scripts, NoMemory>
    ensures { IfOk result (λ scripts. scripts ≡ generated_scripts count) }
{
    let mut scripts = Vec::new(alloc);
    scripts.push(script(alloc, count, 0)?)?;
    scripts.push(script(alloc, count, 1)?)?;
    scripts.push(script(alloc, count, 2)?)?;
    scripts.push(script(alloc, count, 3)?)?;
    Ok(Scripts::from_vec(scripts))
}

fn sinks(alloc: Global) -> Result<Nodes, NoMemory>
    ensures { IfOk result (λ sinks. sinks ≡ 5 ∷ []) }
{
    let mut sinks = Vec::new(alloc);
    sinks.push(5)?;
    Ok(Nodes::from_vec(sinks))
}

// The document by the numbers of its bodies.
fn with_bodies(alloc: Global, add: u32, mul: u32, neg: u32, count: u32) -> Result<Doc, NoMemory>
    ensures { IfOk result (λ doc. doc ≡ generated add mul neg count) }
{
    Ok(Doc {
        version: 1,
        names: names(alloc)?,
        shape: Shape {
            nodes: nodes(alloc, add, mul, neg)?,
            edges: edges(alloc)?,
        },
        scripts: scripts(alloc, count)?,
        sinks: sinks(alloc)?,
    })
}

/// The document of a number, with the bodies `add`, `mul` and `neg` of the shelf, and `None` exactly where it lacks one
/// of them: four callers put each number below it into a pipeline that splits, joins by tag and puts in order. Four
/// walks over the numbers.
pub fn generated(alloc: Global, shelf: &Shelf, count: u32) -> Result<Option<Doc>, NoMemory>
    ensures { IfOk result (λ doc. doc ≡ generated_from (map (λ b. b.name) shelf.now.bodies.items) count) }
{
    let Some(add) = shelf.find("add") else {
        return Ok(None);
    };
    let Some(mul) = shelf.find("mul") else {
        return Ok(None);
    };
    let Some(neg) = shelf.find("neg") else {
        return Ok(None);
    };
    Ok(Some(with_bodies(alloc, add, mul, neg, count)?))
}
