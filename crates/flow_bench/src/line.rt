//! Commits of a line, shared out to threads.
ghost use Rattle.std.specs.Prelude.{◌≡◌};

use crate::turns::{Pair, Turns};
use flow_item::{NoMemory, Party};
use flow_line::{Chairs, Line, Naming, Opened};
use std::alloc::Global;
use std::sync::Wait;
use std::thread;
use std::thread::Threads;

const PARTIES: [Party; 8] = [
    Party::Node(0),
    Party::Caller(0),
    Party::Node(1),
    Party::Caller(1),
    Party::Node(2),
    Party::Caller(2),
    Party::Node(3),
    Party::Caller(3),
];

/// Events that a line of the benchmark may have.
const MOST: u64 = 100000000;

/// How many threads make so many commits each, of so many parties.
#[derive(Drop)]
pub struct Load {
    pub threads: usize,
    pub commits: u64,
    pub parties: u64,
}

/// Pairs of chairs, each with its share of the moves.
fn pairs<B: Naming>(
    alloc: Global,
    chairs: &mut Chairs<Turns, B>,
    load: &Load,
) -> Result<Vec<Pair<B>>, NoMemory> {
    let mut pairs = Vec::new(alloc);
    for k in 0..4_usize {
        let share = if k < load.threads { load.commits } else { 0 };
        if let (Some(caller), Some(node)) = (chairs.pop(), chairs.pop()) {
            pairs
                .push(Pair {
                    node,
                    caller,
                    share,
                })
                .map_err(|_| NoMemory)?;
        }
    }
    Ok(pairs)
}

/// The chairs of the pairs in one list.
fn all_chairs<B: Naming>(alloc: Global, pairs: Vec<Pair<B>>) -> Result<Chairs<Turns, B>, NoMemory> {
    let mut chairs = Chairs::new(alloc);
    for pair in pairs {
        if chairs.push(pair.node).is_err() || chairs.push(pair.caller).is_err() {
            return Err(NoMemory);
        }
    }
    Ok(chairs)
}

/// How many events there are after all moves.
pub fn run<B: Naming + Send + Sync, R: Threads + Wait + Sync>(
    rt: &R,
    alloc: Global,
    load: &Load,
    opened: Opened<Turns>,
) -> Result<usize, NoMemory>
    requires name { opened ≡ B.table }
{
    let (line, mut chairs) = Line::new(alloc, &(), &PARTIES, MOST, MOST, opened)?;
    let mut pairs = pairs::<B>(alloc, &mut chairs, load)?;
    let both = load.parties > 1;
    thread::for_each_mut(
        rt,
        pairs.as_mut_slice(),
        4,
        &|_, pair: &mut Pair<B>| { pair.move_on(rt, &line, both) },
    );
    let journal = line.close(all_chairs(alloc, pairs)?);
    Ok(journal.len())
}
