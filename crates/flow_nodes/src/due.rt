ghost use Rattle.std.specs.Prelude.{◌≡◌, ◌+◌, ◌*◌, ◌<◌, ◌≤◌, ◌^◌, Bool, List, length, slice_set, replicate, false, MatchOption, IfOk};
ghost use Rattle.flow_nodes.specs.DueSets.{least_of, IsClear, IsFirst, IsMarked};

use flow_item::NoMemory;
use std::alloc::Global;
use std::marker::Model;

/// A set of places below a length, which contracts see as a flag for each place. A mark for each block of 32 places says whether a flag may be raised there, so that the least place is found without a look at all flags.
#[derive(Drop)]
pub struct DueSet {
    flags: Vec<bool>,
    marks: Vec<bool>,
}

impl Model for DueSet {
    ghost use Rattle.std.specs.Prelude.{List, Bool};
    ghost use Rattle.flow_nodes.specs.DueSets.{IsMarked};

    ghost Value = { List Bool };

    ghost view = { λ a. a.flags.items };

    ghost invariant = { λ a. IsMarked a.flags.items a.marks.items };
}

/// The first raised flag from a place on.
fn first_raised(flags: &[bool], from: usize, to: usize) -> Option<usize>
    requires { to ≤ length flags.now }
    ensures { MatchOption result (IsClear flags.now from to) (IsFirst flags.now from to) }
{
    for at in from..to {
        if flags[at] {
            return Some(at);
        }
    }
    None
}

/// The first raised flag of a block.
fn first_in_block(flags: &[bool], marks: &[bool], block: usize) -> Option<usize>
    requires marked { IsMarked flags.now marks.now }
    requires within { block < length marks.now }
    requires small { length flags.now < 2 ^ 63 }
    ensures { MatchOption
        result
        (IsClear flags.now (32 * block) (32 * block + 32))
        (IsFirst flags.now (32 * block) (32 * block + 32)) }
{
    if !marks[block] {
        return None;
    }
    let end = flags.len().min(32 * block + 32);
    match first_raised(flags, 32 * block, end) {
        Some(at) => Some(at),
        None => None,
    }
}

impl DueSet {
    /// The empty set.
    pub fn new(alloc: Global, length: usize) -> Result<DueSet, NoMemory>
        ensures { IfOk result (λ s. s ≡ replicate length false) }
    {
        let flags = match Vec::from_elem(alloc, false, length) {
            Ok(flags) => flags,
            Err(_) => return Err(NoMemory),
        };
        match Vec::from_elem(alloc, false, length / 32 + 1) {
            Ok(marks) => Ok(DueSet { flags, marks }),
            Err(_) => Err(NoMemory),
        }
    }

    /// Puts a place in or out.
    pub fn set(&mut self, at: usize, due: bool)
        requires { at < length self.old }
        ensures { self.new ≡ slice_set self.old at due }
    {
        let block = at / 32;
        self.flags[at] = due;
        let end = self.flags.len().min(32 * block + 32);
        let mark = due || first_raised(&self.flags, 32 * block, end).is_some();
        self.marks[block] = mark;
    }

    /// The least place in the set.
    pub fn least(&self) -> Option<usize>
        ensures { result ≡ least_of 0 self.now }
    {
        for block in 0..self.marks.len() {
            if let Some(at) = first_in_block(&self.flags, &self.marks, block) {
                return Some(at);
            }
        }
        None
    }
}
