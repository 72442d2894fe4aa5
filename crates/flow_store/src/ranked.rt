// An item that is compared by its rank, the item that is locked, and what the order of ranks needs of an item.
ghost use Rattle.std.specs.Prelude.{◌≡◌};
ghost use Rattle.flow_store.specs.Orders.{rank_of};
ghost use Rattle.flow_store.specs.Marks.{mark_of};

use flow_item::{Item, Val};
use std::cmp::{Ordering, Reverse};

/// An item that is the greater, the sooner it goes.
#[derive(Drop)]
pub(crate) struct Ranked {
    pub(crate) item: Item,
}

/// An item that is locked for an edge.
#[derive(Drop)]
pub(crate) struct Locked {
    pub(crate) edge: u32,
    pub(crate) item: Item,
}

/// The place of an item, which is the less, the sooner the item goes.
#[derive(Clone, Copy, Drop, PartialEq, Eq, PartialOrd, Ord)]
pub(crate) struct Mark {
    rank: Reverse<Option<i64>>,
    no: u64,
    pub(crate) place: usize,
}

impl Mark {
    pub(crate) fn of(item: &Item, place: usize) -> Mark
        ensures { result ≡ mark_of place item.now }
    {
        Mark {
            rank: Reverse(rank(&item.val)),
            no: item.id.no,
            place,
        }
    }
}

/// A whole number, or nothing for a text or a list.
fn rank(val: &Val) -> Option<i64>
    ensures { result ≡ rank_of val.now }
{
    match val {
        Val::Int(n) => Some(*n),
        _ => None,
    }
}

impl PartialEq for Ranked {
    ghost use Rattle.std.proofs.Common.{rules};
    ghost use Rattle.std.specs.Cmp.Rules.{comparing};
    ghost use Rattle.flow_store.specs.RankOrder.{ranked_eq};

    ghost eq = { ranked_eq };

    ghost laws = { Prim.search (comparing, rules) };

    fn eq(&self, other: &Ranked) -> bool {
        rank(&self.item.val) == rank(&other.item.val) && self.item.id.no == other.item.id.no
    }
}

impl Eq for Ranked {
    ghost use Rattle.std.proofs.Common.{rules};
    ghost use Rattle.std.specs.Cmp.Rules.{comparing};

    ghost laws = { Prim.search (comparing, rules) };
}

impl PartialOrd for Ranked {
    ghost use Rattle.std.proofs.Common.{rules};
    ghost use Rattle.std.specs.Cmp.{partial_order_from_own_ties};
    ghost use Rattle.std.specs.Cmp.Rules.{comparing};
    ghost use Rattle.std.specs.Ordering.{as_partial_cmp};
    ghost use Rattle.flow_store.specs.RankOrder.{ranked_cmp};

    ghost partial_cmp = { as_partial_cmp ranked_cmp };

    ghost laws = { partial_order_from_own_ties (Prim.search (comparing, rules)) (Prim.search (comparing, rules)) };

    fn partial_cmp(&self, other: &Ranked) -> Option<Ordering> {
        Some(self.cmp(other))
    }
}

impl Ord for Ranked {
    ghost use Rattle.std.proofs.Common.{rules};
    ghost use Rattle.std.specs.Cmp.Rules.{comparing};
    ghost use Rattle.flow_store.specs.RankOrder.{ranked_cmp};

    ghost cmp = { ranked_cmp };

    ghost total = { Prim.search (comparing, rules) };

    ghost matches_partial_cmp = { Prim.search (comparing, rules) };

    ghost matches_eq = { Prim.search (comparing, rules) };

    fn cmp(&self, other: &Ranked) -> Ordering {
        rank(&self.item.val)
            .cmp(&rank(&other.item.val))
            .then(other.item.id.no.cmp(&self.item.id.no))
    }
}
