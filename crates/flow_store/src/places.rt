// The first member of a list with a number or of a claim, and the list without it.
ghost use Rattle.std.specs.Prelude.{◌≡◌, ◌+◌, ◌≤◌, true, length, vec_len, vec_capacity};
ghost use Rattle.std.specs.List.{list_any};
ghost use Rattle.std.specs.VecDeque.{deque_capacity, deque_len};
ghost use Rattle.flow_item.specs.Lists.{drop_first};
ghost use Rattle.flow_machine.specs.Offers.{is_claim};
ghost use Rattle.flow_machine.specs.Enabled.{is_numbered};
ghost use Rattle.flow_store.specs.Firsts.{IsFirst};

use flow_item::Item;
use flow_machine::Claim;
use std::collections::VecDeque;

/// The place of the first item of this number, the length where there is none.
fn place_numbered(items: &VecDeque<Item>, no: u64) -> usize
    requires { list_any (is_numbered no) items.now.items ≡ true }
    ensures { IsFirst (is_numbered no) items.now.items result }
{
    'search: for place in 0..items.len() {
        if items[place].id.no == no {
            return place;
        }
    }
    unreachable!()
}

/// Drops the first item of this number.
pub(crate) fn remove_numbered(items: &mut VecDeque<Item>, no: u64)
    requires { list_any (is_numbered no) items.old.items ≡ true }
    ensures items { items.new.items ≡ drop_first (is_numbered no) items.old.items }
    ensures capacity { deque_capacity items.new ≡ deque_capacity items.old }
    ensures len { deque_len items.new + 1 ≡ deque_len items.old }
{
    let place = place_numbered(items, no);
    items.remove(place);
}

/// The place of the first claim on this item for this edge.
fn place_claimed(claims: &Vec<Claim>, edge: u32, no: u64) -> usize
    requires { list_any (is_claim edge no) claims.now.items ≡ true }
    ensures { IsFirst (is_claim edge no) claims.now.items result }
{
    'search: for place in 0..claims.len() {
        if claims[place].edge == edge && claims[place].item == no {
            return place;
        }
    }
    unreachable!()
}

/// Drops the first claim on this item for this edge.
pub(crate) fn remove_claim(claims: &mut Vec<Claim>, edge: u32, no: u64)
    requires { list_any (is_claim edge no) claims.old.items ≡ true }
    ensures items { claims.new.items ≡ drop_first (is_claim edge no) claims.old.items }
    ensures capacity { vec_capacity claims.new ≡ vec_capacity claims.old }
    ensures len { vec_len claims.new + 1 ≡ vec_len claims.old }
{
    let place = place_claimed(claims, edge, no);
    claims.remove(place);
}
