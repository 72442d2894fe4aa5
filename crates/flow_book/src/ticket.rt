//! Whether an ask is that of a ticket.
ghost use Rattle.std.specs.Prelude.{◌≡◌, ◌<◌, ◌^◌, length};
ghost use Rattle.flow_item.specs.Values.{same_val, same_item};
ghost use Rattle.flow_machine.specs.Readers.{tickets_of};
ghost use Rattle.flow_book.specs.Jobs.{submits, is_ticket};
ghost use Rattle.flow_book.specs.Equal.{same_list};

use flow_item::{Item, Val, Vals};
use flow_node::NodeState;
use flow_shape::Kind;

// Whether two values are equal.
#[cycle(same)]
fn same_val(a: &Val, b: &Val) -> bool
    ensures { result ≡ same_val a.now b.now }
{
    match a {
        Val::Int(m) => match b {
            Val::Int(n) => *m == *n,
            _ => false,
        },
        Val::Text(s) => match b {
            Val::Text(t) => s.as_str() == t.as_str(),
            _ => false,
        },
        Val::List(xs) => match b {
            Val::List(ys) => same_vals(xs, ys),
            _ => false,
        },
    }
}

// Whether two lists have equal members.
#[cycle(same)]
fn same_vals(xs: &Vals, ys: &Vals) -> bool
    ensures { result ≡ same_list xs.now ys.now }
{
    if xs.len() != ys.len() {
        return false;
    }
    let others = ys.as_slice();
    let mut at = 0;
    for x in xs.as_slice() {
        if !same_val(x, &others[at]) {
            return false;
        }
        at += 1;
    }
    true
}

// Whether two items are equal.
fn same_item(a: &Item, b: &Item) -> bool
    ensures { result ≡ same_item a.now b.now }
{
    a.id.node == b.id.node && a.id.no == b.id.no && a.tag == b.tag && same_val(&a.val, &b.val)
}

// Whether a node of this kind submits with this argument.
pub(crate) fn submits(kind: &Kind, arg: &Val) -> bool
    ensures { result ≡ submits kind.now arg.now }
{
    match kind {
        Kind::Async { arg: own, .. } => same_val(own, arg),
        _ => false,
    }
}

// Whether this ticket of the node is open, and its item is this one.
pub(crate) fn has_ticket(node: &NodeState, ticket: u64, item: &Item) -> bool
    requires few { length (tickets_of node.now.node.state.part) < 2 ^ 62 }
    ensures { result ≡ is_ticket node.now.node.state.part ticket item.now }
{
    for k in 0..1 << 62 {
        match node.ticket(k) {
            Some(found) => {
                if found.id.no == ticket {
                    return same_item(item, found);
                }
            }
            None => return false,
        }
    }
    false
}
