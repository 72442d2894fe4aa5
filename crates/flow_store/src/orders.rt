// The item at a place of an order, in items that stand in no order.
ghost use Rattle.std.specs.Prelude.{◌≡◌, ◌<◌, ◌+◌, Some, cond, length, slice_get, take, MatchOption};
ghost use Rattle.std.specs.List.{All};
ghost use Rattle.std.specs.Option.{option_copied};
ghost use Rattle.flow_item.specs.Values.{outranks};
ghost use Rattle.flow_store.specs.Orders.{precedes, ahead, IsNth};

use flow_item::{Item, Val};

/// What comes first.
#[derive(Clone, Copy, Debug)]
pub(crate) enum Order {
    /// The least number.
    Age,
    /// The greatest rank, and of equal ranks the least number.
    Rank,
    /// The least tag.
    Tag,
}

/// Items that stand in a row.
pub(crate) trait Row {
    ghost use Rattle.std.specs.Prelude.{List};
    ghost use Rattle.flow_item.specs.declared.item.Item.{Item};

    ghost members: { Self → List Item };

    /// How many.
    fn count(&self) -> usize
        ensures { result ≡ length (members self.now) };

    /// The item at a place.
    fn member(&self, place: usize) -> &Item
        requires { place < length (members self.now) }
        ensures { slice_get (members self.now) place ≡ Some result.now };
}

/// Whether a value ranks above another.
pub(crate) fn outranks(a: &Val, b: &Val) -> bool
    ensures { result ≡ outranks a.now b.now }
{
    match (a, b) {
        (Val::Int(x), Val::Int(y)) => *y < *x,
        (Val::Int(_), _) => true,
        _ => false,
    }
}

fn precedes(order: Order, a: &Item, b: &Item) -> bool
    ensures { result ≡ precedes order a.now b.now }
{
    match order {
        Order::Age => a.id.no < b.id.no,
        Order::Rank => outranks(&a.val, &b.val) || (!outranks(&b.val, &a.val) && a.id.no < b.id.no),
        Order::Tag => a.tag < b.tag,
    }
}

/// 1 where it holds.
fn one_where(holds: bool) -> usize
    ensures { result ≡ cond holds 1 0 }
{
    if holds { 1 } else { 0 }
}

/// How many of the row come before an item.
fn ahead<R: Row>(row: &R, order: Order, item: &Item) -> usize
    ensures { result ≡ ahead (precedes order) (R.members row.now) item.now }
{
    let mut count = 0;
    'rows: for place in 0..row.count() {
        count += one_where(precedes(order, row.member(place), item));
    }
    count
}

/// The item with so many of the row before it. Quadratic in the length of the row.
pub(crate) fn nth<R: Row>(row: &R, order: Order, k: usize) -> Option<&Item>
    ensures { MatchOption
        (option_copied result)
        (All (λ x. ahead (precedes order) (R.members row.now) x ≡ k → ⊥) (R.members row.now))
        (λ x. IsNth (precedes order) (R.members row.now) k x) }
{
    'rows: for place in 0..row.count() {
        let item = row.member(place);
        if ahead(row, order, item) == k {
            return Some(item);
        }
    }
    None
}
