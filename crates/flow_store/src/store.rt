ghost use Rattle.std.specs.Prelude.{◌≡◌, ◌+◌, ◌<◌, ◌≤◌, ◌^◌, ℕ, true, false, length, slice_get, OnOk, OnErr, IfOk, IfErr};
ghost use Rattle.std.specs.Option.{option_copied};
ghost use Rattle.flow_item.specs.Lists.{first};
ghost use Rattle.flow_shape.specs.declared.Kind.{Kind};
ghost use Rattle.flow_machine.specs.State.{Part};
ghost use Rattle.flow_machine.specs.Offers.{lands, bars};
ghost use Rattle.flow_machine.specs.Enabled.{is_reserved};
ghost use Rattle.flow_machine.specs.After.{part_after_give, part_after_hold, part_after_take, part_after_free};
ghost use Rattle.flow_machine.specs.PrintOrder.{items_in_order};
ghost use Rattle.flow_machine.specs.Readers.{own_items};

use flow_item::{Cause, Item, Land, NoMemory};

/// Who brings an item to a node.
#[derive(Clone, Copy, Debug)]
pub enum Way {
    /// A caller puts it.
    Caller,
    /// It comes over an edge.
    Edge,
}

/// The items of a single-push node, of which one may be locked for an edge, or the value of a keeping node, with its holds.
///
/// Contracts see the node's kind, what it has of the machine's state, and `spare`, the number of puts, at a keeping store of holds, that need no memory.
pub trait Store: Drop {
    ghost use Rattle.flow_store.specs.Stores.{room_for, room_told, after_put, may_go, goes, tag_after, put_room, hold_room, is_new};

    ghost kind: { Self → Kind };

    ghost part: { Self → Part };

    ghost spare: { Self → ℕ };

    /// Makes room for so many puts, at a keeping store for so many holds.
    fn reserve(&mut self, n: usize) -> Result<(), NoMemory>
        ensures ok { OnOk result (n ≤ spare self.new) }
        ensures kind { kind self.new ≡ kind self.old }
        ensures part { part self.new ≡ part self.old };

    /// How an item with this tag would land, or what bars it.
    fn room(&self, tag: u64, way: Way) -> Result<Land, Cause>
        ensures { room_told result ≡ room_for (kind self.now) (part self.now) tag way };

    /// Takes an item, whose number is above those of the items that are there. A refusal hands it back and changes nothing.
    fn put(&mut self, item: Item, way: Way) -> Result<Land, (Item, Cause)>
        requires room { 1 ≤ spare self.old }
        requires new { is_new item.id.no (own_items (part self.old)) ≡ true }
        ensures lands { IfOk result (λ land. room_for (kind self.old) (part self.old) item.tag way ≡ lands land) }
        ensures after { IfOk result (λ land. part self.new ≡ after_put (kind self.old) (part self.old) land item) }
        ensures bars { IfErr result (λ e. room_for (kind self.old) (part self.old) item.tag way ≡ bars e.1) }
        ensures back { IfErr result (λ e. e.0 ≡ item) }
        ensures same { OnErr result (self.new ≡ self.old) }
        ensures kind { kind self.new ≡ kind self.old }
        ensures spare { spare self.old ≤ spare self.new + put_room (part self.old) };

    /// An item that may go, at a buffer the oldest; `None` exactly where none may go.
    fn front(&self) -> Option<&Item>
        ensures { option_copied result ≡ first (may_go (kind self.now) (part self.now)) };

    /// An item that may go went over an edge: a single-push store has lost it, a keeping one is as before.
    fn give(&mut self, edge: u32, no: u64)
        requires goes { goes (kind self.old) (part self.old) no ≡ true }
        requires fits { tag_after (kind self.old) (part self.old) < 2 ^ 64 }
        ensures part { part self.new ≡ part_after_give (kind self.old) (part self.old) edge no }
        ensures kind { kind self.new ≡ kind self.old }
        ensures spare { spare self.old ≤ spare self.new };

    /// An item that may go is held for an edge. At a single-push store nothing else goes then.
    fn hold(&mut self, edge: u32, no: u64)
        requires goes { goes (kind self.old) (part self.old) no ≡ true }
        requires free { is_reserved (part self.old) edge no ≡ false }
        requires room { hold_room (part self.old) ≤ spare self.old }
        ensures part { part self.new ≡ part_after_hold (part self.old) edge no }
        ensures kind { kind self.new ≡ kind self.old }
        ensures spare { spare self.old ≤ spare self.new + hold_room (part self.old) };

    /// What is held for the edge went over it: the hold is gone, and in a single-push store the item too.
    fn take(&mut self, edge: u32, no: u64)
        requires held { is_reserved (part self.old) edge no ≡ true }
        requires fits { tag_after (kind self.old) (part self.old) < 2 ^ 64 }
        ensures part { part self.new ≡ part_after_take (kind self.old) (part self.old) edge no }
        ensures kind { kind self.new ≡ kind self.old }
        ensures spare { spare self.old ≤ spare self.new };

    /// The hold is gone, and the item stays.
    fn free(&mut self, edge: u32, no: u64)
        requires { is_reserved (part self.old) edge no ≡ true }
        ensures part { part self.new ≡ part_after_free false false (part self.old) edge no }
        ensures kind { kind self.new ≡ kind self.old }
        ensures spare { spare self.old ≤ spare self.new };

    /// The number of items that are there, held ones among them.
    fn len(&self) -> usize
        ensures { result ≡ length (own_items (part self.now)) };

    /// The item at place `k`, the oldest first, `None` exactly past the end.
    fn items(&self, k: usize) -> Option<&Item>
        ensures { option_copied result ≡ slice_get (own_items (part self.now)) k };

    /// The item at place `k` in print order, `None` exactly past the end.
    fn at(&self, k: usize) -> Option<&Item>
        ensures { option_copied result ≡ slice_get (items_in_order (kind self.now) (part self.now)) k };

    /// Brings the items in print order where `at` finds them sooner. What contracts see stays.
    fn arrange(&mut self) -> Result<(), NoMemory>
        ensures kind { kind self.new ≡ kind self.old }
        ensures part { part self.new ≡ part self.old }
        ensures spare { spare self.old ≤ spare self.new };

    ghost use Rattle.flow_store.specs.Laws.{PutsOne, GivesOne, HoldsOne};

    // a put refuses, or adds one item, or leaves the items where its own is lost
    ghost puts_one: { (s : Self) → PutsOne (kind s) (part s) };

    // what is given or taken leaves a single-push store alone, and a keeping one keeps it
    ghost gives_one: { (s : Self) → GivesOne (kind s) (part s) };

    // what is held stays, also once it is freed, and goes to nobody else
    ghost holds_one: { (s : Self) → HoldsOne (kind s) (part s) };
}
