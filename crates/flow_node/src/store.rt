//! The part of a node that gives each of its items to one edge.

ghost use Rattle.std.specs.Prelude.{◌≡◌, ◌≤◌, ◌<◌, ◌^◌, ◌&&◌, true, [], length, None, filter, nat_eq, slice_get, OnOk, IfOk, IfErr};
ghost use Rattle.std.specs.List.{find};
ghost use Rattle.std.specs.Option.{option_copied};
ghost use Rattle.flow_item.specs.Lists.{first};
ghost use Rattle.flow_item.specs.declared.item.Item.{Item};
ghost use Rattle.flow_machine.specs.State.{store_part, option_list};
ghost use Rattle.flow_machine.specs.Offers.{part_room, lands, bars};
ghost use Rattle.flow_machine.specs.Enabled.{is_numbered};
ghost use Rattle.flow_machine.specs.After.{part_after_give};
ghost use Rattle.flow_machine.specs.OpenParts.{open_holds};
ghost use Rattle.flow_machine.specs.PrintOrder.{items_in_order};
ghost use Rattle.flow_machine.specs.Wishes.{offer_wish};
ghost use Rattle.flow_store.specs.Stores.{is_by_caller, room_told, may_go, goes, tag_after, after_put, is_new};
ghost use Rattle.flow_node.specs.Parts.{store_kind, store_state, store_spare, takes_in, with_item};
ghost use Rattle.flow_node.specs.Kept.{place_with, state_with};

use crate::base::Base;
use flow_item::{Cause, Item, Land, NoMemory};
use flow_machine::{Claim, Wish};
use flow_store::{BagStore, FifoStore, RankStore, SeqStore, Store, Way};

/// The items of a node that gives each of them to one edge.
#[derive(Drop)]
pub(crate) enum StorePart {
    Queue(FifoStore),
    Buffer(BagStore),
    Priority(RankStore),
    Sequencer(SeqStore),
}

/// Whether it is the item of this number and tag.
fn is_tagged(item: &Item, no: u64, tag: u64) -> bool
    ensures { result ≡ (is_numbered no item.now && nat_eq item.now.tag tag) }
{
    item.id.no == no && item.tag == tag
}

impl StorePart {
    /// The first item that may go.
    pub(crate) fn front(&self) -> Option<&Item>
        ensures { option_copied result
            ≡ first (may_go (store_kind self.now) (store_part (store_state self.now))) }
    {
        match self {
            StorePart::Queue(store) => store.front(),
            StorePart::Buffer(store) => store.front(),
            StorePart::Priority(store) => store.front(),
            StorePart::Sequencer(store) => store.front(),
        }
    }

    /// The first item that may go, where it has this number.
    fn front_numbered(&self, no: u64) -> Option<&Item>
        ensures { option_copied result
            ≡ find (is_numbered no) (option_list (first (may_go (store_kind self.now) (store_part (store_state self.now))))) }
    {
        match self.front() {
            Some(item) if item.id.no == no => Some(item),
            _ => None,
        }
    }

    /// The item of this number, where it may go. Constant time for the first one that may.
    pub(crate) fn offered(&self, no: u64) -> Option<&Item>
        ensures { option_copied result
            ≡ find (is_numbered no) (may_go (store_kind self.now) (store_part (store_state self.now))) }
    {
        match self.front_numbered(no) {
            Some(item) => Some(item),
            None => self.offered_later(no),
        }
    }

    /// The item of this number, where it may go, but isn't the first one that may.
    fn offered_later(&self, no: u64) -> Option<&Item>
        requires { find (is_numbered no) (option_list (first (may_go (store_kind self.now) (store_part (store_state self.now))))) ≡ None }
        ensures { option_copied result
            ≡ find (is_numbered no) (may_go (store_kind self.now) (store_part (store_state self.now))) }
    {
        match self {
            StorePart::Queue(_) => None,
            StorePart::Buffer(store) => match store.lock() {
                Some(_) => None,
                None => self.item(no),
            },
            StorePart::Priority(_) => None,
            StorePart::Sequencer(store) => match store.lock() {
                Some(_) => None,
                None => self.tagged(no, store.next()),
            },
        }
    }

    /// The item of this number. Linear in the items of a queue and a buffer.
    pub(crate) fn item(&self, no: u64) -> Option<&Item>
        ensures { option_copied result ≡ find (is_numbered no) (store_state self.now).items }
    {
        for k in 0..self.len() {
            let item = self.item_at(k);
            if item.id.no == no {
                return Some(item);
            }
        }
        None
    }

    /// The item of this number and tag.
    fn tagged(&self, no: u64, tag: u64) -> Option<&Item>
        ensures { option_copied result
            ≡ find (is_numbered no) (filter (λ (i : Item). nat_eq i.tag tag) (store_state self.now).items) }
    {
        for k in 0..self.len() {
            let item = self.item_at(k);
            if is_tagged(item, no, tag) {
                return Some(item);
            }
        }
        None
    }

    /// The item at this place, the oldest first.
    fn item_at(&self, k: usize) -> &Item
        requires { k < length (store_state self.now).items }
        ensures { slice_get (store_state self.now).items k ≡ Some result.now }
    {
        match self.items(k) {
            Some(item) => item,
            None => unreachable!(),
        }
    }

    fn items(&self, k: usize) -> Option<&Item>
        ensures { option_copied result ≡ slice_get (store_state self.now).items k }
    {
        match self {
            StorePart::Queue(store) => store.items(k),
            StorePart::Buffer(store) => store.items(k),
            StorePart::Priority(store) => store.items(k),
            StorePart::Sequencer(store) => store.items(k),
        }
    }

    /// How an item with this tag would land, or what bars it.
    pub(crate) fn room(&self, tag: u64, way: Way) -> Result<Land, Cause>
        ensures { room_told result
            ≡ part_room (store_kind self.now) [] 0 tag (is_by_caller way) (store_part (store_state self.now)) }
    {
        match self {
            StorePart::Queue(store) => store.room(tag, way),
            StorePart::Buffer(store) => store.room(tag, way),
            StorePart::Priority(store) => store.room(tag, way),
            StorePart::Sequencer(store) => store.room(tag, way),
        }
    }

    /// The number of locked items.
    pub(crate) fn open_holds(&self) -> u64
        ensures { result ≡ open_holds (store_part (store_state self.now)) }
    {
        match self.lock() {
            Some(_) => 1,
            None => 0,
        }
    }

    fn lock(&self) -> Option<Claim>
        ensures { result ≡ (store_state self.now).lock }
    {
        match self {
            StorePart::Queue(store) => store.lock(),
            StorePart::Buffer(store) => store.lock(),
            StorePart::Priority(store) => store.lock(),
            StorePart::Sequencer(store) => store.lock(),
        }
    }

    /// The offer of the first item that may go over the first edge in push.
    pub(crate) fn offer_wish(&self, base: &Base) -> Option<Wish>
        ensures { result
            ≡ offer_wish (place_with base.now (store_kind self.now)) (state_with base.now (store_part (store_state self.now))) base.now.push.items }
    {
        match self.front() {
            None => None,
            Some(item) => match base.push.first() {
                None => None,
                Some(edge) => Some(Wish::Offer {
                    edge: *edge,
                    item: item.id.no,
                }),
            },
        }
    }

    /// How many items there are.
    pub(crate) fn len(&self) -> usize
        ensures { result ≡ length (store_state self.now).items }
    {
        match self {
            StorePart::Queue(store) => store.len(),
            StorePart::Buffer(store) => store.len(),
            StorePart::Priority(store) => store.len(),
            StorePart::Sequencer(store) => store.len(),
        }
    }

    /// The item at this place in print order.
    pub(crate) fn at(&self, k: usize) -> Option<&Item>
        ensures { option_copied result
            ≡ slice_get (items_in_order (store_kind self.now) (store_part (store_state self.now))) k }
    {
        match self {
            StorePart::Queue(store) => store.at(k),
            StorePart::Buffer(store) => store.at(k),
            StorePart::Priority(store) => store.at(k),
            StorePart::Sequencer(store) => store.at(k),
        }
    }
}

impl StorePart {
    /// Makes room for one more item.
    pub(crate) fn reserve(&mut self) -> Result<(), NoMemory>
        ensures ok { OnOk result (1 ≤ store_spare self.new) }
        ensures kind { store_kind self.new ≡ store_kind self.old }
        ensures state { store_state self.new ≡ store_state self.old }
    {
        match self {
            StorePart::Queue(store) => store.reserve(1),
            StorePart::Buffer(store) => store.reserve(1),
            StorePart::Priority(store) => store.reserve(1),
            StorePart::Sequencer(store) => store.reserve(1),
        }
    }

    /// Brings the items in print order where `at` finds them sooner.
    pub(crate) fn arrange(&mut self) -> Result<(), NoMemory>
        ensures kind { store_kind self.new ≡ store_kind self.old }
        ensures state { store_state self.new ≡ store_state self.old }
    {
        match self {
            StorePart::Queue(store) => store.arrange(),
            StorePart::Buffer(store) => store.arrange(),
            StorePart::Priority(store) => store.arrange(),
            StorePart::Sequencer(store) => store.arrange(),
        }
    }

    /// An item comes that isn't lost.
    pub(crate) fn arrive(&mut self, item: Item, way: Way)
        requires room { 1 ≤ store_spare self.old }
        requires new { is_new item.id.no (store_state self.old).items ≡ true }
        requires taken { takes_in (part_room (store_kind self.old) [] 0 item.tag (is_by_caller way) (store_part (store_state self.old))) ≡ true }
        ensures kind { store_kind self.new ≡ store_kind self.old }
        ensures part { store_part (store_state self.new)
            ≡ store_part (with_item item (store_state self.old)) }
    {
        if let Err(_) = self.put(item, way) {
            unreachable!()
        }
    }

    /// Takes an item, or hands it back.
    fn put(&mut self, item: Item, way: Way) -> Result<Land, (Item, Cause)>
        requires room { 1 ≤ store_spare self.old }
        requires new { is_new item.id.no (store_state self.old).items ≡ true }
        ensures lands { IfOk
            result
            (λ land. part_room (store_kind self.old) [] 0 item.tag (is_by_caller way) (store_part (store_state self.old)) ≡ lands land) }
        ensures after { IfOk
            result
            (λ land. store_part (store_state self.new) ≡ after_put (store_kind self.old) (store_part (store_state self.old)) land item) }
        ensures bars { IfErr
            result
            (λ e. part_room (store_kind self.old) [] 0 item.tag (is_by_caller way) (store_part (store_state self.old)) ≡ bars e.1) }
        ensures kind { store_kind self.new ≡ store_kind self.old }
    {
        match self {
            StorePart::Queue(store) => store.put(item, way),
            StorePart::Buffer(store) => store.put(item, way),
            StorePart::Priority(store) => store.put(item, way),
            StorePart::Sequencer(store) => store.put(item, way),
        }
    }

    /// An item that may go went over an edge.
    pub(crate) fn give(&mut self, edge: u32, no: u64)
        requires goes { goes (store_kind self.old) (store_part (store_state self.old)) no ≡ true }
        requires fits { tag_after (store_kind self.old) (store_part (store_state self.old)) < 2 ^ 64 }
        ensures kind { store_kind self.new ≡ store_kind self.old }
        ensures part { store_part (store_state self.new)
            ≡ part_after_give (store_kind self.old) (store_part (store_state self.old)) edge no }
    {
        match self {
            StorePart::Queue(store) => store.give(edge, no),
            StorePart::Buffer(store) => store.give(edge, no),
            StorePart::Priority(store) => store.give(edge, no),
            StorePart::Sequencer(store) => store.give(edge, no),
        }
    }
}
