//! What a node has beside what all kinds have: one variant for each kind, or for kinds that are alike.

ghost use Rattle.std.specs.Prelude.{◌≡◌, is_some, ℕ, List, ◌<◌, ◌≤◌, ◌+◌, ◌^◌, ◌∷◌, [], true, false, if◌then◌else◌, not, length, map, slice_get, OnOk, IfOk};
ghost use Rattle.std.specs.List.{list_any, list_all, find};
ghost use Rattle.std.specs.Option.{option_copied, option_map};
ghost use Rattle.flow_item.specs.Lists.{first, is_empty};
ghost use Rattle.flow_shape.specs.Kinds.{is_discarding};
ghost use Rattle.flow_machine.specs.State.{casts_of, start_part, offer};
ghost use Rattle.flow_machine.specs.Offers.{next_tuple, candidates, room, offer_end};
ghost use Rattle.flow_machine.specs.Enabled.{is_numbered};
ghost use Rattle.flow_machine.specs.WishEvents.{id_of};
ghost use Rattle.flow_machine.specs.After.{part_after_arrival, part_after_give, part_after_refuse, part_after_form, part_after_start, part_after_end, part_after_shut, part_after_cancel};
ghost use Rattle.flow_machine.specs.OpenParts.{open_bodies, open_holds};
ghost use Rattle.flow_machine.specs.PrintOrder.{items_in_order};
ghost use Rattle.flow_machine.specs.Wishes.{offer_wish, shut_wish, start_wish, is_ready};
ghost use Rattle.flow_node.specs.Built.{is_built, is_within_limits};
ghost use Rattle.flow_node.specs.Readied.{suits, runs_bodies};
ghost use Rattle.flow_node.specs.Parts.{cast_in, takes_in};
ghost use Rattle.flow_node.specs.Kept.{kind_of, part_of, spare_of, ready_for_of, can_form, coming_of, is_whole, is_counted, place_of, state_of, Steps};
ghost use Rattle.flow_node.specs.NodeViews.{present_items, ticket_items, running_items, first_ready, room_seen};
ghost use Rattle.flow_shape.specs.declared.Wire.{Wire};
ghost use Rattle.flow_item.specs.declared.item.Msg.{Msg};
ghost use Rattle.flow_store.specs.Stores.{is_by_caller, tag_after};

use crate::bar::Bar;
use crate::base::Base;
use crate::function::FunctionPart;
use crate::join::JoinPart;
use crate::store::StorePart;
use flow_item::{Ended, Ids, Item, Land, NoMemory, Outs};
use flow_machine::Wish;
use flow_shape::Kind;
use flow_store::{BagStore, FifoStore, RankStore, SeqStore, Way};
use std::alloc::Global;

/// What a node has beside what all kinds have.
#[derive(Drop)]
pub(crate) enum Part {
    /// A queue, buffer, priority node or sequencer.
    Store(StorePart),
    Function(FunctionPart),
    /// A queueing or key-matching join.
    Join(JoinPart),
}

impl Part {
    /// The part of a node of this kind at its start.
    pub(crate) fn new(alloc: Global, kind: &Kind) -> Result<Part, NoMemory>
        requires built { is_built kind.now ≡ true }
        requires limited { is_within_limits kind.now ≡ true }
        ensures kind { IfOk result (λ p. kind_of p ≡ kind.now) }
        ensures part { IfOk result (λ p. part_of p ≡ start_part kind.now) }
        ensures casts { IfOk result (λ p. coming_of p ≡ []) }
        ensures whole { IfOk result (λ p. (outs : List Wire) → is_whole outs p ≡ true) }
    {
        match kind {
            Kind::Queue { capacity } => Ok(Part::Store(StorePart::Queue(FifoStore::new(
                alloc, *capacity,
            )))),
            Kind::Buffer { capacity } => Ok(Part::Store(StorePart::Buffer(BagStore::new(
                alloc, *capacity,
            )))),
            Kind::Priority => Ok(Part::Store(StorePart::Priority(RankStore::new(alloc)))),
            Kind::Sequencer => Ok(Part::Store(StorePart::Sequencer(SeqStore::new(alloc)))),
            Kind::Function {
                limit,
                body,
                arg,
                ..
            } => Ok(Part::Function(FunctionPart::new(alloc, *limit, *body, arg.copy(alloc)?))),
            Kind::QueueJoin { ports } => Ok(Part::Join(JoinPart::queueing(alloc, *ports)?)),
            Kind::KeyJoin { ports } => Ok(Part::Join(JoinPart::matching(alloc, *ports)?)),
            _ => unreachable!(),
        }
    }

    /// The first item that may go over an out edge.
    pub(crate) fn candidate(&self, base: &Base, edge: u32) -> Option<&Item>
        ensures { option_copied result
            ≡ first (candidates (place_of base.now self.now) (state_of base.now self.now) edge) }
    {
        match self {
            Part::Store(store) => store.front(),
            Part::Function(function) => function.candidate(base, edge),
            Part::Join(join) => join.candidate(base, edge),
        }
    }

    /// The item of this number, where it may go over an out edge.
    pub(crate) fn offered(&self, base: &Base, edge: u32, no: u64) -> Option<&Item>
        ensures { option_copied result
            ≡ find (is_numbered no) (candidates (place_of base.now self.now) (state_of base.now self.now) edge) }
    {
        match self {
            Part::Store(store) => store.offered(no),
            Part::Function(function) => function.offered(base, edge, no),
            Part::Join(join) => join.offered(base, edge, no),
        }
    }

    /// The item of this number that is there, or that a hand is of.
    pub(crate) fn item(&self, no: u64) -> Option<&Item>
        ensures { option_copied result ≡ find (is_numbered no) (present_items (part_of self.now)) }
    {
        match self {
            Part::Store(store) => store.item(no),
            Part::Function(function) => function.item(no),
            Part::Join(join) => join.item(no),
        }
    }

    /// The item with which the first ready body starts.
    pub(crate) fn first_ready(&self) -> Option<&Item>
        ensures { option_copied result ≡ first_ready (part_of self.now) }
    {
        match self {
            Part::Store(_) => None,
            Part::Function(function) => function.first_ready(),
            Part::Join(_) => None,
        }
    }

    /// The running item of this number.
    pub(crate) fn running(&self, no: u64) -> Option<&Item>
        ensures { option_copied result ≡ find (is_numbered no) (running_items (part_of self.now)) }
    {
        match self {
            Part::Store(_) => None,
            Part::Function(function) => function.running(no),
            Part::Join(_) => None,
        }
    }

    /// The item of open ticket k, the oldest first.
    pub(crate) fn ticket(&self, k: usize) -> Option<&Item>
        ensures { option_copied result ≡ slice_get (ticket_items (part_of self.now)) k }
    {
        match self {
            Part::Store(_) => None,
            Part::Function(function) => function.ticket(k),
            Part::Join(_) => None,
        }
    }

    /// How an item with this tag would land at an input port, or what bars it.
    pub(crate) fn room(&self, base: &Base, port: u32, tag: u64, way: Way) -> Result<Land, Bar>
        ensures { room_seen result
            ≡ room (place_of base.now self.now) (state_of base.now self.now) port tag (is_by_caller way) }
    {
        let _ = base;
        let _ = port;
        match self {
            Part::Store(store) => match store.room(tag, way) {
                Ok(land) => Ok(land),
                Err(cause) => Err(Bar::Cause(cause)),
            },
            Part::Function(function) => Ok(function.land()),
            Part::Join(_) => Ok(Land::Kept),
        }
    }

    /// How many casts it is prepared with.
    pub(crate) fn coming(&self) -> usize
        ensures { result ≡ length (coming_of self.now) }
    {
        match self {
            Part::Store(_) => 0,
            Part::Function(function) => function.coming(),
            Part::Join(_) => 0,
        }
    }

    /// The number of ready and running bodies, of tickets, and of holds on its items.
    pub(crate) fn open_parts(&self, base: &Base) -> u64
        requires whole { is_whole base.now.outs.items self.now ≡ true }
        ensures { result ≡ open_bodies (part_of self.now) + open_holds (part_of self.now) }
    {
        let _ = base;
        match self {
            Part::Store(store) => store.open_holds(),
            Part::Function(function) => function.open_bodies(),
            Part::Join(_) => 0,
        }
    }

    /// Whether a body is ready.
    pub(crate) fn is_ready(&self) -> bool
        ensures { result ≡ is_ready (part_of self.now) }
    {
        match self {
            Part::Store(_) => false,
            Part::Function(function) => function.is_ready(),
            Part::Join(_) => false,
        }
    }

    /// The first offer over an edge in push.
    pub(crate) fn offer_wish(&self, base: &Base) -> Option<Wish>
        ensures { result
            ≡ offer_wish (place_of base.now self.now) (state_of base.now self.now) base.now.push.items }
    {
        match self {
            Part::Store(store) => store.offer_wish(base),
            Part::Function(function) => function.offer_wish(base),
            Part::Join(join) => join.offer_wish(base),
        }
    }

    /// The end of the cast on offer, where it may end.
    pub(crate) fn shut_wish(&self, base: &Base) -> Option<Wish>
        ensures { result
            ≡ shut_wish (offer (part_of self.now)) (offer_end (place_of base.now self.now) (state_of base.now self.now)) }
    {
        match self {
            Part::Store(_) => None,
            Part::Function(function) => function.shut_wish(base),
            Part::Join(join) => join.shut_wish(base),
        }
    }

    /// Whether a tuple can be formed.
    pub(crate) fn forms(&self, base: &Base) -> bool
        ensures { result ≡ is_some (next_tuple (place_of base.now self.now) (part_of self.now)) }
    {
        let _ = base;
        match self {
            Part::Store(_) => false,
            Part::Function(_) => false,
            Part::Join(join) => join.forms(),
        }
    }

    /// The ids of the parts of the tuple that can be formed, in port order.
    pub(crate) fn parts(&self, base: &Base) -> Result<Option<Ids>, NoMemory>
        ensures { IfOk
            result
            (λ ids. ids ≡ option_map (map id_of) (next_tuple (place_of base.now self.now) (part_of self.now))) }
    {
        let _ = base;
        match self {
            Part::Store(_) => Ok(None),
            Part::Function(_) => Ok(None),
            Part::Join(join) => join.parts(),
        }
    }

    /// The start of a ready body.
    pub(crate) fn start_wish(&self) -> Option<Wish>
        ensures { result ≡ start_wish (part_of self.now) }
    {
        match self {
            Part::Store(_) => None,
            Part::Function(function) => function.start_wish(),
            Part::Join(_) => None,
        }
    }

    /// How many items there are to print.
    pub(crate) fn len(&self) -> usize
        ensures { result ≡ length (items_in_order (kind_of self.now) (part_of self.now)) }
    {
        match self {
            Part::Store(store) => store.len(),
            Part::Function(_) => 0,
            Part::Join(_) => 0,
        }
    }

    /// The item at this place in print order.
    pub(crate) fn at(&self, k: usize) -> Option<&Item>
        ensures { option_copied result
            ≡ slice_get (items_in_order (kind_of self.now) (part_of self.now)) k }
    {
        match self {
            Part::Store(store) => store.at(k),
            Part::Function(_) => None,
            Part::Join(_) => None,
        }
    }
}

impl Part {
    /// Makes room for one more item, with this tag and at this port.
    pub(crate) fn reserve(&mut self, port: u32, tag: u64) -> Result<(), NoMemory>
        ensures same { (outs : List Wire) → Steps outs self.old self.new (part_of self.old) (coming_of self.old) }
        ensures ok { OnOk result (1 ≤ spare_of self.new) }
        ensures suits { OnOk result (suits (ready_for_of self.new) port tag ≡ true) }
    {
        let _ = port;
        let _ = tag;
        match self {
            Part::Store(store) => store.reserve(),
            Part::Function(function) => function.reserve(),
            Part::Join(join) => join.reserve(port, tag),
        }
    }

    /// Brings the items in print order where `at` finds them sooner.
    pub(crate) fn arrange(&mut self) -> Result<(), NoMemory>
        ensures { (outs : List Wire) → Steps outs self.old self.new (part_of self.old) (coming_of self.old) }
    {
        match self {
            Part::Store(store) => store.arrange(),
            Part::Function(_) => Ok(()),
            Part::Join(_) => Ok(()),
        }
    }

    /// Gives up the casts that it is prepared with.
    pub(crate) fn clear(&mut self)
        ensures { (outs : List Wire) → Steps outs self.old self.new (part_of self.old) [] }
    {
        match self {
            Part::Store(_) => {}
            Part::Function(function) => function.clear(),
            Part::Join(_) => {}
        }
    }

    /// Makes the casts of messages, which are numbered from a number on: none where the kind runs no bodies, and after a refusal.
    pub(crate) fn expect(&mut self, base: &Base, number: u64, outs: &Outs) -> Result<(), NoMemory>
        requires { number + length outs.now ≤ 18446744073709551615 }
        ensures same { Steps base.now.outs.items self.old self.new (part_of self.old) (coming_of self.new) }
        ensures few { length (coming_of self.new) ≤ length outs.now }
        ensures ok { OnOk
            result
            (map cast_in (coming_of self.new) ≡ (if runs_bodies (part_of self.old) then casts_of base.now.node number outs.now else [])) }
    {
        match self {
            Part::Store(_) => Ok(()),
            Part::Function(function) => function.expect(base, number, outs),
            Part::Join(_) => Ok(()),
        }
    }

    /// Makes what the next tuple is made in, where the kind forms tuples.
    pub(crate) fn expect_tuple(&mut self, base: &Base) -> Result<(), NoMemory>
        ensures same { Steps base.now.outs.items self.old self.new (part_of self.old) (coming_of self.old) }
        ensures ok { OnOk result (can_form self.new ≡ true) }
    {
        match self {
            Part::Store(_) => Ok(()),
            Part::Function(_) => Ok(()),
            Part::Join(join) => join.expect_tuple(base),
        }
    }

    /// An item comes to a port, and isn't lost: it has the node's next number.
    pub(crate) fn arrive(&mut self, base: &Base, port: u32, item: Item, way: Way)
        requires spare { 1 ≤ spare_of self.old }
        requires suits { suits (ready_for_of self.old) port item.tag ≡ true }
        requires counted { is_counted base.now.made (part_of self.old) ≡ true }
        requires number { item.id.no ≡ base.now.made }
        requires taken { takes_in (room (place_of base.now self.old) (state_of base.now self.old) port item.tag (is_by_caller way)) ≡ true }
        ensures { Steps base.now.outs.items self.old self.new (part_after_arrival (place_of base.now self.old) base.now.push.items (part_of self.old) port item) (coming_of self.old) }
    {
        let _ = base;
        let _ = port;
        match self {
            Part::Store(store) => store.arrive(item, way),
            Part::Function(function) => function.arrive(item),
            Part::Join(join) => join.arrive(port, item),
        }
    }

    /// The item of this number goes over an out edge.
    pub(crate) fn give(&mut self, base: &Base, edge: u32, no: u64)
        requires whole { is_whole base.now.outs.items self.old ≡ true }
        requires fits { tag_after (kind_of self.old) (part_of self.old) < 2 ^ 64 }
        requires allowed { list_any (is_numbered no) (candidates (place_of base.now self.old) (state_of base.now self.old) edge) ≡ true }
        ensures { Steps base.now.outs.items self.old self.new (part_after_give (kind_of self.old) (part_of self.old) edge no) (coming_of self.old) }
    {
        match self {
            Part::Store(store) => store.give(edge, no),
            Part::Function(function) => function.give(base, edge),
            Part::Join(join) => join.give(base, edge),
        }
    }

    /// An out edge refused an item that may go over it.
    pub(crate) fn refuse(&mut self, base: &Base, edge: u32)
        requires whole { is_whole base.now.outs.items self.old ≡ true }
        requires open { is_empty (candidates (place_of base.now self.old) (state_of base.now self.old) edge) ≡ false }
        ensures { Steps base.now.outs.items self.old self.new (part_after_refuse (not (is_discarding (kind_of self.old))) (part_of self.old) edge) (coming_of self.old) }
    {
        match self {
            Part::Store(_) => {}
            Part::Function(function) => function.refuse(base, edge),
            Part::Join(_) => {}
        }
    }

    /// Whether a refusal turns an out edge to pull.
    pub(crate) fn switches(&self) -> bool
        ensures { result ≡ not (is_discarding (kind_of self.now)) }
    {
        match self {
            Part::Store(_) => true,
            Part::Function(_) => false,
            Part::Join(_) => true,
        }
    }

    /// The first ready body starts.
    pub(crate) fn start(&mut self)
        ensures { (outs : List Wire) → Steps outs self.old self.new (part_after_start (part_of self.old)) (coming_of self.old) }
    {
        match self {
            Part::Store(_) => {}
            Part::Function(function) => function.start(),
            Part::Join(_) => {}
        }
    }

    /// The body of a running item ends with the messages of whose casts it is prepared.
    pub(crate) fn end(&mut self, base: &Base, no: u64)
        requires running { list_any (is_numbered no) (running_items (part_of self.old)) ≡ true }
        ensures same { Steps base.now.outs.items self.old self.new (part_of self.new) [] }
        ensures part { (number : ℕ) → (outs : List Msg) → map cast_in (coming_of self.old) ≡ casts_of base.now.node number outs
            → part_of self.new ≡ part_after_end (place_of base.now self.old) (part_of self.old) no number outs }
    {
        let _ = base;
        match self {
            Part::Store(_) => unreachable!(),
            Part::Function(function) => function.end(no),
            Part::Join(_) => unreachable!(),
        }
    }

    /// A tuple is formed with this number, and is on offer.
    pub(crate) fn form(&mut self, base: &Base, no: u64)
        requires some { is_some (next_tuple (place_of base.now self.old) (part_of self.old)) ≡ true }
        requires room { can_form self.old ≡ true }
        ensures { Steps base.now.outs.items self.old self.new (part_after_form (place_of base.now self.old) no (part_of self.old) (next_tuple (place_of base.now self.old) (part_of self.old))) (coming_of self.old) }
    {
        match self {
            Part::Store(_) => unreachable!(),
            Part::Function(_) => unreachable!(),
            Part::Join(join) => join.form(base, no),
        }
    }

    /// The cast on offer ends so.
    pub(crate) fn shut(&mut self, ended: Ended)
        ensures { (outs : List Wire) → Steps outs self.old self.new (part_after_shut (part_of self.old) ended) (coming_of self.old) }
    {
        let _ = ended;
        match self {
            Part::Store(_) => {}
            Part::Function(function) => function.shut(),
            Part::Join(join) => join.shut(),
        }
    }

    /// What has not begun is dropped.
    pub(crate) fn cancel(&mut self)
        ensures { (outs : List Wire) → Steps outs self.old self.new (part_after_cancel (part_of self.old)) (coming_of self.old) }
    {
        match self {
            Part::Store(_) => {}
            Part::Function(function) => function.cancel(),
            Part::Join(_) => {}
        }
    }
}
