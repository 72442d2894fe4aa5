//! The part of a function that lets items wait.

ghost use Rattle.std.specs.Prelude.{◌≡◌, ◌≤◌, ◌<◌, ◌-◌, ◌+◌, ◌&&◌, ◌||◌, not, true, false, Some, None, [], ◌∷◌, ◌++◌, length, map, filter, slice_get, min, nat_eq, drop, OnOk, OnErr, IfOk, IfSome};
ghost use Rattle.std.specs.List.{list_any, list_all, find};
ghost use Rattle.std.specs.Option.{option_copied};
ghost use Rattle.flow_item.specs.Lists.{has, is_empty, first, rest};
ghost use Rattle.flow_machine.specs.State.{casts_of, change_first, offer};
ghost use Rattle.flow_machine.specs.Offers.{candidates, offer_end, is_met, part_room, lands};
ghost use Rattle.flow_machine.specs.Enabled.{is_numbered};
ghost use Rattle.flow_machine.specs.After.{queue_up};
ghost use Rattle.flow_machine.specs.OpenParts.{open_bodies, open_holds};
ghost use Rattle.flow_machine.specs.Wishes.{offer_wish, shut_wish, start_wish, is_ready};
ghost use Rattle.flow_node.specs.Parts.{FunctionView, cast_in, function_kind, function_state, function_part, edges_over, is_roomy, are_roomy, item_in, Adds, work_after_start, work_after_cancel, work_after_end, given_over, refused_over};
ghost use Rattle.flow_node.specs.Kept.{place_with, state_with};
ghost use Rattle.flow_node.specs.NodeViews.{present_items};

use crate::base::Base;
use flow_cast::Cast;
use flow_func::Func;
use flow_item::{Ended, Id, Item, Land, Msg, NoMemory, Outs, Val};
use flow_machine::Wish;
use flow_shape::Wire;
use std::alloc::Global;
use std::collections::VecDeque;
use std::marker::Model;

/// The items of a function, and the casts of its messages.
#[derive(Drop)]
pub(crate) struct FunctionPart {
    func: Func,
    body: u32,
    arg: Val,
    /// The casts in the order of their numbers: those of the outbox, and then those that the node is prepared with.
    casts: VecDeque<Cast>,
    /// How many of them are in the outbox.
    offered: usize,
}

impl Model for FunctionPart {
    ghost use Rattle.std.specs.Prelude.{◌≡◌, ◌≤◌, false, take, drop, length};
    ghost use Rattle.std.specs.Coded.{codes};
    ghost use Rattle.flow_item.specs.contracts.val.Val as val;
    ghost use Rattle.flow_node.specs.Parts.{FunctionView};

    ghost Value = { FunctionView };

    ghost coded = { Prim.hlevel (codes, val.the_row.coded) };

    ghost view = { λ f. record {
      limit = f.func.limit;
      body = f.body;
      arg = f.arg;
      work = f.func.body;
      spare = f.func.spare;
      outbox = take f.offered f.casts.items;
      coming = drop f.offered f.casts.items;
    } };

    ghost invariant = { λ f. (f.offered ≤ length f.casts.items) × (f.func.reject ≡ false) };
}

/// Whether it is the edge, and goes out of the port.
fn goes_over(wire: Wire, port: u32, edge: u32) -> bool
    ensures { result ≡ (nat_eq wire.out port && nat_eq wire.edge edge) }
{
    wire.out == port && wire.edge == edge
}

/// Whether the edge goes out of the port.
fn is_over(outs: &[Wire], port: u32, edge: u32) -> bool
    ensures { result ≡ list_any (λ w. nat_eq w.out port && nat_eq w.edge edge) outs.now }
{
    for x in 0..outs.len() {
        if goes_over(outs[x], port, edge) {
            return true;
        }
    }
    false
}

/// The number of edges out of the port.
pub(crate) fn count_over(outs: &[Wire], port: u32) -> usize
    ensures { result ≡ length (filter (λ w. nat_eq w.out port) outs.now) }
{
    outs.iter().filter(|wire| wire.out == port).count()
}

/// Whether the cast met the edge, where it goes out of the port.
fn has_met(wire: Wire, cast: &Cast, port: u32) -> bool
    ensures { result ≡ (not (nat_eq wire.out port) || has cast.now.cast.met wire.edge) }
{
    wire.out != port || !cast.offer(wire.edge)
}

/// Whether the cast met all edges out of the port.
fn has_met_over(outs: &[Wire], cast: &Cast, port: u32) -> bool
    ensures { result
        ≡ list_all (λ w. not (nat_eq w.out port) || has cast.now.cast.met w.edge) outs.now }
{
    for x in 0..outs.len() {
        if !has_met(outs[x], cast, port) {
            return false;
        }
    }
    true
}

/// Whether the cast may meet the edge: it goes out of its port, and wasn't met.
pub(crate) fn may_meet(outs: &[Wire], cast: &Cast, edge: u32) -> bool
    ensures { result
        ≡ (has (edges_over outs.now cast.now.cast.port) edge && not (has cast.now.cast.met edge)) }
{
    is_over(outs, cast.port(), edge) && cast.offer(edge)
}

/// Whether the cast met all edges of its port, and none holds it.
fn has_met_all(outs: &[Wire], cast: &Cast) -> bool
    ensures { result ≡ is_met (edges_over outs.now cast.now.cast.port) cast.now.cast }
{
    !cast.is_held() && has_met_over(outs, cast, cast.port())
}

/// The cast of a message, as an item of the node, with room for the edges of its port.
fn cast_of(alloc: Global, base: &Base, number: u64, msg: &Msg) -> Result<Cast, NoMemory>
    ensures { IfOk
        result
        (λ c. (c.cast ∷ [] ≡ casts_of base.now.node number (msg.now ∷ [])) × (is_roomy base.now.outs.items c ≡ true)) }
{
    let item = Item {
        id: Id {
            node: base.node,
            no: number,
        },
        tag: msg.tag,
        val: msg.val.copy(alloc)?,
    };
    match Cast::new(alloc, item, msg.port, count_over(&base.outs, msg.port)) {
        Ok(cast) => Ok(cast),
        Err(refused) => {
            drop(refused);
            Err(NoMemory)
        }
    }
}

/// The message at this place.
fn message_at(outs: &Outs, k: usize) -> &Msg
    requires { k < length outs.now }
    ensures { slice_get outs.now k ≡ Some result.now }
{
    match outs.get(k) {
        Some(msg) => msg,
        None => unreachable!(),
    }
}

/// Adds a cast behind the others.
fn add_cast(casts: &mut VecDeque<Cast>, cast: Cast) -> Result<(), NoMemory>
    ensures ok { OnOk result (casts.new.items ≡ casts.old.items ++ cast ∷ []) }
    ensures err { OnErr result (casts.new.items ≡ casts.old.items) }
{
    match casts.push_back(cast) {
        Ok(()) => Ok(()),
        Err(refused) => {
            drop(refused);
            Err(NoMemory)
        }
    }
}

/// Adds the casts of the messages, which are numbered from a number on. After a refusal some of them are there.
fn add_casts(
    casts: &mut VecDeque<Cast>,
    alloc: Global,
    base: &Base,
    number: u64,
    outs: &Outs,
) -> Result<(), NoMemory>
    requires { number + length outs.now ≤ 18446744073709551615 }
    ensures more { Adds base.now.outs.items casts.old.items casts.new.items }
    ensures ok { OnOk
        result
        (map cast_in (drop (length casts.old.items) casts.new.items) ≡ casts_of base.now.node number outs.now) }
{
    for k in 0..outs.len() {
        let cast = cast_of(alloc, base, number + k as u64, message_at(outs, k))?;
        add_cast(casts, cast)?;
    }
    Ok(())
}

impl FunctionPart {
    /// No items.
    pub(crate) fn new(alloc: Global, limit: Option<u32>, body: u32, arg: Val) -> FunctionPart
        requires { IfSome limit (λ n. 1 ≤ n) }
        ensures { result
            ≡ record { limit = limit; body = body; arg = arg; work = record { waiting = []; ready = []; running = []; tickets = []; outbox = []; cancelled = false }; spare = result.spare; outbox = []; coming = [] } }
    {
        FunctionPart {
            func: Func::new(alloc, false, limit),
            body,
            arg,
            casts: VecDeque::new(alloc),
            offered: 0,
        }
    }

    /// The cast on offer.
    fn offer(&self) -> Option<&Cast>
        ensures { option_copied result ≡ first self.now.outbox }
    {
        if self.offered == 0 {
            None
        } else {
            self.casts.front()
        }
    }

    /// The item on offer, where it may go over the edge. Linear in the edges of the node.
    pub(crate) fn candidate(&self, base: &Base, edge: u32) -> Option<&Item>
        ensures { option_copied result
            ≡ first (candidates (place_with base.now (function_kind self.now)) (state_with base.now (function_part self.now)) edge) }
    {
        match self.offer() {
            Some(cast) if may_meet(&base.outs, cast, edge) => Some(cast.item()),
            _ => None,
        }
    }

    /// The item of this number, where it may go over the edge.
    pub(crate) fn offered(&self, base: &Base, edge: u32, no: u64) -> Option<&Item>
        ensures { option_copied result
            ≡ find (is_numbered no) (candidates (place_with base.now (function_kind self.now)) (state_with base.now (function_part self.now)) edge) }
    {
        match self.offer() {
            Some(cast) if cast.item().id.no == no && may_meet(&base.outs, cast, edge) => Some(
                cast.item(),
            ),
            _ => None,
        }
    }

    /// The first item of this number among those that wait, are ready, run, and are on offer. Linear in the items.
    pub(crate) fn item(&self, no: u64) -> Option<&Item>
        ensures { option_copied result
            ≡ find (is_numbered no) (present_items (function_part self.now)) }
    {
        match self.func.item(no) {
            Some(item) => Some(item),
            None => self.cast_item(no),
        }
    }

    /// The first item of this number in the outbox.
    fn cast_item(&self, no: u64) -> Option<&Item>
        ensures { option_copied result
            ≡ find (is_numbered no) (map item_in self.now.outbox) }
    {
        for k in 0..self.offered {
            let item = self.cast_at(k).item();
            if item.id.no == no {
                return Some(item);
            }
        }
        None
    }

    /// The item with which the first ready body starts.
    pub(crate) fn first_ready(&self) -> Option<&Item>
        ensures { option_copied result ≡ first self.now.work.ready }
    {
        self.func.ready(0)
    }

    /// The running item of this number. Linear in the running bodies.
    pub(crate) fn running(&self, no: u64) -> Option<&Item>
        ensures { option_copied result ≡ find (is_numbered no) self.now.work.running }
    {
        self.func.running_item(no)
    }

    /// The item of open ticket k, the oldest first.
    pub(crate) fn ticket(&self, k: usize) -> Option<&Item>
        ensures { option_copied result ≡ slice_get self.now.work.tickets k }
    {
        self.func.tickets(k)
    }

    /// How an item lands: a node that was cancelled loses it.
    pub(crate) fn land(&self) -> Land
        ensures { lands result ≡ part_room (function_kind self.now) [] 0 0 true (function_part self.now) }
    {
        if self.func.cancelled() {
            Land::Lost
        } else {
            Land::Kept
        }
    }

    /// The number of ready and running bodies and of tickets.
    pub(crate) fn open_bodies(&self) -> u64
        ensures { result ≡ open_bodies (function_part self.now) }
    {
        self.func.open_bodies()
    }

    /// The first offer over an edge in push.
    pub(crate) fn offer_wish(&self, base: &Base) -> Option<Wish>
        ensures { result
            ≡ offer_wish (place_with base.now (function_kind self.now)) (state_with base.now (function_part self.now)) base.now.push.items }
    {
        for k in 0..base.push.len() {
            let edge = base.push[k];
            if let Some(item) = self.candidate(base, edge) {
                return Some(Wish::Offer {
                    edge,
                    item: item.id.no,
                });
            }
        }
        None
    }

    /// How the cast on offer ends, where it met all edges of its port.
    fn ended(&self, base: &Base) -> Option<Ended>
        ensures { result
            ≡ offer_end (place_with base.now (function_kind self.now)) (state_with base.now (function_part self.now)) }
    {
        match self.offer() {
            Some(cast) if has_met_all(&base.outs, cast) => Some(if cast.got() == 0 {
                Ended::Lost
            } else {
                Ended::Out
            }),
            _ => None,
        }
    }

    /// The end of the cast on offer, where it met all edges of its port.
    pub(crate) fn shut_wish(&self, base: &Base) -> Option<Wish>
        ensures { result
            ≡ shut_wish (offer (function_part self.now)) (offer_end (place_with base.now (function_kind self.now)) (state_with base.now (function_part self.now))) }
    {
        match (self.offer(), self.ended(base)) {
            (Some(cast), Some(ended)) => Some(Wish::Shut {
                item: cast.item().id.no,
                ended,
            }),
            _ => None,
        }
    }

    /// The start of the first ready body.
    pub(crate) fn start_wish(&self) -> Option<Wish>
        ensures { result ≡ start_wish (function_part self.now) }
    {
        match self.func.ready(0) {
            Some(item) => Some(Wish::Start { item: item.id.no }),
            None => None,
        }
    }

    /// Whether a body is ready.
    pub(crate) fn is_ready(&self) -> bool
        ensures { result ≡ is_ready (function_part self.now) }
    {
        self.func.ready(0).is_some()
    }

    /// How many casts it is prepared with.
    pub(crate) fn coming(&self) -> usize
        ensures { result ≡ length self.now.coming }
    {
        self.casts.len() - self.offered
    }

    /// A cast of the outbox.
    fn cast_at(&self, k: usize) -> &Cast
        requires { k < length self.now.outbox }
        ensures { slice_get self.now.outbox k ≡ Some result.now }
    {
        match self.casts.get(k) {
            Some(cast) => cast,
            None => unreachable!(),
        }
    }
}

impl FunctionPart {
    /// Makes room for one more item.
    pub(crate) fn reserve(&mut self) -> Result<(), NoMemory>
        ensures ok { OnOk result (1 ≤ self.new.spare) }
        ensures same { self.new ≡ record self.old { spare = self.new.spare } }
    {
        self.func.reserve(1)
    }

    /// Gives up the casts that it is prepared with.
    pub(crate) fn clear(&mut self)
        ensures { self.new ≡ record self.old { coming = [] } }
    {
        self.casts.truncate(self.offered);
    }

    /// Makes the casts of messages, which are numbered from a number on. After a refusal there are none.
    pub(crate) fn expect(&mut self, base: &Base, number: u64, outs: &Outs) -> Result<(), NoMemory>
        requires { number + length outs.now ≤ 18446744073709551615 }
        ensures same { self.new ≡ record self.old { coming = self.new.coming } }
        ensures roomy { are_roomy base.now.outs.items self.new.coming ≡ true }
        ensures ok { OnOk result (map cast_in self.new.coming ≡ casts_of base.now.node number outs.now) }
        ensures err { OnErr result (self.new.coming ≡ []) }
    {
        let alloc = *self.casts.allocator();
        self.casts.truncate(self.offered);
        match add_casts(&mut self.casts, alloc, base, number, outs) {
            Ok(()) => Ok(()),
            Err(refused) => {
                self.casts.truncate(self.offered);
                Err(refused)
            }
        }
    }

    /// An item comes: it is ready where a place is free, and waits otherwise.
    pub(crate) fn arrive(&mut self, item: Item)
        requires { 1 ≤ self.old.spare }
        ensures { self.new
            ≡ record self.old { work = queue_up self.old.limit item self.old.work; spare = self.new.spare } }
    {
        self.func.accept(item);
    }

    /// The first ready body starts.
    pub(crate) fn start(&mut self)
        ensures { self.new ≡ record self.old { work = work_after_start self.old.work } }
    {
        self.func.start();
    }

    /// The body of a running item ends, and the casts that the node is prepared with are in the outbox.
    pub(crate) fn end(&mut self, no: u64)
        requires { list_any (is_numbered no) self.old.work.running ≡ true }
        ensures { self.new
            ≡ record self.old { work = work_after_end self.old.limit no self.old.work; spare = self.new.spare; outbox = self.old.outbox ++ self.old.coming; coming = [] } }
    {
        self.func.end(no);
        self.offered = self.casts.len();
    }

    /// What has not begun is dropped.
    pub(crate) fn cancel(&mut self)
        ensures { self.new ≡ record self.old { work = work_after_cancel self.old.work; spare = self.new.spare } }
    {
        self.func.cancel();
    }

    /// The cast on offer is over.
    pub(crate) fn shut(&mut self)
        ensures { self.new ≡ record self.old { outbox = rest self.old.outbox } }
    {
        if self.offered > 0 {
            drop(self.casts.pop_front());
            self.offered -= 1;
        }
    }

    /// The item on offer went over the edge.
    pub(crate) fn give(&mut self, base: &Base, edge: u32)
        requires roomy { are_roomy base.now.outs.items self.old.outbox ≡ true }
        requires open { is_empty (candidates (place_with base.now (function_kind self.old)) (state_with base.now (function_part self.old)) edge) ≡ false }
        ensures { self.new ≡ record self.old { outbox = change_first (given_over edge) self.old.outbox } }
    {
        if let Some(cast) = self.casts.front_mut() {
            cast.give(edge);
        }
    }

    /// The edge refused the item on offer.
    pub(crate) fn refuse(&mut self, base: &Base, edge: u32)
        requires roomy { are_roomy base.now.outs.items self.old.outbox ≡ true }
        requires open { is_empty (candidates (place_with base.now (function_kind self.old)) (state_with base.now (function_part self.old)) edge) ≡ false }
        ensures { self.new ≡ record self.old { outbox = change_first (refused_over edge) self.old.outbox } }
    {
        if let Some(cast) = self.casts.front_mut() {
            cast.refuse(edge, false);
        }
    }
}
