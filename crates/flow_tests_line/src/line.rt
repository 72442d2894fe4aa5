//! A small machine of parties that take turns, and lines of it.
ghost use Rattle.std.specs.Prelude.{◌≡◌, ◌<◌, ◌^◌, true};
ghost use Rattle.flow_line.specs.Values.{is_distinct};

use crate::checks::{holds, number};
use flow_item::{Parties, Party};
use flow_line::{Chair, Chairs, Line, Machine, Naming, NotMade, Opened};
use std::alloc::Global;
use std::marker::Brand;
use std::process::Abort;
use std::sync::Wait;
use std::thread;
use std::thread::Threads;

// A move of one party or of two. Each numbers its moves: 0, 1, 2 and so on.
#[derive(Clone, Copy)]
enum Move {
    Alone {
        party: Party,
        turn: u64,
    },
    Both {
        node: u32,
        node_turn: u64,
        caller: u32,
        caller_turn: u64,
    },
}

// A party may make the move that has its next number.
struct Turns;

impl Machine for Turns {
    ghost use Rattle.std.specs.Prelude.{nat_eq, length, true, false, refl, if◌then◌else◌};
    ghost use Rattle.flow_item.specs.declared.event.Parties.{Parties};
    ghost use Rattle.flow_item.specs.declared.event.Party.TheVariants.{Node, Caller};
    ghost use Rattle.flow_item.specs.Events.{one, both, same_party};
    ghost use Rattle.flow_tests_line.specs.declared.line.Move.TheVariants.{Alone, Both};

    type Event = Move;

    type Setup = ();

    ghost allows = { λ setup party own. elim [ Alone q turn ↦ nat_eq turn (length own) | Both n node_turn c caller_turn ↦ nat_eq (if same_party (Node n) party then node_turn else caller_turn) (length own) ] };

    ghost births_of = { λ e. 1 };

    ghost parties_of = { elim [ Alone party turn ↦ one party | Both n node_turn c caller_turn ↦ both (Node n) (Caller c) ] };

    ghost is_counted = { elim [ Alone party turn ↦ true | Both n node_turn c caller_turn ↦ false ] };

    fn births(_event: &Move) -> u64 {
        1
    }

    fn parties(event: &Move) -> Parties {
        match *event {
            Move::Alone { party, .. } => Parties {
                first: party,
                second: None,
            },
            Move::Both { node, caller, .. } => Parties {
                first: Party::Node(node),
                second: Some(Party::Caller(caller)),
            },
        }
    }

    fn counts(event: &Move) -> bool {
        matches!(event, Move::Alone { .. })
    }

    ghost apart = { elim [ Alone party turn ↦ refl | Both n node_turn c caller_turn ↦ refl ] };
}

// The chairs of a node and a caller.
#[derive(Drop)]
struct Pair<B: Naming> {
    node: Chair<Turns, B>,
    caller: Chair<Turns, B>,
}

impl<B: Naming> Pair<B> {
    // A move of both. Whether it was made.
    fn move_both<R: Wait>(&mut self, rt: &R, line: &Line<Turns, B>) -> bool {
        let (Party::Node(node), Party::Caller(caller)) = (self.node.party(), self.caller.party())
        else {
            return false;
        };
        let event = Move::Both {
            node,
            node_turn: self.node.own_len(),
            caller,
            caller_turn: self.caller.own_len(),
        };
        line.commit2(rt, &mut self.node, &mut self.caller, event)
            .is_ok()
    }

    // A move of one of them or of both, by turns.
    fn move_by_turns<R: Wait>(&mut self, rt: &R, line: &Line<Turns, B>, turn: u64) {
        let _ = match turn % 3 {
            0 => move_alone(rt, line, &mut self.node).is_ok(),
            1 => move_alone(rt, line, &mut self.caller).is_ok(),
            _ => self.move_both(rt, line),
        };
    }

    // So many moves.
    fn move_on<R: Wait>(&mut self, rt: &R, line: &Line<Turns, B>, count: u64) {
        for turn in 0..count {
            self.move_by_turns(rt, line, turn);
        }
    }
}

// A move of one party. It comes back where it wasn't made.
fn move_alone<B: Naming, R: Wait>(
    rt: &R,
    line: &Line<Turns, B>,
    chair: &mut Chair<Turns, B>,
) -> Result<(), NotMade<Move>>
    ensures { chair.new.party ≡ chair.old.party }
{
    let event = Move::Alone {
        party: chair.party(),
        turn: chair.own_len(),
    };
    line.commit1(rt, chair, event)
}

// The name of a line.
fn named(rt: &(impl Abort + AllocGlobal)) -> Opened<Turns> {
    match Opened::new(rt.alloc()) {
        Ok(opened) => opened,
        Err(_) => panic!(rt; "no memory for a line"),
    }
}

// A line and its chairs.
fn opened_line<B: Naming, R: Abort>(
    rt: &R,
    alloc: Global,
    parties: &[Party],
    items: u64,
    events: u64,
    opened: Opened<Turns>,
) -> (Line<Turns, B>, Chairs<Turns, B>)
    requires name { opened ≡ B.table }
    requires distinct { is_distinct parties.now ≡ true }
    requires limits { (items < 2 ^ 62) × (events < 2 ^ 62) }
{
    match Line::new(alloc, &(), parties, items, events, opened) {
        Ok(made) => made,
        Err(_) => panic!(rt; "no memory for a line"),
    }
}

// The last chair.
fn last<B: Naming, R: Abort>(rt: &R, chairs: &mut Chairs<Turns, B>) -> Chair<Turns, B> {
    match chairs.pop() {
        Some(chair) => chair,
        None => panic!(rt; "no chair is left"),
    }
}

// The last two chairs.
fn last_pair<B: Naming, R: Abort>(rt: &R, chairs: &mut Chairs<Turns, B>) -> Pair<B> {
    let caller = last(rt, chairs);
    let node = last(rt, chairs);
    Pair { node, caller }
}

// Takes the next number of a party, which it has to be.
fn is_next(turns: &mut [u64; 8], number: u32, turn: u64) -> bool {
    match turns.get_mut(number as usize) {
        Some(next) if *next == turn => {
            *next = turn.saturating_add(1);
            true
        }
        _ => false,
    }
}

// Whether the moves of each of eight nodes and eight callers are numbered in their order, and are so many.
fn come_in_turn(journal: &[Move], each: u64) -> bool {
    let mut nodes = [0; 8];
    let mut callers = [0; 8];
    for event in journal {
        let next = match *event {
            Move::Alone {
                party: Party::Node(node),
                turn,
            } => is_next(&mut nodes, node, turn),
            Move::Alone {
                party: Party::Caller(caller),
                turn,
            } => is_next(&mut callers, caller, turn),
            Move::Alone { .. } => false,
            Move::Both {
                node,
                node_turn,
                caller,
                caller_turn,
            } => is_next(&mut nodes, node, node_turn) && is_next(&mut callers, caller, caller_turn),
        };
        if !next {
            return false;
        }
    }
    nodes == [each; 8] && callers == [each; 8]
}

// The move that comes back of a limit, which was met at so many items and events.
fn returned<R: Abort>(rt: &R, answer: Result<(), NotMade<Move>>, items: u64, events: u64) -> Move {
    let Err(NotMade::Limit { births, len, event }) = answer else {
        panic!(rt; "made past the limit")
    };
    number(rt, births, items);
    number(rt, len, events);
    event
}

// Whether it is a move of the party alone, with this number.
fn is_alone(event: Move, of: Party, number: u64) -> bool {
    match event {
        Move::Alone { party, turn } => is_same(party, of) && turn == number,
        Move::Both { .. } => false,
    }
}

fn is_same(one: Party, other: Party) -> bool {
    match (one, other) {
        (Party::Node(m), Party::Node(n)) => m == n,
        (Party::Caller(m), Party::Caller(n)) => m == n,
        (Party::Worker(m), Party::Worker(n)) => m == n,
        _ => false,
    }
}

// The first move of one party is refused by this limit, and comes back.
fn refused_at_once<B: Naming, R: Wait + Abort>(
    rt: &R,
    alloc: Global,
    items: u64,
    events: u64,
    opened: Opened<Turns>,
)
    requires name { opened ≡ B.table }
    requires limits { (items < 2 ^ 62) × (events < 2 ^ 62) }
{
    let (line, mut chairs) = opened_line::<B, _>(
        rt,
        alloc,
        &[Party::Node(4)],
        items,
        events,
        opened,
    );
    let mut chair = last(rt, &mut chairs);
    let refused = move_alone(rt, &line, &mut chair);
    let event = returned(rt, refused, 1, 0);
    holds(rt, is_alone(event, Party::Node(4), 0));
    number(rt, chair.own_len(), 0);
}

#[test]
fn no_item_is_left(rt: HostRuntime) {
    let opened = named(&rt);
    refused_at_once::<Brand, _>(&rt, rt.alloc(), 0, 9, opened);
}

#[test]
fn no_event_is_left(rt: HostRuntime) {
    let opened = named(&rt);
    refused_at_once::<Brand, _>(&rt, rt.alloc(), 9, 0, opened);
}

// Two parties move together, and one looks.
fn moved_together<B: Naming, R: Wait + Abort>(rt: &R, line: &Line<Turns, B>, pair: &mut Pair<B>) {
    holds(rt, pair.move_both(rt, line));
    number(rt, pair.node.own_len(), 1);
    number(rt, pair.caller.own_len(), 1);
    holds(rt, move_alone(rt, line, &mut pair.node).is_ok());
    number(rt, pair.node.len(), 2);
    number(rt, pair.caller.len(), 1);
    line.look2(&mut pair.node, &mut pair.caller);
    line.look(&mut pair.caller);
    number(rt, pair.caller.len(), 2);
    number(rt, line.count(rt, &mut pair.caller), 1);
}

// The kept move comes out of the list.
fn kept_comes_out<B: Naming, R: Abort>(rt: &R, chairs: &mut Chairs<Turns, B>) {
    match chairs.take_first_kept() {
        Some(event) => holds(rt, is_alone(event, Party::Caller(5), 1)),
        None => panic!(rt; "no move was kept"),
    }
}

// The third move is refused and kept; the chairs go into a list, and the kept move comes out of it.
fn kept_in_a_list<B: Naming, R: Wait + Abort>(
    rt: &R,
    line: &Line<Turns, B>,
    mut pair: Pair<B>,
    chairs: &mut Chairs<Turns, B>,
) {
    let refused = move_alone(rt, line, &mut pair.caller);
    pair.caller.keep(returned(rt, refused, 3, 2));
    holds(rt, pair.caller.keeps());
    holds(rt, !pair.node.keeps());
    chairs.reserve(2).expect(rt, "memory");
    holds(rt, chairs.spare() >= 2);
    chairs.push_reserved(pair.node);
    holds(rt, chairs.push(pair.caller).is_ok());
    number(rt, chairs.len() as u64, 2);
    holds(rt, chairs.get(1).is_some());
    holds(rt, chairs.get(2).is_none());
    kept_comes_out(rt, chairs);
    holds(rt, chairs.take_first_kept().is_none());
}

fn two_parties_move<B: Naming, R: Wait + Abort>(rt: &R, alloc: Global, opened: Opened<Turns>)
    requires { opened ≡ B.table }
{
    let parties = [Party::Node(4), Party::Caller(5)];
    let (line, mut chairs) = opened_line::<B, _>(rt, alloc, &parties, 9, 2, opened);
    let mut pair = last_pair(rt, &mut chairs);
    moved_together(rt, &line, &mut pair);
    let mut list = Chairs::new(alloc);
    kept_in_a_list(rt, &line, pair, &mut list);
    let journal = line.close2(chairs, list);
    number(rt, journal.len() as u64, 2);
}

#[test]
fn two_parties_share_a_move(rt: HostRuntime) {
    let opened = named(&rt);
    two_parties_move::<Brand, _>(&rt, rt.alloc(), opened);
}

// A party that has seen less tells nothing, and then is told of a move.
fn tell_of_a_move<B: Naming, R: Wait + Abort>(rt: &R, alloc: Global, opened: Opened<Turns>)
    requires { opened ≡ B.table }
{
    let parties = [Party::Node(4), Party::Caller(5)];
    let (line, mut chairs) = opened_line::<B, _>(rt, alloc, &parties, 9, 9, opened);
    let mut pair = last_pair(rt, &mut chairs);
    holds(rt, move_alone(rt, &line, &mut pair.node).is_ok());
    line.tell(&mut pair.caller, &mut pair.node);
    number(rt, pair.node.len(), 1);
    number(rt, pair.caller.len(), 0);
    line.tell(&mut pair.node, &mut pair.caller);
    number(rt, pair.node.len(), 1);
    number(rt, pair.caller.len(), 1);
}

#[test]
fn a_party_is_told(rt: HostRuntime) {
    let opened = named(&rt);
    tell_of_a_move::<Brand, _>(&rt, rt.alloc(), opened);
}

const PARTIES: [Party; 16] = [
    Party::Node(0),
    Party::Caller(0),
    Party::Node(1),
    Party::Caller(1),
    Party::Node(2),
    Party::Caller(2),
    Party::Node(3),
    Party::Caller(3),
    Party::Node(4),
    Party::Caller(4),
    Party::Node(5),
    Party::Caller(5),
    Party::Node(6),
    Party::Caller(6),
    Party::Node(7),
    Party::Caller(7),
];

// Eight pairs of chairs.
fn eight_pairs<B: Naming, R: Abort>(
    rt: &R,
    alloc: Global,
    chairs: &mut Chairs<Turns, B>,
) -> Vec<Pair<B>> {
    let mut pairs = Vec::new(alloc);
    for _ in 0..8 {
        holds(rt, pairs.push(last_pair(rt, chairs)).is_ok());
    }
    pairs
}

// The chairs of the pairs in one list.
fn all_chairs<B: Naming, R: Abort>(rt: &R, alloc: Global, pairs: Vec<Pair<B>>) -> Chairs<Turns, B> {
    let mut chairs = Chairs::new(alloc);
    for pair in pairs {
        holds(rt, chairs.push(pair.node).is_ok());
        holds(rt, chairs.push(pair.caller).is_ok());
    }
    chairs
}

fn eight_threads<B: Naming + Send + Sync, R: Threads + Wait + Abort + Sync>(
    rt: &R,
    alloc: Global,
    opened: Opened<Turns>,
)
    requires { opened ≡ B.table }
{
    let (line, mut chairs) = opened_line::<B, _>(rt, alloc, &PARTIES, 100000, 100000, opened);
    let mut pairs = eight_pairs(rt, alloc, &mut chairs);
    thread::for_each_mut(
        rt,
        pairs.as_mut_slice(),
        8,
        &|_, pair: &mut Pair<B>| { pair.move_on(rt, &line, 12500) },
    );
    let journal = line.close(all_chairs(rt, alloc, pairs));
    number(rt, journal.len() as u64, 100000);
    holds(rt, come_in_turn(journal.as_slice(), 8333));
}

#[test]
fn many_moves_of_eight_threads(rt: HostRuntime) {
    let opened = named(&rt);
    eight_threads::<Brand, _>(&rt, rt.alloc(), opened);
}
