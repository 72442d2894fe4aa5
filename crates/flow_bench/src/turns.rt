//! A machine whose parties take turns.
use flow_item::{Parties, Party};
use flow_line::{Chair, Line, Machine, Naming};
use std::sync::Wait;

/// A move of one party or of two. Each numbers its moves: 0, 1, 2 and so on.
#[derive(Clone, Copy)]
pub enum Move {
    Alone {
        party: Party,
        turn: u64,
    },
    Both {
        node: u32,
        node_turn: u64,
        caller: u32,
        caller_turn: u64,
    },
}

/// A party may make the move that has its next number.
pub struct Turns;

impl Machine for Turns {
    ghost use Rattle.std.specs.Prelude.{nat_eq, length, true, refl, if◌then◌else◌};
    ghost use Rattle.flow_item.specs.declared.event.Party.TheVariants.{Node, Caller};
    ghost use Rattle.flow_item.specs.Events.{one, both, same_party};
    ghost use Rattle.flow_bench.specs.declared.turns.Move.TheVariants.{Alone, Both};

    type Event = Move;

    type Setup = ();

    ghost allows = { λ setup party own. elim [ Alone q turn ↦ nat_eq turn (length own) | Both n node_turn c caller_turn ↦ nat_eq (if same_party (Node n) party then node_turn else caller_turn) (length own) ] };

    ghost births_of = { λ e. 1 };

    ghost parties_of = { elim [ Alone party turn ↦ one party | Both n node_turn c caller_turn ↦ both (Node n) (Caller c) ] };

    ghost is_counted = { elim [ Alone party turn ↦ true | Both n node_turn c caller_turn ↦ true ] };

    fn births(_event: &Move) -> u64 {
        1
    }

    fn parties(event: &Move) -> Parties {
        match *event {
            Move::Alone { party, .. } => Parties {
                first: party,
                second: None,
            },
            Move::Both { node, caller, .. } => Parties {
                first: Party::Node(node),
                second: Some(Party::Caller(caller)),
            },
        }
    }

    fn counts(_event: &Move) -> bool {
        true
    }

    ghost apart = { elim [ Alone party turn ↦ refl | Both n node_turn c caller_turn ↦ refl ] };
}

/// The chairs of a node and a caller, and how many moves they are to make.
#[derive(Drop)]
pub struct Pair<B: Naming> {
    pub node: Chair<Turns, B>,
    pub caller: Chair<Turns, B>,
    pub share: u64,
}

impl<B: Naming> Pair<B> {
    /// A move of both. Whether it was made.
    fn move_both<R: Wait>(&mut self, rt: &R, line: &Line<Turns, B>) -> bool {
        let (Party::Node(node), Party::Caller(caller)) = (self.node.party(), self.caller.party())
        else {
            return false;
        };
        let event = Move::Both {
            node,
            node_turn: self.node.own_len(),
            caller,
            caller_turn: self.caller.own_len(),
        };
        line.commit2(rt, &mut self.node, &mut self.caller, event)
            .is_ok()
    }

    /// A move of the node. Whether it was made.
    fn move_alone<R: Wait>(&mut self, rt: &R, line: &Line<Turns, B>) -> bool {
        let event = Move::Alone {
            party: self.node.party(),
            turn: self.node.own_len(),
        };
        line.commit1(rt, &mut self.node, event).is_ok()
    }

    /// All moves, each of both or each of the node.
    pub fn move_on<R: Wait>(&mut self, rt: &R, line: &Line<Turns, B>, both: bool) {
        for _ in 0..self.share {
            let _ = if both {
                self.move_both(rt, line)
            } else {
                self.move_alone(rt, line)
            };
        }
    }
}
