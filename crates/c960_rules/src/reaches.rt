//! Ordinary moves: whether a piece may go there by its kind (FIDE Laws, Articles 3.1 to 3.8.1).

ghost use Rattle.std.specs.Prelude.{◌↔◌, IsTrue};
ghost use Rattle.c960_rules.specs.Reaches.{Reaches};

use crate::goals::goals;
use crate::promotion::promotes;
use c960_board::{Move, Position, Sets};

/// Whether the piece goes there by its kind, without castling and without regard to the safety of its king. A promotion is named
/// exactly if a pawn reaches its last rank.
#[tactic(auto, using(crate::proofs::GoalFacts::reaches_if, crate::proofs::GoalFacts::reaches_only))]
pub(crate) fn reaches(position: &Position, m: &Move) -> bool
    ensures { IsTrue result ↔ Reaches position.now m.now }
{
    let _bound = m.to.number();
    let goals = goals(position, m.from);
    Sets::is_in(goals, m.to) && m.promotion.is_some() == promotes(position, m.from, m.to)
}
