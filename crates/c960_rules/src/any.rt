//! Whether there is a legal move.

ghost use Rattle.std.specs.Prelude.{◌≡◌, ◌↔◌, Some, IsTrue, IsFalse};
ghost use Rattle.c960_board.specs.Moves.{Triple, is_promotion};
ghost use Rattle.c960_rules.specs.Legal.{Legal};
ghost use Rattle.c960_rules.specs.Reaches.{Reaches};
ghost use Rattle.c960_rules.specs.Inner.Listing.{triple, promotes, goes_to, HasMoveBetween, HasMoveFrom};
ghost use Rattle.c960_rules.specs.Inner.Wheres.{where_set};

use crate::bitset::{lowest, without_lowest};
use crate::goals::{goals, rooks_to_castle};
use crate::lawful::Lawful;
use crate::legal::{is_legal_castling, is_legal_ordinary};
use crate::promotion::promotes;
use crate::sides::squares_of;
use c960_board::{Kind, Move, Position, Sets, Square};

/// Whether the move with two squares and a promotion is legal, for a piece that goes there.
fn is_legal_at(position: &Position, from: Square, to: Square, promotion: Option<Kind>) -> bool
    requires promotion { IsTrue (is_promotion promotion) }
    requires reaches { Reaches position.now (triple from to promotion) }
    ensures { IsTrue result ↔ Legal position.now (triple from to promotion) }
{
    let m = Move {
        from,
        to,
        promotion,
    };
    is_legal_ordinary(position, &m)
}

/// Whether a pawn that goes to its last rank has a legal move there.
#[tactic(auto, using(crate::proofs::AnyFacts::between_promoted))]
fn has_promotion(position: &Position, from: Square, to: Square) -> bool
    requires goes { IsTrue (goes_to position.now from to) }
    requires promotes { IsTrue (promotes position.now from to) }
    ensures { IsTrue result ↔ HasMoveBetween position.now from to }
{
    is_legal_at(position, from, to, Some(Kind::Knight))
        || is_legal_at(position, from, to, Some(Kind::Bishop))
        || is_legal_at(position, from, to, Some(Kind::Rook))
        || is_legal_at(position, from, to, Some(Kind::Queen))
}

/// Whether a move between two squares is legal, for a piece that goes from one to the other.
#[tactic(auto, using(crate::proofs::AnyFacts::between_plain))]
fn has_move_reached(position: &Position, from: Square, to: Square) -> bool
    requires { IsTrue (goes_to position.now from to) }
    ensures { IsTrue result ↔ HasMoveBetween position.now from to }
{
    if promotes(position, from, to) {
        has_promotion(position, from, to)
    } else {
        is_legal_at(position, from, to, None)
    }
}

/// Whether castling between two squares is legal. Only castling goes between two squares if the piece does not go from one to the other.
#[tactic(auto, using(crate::proofs::AnyFacts::between_castled))]
fn has_castling(position: &Position, from: Square, to: Square) -> bool
    requires { IsFalse (goes_to position.now from to) }
    ensures { IsTrue result ↔ HasMoveBetween position.now from to }
{
    let m = Move {
        from,
        to,
        promotion: None,
    };
    is_legal_castling(position, &m)
}

/// Whether a move between two squares is legal, given the set of the squares to which the piece goes.
fn has_move_between(position: &Position, goals: u64, from: Square, to: Square) -> bool
    requires { goals ≡ where_set (λ t. goes_to position.now from t) }
    ensures { IsTrue result ↔ HasMoveBetween position.now from to }
{
    if Sets::is_in(goals, to) {
        has_move_reached(position, from, to)
    } else {
        has_castling(position, from, to)
    }
}

/// Whether a move from a square is legal.
fn has_move_from(position: &Position, from: Square) -> bool
    ensures { IsTrue result ↔ HasMoveFrom position.now from }
{
    let goals = goals(position, from);
    let mut left = goals | rooks_to_castle(position, from);
    while left != 0 {
        let to = lowest(left);
        left = without_lowest(left);
        if has_move_between(position, goals, from, to) {
            return true;
        }
    }
    false
}

/// Whether there is a legal move. It stops at the first one and allocates nothing.
pub fn any_legal(lawful: &Lawful) -> bool
    ensures { IsTrue result ↔ ((m : Triple) × Legal lawful.now m) }
{
    let position = lawful.position();
    let turn = position.turn();
    let mut left = squares_of(&position, turn);
    while left != 0 {
        let from = lowest(left);
        left = without_lowest(left);
        if has_move_from(&position, from) {
            return true;
        }
    }
    false
}
