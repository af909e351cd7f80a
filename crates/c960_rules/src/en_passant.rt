//! Captures en passant (FIDE Laws, Article 3.7).

ghost use Rattle.std.specs.Prelude.{◌≡◌, ◌↔◌, IsTrue, IsSome, IfSome, Some, None};
ghost use Rattle.c960_board.specs.Moves.{Triple};
ghost use Rattle.c960_rules.specs.Legal.{LegalEnPassant};
ghost use Rattle.c960_rules.specs.Inner.Wheres.{where_set, is_taker};

use crate::bitset::{lowest, without_lowest};
use crate::lawful::Lawful;
use crate::legal::is_legal;
use crate::lookups::pawn_hits_on;
use crate::placement::is_en_passant;
use c960_board::{Kind, Move, Piece, Position, Square};

/// Whether a pawn on `from` may take en passant on `target`.
fn takes(lawful: &Lawful, from: Square, target: Square) -> bool
    ensures { IsTrue result ↔ LegalEnPassant lawful.now (record { from = from; to = target; promotion = None }) }
{
    let m = Move {
        from,
        to: target,
        promotion: None,
    };
    is_en_passant(&lawful.position(), &m) && is_legal(lawful, m)
}

/// The pawns of the side to move that attack the square, as a set.
fn takers(position: &Position, target: Square) -> u64
    ensures { result ≡ where_set (λ s. is_taker position.now s target) }
{
    let _sets = position.sets();
    let turn = position.turn();
    let pawns = position.pieces(Piece {
        colour: turn,
        kind: Kind::Pawn,
    });
    pawn_hits_on(turn, target) & pawns
}

/// The en passant target, if a legal capture en passant exists.
#[tactic(auto, using(crate::proofs::EnPassantFacts::has_target, crate::proofs::EnPassantFacts::no_target))]
pub fn ep_legal(lawful: &Lawful) -> Option<Square>
    ensures some { IsSome result ↔ ((m : Triple) × LegalEnPassant lawful.now m) }
    ensures value { IfSome result (λ target. lawful.now.target ≡ Some target) }
{
    let position = lawful.position();
    let Some(target) = position.target() else {
        return None;
    };
    let mut left = takers(&position, target);
    while left != 0 {
        let from = lowest(left);
        left = without_lowest(left);
        if takes(lawful, from, target) {
            return Some(target);
        }
    }
    None
}
