//! One king a side, and no pawn on the first or the last rank.

ghost use Rattle.std.specs.Prelude.{◌≡◌, ◌≢◌, ◌↔◌, ◌<◌, ℕ, IsTrue, count_by};
ghost use Rattle.c960_board.specs.Inner.Conditions.{IsSidePlacement};
ghost use Rattle.c960_board.specs.Pieces.{holds, man};
ghost use Rattle.c960_board.specs.Position.{IsPlacement};
ghost use Rattle.c960_board.specs.Cells.{cell_at};
ghost use Rattle.c960_board.specs.Squares.{rank_of, IsEndRank};
ghost use Rattle.c960_board.specs.declared.piece.Kind.TheVariants.{Pawn, King};

use crate::piece::{Colour, Kind, Piece, holds};

fn has_one_king(placement: &[Option<Piece>; 64], colour: Colour) -> bool
    ensures { IsTrue result ↔ (count_by (holds colour King) placement.now ≡ 1) }
{
    let kings = placement
        .iter()
        .filter(|cell| holds(**cell, colour, Kind::King))
        .count();
    kings == 1
}

fn is_end_rank(square: usize) -> bool
    ensures { IsTrue result ↔ IsEndRank (rank_of square) }
{
    square / 8 == 0 || square / 8 == 7
}

fn has_no_end_pawn(placement: &[Option<Piece>; 64], colour: Colour) -> bool
    ensures { IsTrue result ↔ ((s : ℕ) → s < 64 → IsEndRank (rank_of s) → cell_at placement.now s ≢ man colour Pawn) }
{
    for square in 0..64 {
        if is_end_rank(square) && holds(placement[square], colour, Kind::Pawn) {
            return false;
        }
    }
    true
}

/// Whether the side has one king, and no pawn on the first or the last rank.
fn is_side(placement: &[Option<Piece>; 64], colour: Colour) -> bool
    ensures { IsTrue result ↔ IsSidePlacement placement.now colour }
{
    has_one_king(placement, colour) && has_no_end_pawn(placement, colour)
}

/// Whether the squares hold a placement: one king a side, and no pawn on the first or the last rank.
pub fn is_placement(placement: &[Option<Piece>; 64]) -> bool
    ensures { IsTrue result ↔ IsPlacement placement.now }
{
    is_side(placement, Colour::White) && is_side(placement, Colour::Black)
}
