//! Pawns that reach their last rank (FIDE Laws, Article 3.7, promotion).

ghost use Rattle.std.specs.Prelude.{◌≡◌, ◌==◌};
ghost use Rattle.c960_board.specs.Squares.{rank_of};
ghost use Rattle.c960_rules.specs.Inner.Listing.{is_on_end_rank, promotes};
ghost use Rattle.c960_rules.specs.Inner.Wheres.{where_set};
ghost use Rattle.c960_rules.specs.Reaches.{last_rank};

use crate::sides::{home_rank, stands};
use c960_board::{Colour, Kind, Position, Square};

/// Whether the square is on the rank where the side's pawns are promoted.
#[inline(always)]
fn is_on_last_rank(colour: Colour, square: Square) -> bool
    ensures { result ≡ (rank_of square == last_rank colour) }
{
    square.number() / 8 == home_rank(colour.other())
}

/// The first rank and the last, as a set. On one of them a side's pawns are promoted, and to the other they never go: so one constant
/// serves both sides.
#[inline(always)]
pub(crate) fn end_ranks() -> u64
    ensures { result ≡ where_set is_on_end_rank }
{
    0xff00_0000_0000_00ff
}

/// Whether a pawn of the side to move is on `from`, and `to` is on its last rank.
#[inline(always)]
pub(crate) fn promotes(position: &Position, from: Square, to: Square) -> bool
    ensures { result ≡ promotes position.now from to }
{
    let turn = position.turn();
    let is_last = is_on_last_rank(turn, to);
    if !is_last {
        return false;
    }
    stands(position, turn, Kind::Pawn, from)
}
