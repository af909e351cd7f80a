//! The squares that a bishop, a rook or a queen attacks, by its rays. Each ray ends at its first blocker: an occupied square stops
//! the piece, and is itself attacked (FIDE Laws, Article 3.5).

ghost use Rattle.std.specs.Prelude.{◌≡◌, ◌&&◌, ◌<◌, ℕ};
ghost use Rattle.std.specs.Int.{bit_at};
ghost use Rattle.c960_board.specs.Sets.{is_in};
ghost use Rattle.c960_rules.specs.Inner.Rays.{below, above, is_unblocked};
ghost use Rattle.c960_rules.specs.Inner.Wheres.{where_set, is_rook_line, is_bishop_line, is_free, attacks_over_as};

use crate::lookups::reach_on_empty_board;
use crate::tables::east::east;
use crate::tables::north::north;
use crate::tables::north_east::north_east;
use crate::tables::north_west::north_west;
use crate::tables::onward::onward;
use crate::tables::south::south;
use crate::tables::south_east::south_east;
use crate::tables::south_west::south_west;
use crate::tables::west::west;
use c960_board::{Kind, Piece, Square};

/// The number of the highest square of a set, or 0 if the set is empty.
#[inline(always)]
fn highest_or_first(set: u64) -> u32
    ensures bound { result < 64 }
    ensures greatest { (u : ℕ) → result < u → u < 64 → bit_at set u ≡ 0 }
    ensures inside { 0 < result → bit_at set result ≡ 1 }
{
    63 - (set | 1).leading_zeros()
}

/// The squares of a ray up to its first blocker, if their numbers rise from the ray's start. Subtracting 1 turns the lowest blocker's 1
/// into a 0 and the zeros below it into ones, and changes no higher bit: so the bits that change are those up to the blocker, and all where
/// there is none. This takes neither a count of zeros nor a shift by that many, nor a loop or a branch.
#[inline(always)]
fn rising(ray: u64, occupied: u64) -> u64
    ensures { result ≡ where_set (λ t. is_in ray t && is_unblocked below ray occupied t) }
{
    let blockers = ray & occupied;
    ray & (blockers ^ blockers.wrapping_sub(1))
}

/// The same, if their numbers fall. No ray goes beyond a1, which so stands in for a blocker where there is none.
#[inline(always)]
fn falling(ray: u64, occupied: u64) -> u64
    ensures { result ≡ where_set (λ t. is_in ray t && is_unblocked above ray occupied t) }
{
    ray & onward(highest_or_first(ray & occupied))
}

/// The squares that a rook attacks, if these squares are occupied.
#[inline(always)]
pub(crate) fn straight(from: Square, occupied: u64) -> u64
    ensures { result ≡ where_set (λ t. is_rook_line from t && is_free occupied from t) }
{
    let _bound = from.number();
    let ahead = rising(north(from), occupied) | rising(east(from), occupied);
    let behind = falling(south(from), occupied) | falling(west(from), occupied);
    ahead | behind
}

/// The squares that a bishop attacks, if these squares are occupied.
#[inline(always)]
fn diagonal(from: Square, occupied: u64) -> u64
    ensures { result ≡ where_set (λ t. is_bishop_line from t && is_free occupied from t) }
{
    let _bound = from.number();
    let ahead = rising(north_east(from), occupied) | rising(north_west(from), occupied);
    let behind = falling(south_east(from), occupied) | falling(south_west(from), occupied);
    ahead | behind
}

/// The squares that a piece attacks, if these squares are occupied. Sliders find theirs by rays and first blockers, a method known
/// to chess programming: it looks at each ray once, where a walk looks at each square of the lines.
#[inline(always)]
pub(crate) fn reach_over(piece: Piece, from: Square, occupied: u64) -> u64
    ensures { result ≡ where_set (attacks_over_as occupied piece.colour piece.kind from) }
{
    match piece.kind {
        Kind::Bishop => diagonal(from, occupied),
        Kind::Rook => straight(from, occupied),
        Kind::Queen => straight(from, occupied) | diagonal(from, occupied),
        Kind::Pawn | Kind::Knight | Kind::King => reach_on_empty_board(piece, from),
    }
}
