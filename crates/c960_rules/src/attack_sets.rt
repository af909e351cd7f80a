//! The pieces that attack a square, as a set.

ghost use Rattle.std.specs.Prelude.{◌≡◌, ◌&&◌, ◌↔◌, ◌<◌, ℕ, IsTrue};
ghost use Rattle.std.specs.Int.{bit_at};
ghost use Rattle.c960_board.specs.Pieces.{is_of};
ghost use Rattle.c960_board.specs.Cells.{cell_at};
ghost use Rattle.c960_rules.specs.Attacks.{Attacks};
ghost use Rattle.c960_rules.specs.Tests.Attacks.{attacks};
ghost use Rattle.c960_board.specs.Sets.{is_in};
ghost use Rattle.c960_rules.specs.Inner.Wheres.{where_set, is_free, is_leaper_on, is_slider_on, is_attacker_on};

use crate::bitset::{lowest, only, without_lowest};
use crate::lookups::pawn_hits_on;
use crate::sides::squares_of;
use crate::tables::between::squares_between;
use crate::tables::bishop_lines::bishop_lines;
use crate::tables::king::king_steps;
use crate::tables::knight::knight_leaps;
use crate::tables::rook_lines::rook_lines;
use c960_board::{Colour, Position, Square};

/// The pawns, knights and kings of the colour that attack the square.
#[inline(always)]
pub(crate) fn leapers(position: &Position, by: Colour, square: Square) -> u64
    ensures { result ≡ where_set (λ s. is_leaper_on position.now.placement by s square) }
{
    let sets = position.sets();
    let side = squares_of(position, by);
    let knights = knight_leaps(square) & sets.knights;
    let kings = king_steps(square) & sets.kings;
    let pawns = pawn_hits_on(by, square) & sets.pawns;
    side & (knights | kings | pawns)
}

/// The bishops, rooks and queens of the colour that move along a line with the square.
#[inline(always)]
pub(crate) fn sliders(position: &Position, by: Colour, square: Square) -> u64
    ensures { result ≡ where_set (λ s. is_slider_on position.now.placement by s square) }
{
    let sets = position.sets();
    let side = squares_of(position, by);
    let straight = rook_lines(square) & (sets.rooks | sets.queens);
    let diagonal = bishop_lines(square) & (sets.bishops | sets.queens);
    side & (straight | diagonal)
}

/// The squares of the set from which the way to the square is free.
#[inline(always)]
pub(crate) fn free_from(set: u64, square: Square, occupied: u64) -> u64
    ensures { result ≡ where_set (λ s. is_in set s && is_free occupied square s) }
{
    let mut left = set;
    let mut found: u64 = 0;
    while left != 0 {
        let goal = lowest(left);
        left = without_lowest(left);
        if squares_between(square, goal) & occupied == 0 {
            found |= only(goal);
        }
    }
    found
}

/// The pieces of the colour that attack the square, if these squares are occupied.
#[inline(always)]
pub(crate) fn attackers_over(position: &Position, by: Colour, square: Square, occupied: u64) -> u64
    ensures { result ≡ where_set (λ s. is_attacker_on position.now.placement occupied by s square) }
{
    let leapers = leapers(position, by, square);
    let sliders = sliders(position, by, square);
    leapers | free_from(sliders, square, occupied)
}

/// The pieces of the colour that attack the square, as a set: bit s is 1 exactly if the square s holds one.
pub fn attackers(position: &Position, by: Colour, square: Square) -> u64
    ensures set { result ≡ where_set (λ s. is_of by (cell_at position.now.placement s) && attacks position.now.placement s square) }
    ensures bits { (s : ℕ) → s < 64 → (bit_at result s ≡ 1)
        ↔ (IsTrue (is_of by (cell_at position.now.placement s)) × Attacks position.now.placement s square) }
{
    let _sets = position.sets();
    attackers_over(position, by, square, position.occupied())
}
