//! Where the pieces of the side to move go, as sets of squares, without castling and without regard to the safety of the king.

ghost use Rattle.std.specs.Prelude.{◌≡◌, ◌≢◌, ◌==◌, ◌<◌, ℕ, Option, Some, false, IsFalse};
ghost use Rattle.c960_board.specs.declared.piece.Kind.{Kind};
ghost use Rattle.c960_board.specs.declared.piece.Kind.TheVariants.{Pawn};
ghost use Rattle.c960_board.specs.Moves.{Triple};
ghost use Rattle.c960_board.specs.Pieces.{holds, man};
ghost use Rattle.c960_board.specs.Cells.{cell_at};
ghost use Rattle.c960_board.specs.Sets.{is_in};
ghost use Rattle.c960_board.specs.Squares.{rank_of};
ghost use Rattle.c960_rules.specs.Castles.{Castles};
ghost use Rattle.c960_rules.specs.Reaches.{pawn_rank, is_target};
ghost use Rattle.c960_rules.specs.Tests.Reaches.{steps, steps_twice, takes};
ghost use Rattle.c960_rules.specs.Inner.Listing.{triple, pawn_goes, goes_to};
ghost use Rattle.c960_rules.specs.Inner.Wheres.{where_set};

use crate::bitset::only;
use crate::lookups::pawn_hits;
use crate::rays::{reach_over, straight};
use crate::sides::{ahead, has_none, is_occupied_by, squares_of, stands};
use c960_board::{Colour, Kind, Piece, Position, Sets, Square};

/// The rank on which a side's pawns are at the start, from 0.
fn pawn_rank(colour: Colour) -> u8
    ensures { result ≡ pawn_rank colour }
{
    match colour {
        Colour::White => 1,
        Colour::Black => 6,
    }
}

/// The en passant target, as a set.
#[inline(always)]
pub(crate) fn target_set(target: Option<Square>) -> u64
    ensures { result ≡ where_set (λ t. is_target target t) }
{
    match target {
        Some(square) => only(square),
        None => 0,
    }
}

/// Whether the square is on the rank where the side's pawns are at the start.
#[inline(always)]
fn is_on_pawn_rank(colour: Colour, square: Square) -> bool
    ensures { result ≡ (rank_of square == pawn_rank colour) }
{
    square.number() / 8 == pawn_rank(colour)
}

/// The square in front of a pawn, if it is empty.
#[inline(always)]
fn single_step(position: &Position, from: Square) -> u64
    requires { cell_at position.now.placement from ≡ man position.now.turn Pawn }
    ensures { result ≡ where_set (λ t. steps position.now.placement position.now.turn from t) }
{
    let _sets = position.sets();
    let turn = position.turn();
    let step = ahead(turn, from);
    only(step) & !position.occupied()
}

/// The square two in front of a pawn on its first rank, if both are empty.
#[inline(always)]
fn double_step(position: &Position, from: Square) -> u64
    requires { cell_at position.now.placement from ≡ man position.now.turn Pawn }
    ensures { result ≡ where_set (λ t. steps_twice position.now.placement position.now.turn from t) }
{
    let _sets = position.sets();
    let turn = position.turn();
    let is_first = is_on_pawn_rank(turn, from);
    if !is_first {
        return 0;
    }
    let occupied = position.occupied();
    let passed = ahead(turn, from);
    let is_barred = Sets::is_in(occupied, passed);
    if is_barred {
        return 0;
    }
    let goal = ahead(turn, passed);
    only(goal) & !occupied
}

/// The squares on which a pawn captures, including en passant.
#[inline(always)]
fn prey(position: &Position, from: Square) -> u64
    requires { cell_at position.now.placement from ≡ man position.now.turn Pawn }
    ensures { result ≡ where_set (λ t. takes position.now.placement position.now.turn position.now.target from t) }
{
    let _sets = position.sets();
    let turn = position.turn();
    let theirs = squares_of(position, turn.other());
    let target = target_set(position.target());
    pawn_hits(turn, from) & (theirs | target)
}

/// The squares to which a pawn goes.
#[inline(always)]
fn pawn_goals(position: &Position, from: Square) -> u64
    requires { cell_at position.now.placement from ≡ man position.now.turn Pawn }
    ensures { result ≡ where_set (λ t. pawn_goes position.now from t) }
{
    single_step(position, from) | (double_step(position, from) | prey(position, from))
}

/// The squares to which a piece of the side to move goes that is not a pawn.
#[inline(always)]
fn officer_goals(position: &Position, from: Square, piece: Piece) -> u64
    requires there { cell_at position.now.placement from ≡ Some piece }
    requires own { piece.colour ≡ position.now.turn }
    requires officer { IsFalse (holds position.now.turn Pawn (cell_at position.now.placement from)) }
    ensures { result ≡ where_set (λ t. goes_to position.now from t) }
{
    let _sets = position.sets();
    let turn = position.turn();
    let own = squares_of(position, turn);
    let occupied = position.occupied();
    reach_over(piece, from, occupied) & !own
}

/// The squares to which the piece on a square goes, if it is one of the side to move. Two sets tell a pawn, the piece that most often
/// stands there; only for an officer its kind is looked up.
#[inline(always)]
pub(crate) fn goals(position: &Position, from: Square) -> u64
    ensures { result ≡ where_set (λ t. goes_to position.now from t) }
{
    let turn = position.turn();
    if !is_occupied_by(position, turn, from) {
        return 0;
    }
    if stands(position, turn, Kind::Pawn, from) {
        return pawn_goals(position, from) & !squares_of(position, turn);
    }
    let Some(piece) = position.piece_at(from) else {
        return 0;
    };
    officer_goals(position, from, piece)
}

/// The squares of the side's rooks that a king sees from its square along its rank or file.
#[inline(always)]
fn rooks_in_sight(position: &Position, from: Square) -> u64
    ensures { (t : ℕ) (k : Option Kind) → t < 64 → is_in result t ≡ false → Castles position.now (triple from t k) → ⊥ }
{
    let _bound = from.number();
    let sets = position.sets();
    let turn = position.turn();
    squares_of(position, turn) & sets.rooks & straight(from, position.occupied())
}

/// The squares of the rooks with which the side may castle, if its king is on the square: every legal castling goes to one. A side that has
/// no right left has none. And each square between the king and the rook is on the way of one of the two, and so is vacant: where a piece
/// stands between them, castling is not looked at.
#[inline(always)]
pub(crate) fn rooks_to_castle(position: &Position, from: Square) -> u64
    ensures { (t : ℕ) (k : Option Kind) → t < 64 → is_in result t ≡ false → Castles position.now (triple from t k) → ⊥ }
{
    let turn = position.turn();
    if !stands(position, turn, Kind::King, from) {
        return 0;
    }
    if has_none(position, turn) {
        return 0;
    }
    rooks_in_sight(position, from)
}
