//! Whether an ordinary move leaves its own king attacked: computed with sets, without the board after the move.

ghost use Rattle.std.specs.Prelude.{◌≡◌, ◌≤◌, ◌<◌, ◌↔◌, IsTrue, IsFalse, IfSome, IfNone};
ghost use Rattle.c960_board.specs.declared.piece.Kind.TheVariants.{King};
ghost use Rattle.c960_board.specs.Moves.{IsMove};
ghost use Rattle.c960_board.specs.Pieces.{is_of, man, other};
ghost use Rattle.c960_board.specs.Cells.{cell_at};
ghost use Rattle.c960_board.specs.Squares.{ahead};
ghost use Rattle.c960_rules.specs.After.{placement_after};
ghost use Rattle.c960_rules.specs.Castles.{Castles, king_goal, rook_goal};
ghost use Rattle.c960_rules.specs.Check.{InCheck};
ghost use Rattle.c960_rules.specs.Reaches.{Reaches};
ghost use Rattle.c960_rules.specs.Inner.Safety.{is_passed_on, is_occupied_after, is_occupied_castled, is_gone};
ghost use Rattle.c960_rules.specs.Inner.Wheres.{where_set};

use crate::attack_sets::attackers_over;
use crate::bitset::{lowest, only};
use crate::castling::{king_goal, rook_goal};
use crate::placement::is_en_passant;
use c960_board::{Colour, Kind, Move, Piece, Position, Square};

/// The square behind another, from the point of view of the side to move.
#[inline(always)]
fn behind(turn: Colour, square: Square) -> Option<Square>
    ensures some { IfSome result (λ s. s ≡ ahead (other turn) square) }
    ensures none { IfNone result (64 ≤ ahead (other turn) square) }
{
    let number = square.number();
    match turn {
        Colour::White => Square::new(number.saturating_sub(8)),
        Colour::Black => Square::new(number + 8),
    }
}

/// The square of the pawn that is taken en passant, as a set.
#[inline(always)]
pub(crate) fn captured_pawn(position: &Position, m: &Move) -> u64
    ensures { result ≡ where_set (λ s. is_passed_on position.now m.now s) }
{
    if !is_en_passant(position, m) {
        return 0;
    }
    match behind(position.turn(), m.to) {
        Some(square) => only(square),
        None => 0,
    }
}

/// The king's square.
#[inline(always)]
pub(crate) fn king_of(position: &Position, colour: Colour) -> Square
    ensures bound { result < 64 }
    ensures stands { cell_at position.now.placement result ≡ man colour King }
{
    let _sets = position.sets();
    let kings = position.pieces(Piece {
        colour,
        kind: Kind::King,
    });
    lowest(kings)
}

/// The squares that are occupied after an ordinary move.
#[inline(always)]
fn occupied_after(position: &Position, m: &Move, behind: u64) -> u64
    requires { behind ≡ where_set (λ s. is_passed_on position.now m.now s) }
    ensures { result ≡ where_set (λ s. is_occupied_after position.now m.now s) }
{
    let _sets = position.sets();
    (position.occupied() & !only(m.from) & !behind) | only(m.to)
}

/// Whether an ordinary move leaves its own king attacked. Compiled into the loops of its callers: what does not depend on the
/// move is then worked out once a loop.
#[inline(always)]
pub(crate) fn exposes_king(position: &Position, m: &Move) -> bool
    requires { Reaches position.now m.now }
    ensures { IsTrue result ↔ InCheck (placement_after position.now m.now) position.now.turn }
{
    // This gives the proof what is true of every move: `code` ensures it.
    prove!(m.code() < 20480);
    let _sets = position.sets();
    let turn = position.turn();
    let behind = captured_pawn(position, m);
    let occupied = occupied_after(position, m, behind);
    let king = king_of(position, turn);
    let square = if m.from == king { m.to } else { king };
    let gone = only(m.to) | behind;
    attackers_over(position, turn.other(), square, occupied) & !gone != 0
}

/// The squares that are occupied after castling.
#[inline(always)]
fn occupied_castled(position: &Position, m: &Move, king: Square, rook: Square) -> u64
    requires king { king ≡ king_goal position.now.turn m.now }
    requires rook { rook ≡ rook_goal position.now.turn m.now }
    ensures { result ≡ where_set (λ s. is_occupied_castled position.now m.now s) }
{
    let _sets = position.sets();
    (position.occupied() & !only(m.from) & !only(m.to)) | (only(king) | only(rook))
}

/// Whether castling leaves the king attacked.
pub(crate) fn castling_exposes(position: &Position, m: &Move) -> bool
    requires { Castles position.now m.now }
    ensures { IsTrue result ↔ InCheck (placement_after position.now m.now) position.now.turn }
{
    // This gives the proof what is true of every move: `code` ensures it.
    prove!(m.code() < 20480);
    let _sets = position.sets();
    let turn = position.turn();
    let king = king_goal(turn, m);
    let rook = rook_goal(turn, m);
    let occupied = occupied_castled(position, m, king, rook);
    attackers_over(position, turn.other(), king, occupied) != 0
}
