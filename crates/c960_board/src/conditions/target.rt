//! The en passant target.

ghost use Rattle.std.specs.Prelude.{◌≡◌, ◌↔◌, ◌<◌, IsTrue, None};
ghost use Rattle.c960_board.specs.Pieces.{man};
ghost use Rattle.c960_board.specs.Position.{IsTarget};
ghost use Rattle.c960_board.specs.Cells.{cell_at};
ghost use Rattle.c960_board.specs.declared.piece.Kind.TheVariants.{Pawn};

use crate::piece::{Colour, Kind, Piece, holds};
use crate::square::Square;

/// Whether the square and the one behind it are empty, and a pawn of the colour is in front of it.
fn is_passed_over(
    placement: &[Option<Piece>; 64],
    square: usize,
    behind: usize,
    before: usize,
    colour: Colour,
) -> bool
    requires square_on_board { square < 64 }
    requires behind_on_board { behind < 64 }
    requires before_on_board { before < 64 }
    ensures { IsTrue result ↔ ((cell_at placement.now square ≡ None) × (cell_at placement.now behind ≡ None) × (cell_at placement.now before ≡ man colour Pawn)) }
{
    placement[square].is_none()
        && placement[behind].is_none()
        && holds(placement[before], colour, Kind::Pawn)
}

/// Whether a pawn of the side not to move may just have passed over the square.
pub fn is_target(placement: &[Option<Piece>; 64], turn: Colour, target: Square) -> bool
    ensures { IsTrue result ↔ IsTarget placement.now turn target }
{
    let square = target.number() as usize;
    match turn {
        Colour::White => {
            square / 8 == 5
                && is_passed_over(placement, square, square + 8, square - 8, Colour::Black)
        }
        Colour::Black => {
            square / 8 == 2
                && is_passed_over(placement, square, square - 8, square + 8, Colour::White)
        }
    }
}
