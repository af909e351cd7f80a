//! The two sides.

ghost use Rattle.std.specs.Prelude.{◌≡◌, ◌<◌, ◌≤◌, false, replicate};
ghost use Rattle.std.specs.Bool.{beq};
ghost use Rattle.std.specs.Cmp.Lexicographic.{pointwise};
ghost use Rattle.c960_board.specs.Pieces.{is_of, holds};
ghost use Rattle.c960_board.specs.Cells.{cell_at, rights_of};
ghost use Rattle.c960_board.specs.Squares.{home_rank, home_square, ahead};
ghost use Rattle.c960_rules.specs.Inner.Wheres.{where_set};

use crate::squares::square_of;
use c960_board::{Colour, Kind, Piece, Position, Sets, Square};

/// The rank on which a side's pieces are at the start, from 0.
pub(crate) fn home_rank(colour: Colour) -> u8
    ensures value { result ≡ home_rank colour }
    ensures bound { result < 8 }
{
    match colour {
        Colour::White => 0,
        Colour::Black => 7,
    }
}

/// The square of a side's home rank on a file.
pub(crate) fn home_square(colour: Colour, file: u8) -> Square
    requires { file < 8 }
    ensures { result ≡ home_square colour file }
{
    square_of(8 * home_rank(colour) + file)
}

/// The square one rank forward, in the direction of a side's pawns, of a square on neither end rank.
pub(crate) fn ahead(colour: Colour, square: Square) -> Square
    requires low { 8 ≤ square }
    requires high { square < 56 }
    ensures { result ≡ ahead colour square }
{
    match colour {
        Colour::White => square_of(square.number() + 8),
        Colour::Black => square_of(square.number() - 8),
    }
}

/// The squares of a side's pieces, as a set.
#[inline(always)]
pub(crate) fn squares_of(position: &Position, colour: Colour) -> u64
    ensures { result ≡ where_set (λ s. is_of colour (cell_at position.now.placement s)) }
{
    position.sets().colour(colour)
}

/// Whether a piece of the side stands on the square. The side's set alone tells it, where `piece_at` would first find out by up to seven
/// tests which piece stands there.
#[inline(always)]
pub(crate) fn is_occupied_by(position: &Position, colour: Colour, square: Square) -> bool
    ensures { result ≡ is_of colour (cell_at position.now.placement square) }
{
    Sets::is_in(squares_of(position, colour), square)
}

/// Whether a piece of this side and kind stands on the square. The sets of the side and of the kind tell it by one test, where `piece_at`
/// would find out by up to seven which piece stands there.
#[inline(always)]
pub(crate) fn stands(position: &Position, colour: Colour, kind: Kind, square: Square) -> bool
    ensures { result ≡ holds colour kind (cell_at position.now.placement square) }
{
    let _sets = position.sets();
    Sets::is_in(position.pieces(Piece { colour, kind }), square)
}

/// The castling rights of a side, by the file of the rook.
#[inline(always)]
pub(crate) fn rights_of(position: &Position, colour: Colour) -> [bool; 8]
    ensures { result ≡ rights_of position.now.rights colour }
{
    let rights = position.rights();
    match colour {
        Colour::White => rights.white,
        Colour::Black => rights.black,
    }
}

/// Whether a side has no castling rights. The rights are compared where they are stored, by one test of eight bytes; of a copy in a
/// register each byte would be shifted out.
#[inline(always)]
pub(crate) fn has_none(position: &Position, colour: Colour) -> bool
    ensures { result ≡ pointwise beq (rights_of position.now.rights colour) (replicate 8 false) }
{
    let rights = position.rights();
    match colour {
        Colour::White => rights.white == [false; 8],
        Colour::Black => rights.black == [false; 8],
    }
}
