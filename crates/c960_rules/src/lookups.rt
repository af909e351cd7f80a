//! The squares that a piece attacks on an empty board, by its kind and colour.

ghost use Rattle.std.specs.Prelude.{◌≡◌};
ghost use Rattle.c960_rules.specs.Inner.Wheres.{where_set, is_pawn_hit, is_way};

use crate::tables::bishop_lines::bishop_lines;
use crate::tables::black_pawn::{black_hits, white_hits_on};
use crate::tables::king::king_steps;
use crate::tables::knight::knight_leaps;
use crate::tables::rook_lines::rook_lines;
use crate::tables::white_pawn::{black_hits_on, white_hits};
use c960_board::{Colour, Kind, Piece, Square};

/// The squares from which a pawn of the colour attacks the square.
#[inline(always)]
pub fn pawn_hits_on(by: Colour, square: Square) -> u64
    ensures { result ≡ where_set (λ s. is_pawn_hit by s square) }
{
    match by {
        Colour::White => white_hits_on(square),
        Colour::Black => black_hits_on(square),
    }
}

/// The squares that a pawn of the colour attacks.
#[inline(always)]
pub fn pawn_hits(colour: Colour, square: Square) -> u64
    ensures { result ≡ where_set (is_pawn_hit colour square) }
{
    match colour {
        Colour::White => white_hits(square),
        Colour::Black => black_hits(square),
    }
}

/// The squares that a piece attacks on an empty board.
#[inline(always)]
pub fn reach_on_empty_board(piece: Piece, square: Square) -> u64
    ensures { result ≡ where_set (is_way piece.colour piece.kind square) }
{
    match piece.kind {
        Kind::Pawn => pawn_hits(piece.colour, square),
        Kind::Knight => knight_leaps(square),
        Kind::Bishop => bishop_lines(square),
        Kind::Rook => rook_lines(square),
        Kind::Queen => rook_lines(square) | bishop_lines(square),
        Kind::King => king_steps(square),
    }
}
