//! The castling rights of one side.

ghost use Rattle.std.specs.Prelude.{◌≡◌, ◌↔◌, ◌<◌, ◌≤◌, ◌+◌, ℕ, IsTrue, nat_lt};
ghost use Rattle.c960_board.specs.Inner.Conditions.{RightsFitKing};
ghost use Rattle.c960_board.specs.Pieces.{man};
ghost use Rattle.c960_board.specs.Position.{AreRights};
ghost use Rattle.c960_board.specs.Cells.{cell_at, has_right, rights_of};
ghost use Rattle.c960_board.specs.Squares.{file_of, rank_of, home_rank, home_square};
ghost use Rattle.c960_board.specs.declared.piece.Kind.TheVariants.{Rook, King};

use crate::piece::{Colour, Kind, Piece, holds};
use crate::rights::CastlingRights;

/// The first square of the side's home rank.
fn home(colour: Colour) -> usize
    ensures value { result ≡ home_square colour 0 }
    ensures bound { result ≤ 56 }
{
    match colour {
        Colour::White => 0,
        Colour::Black => 56,
    }
}

/// Whether each right has its rook.
fn rooks_stand(placement: &[Option<Piece>; 64], rights: &CastlingRights, colour: Colour) -> bool
    ensures { IsTrue result ↔ ((f : ℕ) → f < 8 → IsTrue (has_right rights.now colour f) → cell_at placement.now (home_square colour f) ≡ man colour Rook) }
{
    let home = home(colour);
    for file in 0..8 {
        if rights.has(colour, file as u8) && !holds(placement[home + file], colour, Kind::Rook) {
            return false;
        }
    }
    true
}

/// Whether no right is held, or the square is on the side's home rank.
fn is_home(rights: &CastlingRights, colour: Colour, square: usize) -> bool
    ensures { IsTrue result ↔ ((f : ℕ) → f < 8 → IsTrue (has_right rights.now colour f) → rank_of square ≡ home_rank colour) }
{
    if square / 8 == home(colour) / 8 {
        return true;
    }
    for file in 0..8u8 {
        if rights.has(colour, file) {
            return false;
        }
    }
    true
}

/// Whether the file's right is the only one on its side of the king.
fn is_alone(rights: &CastlingRights, colour: Colour, king_file: u8, file: u8) -> bool
    ensures { IsTrue result ↔ ((g : ℕ) → g < 8 → IsTrue (has_right rights.now colour file) → IsTrue (has_right rights.now colour g) → nat_lt file king_file ≡ nat_lt g king_file → file ≡ g) }
{
    if !rights.has(colour, file) {
        return true;
    }
    for other in 0..8 {
        if other != file && rights.has(colour, other) && (file < king_file) == (other < king_file) {
            return false;
        }
    }
    true
}

/// Whether at most one right is on each side of the king.
fn one_each_side(rights: &CastlingRights, colour: Colour, king_file: u8) -> bool
    ensures { IsTrue result ↔ ((f g : ℕ) → f < 8 → g < 8 → IsTrue (has_right rights.now colour f) → IsTrue (has_right rights.now colour g) → nat_lt f king_file ≡ nat_lt g king_file → f ≡ g) }
{
    for file in 0..8 {
        if !is_alone(rights, colour, king_file, file) {
            return false;
        }
    }
    true
}

/// Whether the rights fit a king on that square.
fn fit_king(rights: &CastlingRights, colour: Colour, square: usize) -> bool
    requires { square < 64 }
    ensures { IsTrue result ↔ RightsFitKing rights.now colour square }
{
    is_home(rights, colour, square) && one_each_side(rights, colour, (square % 8) as u8)
}

/// Whether the side's king is not on the square, or the rights fit it there.
fn fit_square(
    placement: &[Option<Piece>; 64],
    rights: &CastlingRights,
    colour: Colour,
    square: usize,
) -> bool
    requires { square < 64 }
    ensures { IsTrue result ↔ (cell_at placement.now square ≡ man colour King → RightsFitKing rights.now colour square) }
{
    !holds(placement[square], colour, Kind::King) || fit_king(rights, colour, square)
}

/// Whether the rights fit wherever the side's king is.
fn kings_fit(placement: &[Option<Piece>; 64], rights: &CastlingRights, colour: Colour) -> bool
    ensures { IsTrue result ↔ ((s : ℕ) → s < 64 → cell_at placement.now s ≡ man colour King → RightsFitKing rights.now colour s) }
{
    for square in 0..64 {
        if !fit_square(placement, rights, colour, square) {
            return false;
        }
    }
    true
}

/// Whether each right of the side has its rook and the king on the home rank, with at most one right on each side of the
/// king.
pub fn are_rights(placement: &[Option<Piece>; 64], rights: &CastlingRights, colour: Colour) -> bool
    ensures { IsTrue result ↔ AreRights placement.now rights.now colour }
{
    rooks_stand(placement, rights, colour) && kings_fit(placement, rights, colour)
}
