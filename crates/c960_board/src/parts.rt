//! The parts of a position as plain data: this is what contracts see of a position.

use crate::piece::{Colour, Piece};
use crate::rights::CastlingRights;
use crate::square::Square;

/// The parts of a position, which need not fit together.
#[derive(Clone, Copy, PartialEq, Eq, Debug)]
pub struct Parts {
    /// What each square holds, by the square's number.
    pub placement: [Option<Piece>; 64],
    /// The side to move.
    pub turn: Colour,
    /// The castling rights.
    pub rights: CastlingRights,
    /// The en passant target: the square that a pawn has just passed over, or may have.
    pub target: Option<Square>,
    /// How many half-moves were made since the last capture or pawn move.
    pub half_moves: u16,
    /// The number of the move, from 1; it rises after Black's move.
    pub number: u16,
}
