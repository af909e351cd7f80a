//! The castling rights of both sides.

ghost use Rattle.std.specs.Prelude.{◌≡◌};

use crate::piece::Colour;

/// The castling rights, by the file of the rook on its side's home rank: index 0 is file a.
#[derive(Clone, Copy, PartialEq, Eq, Debug)]
pub struct CastlingRights {
    /// White's rights, with the rooks of rank 1.
    pub white: [bool; 8],
    /// Black's rights, with the rooks of rank 8.
    pub black: [bool; 8],
}

impl CastlingRights {
    ghost use Rattle.c960_board.specs.Cells.{has_right};

    /// Whether the side may still castle with the rook of that file, 0 for file a; false from 8 on.
    pub fn has(&self, colour: Colour, file: u8) -> bool
        ensures { result ≡ has_right self.now colour file }
    {
        let files = match colour {
            Colour::White => &self.white,
            Colour::Black => &self.black,
        };
        match files.get(file as usize) {
            Some(right) => *right,
            None => false,
        }
    }
}
