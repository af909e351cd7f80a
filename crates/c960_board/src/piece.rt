//! The pieces: their colours and their kinds.

ghost use Rattle.std.specs.Prelude.{◌≡◌, ◌↔◌, IsTrue};
ghost use Rattle.c960_board.specs.Pieces.{other, holds, man};

/// A side (FIDE Laws, Article 1).
#[derive(Clone, Copy, PartialEq, Eq, Debug)]
pub enum Colour {
    White,
    Black,
}

impl Colour {
    /// The opposing side.
    pub fn other(self) -> Colour
        ensures { result ≡ other self }
    {
        match self {
            Colour::White => Colour::Black,
            Colour::Black => Colour::White,
        }
    }
}

/// A kind of piece (FIDE Laws, Article 2.2).
#[derive(Clone, Copy, PartialEq, Eq, Debug)]
pub enum Kind {
    Pawn,
    Knight,
    Bishop,
    Rook,
    Queen,
    King,
}

/// A piece of one side.
#[derive(Clone, Copy, PartialEq, Eq, Debug)]
pub struct Piece {
    pub colour: Colour,
    pub kind: Kind,
}

/// Whether a square with this content holds a piece of the colour and the kind.
pub fn holds(cell: Option<Piece>, colour: Colour, kind: Kind) -> bool
    ensures test { result ≡ holds colour kind cell }
    ensures fact { IsTrue result ↔ (cell ≡ man colour kind) }
{
    match cell {
        Some(piece) => piece.colour == colour && piece.kind == kind,
        None => false,
    }
}
