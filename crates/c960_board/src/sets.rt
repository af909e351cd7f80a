//! The squares of a placement's pieces as sets: bit s of a set, counted from the lowest, is 1 if the square s is in it.

ghost use Rattle.std.specs.Prelude.{◌≡◌};
ghost use Rattle.c960_board.specs.Pieces.{is_of};

use crate::piece::{Colour, Kind, Piece};
use crate::square::Square;

/// The squares of the pieces by their colour and by their kind.
#[derive(Clone, Copy, PartialEq, Eq, Debug)]
pub struct Sets {
    /// The squares of White's pieces.
    pub white: u64,
    /// The squares of Black's pieces.
    pub black: u64,
    /// The squares of the pawns of both sides.
    pub pawns: u64,
    /// The squares of the knights of both sides.
    pub knights: u64,
    /// The squares of the bishops of both sides.
    pub bishops: u64,
    /// The squares of the rooks of both sides.
    pub rooks: u64,
    /// The squares of the queens of both sides.
    pub queens: u64,
    /// The squares of the kings of both sides.
    pub kings: u64,
}

impl Sets {
    ghost use Rattle.c960_board.specs.Sets.{is_kind, sets_of, colour_set, kind_set, is_in, kind_in, cell_in, cells_of};
    ghost use Rattle.c960_board.specs.Inner.SetsWith.{empty_sets, sets_with};

    /// The squares that hold a piece of the colour.
    #[inline(always)]
    pub fn colour(&self, colour: Colour) -> u64
        ensures { result ≡ colour_set colour self.now }
    {
        match colour {
            Colour::White => self.white,
            Colour::Black => self.black,
        }
    }

    /// The squares that hold a piece of the kind.
    #[inline(always)]
    pub fn kind(&self, kind: Kind) -> u64
        ensures { result ≡ kind_set kind self.now }
    {
        match kind {
            Kind::Pawn => self.pawns,
            Kind::Knight => self.knights,
            Kind::Bishop => self.bishops,
            Kind::Rook => self.rooks,
            Kind::Queen => self.queens,
            Kind::King => self.kings,
        }
    }

    /// Whether the cell holds a piece of the colour.
    #[inline(always)]
    pub fn is_of(cell: Option<Piece>, colour: Colour) -> bool
        ensures { result ≡ is_of colour cell }
    {
        match cell {
            Some(piece) => piece.colour == colour,
            None => false,
        }
    }

    /// Whether the cell holds a piece of the kind.
    #[inline(always)]
    pub fn is_kind(cell: Option<Piece>, kind: Kind) -> bool
        ensures { result ≡ is_kind kind cell }
    {
        match cell {
            Some(piece) => piece.kind == kind,
            None => false,
        }
    }

    /// The sets of a board without pieces.
    #[inline(always)]
    fn empty() -> Sets
        ensures { result ≡ empty_sets }
    {
        Sets {
            white: 0,
            black: 0,
            pawns: 0,
            knights: 0,
            bishops: 0,
            rooks: 0,
            queens: 0,
            kings: 0,
        }
    }

    /// Adds the square of a piece to the set of its colour and to that of its kind. The other six stay as they are.
    #[inline(always)]
    fn add(&mut self, piece: Piece, square: Square)
        ensures { self.new ≡ sets_with piece square self.old }
    {
        let bit = 1u64 << square.number();
        match piece.colour {
            Colour::White => self.white |= bit,
            Colour::Black => self.black |= bit,
        }
        match piece.kind {
            Kind::Pawn => self.pawns |= bit,
            Kind::Knight => self.knights |= bit,
            Kind::Bishop => self.bishops |= bit,
            Kind::Rook => self.rooks |= bit,
            Kind::Queen => self.queens |= bit,
            Kind::King => self.kings |= bit,
        }
    }

    /// The sets of a placement. The square of a piece belongs to two of the eight sets, and a vacant one to none: one pass over
    /// the squares makes all eight, where a pass for each set would test every square eight times.
    pub fn of(placement: &[Option<Piece>; 64]) -> Sets
        ensures { result ≡ sets_of placement.now }
    {
        let mut sets = Sets::empty();
        for number in 0..64u8 {
            if let Some(piece) = placement[number as usize] {
                sets.add(piece, Square::known(number));
            }
        }
        sets
    }

    /// Whether the square is in the set.
    #[inline(always)]
    pub fn is_in(set: u64, square: Square) -> bool
        ensures { result ≡ is_in set square }
    {
        (set >> square.number()) & 1 == 1
    }

    /// The kind of the piece on a square that holds one.
    #[inline(always)]
    pub fn kind_on(&self, square: Square) -> Kind
        ensures { result ≡ kind_in self.now square }
    {
        if Sets::is_in(self.pawns, square) {
            Kind::Pawn
        } else if Sets::is_in(self.knights, square) {
            Kind::Knight
        } else if Sets::is_in(self.bishops, square) {
            Kind::Bishop
        } else if Sets::is_in(self.rooks, square) {
            Kind::Rook
        } else if Sets::is_in(self.queens, square) {
            Kind::Queen
        } else {
            Kind::King
        }
    }

    /// What the square holds.
    #[inline(always)]
    pub fn cell(&self, square: Square) -> Option<Piece>
        ensures { result ≡ cell_in self.now square }
    {
        if Sets::is_in(self.white, square) {
            Some(Piece {
                colour: Colour::White,
                kind: self.kind_on(square),
            })
        } else if Sets::is_in(self.black, square) {
            Some(Piece {
                colour: Colour::Black,
                kind: self.kind_on(square),
            })
        } else {
            None
        }
    }

    /// What each square holds.
    pub fn placement(&self) -> [Option<Piece>; 64]
        ensures { result ≡ cells_of self.now }
    {
        let mut placement = [None; 64];
        for number in 0..64u8 {
            placement[number as usize] = self.cell(Square::known(number));
        }
        placement
    }
}
