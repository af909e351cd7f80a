//! Positions.

ghost use Rattle.std.specs.Prelude.{◌≡◌, ◌≢◌, ◌↔◌, ◌<◌, ℕ, IsSome, IfSome, IsTrue, None, Some};
ghost use Rattle.std.specs.Int.{bit_at};

use crate::conditions::are_parts;
use crate::parts::Parts;
use crate::piece::{Colour, Piece};
use crate::rights::CastlingRights;
use crate::sets::Sets;
use crate::square::Square;
use std::marker::Model;

/// A position. Contracts see its `Parts`, which meet every condition of `IsPosition`. The contents of the squares are stored
/// as sets of squares.
#[derive(Clone, Copy, PartialEq, Eq, Debug)]
pub struct Position {
    sets: Sets,
    turn: Colour,
    rights: CastlingRights,
    target: Option<Square>,
    half_moves: u16,
    number: u16,
}

impl Model for Position {
    ghost use Rattle.std.specs.Prelude.{◌≡◌};
    ghost use Rattle.std.proofs.Common.{ap, sym};
    ghost use Rattle.c960_board.specs.declared.parts.Parts.{Parts};
    ghost use Rattle.c960_board.specs.declared.sets.Sets.{Sets};
    ghost use Rattle.c960_board.specs.Position.{IsPosition};
    ghost use Rattle.c960_board.specs.Sets.{sets_of, cells_of, parts_of};

    ghost Value = { Parts };

    ghost view = { λ p. parts_of p.sets p.turn p.rights p.target p.half_moves p.number };

    ghost invariant = { λ p.
        IsPosition (parts_of p.sets p.turn p.rights p.target p.half_moves p.number) × (p.sets ≡ sets_of (cells_of p.sets)) };

    ghost inverse = { λ parts. record {
      sets = sets_of parts.placement;
      turn = parts.turn;
      rights = parts.rights;
      target = parts.target;
      half_moves = parts.half_moves;
      number = parts.number;
    } };

    ghost inverse_ok = { λ p h. ap (λ (s : Sets). record {
      sets = s;
      turn = p.turn;
      rights = p.rights;
      target = p.target;
      half_moves = p.half_moves;
      number = p.number;
    }) (sym h.1) };
}

impl Position {
    ghost use Rattle.c960_board.specs.Pieces.{holds};
    ghost use Rattle.c960_board.specs.Position.{IsPosition};
    ghost use Rattle.c960_board.specs.Cells.{cell_at, has_right};
    ghost use Rattle.c960_board.specs.Sets.{is_occupied, set_of, sets_of, cells_of, parts_of};

    /// The position with these parts, or None exactly if they fail one of a position's conditions.
    pub fn make(parts: Parts) -> Option<Position>
        ensures some { IsSome result ↔ IsPosition parts }
        ensures value { IfSome result (λ p. p ≡ parts) }
    {
        if are_parts(&parts) {
            Some(Position::of_parts(parts))
        } else {
            None
        }
    }

    /// The position with parts that are known to make one: `make` without its tests.
    pub fn of_parts(parts: Parts) -> Position
        requires { IsPosition parts }
        ensures { result ≡ parts }
    {
        let sets = Sets::of(&parts.placement);
        Position {
            sets,
            turn: parts.turn,
            rights: parts.rights,
            target: parts.target,
            half_moves: parts.half_moves,
            number: parts.number,
        }
    }

    /// The position with the sets of a placement and the other parts, which are known to make one.
    #[inline(always)]
    pub fn of_sets(
        sets: Sets,
        turn: Colour,
        rights: CastlingRights,
        target: Option<Square>,
        half_moves: u16,
        number: u16,
    ) -> Position
        requires valid { IsPosition (parts_of sets turn rights target half_moves number) }
        requires placed { sets ≡ sets_of (cells_of sets) }
        ensures { result ≡ parts_of sets turn rights target half_moves number }
    {
        Position {
            sets,
            turn,
            rights,
            target,
            half_moves,
            number,
        }
    }

    /// The parts of the position: the inverse of `make`.
    pub fn parts(&self) -> Parts
        ensures value { result ≡ self.now }
        ensures valid { IsPosition self.now }
    {
        Parts {
            placement: self.sets.placement(),
            turn: self.turn,
            rights: self.rights,
            target: self.target,
            half_moves: self.half_moves,
            number: self.number,
        }
    }

    /// The piece on a square, if any.
    #[inline(always)]
    pub fn piece_at(&self, square: Square) -> Option<Piece>
        ensures { result ≡ cell_at self.now.placement square }
    {
        let _bound = square.number();
        self.sets.cell(square)
    }

    /// The squares of the pieces by their colour and by their kind.
    #[inline(always)]
    pub fn sets(&self) -> Sets
        ensures value { result ≡ sets_of self.now.placement }
        ensures valid { IsPosition self.now }
    {
        self.sets
    }

    /// The squares that hold a piece, as a set: bit s is 1 if the square s is in it.
    #[inline(always)]
    pub fn occupied(&self) -> u64
        ensures set { result ≡ set_of is_occupied self.now.placement }
        ensures bits { (s : ℕ) → s < 64 → (bit_at result s ≡ 1) ↔ (cell_at self.now.placement s ≢ None) }
    {
        self.sets.white | self.sets.black
    }

    /// The squares that hold this piece, as a set: bit s is 1 if the square s is in it.
    #[inline(always)]
    pub fn pieces(&self, piece: Piece) -> u64
        ensures set { result ≡ set_of (holds piece.colour piece.kind) self.now.placement }
        ensures bits { (s : ℕ) → s < 64 → (bit_at result s ≡ 1) ↔ (cell_at self.now.placement s ≡ Some piece) }
    {
        self.sets.colour(piece.colour) & self.sets.kind(piece.kind)
    }

    /// Whether both positions have the same pieces on the same squares.
    pub fn same_placement(&self, other: &Position) -> bool
        ensures { IsTrue result ↔ (self.now.placement ≡ other.now.placement) }
    {
        self.sets == other.sets
    }

    /// The side to move.
    #[inline(always)]
    pub fn turn(&self) -> Colour
        ensures { result ≡ self.now.turn }
    {
        self.turn
    }

    /// The castling rights.
    #[inline(always)]
    pub fn rights(&self) -> CastlingRights
        ensures { result ≡ self.now.rights }
    {
        self.rights
    }

    /// Whether the side may still castle with the rook of that file, 0 for file a; false from 8 on.
    #[inline(always)]
    pub fn has_right(&self, colour: Colour, file: u8) -> bool
        ensures { result ≡ has_right self.now.rights colour file }
    {
        self.rights.has(colour, file)
    }

    /// The en passant target: the square that a pawn has just passed over, or may have.
    #[inline(always)]
    pub fn target(&self) -> Option<Square>
        ensures { result ≡ self.now.target }
    {
        self.target
    }

    /// The half-move counter: how many plies were made since the last capture or pawn move (FIDE Laws, Articles 9.3 and 9.6.2),
    /// 0 to 65,535.
    #[inline(always)]
    pub fn half_moves(&self) -> u16
        ensures { result ≡ self.now.half_moves }
    {
        self.half_moves
    }

    /// The move number, 1 to 65,535: it rises after Black's move.
    #[inline(always)]
    pub fn number(&self) -> u16
        ensures { result ≡ self.now.number }
    {
        self.number
    }
}
