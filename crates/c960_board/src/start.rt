//! The starting positions.

ghost use Rattle.std.specs.Prelude.{◌≡◌, ◌<◌, ◌↔◌, IsSome, IfSome};
ghost use Rattle.c960_board.specs.Pieces.{man, same_kind};
ghost use Rattle.c960_board.specs.Start.{start, start_of, start_cell, start_cells, rook_files};
ghost use Rattle.c960_board.specs.declared.piece.Kind.TheVariants.{Rook};

use crate::numbering::{STARTS, arrangement};
use crate::parts::Parts;
use crate::piece::{Colour, Kind, Piece};
use crate::position::Position;
use crate::rights::CastlingRights;

fn man(colour: Colour, kind: Kind) -> Option<Piece>
    ensures { result ≡ man colour kind }
{
    Some(Piece { colour, kind })
}

/// What a square holds at the start.
fn start_cell(rank: &[Kind; 8], square: usize) -> Option<Piece>
    ensures { result ≡ start_cell rank.now square }
{
    match square / 8 {
        0 => man(Colour::White, rank[square % 8]),
        1 => man(Colour::White, Kind::Pawn),
        6 => man(Colour::Black, Kind::Pawn),
        7 => man(Colour::Black, rank[square % 8]),
        _ => None,
    }
}

#[tactic(auto, using(crate::proofs::lemmas::StartFacts::start_cells_more, crate::proofs::lemmas::StartFacts::start_cells_none))]
fn start_cells(rank: &[Kind; 8]) -> [Option<Piece>; 64]
    ensures { result ≡ start_cells rank.now 64 }
{
    let mut cells = [None; 64];
    for square in 0..64 {
        cells[square] = start_cell(rank, square);
    }
    cells
}

fn is_rook(kind: Kind) -> bool
    ensures { result ≡ same_kind kind Rook }
{
    kind == Kind::Rook
}

/// The files of the rooks.
fn rook_files(rank: &[Kind; 8]) -> [bool; 8]
    ensures { result ≡ rook_files rank.now }
{
    let mut files = [false; 8];
    for (file, kind) in rank.iter().enumerate() {
        files[file] = is_rook(*kind);
    }
    files
}

/// The starting position of a first rank.
#[tactic(auto, unfolding(crate::specs::Start::start_of))]
fn start_parts(rank: &[Kind; 8]) -> Parts
    ensures { result ≡ start_of rank.now }
{
    let files = rook_files(rank);
    Parts {
        placement: start_cells(rank),
        turn: Colour::White,
        rights: CastlingRights {
            white: files,
            black: files,
        },
        target: None,
        half_moves: 0,
        number: 1,
    }
}

impl Position {
    /// The starting position with that number, None from 960 on (Guidelines II.1 and II.2).
    pub fn start(number: u16) -> Option<Position>
        ensures some { IsSome result ↔ (number < STARTS) }
        ensures value { IfSome result (λ p. p ≡ start number) }
    {
        let rank = arrangement(number)?;
        Some(Position::of_parts(start_parts(&rank)))
    }
}
