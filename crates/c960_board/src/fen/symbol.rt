//! The bytes of a rank's text.

ghost use Rattle.std.specs.Prelude.{◌≡◌, ◌≢◌, MatchOption};
ghost use Rattle.c960_board.specs.Fen.Letters.{letter, small_letter};
ghost use Rattle.c960_board.specs.Fen.Reading.{IsSymbol};
ghost use Rattle.c960_board.specs.declared.piece.Kind.{Kind};
ghost use Rattle.c960_board.specs.declared.piece.Piece.{Piece};

use crate::piece::{Colour, Kind, Piece};

/// What a byte of a rank means.
#[derive(Clone, Copy)]
pub(crate) enum Symbol {
    /// A piece.
    Man(Piece),
    /// A run of 1 to 8 empty squares.
    Run(u8),
    /// Nothing.
    Other,
}

/// The kind that has this small letter.
fn kind_of(byte: u8) -> Option<Kind>
    ensures { MatchOption result ((k : Kind) → byte ≢ small_letter k) (λ k. byte ≡ small_letter k) }
{
    match byte {
        b'p' => Some(Kind::Pawn),
        b'n' => Some(Kind::Knight),
        b'b' => Some(Kind::Bishop),
        b'r' => Some(Kind::Rook),
        b'q' => Some(Kind::Queen),
        b'k' => Some(Kind::King),
        _ => None,
    }
}

/// The piece that has this letter.
fn piece_of(byte: u8) -> Option<Piece>
    ensures { MatchOption result ((p : Piece) → byte ≢ letter p) (λ p. byte ≡ letter p) }
{
    let (colour, small) = match byte {
        b'A'..=b'Z' => (Colour::White, byte + 32),
        _ => (Colour::Black, byte),
    };
    let kind = kind_of(small)?;
    Some(Piece { colour, kind })
}

/// What the byte means.
pub(crate) fn symbol_of(byte: u8) -> Symbol
    ensures { IsSymbol result byte }
{
    match byte {
        b'1'..=b'8' => Symbol::Run(byte - b'0'),
        _ => match piece_of(byte) {
            Some(piece) => Symbol::Man(piece),
            None => Symbol::Other,
        },
    }
}
