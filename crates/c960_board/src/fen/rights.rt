//! The field of the castling rights.

ghost use Rattle.std.specs.Prelude.{◌≡◌, ◌≢◌, ◌<◌, MatchOption, ℕ, true, false};
ghost use Rattle.c960_board.specs.Fen.Letters.{right_letter};
ghost use Rattle.c960_board.specs.Fen.Reading.{NamesRights};
ghost use Rattle.c960_board.specs.Fen.Rights.{IsRightLetter, SpellsRights, IsRightsField};
ghost use Rattle.c960_board.specs.Cells.{has_right};
ghost use Rattle.c960_board.specs.declared.piece.Colour.{Colour};
ghost use Rattle.c960_board.specs.declared.rights.CastlingRights.{CastlingRights};

use crate::conditions::are_rights;
use crate::piece::{Colour, Piece};
use crate::rights::CastlingRights;

/// No rights on either side.
fn no_rights() -> CastlingRights
    ensures { (c : Colour) (f : ℕ) → has_right result c f ≡ false }
{
    CastlingRights {
        white: [false; 8],
        black: [false; 8],
    }
}

/// The side and the file of the right that has this letter.
fn right_of(byte: u8) -> Option<(Colour, u8)>
    ensures { MatchOption result (IsRightLetter byte → ⊥) (λ x. (x.1 < 8) × (byte ≡ right_letter x.0 x.1)) }
{
    match byte {
        b'A'..=b'H' => Some((Colour::White, byte - b'A')),
        b'a'..=b'h' => Some((Colour::Black, byte - b'a')),
        _ => None,
    }
}

/// The rights with one added.
fn with_right(mut rights: CastlingRights, colour: Colour, file: u8) -> CastlingRights
    requires { file < 8 }
    ensures added { has_right result colour file ≡ true }
    ensures kept { (c : Colour) (f : ℕ) → f < 8
        → right_letter c f ≢ right_letter colour file → has_right result c f ≡ has_right rights c f }
{
    match colour {
        Colour::White => rights.white[file as usize] = true,
        Colour::Black => rights.black[file as usize] = true,
    }
    rights
}

/// The rights whose letters make up the text, each once.
fn read_letters(text: &[u8]) -> Option<CastlingRights>
    ensures { MatchOption result ((r : CastlingRights) → SpellsRights text.now r → ⊥) (λ r. SpellsRights text.now r) }
{
    if text.is_empty() {
        return None;
    }
    let mut rights = no_rights();
    for byte in text {
        let (colour, file) = right_of(*byte)?;
        if rights.has(colour, file) {
            return None;
        }
        rights = with_right(rights, colour, file);
    }
    Some(rights)
}

/// The rights that the text names.
fn read_names(text: &[u8]) -> Option<CastlingRights>
    ensures { MatchOption result ((r : CastlingRights) → NamesRights text.now r → ⊥) (λ r. NamesRights text.now r) }
{
    if text == b"-".as_slice() {
        return Some(no_rights());
    }
    read_letters(text)
}

/// The rights that the field names, if they fit the placement.
pub(crate) fn read_rights(placement: &[Option<Piece>; 64], text: &[u8]) -> Option<CastlingRights>
    ensures { MatchOption result
        ((r : CastlingRights) → IsRightsField placement.now text.now r → ⊥)
        (λ r. IsRightsField placement.now text.now r) }
{
    let rights = read_names(text)?;
    if are_rights(placement, &rights, Colour::White)
        && are_rights(placement, &rights, Colour::Black)
    {
        Some(rights)
    } else {
        None
    }
}
