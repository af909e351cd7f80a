//! The field of the side to move.

ghost use Rattle.std.specs.Prelude.{◌≡◌, MatchOption};
ghost use Rattle.c960_board.specs.Fen.Letters.{turn_text};
ghost use Rattle.c960_board.specs.declared.piece.Colour.{Colour};

use crate::piece::Colour;

/// The side that the field names.
pub(crate) fn read_turn(text: &[u8]) -> Option<Colour>
    ensures { MatchOption result ((turn : Colour) → text.now ≡ turn_text turn → ⊥) (λ turn. text.now ≡ turn_text turn) }
{
    match text {
        b"w" => Some(Colour::White),
        b"b" => Some(Colour::Black),
        _ => None,
    }
}
