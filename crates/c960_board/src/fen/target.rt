//! The field of the en passant target.

ghost use Rattle.std.specs.Prelude.{◌≡◌, ◌<◌, MatchOption, Option, ℕ};
ghost use Rattle.c960_board.specs.Fen.Target.{IsTargetField};
ghost use Rattle.c960_board.specs.MoveTexts.{square_text};

use crate::conditions::is_target;
use crate::piece::{Colour, Piece};
use crate::square::Square;
use crate::square_text::read_square;

/// The square that the text names.
fn square_of(text: &[u8]) -> Option<Square>
    ensures { MatchOption result
        ((s : ℕ) → s < 64 → text.now ≡ square_text s → ⊥)
        (λ s. (s < 64) × (text.now ≡ square_text s)) }
{
    match text {
        [file, rank] => read_square(*file, *rank),
        _ => None,
    }
}

/// The target that the field names, if it fits; a dash names none.
pub(crate) fn read_target(
    placement: &[Option<Piece>; 64],
    turn: Colour,
    text: &[u8],
) -> Option<Option<Square>>
    ensures { MatchOption result
        ((t : Option ℕ) → IsTargetField placement.now turn text.now t → ⊥)
        (λ t. IsTargetField placement.now turn text.now t) }
{
    match text {
        b"-" => Some(None),
        _ => {
            let square = square_of(text)?;
            if is_target(placement, turn, square) {
                Some(Some(square))
            } else {
                None
            }
        }
    }
}
