//! The texts of squares, used in the texts of moves and of positions.

ghost use Rattle.std.specs.Prelude.{◌≡◌, ◌<◌, ℕ, [], ◌∷◌, Some, IfSome};
ghost use Rattle.c960_board.specs.MoveTexts.{square_text};

use crate::square::Square;

/// The square of a file letter `a` to `h` and a rank digit `1` to `8`, None for other bytes. Capitals are not read.
pub(crate) fn read_square(file: u8, rank: u8) -> Option<Square>
    ensures on_board { IfSome result (λ s. s < 64) }
    ensures spelt { IfSome result (λ s. file ∷ rank ∷ [] ≡ square_text s) }
    ensures only { (s : ℕ) → s < 64 → file ∷ rank ∷ [] ≡ square_text s → result ≡ Some s }
{
    match (file, rank) {
        (b'a'..=b'h', b'1'..=b'8') => Square::new((file - b'a') + 8 * (rank - b'1')),
        _ => None,
    }
}

/// The file letter and the rank digit of the square.
pub(crate) fn square_bytes(square: Square) -> [u8; 2]
    ensures { result ≡ square_text square }
{
    let number = square.number();
    [b'a' + number % 8, b'1' + number / 8]
}
