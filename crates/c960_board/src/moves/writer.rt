//! The writer of moves' texts.

ghost use Rattle.std.specs.Prelude.{◌≡◌, ◌≤◌, ◌++◌, length};
ghost use Rattle.c960_board.specs.MoveTexts.{move_text, square_text, promotion_text};

use crate::moves::{Move, MoveBytes};
use crate::piece::Kind;
use crate::square::Square;
use crate::square_text::square_bytes;

/// Writes a file letter and a rank digit.
fn push_square(text: &mut MoveBytes, square: Square)
    requires { length text.old ≤ 3 }
    ensures { text.new ≡ text.old ++ square_text square }
{
    let [file, rank] = square_bytes(square);
    text.push(file);
    text.push(rank);
}

/// Writes the letter of a promotion, or nothing for none.
fn push_promotion(text: &mut MoveBytes, promotion: Option<Kind>)
    requires { length text.old ≤ 4 }
    ensures { text.new ≡ text.old ++ promotion_text promotion }
{
    match promotion {
        Some(Kind::Knight) => text.push(b'n'),
        Some(Kind::Bishop) => text.push(b'b'),
        Some(Kind::Rook) => text.push(b'r'),
        Some(Kind::Queen) => text.push(b'q'),
        _ => {}
    }
}

/// The text of a move: the texts of its two squares and the letter of its promotion.
pub fn move_bytes(chess_move: Move) -> MoveBytes
    ensures { result ≡ move_text chess_move }
{
    let mut text = MoveBytes::new();
    push_square(&mut text, chess_move.from);
    push_square(&mut text, chess_move.to);
    push_promotion(&mut text, chess_move.promotion);
    text
}
