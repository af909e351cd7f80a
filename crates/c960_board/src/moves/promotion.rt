//! What a pawn is promoted to: its code and its letter.

ghost use Rattle.std.specs.Prelude.{◌≡◌, ◌<◌, Some, Option, IfSome, IsTrue};
ghost use Rattle.c960_board.specs.Moves.{is_promotion};
ghost use Rattle.c960_board.specs.MoveTexts.{promotion_code, promotion_text};
ghost use Rattle.c960_board.specs.declared.piece.Kind.{Kind};

use crate::piece::Kind;

/// 0 for none, 1 for a knight, 2 for a bishop, 3 for a rook, 4 for a queen.
pub fn promotion_code(promotion: Option<Kind>) -> u64
    ensures value { result ≡ promotion_code promotion }
    ensures bound { result < 5 }
{
    match promotion {
        Some(Kind::Knight) => 1,
        Some(Kind::Bishop) => 2,
        Some(Kind::Rook) => 3,
        Some(Kind::Queen) => 4,
        _ => 0,
    }
}

/// The promotion of a code below 5, and none from 5 on.
pub fn promotion_of_code(code: u64) -> Option<Kind>
    ensures valid { IsTrue (is_promotion result) }
    ensures value { code < 5 → promotion_code result ≡ code }
{
    match code {
        1 => Some(Kind::Knight),
        2 => Some(Kind::Bishop),
        3 => Some(Kind::Rook),
        4 => Some(Kind::Queen),
        _ => None,
    }
}

/// The promotion of a text: none for no byte, a piece for one letter `n`, `b`, `r` or `q`. None for other texts.
pub fn read_promotion(text: &[u8]) -> Option<Option<Kind>>
    ensures valid { IfSome result (λ p. IsTrue (is_promotion p)) }
    ensures spelt { IfSome result (λ p. text.now ≡ promotion_text p) }
    ensures only { (p : Option Kind) → IsTrue (is_promotion p) → text.now ≡ promotion_text p → result ≡ Some p }
{
    match text {
        [] => Some(None),
        [b'n'] => Some(Some(Kind::Knight)),
        [b'b'] => Some(Some(Kind::Bishop)),
        [b'r'] => Some(Some(Kind::Rook)),
        [b'q'] => Some(Some(Kind::Queen)),
        _ => None,
    }
}
