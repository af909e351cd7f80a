//! The reader of moves' texts.

ghost use Rattle.std.specs.Prelude.{◌≡◌, ◌<◌, ℕ, ◌++◌, Ok, Err, Some, IfOk, IfErr, IfSome, IsSome};
ghost use Rattle.c960_board.specs.Moves.{Triple};
ghost use Rattle.c960_board.specs.MoveTexts.{MoveText, IsMoveFault, square_text};
ghost use Rattle.c960_board.specs.MoveReading.{move_read};
ghost use Rattle.c960_board.specs.declared.moves.fault.MoveFault.{MoveFault};

use crate::moves::promotion::read_promotion;
use crate::moves::{Move, MoveFault};
use crate::square::Square;
use crate::square_text::read_square;

/// The two squares that the text names, one after the other.
fn read_squares(text: &[u8]) -> Option<(Square, Square)>
    ensures on_board { IfSome result (λ s. (s.0 < 64) × (s.1 < 64)) }
    ensures spelt { IfSome result (λ s. text.now ≡ square_text s.0 ++ square_text s.1) }
    ensures only { (from to : ℕ) → from < 64 → to < 64 → text.now ≡ square_text from ++ square_text to
        → IsSome result }
{
    let [from_file, from_rank, to_file, to_rank] = text else {
        return None;
    };
    let from = read_square(*from_file, *from_rank)?;
    let to = read_square(*to_file, *to_rank)?;
    Some((from, to))
}

/// Reads the text of a move. Capitals are not read, and whether the move is legal is a matter of the rules.
///
/// # Errors
///
/// The first fault of the text, in the order of `MoveFault`.
pub fn read_move(text: &[u8]) -> Result<Move, MoveFault>
    ensures value { result ≡ move_read text.now }
    ensures ok { IfOk result (λ m. MoveText m text.now) }
    ensures fault { IfErr result (λ e. IsMoveFault e text.now) }
    ensures only { (m : Triple) → MoveText m text.now → result ≡ Ok m }
    ensures first { (e : MoveFault) → IsMoveFault e text.now → result ≡ Err e }
{
    if text.len() != 4 && text.len() != 5 {
        return Err(MoveFault::Length);
    }
    let (squares, letter) = text.split_at(4);
    let (from, to) = read_squares(squares).ok_or(MoveFault::Square)?;
    let promotion = read_promotion(letter).ok_or(MoveFault::Promotion)?;
    Ok(Move {
        from,
        to,
        promotion,
    })
}
