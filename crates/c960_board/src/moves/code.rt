//! The codes of moves: one number below 20480 for each.

ghost use Rattle.std.specs.Prelude.{◌≡◌, ◌<◌, ◌↔◌, Some, IsSome, IfSome};
ghost use Rattle.c960_board.specs.Moves.{IsMove, Triple};
ghost use Rattle.c960_board.specs.MoveTexts.{move_code};

use crate::moves::Move;
use crate::moves::promotion::{promotion_code, promotion_of_code};
use crate::square::Square;

impl Move {
    /// The code of the move, below 20480: `from + 64 * to + 4096 * promotion`, where the promotion is 0 for none, 1 for
    /// a knight, 2 for a bishop, 3 for a rook and 4 for a queen. The clause `valid` tells a caller what is true of every
    /// move.
    pub fn code(&self) -> u64
        ensures value { result ≡ move_code self.now }
        ensures bound { result < 20480 }
        ensures valid { IsMove self.now }
    {
        let from = u64::from(self.from.number());
        let to = u64::from(self.to.number());
        from + 64 * to + 4096 * promotion_code(self.promotion)
    }

    /// The move with that code, None from 20480 on.
    pub fn of_code(code: u64) -> Option<Move>
        ensures some { IsSome result ↔ (code < 20480) }
        ensures value { IfSome result (λ m. move_code m ≡ code) }
        ensures only { (m : Triple) → IsMove m → move_code m ≡ code → result ≡ Some m }
    {
        if code >= 20480 {
            return None;
        }
        let Some(from) = Square::new((code % 64) as u8) else {
            unreachable!()
        };
        let Some(to) = Square::new((code / 64 % 64) as u8) else {
            unreachable!()
        };
        let promotion = promotion_of_code(code / 4096);
        Some(Move {
            from,
            to,
            promotion,
        })
    }
}
