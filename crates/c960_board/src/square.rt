//! The squares of the board.

ghost use Rattle.std.specs.Prelude.{◌≡◌, ◌<◌, ◌↔◌, IsSome, IfSome};

use std::marker::Model;

/// A square, by its number: the file (a is 0) plus eight times the rank (rank 1 is 0), so `a1` is 0, `b1` is 1 and `h8`
/// is 63. Contracts see that number.
#[derive(Clone, Copy, PartialEq, Eq, Debug)]
pub struct Square {
    number: u8,
}

impl Model for Square {
    ghost use Rattle.std.specs.Prelude.{ℕ, ◌<◌};

    ghost Value = { ℕ };

    ghost view = { λ s. s.number };

    ghost invariant = { λ s. s.number < 64 };

    ghost inverse = { λ n. record { number = n } };
}

impl Square {
    /// The square with that number, None from 64 on.
    pub fn new(number: u8) -> Option<Square>
        ensures some { IsSome result ↔ (number < 64) }
        ensures value { IfSome result (λ s. s ≡ number) }
    {
        if number < 64 {
            Some(Square { number })
        } else {
            None
        }
    }

    /// The square with a number that is known to be valid.
    #[inline(always)]
    pub(crate) fn known(number: u8) -> Square
        requires { number < 64 }
        ensures { result ≡ number }
    {
        Square { number }
    }

    /// The number of the square, below 64.
    pub fn number(self) -> u8
        ensures value { result ≡ self }
        ensures bound { result < 64 }
    {
        self.number
    }
}
