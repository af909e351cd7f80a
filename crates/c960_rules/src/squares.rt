//! Squares by their numbers.

ghost use Rattle.std.specs.Prelude.{◌≡◌, ◌<◌};

use c960_board::Square;

/// The square of a number below 64.
pub(crate) fn square_of(number: u8) -> Square
    requires { number < 64 }
    ensures { result ≡ number }
{
    match Square::new(number) {
        Some(square) => square,
        None => unreachable!(),
    }
}
