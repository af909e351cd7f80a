//! Which squares are attacked (FIDE Laws, Articles 3.1.2 and 3.1.3).

ghost use Rattle.std.specs.Prelude.{◌↔◌, IsTrue};
ghost use Rattle.c960_rules.specs.Attacks.{AttackedBy};

use crate::attack_sets::attackers;
use c960_board::{Colour, Position, Square};

/// Whether a piece of the colour attacks the square, even if moving there would expose its own king (FIDE Laws, Articles
/// 3.1.2 and 3.1.3).
pub fn attacked(position: &Position, by: Colour, square: Square) -> bool
    ensures { IsTrue result ↔ AttackedBy position.now.placement by square }
{
    attackers(position, by, square) != 0
}
