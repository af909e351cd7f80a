//! Check (FIDE Laws, Article 3.9).

ghost use Rattle.std.specs.Prelude.{◌↔◌, IsTrue};
ghost use Rattle.c960_rules.specs.Check.{InCheck};

use crate::attacks::attacked;
use crate::safety::king_of;
use c960_board::{Colour, Position};

/// Whether the side's king is attacked (FIDE Laws, Article 3.9.1).
pub fn in_check(position: &Position, colour: Colour) -> bool
    ensures { IsTrue result ↔ InCheck position.now.placement colour }
{
    let _sets = position.sets();
    let king = king_of(position, colour);
    attacked(position, colour.other(), king)
}
