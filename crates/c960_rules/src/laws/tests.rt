//! Tests that compute, and the relations that they decide.

ghost use Rattle.std.specs.Prelude.{ℕ, ◌↔◌, List, IsTrue};
ghost use Rattle.c960_board.specs.declared.parts.Parts.{Parts};
ghost use Rattle.c960_board.specs.declared.piece.Colour.{Colour};
ghost use Rattle.c960_board.specs.Moves.{IsMove, Triple};
ghost use Rattle.c960_board.specs.Pieces.{Cell};
ghost use Rattle.c960_rules.specs.Attacks.{AttackedBy};
ghost use Rattle.c960_rules.specs.Castles.{Castles};
ghost use Rattle.c960_rules.specs.Check.{InCheck};
ghost use Rattle.c960_rules.specs.Legal.{Legal};
ghost use Rattle.c960_rules.specs.Reaches.{Reaches};
ghost use Rattle.c960_rules.specs.Tests.Attacks.{attacked_by};
ghost use Rattle.c960_rules.specs.Tests.Castles.{castles};
ghost use Rattle.c960_rules.specs.Tests.Check.{in_check};
ghost use Rattle.c960_rules.specs.Tests.Legal.{is_legal};
ghost use Rattle.c960_rules.specs.Tests.Reaches.{reaches};

/// Each test passes exactly if its relation holds: that of attacks, of check, of ordinary moves, of castling, and, for a triple that is
/// a move, of legality.
pub fn tests_decide()
    ensures attack { (cells : List Cell) (c : Colour) (square : ℕ) → IsTrue (attacked_by cells c square) ↔ AttackedBy cells c square }
    ensures check { (cells : List Cell) (c : Colour) → IsTrue (in_check cells c) ↔ InCheck cells c }
    ensures ordinary { (p : Parts) (m : Triple) → IsTrue (reaches p m) ↔ Reaches p m }
    ensures castling { (p : Parts) (m : Triple) → IsTrue (castles p m) ↔ Castles p m }
    ensures legal { (p : Parts) (m : Triple) → IsMove m → IsTrue (is_legal p m) ↔ Legal p m }
{}
