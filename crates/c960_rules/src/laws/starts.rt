//! What holds in each starting position before the first move (FIDE Laws, Articles 3.9 and 5; Guidelines II).

ghost use Rattle.std.specs.Prelude.{◌<◌, ℕ};
ghost use Rattle.c960_board.specs.Moves.{Triple};
ghost use Rattle.c960_board.specs.Start.{start};
ghost use Rattle.c960_board.specs.declared.piece.Colour.TheVariants.{White};
ghost use Rattle.c960_rules.specs.Check.{InCheck, IsLawful};
ghost use Rattle.c960_rules.specs.Legal.{Legal, Mate, Stale};

use c960_board::STARTS;

/// In a starting position neither king is attacked, and White has a legal move (so it is neither checkmate nor stalemate).
pub fn starts_are_open()
    ensures lawful { (n : ℕ) → n < STARTS → IsLawful (start n) }
    ensures no_check { (n : ℕ) → n < STARTS → InCheck (start n).placement White → ⊥ }
    ensures some_move { (n : ℕ) → n < STARTS → (m : Triple) × Legal (start n) m }
    ensures no_mate { (n : ℕ) → n < STARTS → Mate (start n) → ⊥ }
    ensures no_stalemate { (n : ℕ) → n < STARTS → Stale (start n) → ⊥ }
{}
