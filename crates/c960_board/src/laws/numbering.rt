//! How the numbers, the lawful first ranks and the starting positions correspond (Guidelines II.2).

ghost use Rattle.std.specs.Prelude.{◌≡◌, ◌<◌, ℕ, List};
ghost use Rattle.c960_board.specs.Array.{array};
ghost use Rattle.c960_board.specs.LawfulRank.{IsLawfulRank};
ghost use Rattle.c960_board.specs.Position.{IsPosition};
ghost use Rattle.c960_board.specs.Start.{start};
ghost use Rattle.c960_board.specs.declared.piece.Kind.{Kind};

use crate::numbering::STARTS;

/// The array of each number below 960 is a lawful first rank.
#[tactic(auto, using(crate::proofs::NumberFacts::array_is_lawful))]
pub fn arrays_are_lawful()
    ensures { (n : ℕ) → n < STARTS → IsLawfulRank (array n) }
{}

/// Each lawful first rank is the array of exactly one number below 960.
pub fn lawful_ranks_are_numbered()
    ensures some { (rank : List Kind) → IsLawfulRank rank → (n : ℕ) × (n < STARTS) × (array n ≡ rank) }
    ensures alone { (m n : ℕ) → m < STARTS → n < STARTS → array m ≡ array n → m ≡ n }
{}

/// Each number below 960 has a starting position.
pub fn starts_are_positions()
    ensures { (n : ℕ) → n < STARTS → IsPosition (start n) }
{}
