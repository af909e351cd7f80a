//! Laws of the list of all legal moves.

ghost use Rattle.std.specs.Prelude.{◌≡◌, ◌↔◌, [], Contains};
ghost use Rattle.c960_board.specs.Moves.{Triple};
ghost use Rattle.c960_board.specs.declared.parts.Parts.{Parts};
ghost use Rattle.c960_rules.specs.Legal.{Legal};
ghost use Rattle.c960_rules.specs.Tests.Legal.{legal_list};

/// A move is in the list exactly if it is legal.
pub fn the_list_has_the_legal_moves()
    ensures { (p : Parts) (m : Triple) → Contains (legal_list p) m ↔ Legal p m }
{}

/// The list is empty exactly if there is no legal move.
#[tactic(auto, using(crate::proofs::lemmas::Listed::empty_none, crate::proofs::lemmas::Listed::none_empty))]
pub fn the_list_is_empty_without_a_legal_move()
    ensures { (p : Parts) → (legal_list p ≡ []) ↔ ((m : Triple) × Legal p m → ⊥) }
{}
