//! Laws of the names of boards.

ghost use Rattle.std.specs.Prelude.{◌≡◌, ◌↔◌, ℕ, List, true};
ghost use Rattle.relay_core.specs.Name.{IsName, same_name};

/// The equality test of a map of boards finds two names equal exactly when their bytes are equal.
#[tactic(auto, using(crate::proofs::NameFacts::same_name_decides))]
pub fn names_are_same_by_their_bytes()
    ensures { (a b : List ℕ) → IsName a → IsName b → (same_name a b ≡ true) ↔ (a ≡ b) }
{}
