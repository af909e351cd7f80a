//! Tests that compute, and the relations that they decide.

ghost use Rattle.std.specs.Prelude.{ℕ, ◌≡◌, ◌<◌, ◌≤◌, ◌↔◌, List, Some, None, IsTrue};
ghost use Rattle.c960_board.specs.declared.parts.Parts.{Parts};
ghost use Rattle.c960_board.specs.declared.piece.Colour.{Colour};
ghost use Rattle.c960_board.specs.Moves.{Triple};
ghost use Rattle.c960_board.specs.Pieces.{other};
ghost use Rattle.c960_board.specs.Position.{IsPosition};
ghost use Rattle.c960_rules.specs.Legal.{Legal, Mate, Stale};
ghost use Rattle.c960_game.specs.declared.ending.Ending.{Ending};
ghost use Rattle.c960_game.specs.declared.outcome.Outcome.TheVariants.{Checkmate, Stalemate, Fivefold, SeventyFive};
ghost use Rattle.c960_game.specs.Ends.{outcome_of, own_outcome};
ghost use Rattle.c960_game.specs.Game960.{GoesOn};
ghost use Rattle.c960_game.specs.Ground.{Ground};
ghost use Rattle.c960_game.specs.Tests.Ground.{has_ground};
ghost use Rattle.c960_game.specs.Tests.Moves.{is_legal_move};
ghost use Rattle.c960_game.specs.Positions.{last_position};
ghost use Rattle.c960_game.specs.Same.{Same};
ghost use Rattle.c960_game.specs.Tests.Same.{same};
ghost use Rattle.c960_game.specs.Times.{times};

/// The test of a move decides whether it is legal.
pub fn is_legal_move_tests_moves()
    ensures { (p : Parts) (m : Triple) → IsTrue (is_legal_move p m) ↔ Legal p m }
{}

/// A position has an outcome exactly if it is mate or stalemate.
pub fn outcomes_are_mate_and_stalemate()
    ensures going { (p : Parts) → (outcome_of p ≡ None) ↔ ((m : Triple) × Legal p m) }
    ensures checkmate { (p : Parts) (c : Colour) → (outcome_of p ≡ Some (Checkmate c)) ↔ (Mate p × (c ≡ other p.turn)) }
    ensures stalemate { (p : Parts) → (outcome_of p ≡ Some Stalemate) ↔ Stale p }
{}

/// When a game has an outcome by itself, and which: mate or stalemate of its last position; otherwise, if the side to move has a
/// legal move, Fivefold if that position has appeared at least five times, and SeventyFive if it has not and the half-move
/// counter is at least 150 (FIDE Laws, Articles 5.1.1, 5.2.1 and 9.6).
pub fn games_end_by_themselves()
    ensures going { (n : ℕ) (l : List Triple) → (own_outcome n l ≡ None)
        ↔ (((m : Triple) × Legal (last_position n l) m) × (times n l < 5) × ((last_position n l).half_moves < 150)) }
    ensures goes_on { (n : ℕ) (l : List Triple) → (own_outcome n l ≡ None) ↔ GoesOn n l }
    ensures checkmate { (n : ℕ) (l : List Triple) (c : Colour) → (own_outcome n l ≡ Some (Checkmate c))
        ↔ (Mate (last_position n l) × (c ≡ other (last_position n l).turn)) }
    ensures stalemate { (n : ℕ) (l : List Triple) → (own_outcome n l ≡ Some Stalemate) ↔ Stale (last_position n l) }
    ensures fivefold { (n : ℕ) (l : List Triple) → (own_outcome n l ≡ Some Fivefold)
        ↔ (((m : Triple) × Legal (last_position n l) m) × (5 ≤ times n l)) }
    ensures seventy_five { (n : ℕ) (l : List Triple) → (own_outcome n l ≡ Some SeventyFive)
        ↔ (((m : Triple) × Legal (last_position n l) m) × (times n l < 5) × (150 ≤ (last_position n l).half_moves)) }
{}

/// The test of two positions decides whether they are the same for a claim.
#[tactic(auto, using(crate::proofs::SameFacts::same_decides))]
pub fn same_tests_positions()
    ensures { (p q : Parts) → IsTrue (same p q) ↔ Same p q }
{}

/// The test of an ending decides whether it has its ground.
pub fn has_ground_tests_endings()
    ensures { (n : ℕ) (l : List Triple) (e : Ending) → IsTrue (has_ground n l e) ↔ Ground n l e }
{}
