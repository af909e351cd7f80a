//! Laws of logs that are legal games (FIDE Laws, Articles 1, 3, 5 and 9).

ghost use Rattle.std.specs.Prelude.{ℕ, ◌≡◌, ◌≢◌, ◌<◌, ◌≤◌, ◌+◌, List, [], ◌∷◌, ◌++◌, length, None};
ghost use Rattle.c960_board.specs.Moves.{Triple};
ghost use Rattle.c960_board.specs.Position.{IsPosition};
ghost use Rattle.c960_board.specs.Start.{start};
ghost use Rattle.c960_rules.specs.After.{after};
ghost use Rattle.c960_rules.specs.Check.{IsLawful};
ghost use Rattle.c960_game.specs.Ends.{own_outcome};
ghost use Rattle.c960_game.specs.Game960.{Game960, MayFollow};
ghost use Rattle.c960_game.specs.Positions.{last_position, positions};
ghost use Rattle.c960_game.specs.Times.{recent_times, times};

use c960_board::STARTS;

/// Each prefix of a legal game is a legal game.
#[tactic(auto, using(crate::proofs::lemmas::LogFacts::prefix))]
pub fn prefixes_are_games()
    ensures { (n : ℕ) (l later : List Triple) → Game960 n (l ++ later) → Game960 n l }
{}

/// Each start without a move is a legal game that goes on. A legal game can go on with a legal move as long as it has no
/// outcome.
pub fn games_grow()
    ensures start { (n : ℕ) → n < STARTS → Game960 n [] }
    ensures going { (n : ℕ) → n < STARTS → own_outcome n [] ≡ None }
    ensures more { (n : ℕ) (l : List Triple) (m : Triple) → Game960 n l → MayFollow n l m → Game960 n (l ++ m ∷ []) }
{}

/// In a game that goes on the half-move counter is below 150, and the position has appeared at most four times; the same was true
/// before each of its moves (FIDE Laws, Article 9.6).
pub fn games_that_go_on_are_bounded()
    ensures present { (n : ℕ) (l : List Triple) → own_outcome n l ≡ None
        → ((last_position n l).half_moves < 150) × (times n l ≤ 4) }
    ensures before { (n : ℕ) (l : List Triple) (m : Triple) (later : List Triple) → Game960 n (l ++ m ∷ later)
        → ((last_position n l).half_moves < 150) × (times n l ≤ 4) }
{}

/// A game that is over has no continuation.
pub fn the_end_is_the_end()
    ensures { (n : ℕ) (l : List Triple) (m : Triple) (later : List Triple) → own_outcome n l ≢ None
        → Game960 n (l ++ m ∷ later) → ⊥ }
{}

/// The start number and the moves determine the positions: the start, and after one more move the position after it.
pub fn positions_are_determined()
    ensures start { (n : ℕ) → positions n [] ≡ start n ∷ [] }
    ensures more { (n : ℕ) (l : List Triple) (m : Triple) → positions n (l ++ m ∷ [])
        ≡ positions n l ++ after (last_position n l) m ∷ [] }
    ensures last { (n : ℕ) (l : List Triple) (m : Triple) → last_position n (l ++ m ∷ []) ≡ after (last_position n l) m }
{}

/// The last position of a legal game is a position, and the side that does not have the move is not in check. (The counters of a
/// position go to 65,535.)
pub fn games_have_positions()
    ensures position { (n : ℕ) (l : List Triple) → Game960 n l → length l < 65535 → IsPosition (last_position n l) }
    ensures lawful { (n : ℕ) (l : List Triple) → Game960 n l → IsLawful (last_position n l) }
    ensures half_moves { (n : ℕ) (l : List Triple) → (last_position n l).half_moves ≤ length l }
    ensures number { (n : ℕ) (l : List Triple) → (last_position n l).number ≤ length l + 1 }
{}

/// No position before the last capture or pawn move is the same as the present one, so that a count of appearances may
/// begin there (FIDE Laws, Articles 9.2 and 9.3).
#[tactic(auto, using(crate::proofs::CounterFacts::times_recent))]
pub fn the_counter_bounds_the_past()
    ensures { (n : ℕ) (l : List Triple) → Game960 n l → length l < 65535 → times n l ≡ recent_times n l }
{}
