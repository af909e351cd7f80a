//! Laws of every lawful history of a relay: of the games, of the followers' stretches, and of ends.

ghost use Rattle.std.specs.Prelude.{◌≡◌, ℕ, ◌≤◌, List, ◌++◌, length, Some};
ghost use Rattle.c960_game.specs.declared.outcome.Outcome.{Outcome};
ghost use Rattle.c960_game.specs.Game960.{Game960};
ghost use Rattle.c960_game.specs.Limits.{LimitNumbers};
ghost use Rattle.relay_core.specs.Following.{board_of};
ghost use Rattle.relay_core.specs.History.{History, end_of, log, start_of};
ghost use Rattle.relay_core.specs.Replies.{LawfulHistory};
ghost use Rattle.relay_core.specs.Stretch.{IsStretch};

/// Each board's log is a legal game from its start, of no more plies than the limits allow.
pub fn logs_are_legal_games()
    ensures { (limits : LimitNumbers) (h : History) → LawfulHistory limits h → (board : List ℕ) (n : ℕ)
        → start_of h board ≡ Some n → Game960 n (log h board) × (length (log h board) ≤ limits.plies) }
{}

/// The moves that a follower has taken, then those due to it, are, each once and in order, the stretch of its board's log
/// from its joining place to the present or its closing.
pub fn followers_take_a_stretch()
    ensures { (limits : LimitNumbers) (h : History) → LawfulHistory limits h → (who : ℕ) (board : List ℕ)
        → board_of h who ≡ Some board → IsStretch limits.capacity h who board }
{}

/// A game that has ended has no further move and no other outcome, whatever steps follow.
pub fn the_end_stays()
    ensures { (limits : LimitNumbers) (h later : History) → LawfulHistory limits (later ++ h)
        → (board : List ℕ) (n : ℕ) (outcome : Outcome) → start_of h board ≡ Some n → end_of h n board ≡ Some outcome
        → (log (later ++ h) board ≡ log h board) × (end_of (later ++ h) n board ≡ Some outcome) }
{}
