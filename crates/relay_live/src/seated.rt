//! Where a spectator follows.

ghost use Rattle.std.specs.Prelude.{◌≡◌, ℕ, List, ◌<◌, Some, is_some, unwrap_or};

use relay_core::{Account, BoardKey};
use std::marker::Model;

/// The name of the board that a spectator follows. Only clauses read it, and see its bytes: it takes no memory.
#[derive(Drop)]
pub(crate) struct Followed {
    ghost name: { List ℕ },
}

impl Model for Followed {
    ghost use Rattle.std.specs.Prelude.{ℕ, List};
    ghost use Rattle.std.specs.Borrow.{ftrue};

    ghost Value = { List ℕ };

    ghost view = { λ f. f.name };

    // There is no memory that it could own.
    ghost also_owns = { λ _. ftrue };
}

// It owns nothing, so another thread may have it: a relay may go to another thread.
unsafe impl Send for Followed {}

impl Followed {
    /// That of this board.
    pub(crate) fn of(_board: &BoardKey) -> Followed
        ensures { result ≡ _board.now }
    {
        Followed {}
    }
}

/// Where a spectator follows, and how far it has got. Everything else about it is in what the board knows.
#[derive(Drop)]
pub(crate) struct Seated {
    /// The board that it follows, which only contracts read.
    pub(crate) board: Followed,
    /// The index of that board in the map of boards. It stays, since a board is removed only when the relay ends.
    pub(crate) index: usize,
    /// Its slot there.
    pub(crate) slot: u64,
    /// The place of the log at which it joined.
    pub(crate) joined: u16,
    /// How many moves it has taken.
    pub(crate) taken: u16,
}

/// What a spectator has had. Its board's log has the length `present`, and it was closed at `closing`, if it was.
pub(crate) fn account(seated: Seated, present: u16, closing: Option<u64>) -> Account
    requires { (c : ℕ) → closing ≡ Some c → c < 65536 }
    ensures joined { result.joined ≡ seated.joined }
    ensures taken { result.taken ≡ seated.taken }
    ensures limit { result.limit ≡ unwrap_or closing present }
    ensures cut { result.cut ≡ is_some closing }
{
    Account {
        joined: seated.joined,
        taken: seated.taken,
        limit: closing.unwrap_or(u64::from(present)) as u16,
        cut: closing.is_some(),
    }
}
