//! How a connection relates to its board: by its follower while it follows, and then by what remains of that.

ghost use Rattle.std.specs.Prelude.{◌≡◌, cond, IfSome, MatchOption, None, Some};
ghost use Rattle.std.specs.Map.{lookup};
ghost use Rattle.relay_core.specs.Name.{same_name};
ghost use Rattle.live_board.specs.Accounts.{account_of};
ghost use Rattle.live_board.specs.Sound.{IsSoundPart};
ghost use Rattle.live_board.specs.Takes.{Stays, Took};
ghost use Rattle.live_board.specs.Views.{next_of};
ghost use Rattle.relay_hall.specs.Meeting.{Meets};
ghost use Rattle.relay_service.specs.Following.Record.{StandingRecord, follows};
ghost use Rattle.relay_service.specs.declared.following.stage.Stage.TheVariants.{Follows};

use crate::following::stage::Stage;
use c960_game::Outcome;
use live_board::{Follower, Gone};
use relay_core::{Account, BoardName, Taken};
use relay_hall::Hall;
use std::marker::Model;
use std::snapshot::Snapshot;

/// How a connection relates to its board. A follower that is only dropped keeps its slot: so what remains of one that left is kept, by
/// which its slot is known to be free. Contracts see a `StandingRecord`.
#[derive(Drop)]
pub(crate) struct Standing {
    /// What its follower had when it left.
    had: Snapshot<Follower>,
    /// Its follower, while it follows.
    follower: Option<Follower>,
    /// What remains of its follower then.
    gone: Option<Gone>,
    stage: Stage,
}

impl Model for Standing {
    ghost use Rattle.relay_service.specs.Following.Record.{StandingRecord};

    ghost Value = { StandingRecord };

    ghost use Rattle.relay_service.specs.Following.StandingInner.{IsStanding, standing_of};

    ghost view = { standing_of };

    ghost invariant = { IsStanding };
}

impl Standing {
    /// It follows by this follower.
    pub(crate) fn new(follower: Follower) -> Standing
        ensures { result ≡ record { follower = follower; stage = Follows } }
    {
        Standing {
            had: Snapshot::of(&follower),
            follower: Some(follower),
            gone: None,
            stage: Stage::Follows,
        }
    }

    /// How far it has come.
    pub(crate) fn stage(&self) -> Stage
        ensures { result ≡ self.now.stage }
    {
        self.stage
    }

    /// Whether it still follows.
    pub(crate) fn follows(&self) -> bool
        ensures { result ≡ follows self.now.stage }
    {
        self.stage.follows()
    }

    /// The place of the move that it takes next, while it follows.
    pub(crate) fn next(&self) -> Option<u64>
        ensures { result ≡ cond (follows self.now.stage) (Some (next_of self.now.follower.part)) None }
    {
        match &self.follower {
            Some(follower) => Some(u64::from(follower.joined()) + u64::from(follower.taken())),
            None => None,
        }
    }

    /// Takes what is next on its board.
    pub(crate) fn take(&mut self) -> Taken
        requires follows { self.old.stage ≡ Follows }
        ensures stays { Stays self.old.follower self.new.follower }
        ensures took { Took self.old.follower self.new.follower result }
        ensures stage { self.new.stage ≡ Follows }
        ensures sound { IsSoundPart self.new.follower.part }
    {
        match &mut self.follower {
            Some(follower) => follower.take(),
            None => unreachable!(),
        }
    }

    /// Meets the board of this name in the hall.
    pub(crate) fn meet(
        &mut self,
        hall: &mut Hall,
        board: &BoardName,
    ) -> Option<(Account, Option<Outcome>)>
        requires follows { self.old.stage ≡ Follows }
        requires table { IfSome (lookup (same_name board.now) hall.old.floor.boards) (λ b. self.old.follower.table ≡ b.table) }
        ensures met { MatchOption (lookup (same_name board.now) hall.old.floor.boards) ((result ≡ None) × (self.new ≡ self.old))
            (λ b. (result ≡ Some (account_of self.new.follower.part, b.game.outcome)) × Meets b self.old.follower self.new.follower) }
        ensures hall { hall.new ≡ hall.old }
        ensures stage { self.new.stage ≡ Follows }
    {
        match &mut self.follower {
            Some(follower) => hall.meet_at(board, follower),
            None => unreachable!(),
        }
    }

    /// Its follower leaves, if it has one, and its slot is free. It has come so far then.
    pub(crate) fn leave(&mut self, stage: Stage)
        requires { stage ≡ Follows → ⊥ }
        ensures { self.new ≡ record self.old { stage = cond (follows self.old.stage) stage self.old.stage } }
    {
        let Some(follower) = self.follower.take() else {
            return;
        };
        self.had = Snapshot::of(&follower);
        let (_, gone) = follower.leave();
        self.gone = Some(gone);
        self.stage = stage;
    }
}
