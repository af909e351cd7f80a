//! A board in a hall, with its owner. What a call does to it is said of what the hall shows: its table, its game, its owner.

ghost use Rattle.std.specs.Prelude.{◌≡◌, length, OnErr, OnOk, Err};
ghost use Rattle.c960_game.specs.Record.{end_answer, play_answer, with_move};
ghost use Rattle.relay_core.specs.BoardAnswers.{ended_by, with_place};
ghost use Rattle.live_board.specs.Accounts.{account_of};
ghost use Rattle.live_board.specs.TableWriter.{LoadedBelow, NoneVacant};
ghost use Rattle.relay_hall.specs.Meeting.{Meets};
ghost use Rattle.relay_hall.specs.Steps.{Hands};
ghost use Rattle.relay_hall.specs.Hosting.{Turned, abandoned_by, game_in, limits_in, shown_board};

use crate::leaver::Leaver;
use crate::owner::Owner;
use c960_board::Move;
use c960_game::{Ending, Outcome, Refusal, Replaying};
use live_board::{Board, Follower, meet};
use relay_core::{Account, may_join_at};

/// A board and who opened it.
#[derive(Drop)]
pub(crate) struct Hosted {
    pub(crate) board: Board,
    pub(crate) owner: Owner,
}

impl Hosted {
    /// Makes a move.
    pub(crate) fn submit(&mut self, m: Move) -> Result<(u16, Option<Outcome>), Refusal>
        ensures answer { result ≡ with_place (length (game_in self.old).log) (play_answer (game_in self.old) m) }
        ensures refused { OnErr result (self.new ≡ self.old) }
        ensures turned { OnOk result (Turned (λ g. with_move g m) self.old self.new) }
    {
        self.board.submit(m)
    }

    /// Ends the game.
    pub(crate) fn end(&mut self, ending: Ending) -> Result<Outcome, Refusal>
        ensures answer { result ≡ end_answer (game_in self.old) ending }
        ensures refused { OnErr result (self.new ≡ self.old) }
        ensures turned { OnOk result (Turned (ended_by ending) self.old self.new) }
    {
        self.board.end(ending)
    }

    /// A follower from a place of the log, or from its length, and the position there, which has yet to be worked out. It is refused for
    /// want of a slot only if each was looked at and none was vacant.
    pub(crate) fn follow(&mut self, from: Option<u16>) -> Result<(Follower, Replaying), Refusal>
        ensures answer { Hands (limits_in self.old) (shown_board self.old) from result }
        ensures too_many { (result ≡ Err Refusal.TooManyFollowers) → LoadedBelow (limits_in self.old).followers self.old.board.knows self.new.board.knows × NoneVacant self.new.board.knows }
        ensures turned { Turned (λ g. g) self.old self.new }
    {
        let follower = self.board.follow(from)?;
        let Some(replaying) = self.board.replay_at(follower.joined()) else {
            unreachable!();
        };
        Ok((follower, replaying))
    }

    /// The board and one of its followers compare what they know. Returns the outcome of the game besides, once it is over.
    pub(crate) fn meet(&mut self, follower: &mut Follower) -> (Account, Option<Outcome>)
        requires { follower.old.table ≡ self.old.board.table }
        ensures met { Meets (shown_board self.old) follower.old follower.new }
        ensures account { result ≡ (account_of follower.new.part, (game_in self.old).outcome) }
        ensures turned { Turned (λ g. g) self.old self.new }
    {
        let account = meet(&mut self.board, follower);
        (account, self.board.outcome())
    }

    /// The refusal of a follow of a board without a vacant slot. None is looked for.
    pub(crate) fn turn_away(&self, from: Option<u16>) -> Refusal
        ensures { Hands (limits_in self.now) (shown_board self.now) from (Err result) }
    {
        let len = self.board.len();
        match may_join_at(len, from.unwrap_or(len), self.board.capacity()) {
            Ok(()) => Refusal::TooManyFollowers,
            Err(refusal) => refusal,
        }
    }

    /// Ends the game as abandoned if its owner has left and it is not over. Returns whether it did.
    pub(crate) fn abandon<L: Leaver>(&mut self, left: &L) -> bool
        ensures { self.new ≡ abandoned_by (L.gone left.now) self.old }
    {
        left.has_left(&self.owner) && self.board.end(Ending::Abandoned).is_ok()
    }
}
