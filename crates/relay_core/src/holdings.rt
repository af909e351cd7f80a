//! What a relay on one thread holds, and each step on it, with the room that is left. It is separate from `Relay`, so that the clauses
//! of the steps can mention that room and those of a relay need not.

ghost use Rattle.std.specs.Prelude.{◌≡◌, ◌≤◌, [], false, IfOk};
ghost use Rattle.c960_game.specs.Limits.{LimitNumbers};
ghost use Rattle.relay_core.specs.History.{History, is_accepted};
ghost use Rattle.relay_core.specs.Leads.{Leads};
ghost use Rattle.relay_core.specs.Replies.{may_grow, reply_to};
ghost use Rattle.relay_core.specs.Stands.{Stands};
ghost use Rattle.relay_core.specs.Held.Room.{KeepsRoom};

use crate::boards::Boards;
use crate::followers::Followers;
use crate::grounds::{may_follow, may_open};
use crate::name::BoardName;
use crate::reply::Reply;
use crate::step::{Spectator, Step};
use c960_board::Move;
use c960_game::{Ending, Game, Limits, MOST_PLIES, Refusal};
use std::alloc::{AllocError, Global};
use std::marker::Model;

/// Boards, and the spectators who follow them, within the limits. Contracts see a `Holding`.
#[derive(Drop)]
pub(crate) struct Holdings {
    limits: Limits,
    boards: Boards,
    followers: Followers,
}

impl Model for Holdings {
    ghost use Rattle.relay_core.specs.Inner.HoldingsFields.{HasRoom, held_of, holding_of};
    ghost use Rattle.relay_core.specs.Held.Stands.{IsKept};
    ghost use Rattle.relay_core.specs.Held.Room.{Holding};

    ghost Value = { Holding };

    ghost view = { holding_of };

    ghost invariant = { λ h. IsKept (held_of h) × HasRoom h };
}

// The functions marked `inline(never)` make one kind of step each. Inlined into `step`, the replies of all kinds would share their buffers:
// each would be put together byte by byte and copied twice, with the room of the largest cleared first.
impl Holdings {
    /// Holdings without boards, with room for as many as the limits allow.
    pub(crate) fn new(alloc: Global, limits: Limits) -> Result<Holdings, AllocError>
        ensures stands { IfOk result (λ h. Stands limits h.shown []) }
    {
        Ok(Holdings {
            limits,
            boards: Boards::with_capacity(alloc, limits.boards())?,
            followers: Followers::new(alloc),
        })
    }

    /// Opens a board with a game from a numbered start. Refused: `BoardExists`, `BadStart`, `TooManyBoards`, `OutOfMemory`.
    #[inline(never)]
    fn open(&mut self, alloc: Global, board: BoardName, start: u16) -> Reply
        ensures stands { Leads self.old.shown self.new.shown (Step.Open board start) result }
        ensures refused { is_accepted result ≡ false → self.new.shown ≡ self.old.shown }
    {
        let is_named = self.boards.contains(board);
        if let Err(refusal) = may_open(is_named, start, self.boards.len(), self.limits.boards()) {
            return Reply::Refused(refusal);
        }
        let Ok(game) = Game::open(alloc, start, self.limits.plies()) else {
            return Reply::Refused(Refusal::OutOfMemory);
        };
        self.boards.add(board, game);
        Reply::Opened
    }

    /// Makes a move on a board and offers it to the board's followers. Refused: `NoSuchBoard`, `GameOver`, `LogFull`,
    /// `Illegal`.
    #[inline(never)]
    fn submit(&mut self, board: BoardName, m: Move) -> Reply
        ensures stands { Leads self.old.shown self.new.shown (Step.Submit board m) result }
        ensures refused { is_accepted result ≡ false → self.new.shown ≡ self.old.shown }
        ensures room { self.new.room ≡ self.old.room }
    {
        match self.boards.play(board, m) {
            Err(refusal) => Reply::Refused(refusal),
            Ok((place, outcome)) => {
                self.followers.publish(board, place, m);
                Reply::Played { place, outcome }
            }
        }
    }

    /// Ends the game of a board. Refused: `NoSuchBoard`, `GameOver`, `ClaimRefused`.
    #[inline(never)]
    fn end(&mut self, board: BoardName, ending: Ending) -> Reply
        ensures stands { Leads self.old.shown self.new.shown (Step.End board ending) result }
        ensures refused { is_accepted result ≡ false → self.new.shown ≡ self.old.shown }
        ensures room { self.new.room ≡ self.old.room }
    {
        let outcome = match self.boards.end(board, ending) {
            Ok(outcome) => outcome,
            Err(refusal) => return Reply::Refused(refusal),
        };
        Reply::Ended(outcome)
    }

    /// Lets a spectator follow a board from a place of its log on, or from now on. Refused: `NoSuchBoard`, `FollowerExists`,
    /// `NotYet`, `TooFarBack`, `TooManyFollowers`, `OutOfMemory`.
    #[inline(never)]
    #[tactic(auto, using(c960_game::proofs::lemmas::LogFacts::position_made))]
    fn follow(
        &mut self,
        alloc: Global,
        who: Spectator,
        board: BoardName,
        from: Option<u16>,
    ) -> Reply
        ensures stands { Leads self.old.shown self.new.shown (Step.Follow who board from) result }
        ensures refused { is_accepted result ≡ false → self.new.shown ≡ self.old.shown }
    {
        let Some(game) = self.boards.get(board) else {
            return Reply::Refused(Refusal::NoSuchBoard);
        };
        let follows = self.followers.contains(who);
        let joined = from.unwrap_or(game.len());
        let capacity = self.limits.capacity();
        let is_full = self.followers.count(board) >= usize::from(self.limits.followers());
        if let Err(refusal) = may_follow(follows, game.len(), joined, capacity, is_full) {
            return Reply::Refused(refusal);
        }
        let Some(position) = game.position_at(joined) else {
            unreachable!();
        };
        let Ok(()) = self
            .followers
            .admit(alloc, who, board, joined, game, capacity)
        else {
            return Reply::Refused(Refusal::OutOfMemory);
        };
        Reply::Following { joined, position }
    }

    /// Takes the spectator's next move. Refused: `NoSuchFollower`.
    #[inline(never)]
    fn take(&mut self, who: Spectator) -> Reply
        ensures stands { Leads self.old.shown self.new.shown (Step.Take who) result }
        ensures refused { is_accepted result ≡ false → self.new.shown ≡ self.old.shown }
        ensures room { self.new.room ≡ self.old.room }
    {
        // Hence the places of a log fit in 16 bits.
        prove!(self.limits.plies() <= MOST_PLIES);
        let Some(taken) = self.followers.take(who, &self.boards) else {
            return Reply::Refused(Refusal::NoSuchFollower);
        };
        Reply::Took(taken)
    }

    /// Ends a spectator's following. Refused: `NoSuchFollower`.
    #[inline(never)]
    fn leave(&mut self, who: Spectator) -> Reply
        ensures stands { Leads self.old.shown self.new.shown (Step.Leave who) result }
        ensures refused { is_accepted result ≡ false → self.new.shown ≡ self.old.shown }
        ensures room { self.new.room.boards ≡ self.old.room.boards }
        ensures followers_room { self.old.room.followers ≤ self.new.room.followers }
    {
        let Some(follower) = self.followers.remove(who) else {
            return Reply::Refused(Refusal::NoSuchFollower);
        };
        let present = self.boards.length_of(follower.board());
        Reply::Left(follower.account(present))
    }

    /// Makes one step, as `Relay::step` promises. Only an Open and a Follow are given the allocator.
    pub(crate) fn step(&mut self, alloc: Global, step: Step) -> Reply
        ensures stands { Leads self.old.shown self.new.shown step result }
        ensures exact { may_grow step ≡ false → (limits : LimitNumbers) (h : History) → Stands limits self.old.shown h
            → result ≡ reply_to limits h step }
        ensures refused { is_accepted result ≡ false → self.new.shown ≡ self.old.shown }
        ensures room { KeepsRoom step self.old.room self.new.room }
    {
        match step {
            Step::Open(board, start) => self.open(alloc, board, start),
            Step::Submit(board, m) => self.submit(board, m),
            Step::End(board, ending) => self.end(board, ending),
            Step::Follow(who, board, from) => self.follow(alloc, who, board, from),
            Step::Take(who) => self.take(who),
            Step::Leave(who) => self.leave(who),
        }
    }
}
