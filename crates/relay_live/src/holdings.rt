//! What a relay over live boards holds, and each step on it, with the room that is left. It is separate from `LiveRelay`, so that the
//! clauses of the steps can mention that room and those of a relay need not.

ghost use Rattle.std.specs.Prelude.{◌≡◌, ◌≤◌, [], false, option_map, IfOk, IfSome};
ghost use Rattle.std.specs.Map.{lookup};
ghost use Rattle.c960_game.specs.Limits.{LimitNumbers};
ghost use Rattle.relay_core.specs.History.{History, is_accepted};
ghost use Rattle.relay_core.specs.Held.Room.{KeepsRoom};
ghost use Rattle.relay_core.specs.Leads.{Leads};
ghost use Rattle.relay_core.specs.Name.{same_name};
ghost use Rattle.relay_core.specs.Replies.{may_grow, reply_to};
ghost use Rattle.relay_core.specs.Stands.{Stands};
ghost use Rattle.live_board.specs.Board.{game_of, setup_of};
ghost use Rattle.relay_live.specs.Live.{SlotsLeft};

use crate::boards::{end, join, leave_for, play, take_for};
use crate::seated::{Followed, Seated};
use crate::seats::Seats;
use c960_board::Move;
use c960_game::{Ending, Limits, MOST_PLIES, Refusal};
use indexmap::IndexMap;
use live_board::Board;
use relay_core::{BoardKey, BoardName, Reply, Spectator, Step, Taken, may_follow, may_open};
use std::alloc::{AllocError, Global};
use std::marker::Model;

/// The live boards, and who follows them, within the limits. Contracts see a `Holding`.
#[derive(Drop)]
pub(crate) struct Holdings {
    /// How much the relay and each of its boards may hold.
    limits: Limits,
    /// The boards that were opened.
    boards: IndexMap<BoardKey, Board>,
    /// Which spectators follow, and where.
    followers: Seats,
}

impl Model for Holdings {
    ghost use Rattle.relay_core.specs.Held.Room.{Holding};
    ghost use Rattle.relay_live.specs.Live.{HasRoom, IsLive, holding_of};

    ghost Value = { Holding };

    ghost view = { holding_of };

    ghost invariant = { λ r. IsLive r.limits r.boards.entries r.followers.entries × HasRoom r };
}

// The functions marked `inline(never)` make one kind of step each. Inlined into `step`, the replies of all kinds would share their buffers:
// each would be put together byte by byte and copied twice, with the room of the largest cleared first.
impl Holdings {
    /// Holdings without boards, with room for as many as the limits allow.
    pub(crate) fn new(alloc: Global, limits: Limits) -> Result<Holdings, AllocError>
        ensures stands { IfOk result (λ h. Stands limits h.shown []) }
    {
        Ok(Holdings {
            limits,
            boards: IndexMap::with_capacity(alloc, usize::from(limits.boards()))?,
            followers: Seats::new(alloc),
        })
    }

    /// Opens a board with a game from a numbered start. Refused: `BoardExists`, `BadStart`, `TooManyBoards`, `OutOfMemory`.
    #[inline(never)]
    fn open(&mut self, alloc: Global, board: BoardKey, start: u16) -> Reply
        ensures stands { Leads self.old.shown self.new.shown (Step.Open board start) result }
        ensures refused { is_accepted result ≡ false → self.new.shown ≡ self.old.shown }
    {
        let is_named = self.boards.contains_key(&board);
        if let Err(refusal) = may_open(is_named, start, self.boards.len(), self.limits.boards()) {
            return Reply::Refused(refusal);
        }
        let Ok(live) = Board::open(alloc, start, self.limits) else {
            return Reply::Refused(Refusal::OutOfMemory);
        };
        let Ok(_) = self.boards.insert(board, live) else {
            unreachable!();
        };
        Reply::Opened
    }

    /// Makes a move on a board, through the cursors of that board and no other. Refused: `NoSuchBoard`, `GameOver`, `LogFull`,
    /// `Illegal`.
    #[inline(never)]
    fn submit(&mut self, board: BoardKey, m: Move) -> Reply
        ensures stands { Leads self.old.shown self.new.shown (Step.Submit board m) result }
        ensures refused { is_accepted result ≡ false → self.new.shown ≡ self.old.shown }
        ensures room { self.new.room ≡ self.old.room }
    {
        match play(&mut self.boards, board, m) {
            Err(refusal) => Reply::Refused(refusal),
            Ok((place, outcome)) => Reply::Played { place, outcome },
        }
    }

    /// Ends the game of a board. Refused: `NoSuchBoard`, `GameOver`, `ClaimRefused`.
    #[inline(never)]
    fn end(&mut self, board: BoardKey, ending: Ending) -> Reply
        ensures stands { Leads self.old.shown self.new.shown (Step.End board ending) result }
        ensures refused { is_accepted result ≡ false → self.new.shown ≡ self.old.shown }
        ensures room { self.new.room ≡ self.old.room }
    {
        match end(&mut self.boards, board, ending) {
            Err(refusal) => Reply::Refused(refusal),
            Ok(outcome) => Reply::Ended(outcome),
        }
    }

    /// Lets a spectator follow a board from a place of its log on, or from now on. Refused: `NoSuchBoard`, `FollowerExists`,
    /// `NotYet`, `TooFarBack`, `TooManyFollowers`, `OutOfMemory`.
    #[inline(never)]
    fn follow(&mut self, who: Spectator, board: BoardKey, from: Option<u16>) -> Reply
        ensures stands { Leads self.old.shown self.new.shown (Step.Follow who board from) result }
        ensures refused { is_accepted result ≡ false → self.new.shown ≡ self.old.shown }
    {
        let Some((index, _, live)) = self.boards.get_full(&board) else {
            return Reply::Refused(Refusal::NoSuchBoard);
        };
        let len = live.len();
        let joined = from.unwrap_or(len);
        let vacant = live.vacant_slot();
        let capacity = self.limits.capacity();
        // Whether the spectator follows already is looked up here only if the Follow is refused in any case, and else as it is seated.
        if let Err(refusal) = may_follow(false, len, joined, capacity, vacant.is_none()) {
            if self.followers.contains(who) {
                return Reply::Refused(Refusal::FollowerExists);
            }
            return Reply::Refused(refusal);
        }
        let Some(slot) = vacant else {
            unreachable!();
        };
        let seated = Seated {
            board: Followed::of(&board),
            index,
            slot,
            joined,
            taken: 0,
        };
        if let Err(refusal) = self.followers.insert(who, seated) {
            return Reply::Refused(refusal);
        }
        let Some(position) = live.position_at(joined) else {
            unreachable!();
        };
        join(&mut self.boards, index, slot, joined);
        Reply::Following { joined, position }
    }

    /// Takes the spectator's next move. Refused: `NoSuchFollower`.
    #[inline(never)]
    fn take(&mut self, who: Spectator) -> Reply
        ensures stands { Leads self.old.shown self.new.shown (Step.Take who) result }
        ensures refused { is_accepted result ≡ false → self.new.shown ≡ self.old.shown }
        ensures room { self.new.room ≡ self.old.room }
    {
        // Hence the places of a log fit in 16 bits.
        prove!(self.limits.plies() <= MOST_PLIES);
        let Some((index, seated)) = self.followers.find(who) else {
            return Reply::Refused(Refusal::NoSuchFollower);
        };
        let taken = take_for(&mut self.boards, seated);
        if let Taken::Move(_, _) = taken {
            self.followers.count_take(index);
        }
        Reply::Took(taken)
    }

    /// Ends a spectator's following. Refused: `NoSuchFollower`.
    #[inline(never)]
    fn leave(&mut self, who: Spectator) -> Reply
        ensures stands { Leads self.old.shown self.new.shown (Step.Leave who) result }
        ensures refused { is_accepted result ≡ false → self.new.shown ≡ self.old.shown }
        ensures room { self.new.room.boards ≡ self.old.room.boards }
        ensures followers_room { self.old.room.followers ≤ self.new.room.followers }
    {
        let Some(seated) = self.followers.remove(who) else {
            return Reply::Refused(Refusal::NoSuchFollower);
        };
        Reply::Left(leave_for(&mut self.boards, seated))
    }

    /// Makes one step, as `LiveRelay::step` promises. Only an Open is given the allocator.
    pub(crate) fn step(&mut self, alloc: Global, step: Step) -> Reply
        ensures stands { Leads self.old.shown self.new.shown step result }
        ensures exact { may_grow step ≡ false → (limits : LimitNumbers) (h : History) → Stands limits self.old.shown h
            → result ≡ reply_to limits h step }
        ensures refused { is_accepted result ≡ false → self.new.shown ≡ self.old.shown }
        ensures room { KeepsRoom step self.old.room self.new.room }
    {
        match step {
            Step::Open(board, start) => self.open(alloc, BoardKey::of(board), start),
            Step::Submit(board, m) => self.submit(BoardKey::of(board), m),
            Step::End(board, ending) => self.end(BoardKey::of(board), ending),
            Step::Follow(who, board, from) => self.follow(who, BoardKey::of(board), from),
            Step::Take(who) => self.take(who),
            Step::Leave(who) => self.leave(who),
        }
    }

    /// The board of that name, as `LiveRelay::into_board` promises.
    pub(crate) fn into_board(self, board: &BoardName) -> Option<Board>
        ensures game { option_map (λ b. game_of b.knows) result ≡ lookup (same_name board.now) self.shown.boards }
        ensures setup { IfSome result (λ b. b.knows.setup ≡ setup_of b.knows.setup.start self.shown.limits) }
        ensures slots { IfSome result (λ b. SlotsLeft self.shown board.now b) }
    {
        let Holdings {
            limits: _,
            mut boards,
            followers: _,
        } = self;
        boards.swap_remove(&BoardKey::of(*board))
    }
}
