//! One follower of a board: where it joined, how many moves it took, where it was closed, and the moves that wait for it.

ghost use Rattle.std.specs.Prelude.{◌≡◌, ◌+◌, ◌-◌, ◌≤◌, ◌<◌, ◌^◌, [], length, drop, IfOk};
ghost use Rattle.std.specs.Map.{lookup};
ghost use Rattle.relay_core.specs.BoardAnswers.{outcome_at};
ghost use Rattle.relay_core.specs.Held.Followers.{HasPlaces, account_of, joining, offered, popped};
ghost use Rattle.relay_core.specs.Inner.Tag.{tag_of};
ghost use Rattle.relay_core.specs.Name.{same_name};
ghost use Rattle.relay_core.specs.Replies.{taken_of};

use crate::boards::Boards;
use crate::name::BoardName;
use crate::reply::{Account, Taken};
use crate::tagged::TaggedName;
use crate::take::without_move;
use c960_board::Move;
use c960_game::Game;
use circular_buffer::HeapCircularBuffer;
use std::alloc::{AllocError, Global};
use std::marker::Model;

/// A follower. Contracts see a `HeldFollower`.
#[derive(Drop)]
pub(crate) struct QueueFollower {
    board: TaggedName,
    joined: u16,
    taken: u16,
    cut: Option<u16>,
    queue: HeapCircularBuffer<Move>,
}

impl Model for QueueFollower {
    ghost use Rattle.relay_core.specs.Held.{HeldFollower};

    ghost Value = { HeldFollower };

    ghost view = { λ f. record {
      board = f.board;
      joined = f.joined;
      taken = f.taken;
      cut = f.cut;
      queue = f.queue.items;
      capacity = f.queue.capacity;
    } };
}

/// Copies the moves of a game, from a place on, into an empty queue that has room for them.
fn fill(queue: &mut HeapCircularBuffer<Move>, game: &Game, place: u16)
    requires empty { queue.old.items ≡ [] }
    requires room { length game.now.log - place ≤ queue.old.capacity }
    ensures items { queue.new.items ≡ drop place game.now.log }
    ensures capacity { queue.new.capacity ≡ queue.old.capacity }
{
    for at in place..game.len() {
        let Some(m) = game.move_at(at) else {
            unreachable!();
        };
        queue.try_push_back(m).unwrap();
    }
}

impl QueueFollower {
    /// A follower that joins at a place of a game's log. Its whole queue is reserved and holds the moves from there on.
    pub(crate) fn new(
        alloc: Global,
        board: BoardName,
        place: u16,
        game: &Game,
        capacity: u16,
    ) -> Result<QueueFollower, AllocError>
        requires { length game.now.log - place ≤ capacity }
        ensures { IfOk result (λ follower. follower ≡ joining board place game.now.log capacity) }
    {
        let mut queue = HeapCircularBuffer::with_capacity(alloc, usize::from(capacity))?;
        fill(&mut queue, game, place);
        Ok(QueueFollower {
            board: TaggedName::new(board),
            joined: place,
            taken: 0,
            cut: None,
            queue,
        })
    }

    /// The board followed.
    pub(crate) fn board(&self) -> BoardName
        ensures { result ≡ self.now.board }
    {
        self.board.name()
    }

    /// The tag of the board followed.
    pub(crate) fn tag(&self) -> u32
        ensures { result ≡ tag_of self.now.board }
    {
        self.board.tag()
    }

    /// Whether it follows this board.
    #[inline(always)]
    pub(crate) fn follows(&self, board: &TaggedName) -> bool
        ensures { result ≡ same_name board.now self.now.board }
    {
        board.is_same(&self.board)
    }

    /// Queues a move made on its board at a place, or closes the follower if its queue is full.
    #[inline(always)]
    pub(crate) fn offer(&mut self, board: &TaggedName, place: u16, m: Move)
        ensures { self.new ≡ offered board.now place m self.old }
    {
        if !self.follows(board) || self.cut.is_some() {
            return;
        }
        if self.queue.len() == self.queue.capacity() {
            self.cut = Some(place);
        } else {
            self.queue.try_push_back(m).unwrap();
        }
    }

    /// Takes the first move that waits, or tells why none does. Only then its board is looked for among these boards.
    pub(crate) fn take(&mut self, boards: &Boards) -> Taken
        requires { HasPlaces self.old }
        ensures answer { result ≡ taken_of (self.old.joined + self.old.taken) (outcome_at (lookup (same_name self.old.board) boards.now.entries))
            self.old.cut self.old.queue }
        ensures after { self.new ≡ popped self.old }
    {
        let outcome = if self.queue.is_empty() {
            boards.outcome_of(self.board.name())
        } else {
            None
        };
        let next = self.joined + self.taken;
        let end = next + self.queue.len() as u16;
        let closing = self.cut.map(u64::from);
        if let Some(answer) = without_move(closing, u64::from(next), u64::from(end), outcome) {
            return answer;
        }
        let Some(m) = self.queue.pop_front() else {
            unreachable!();
        };
        self.taken += 1;
        Taken::Move(next, m)
    }

    /// What it has had, given that its board's log has this length.
    pub(crate) fn account(&self, present: u16) -> Account
        ensures { result ≡ account_of present self.now }
    {
        Account {
            joined: self.joined,
            taken: self.taken,
            limit: self.cut.unwrap_or(present),
            cut: self.cut.is_some(),
        }
    }
}
