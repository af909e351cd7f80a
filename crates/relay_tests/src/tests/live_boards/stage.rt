//! A live board with its followers on one thread.

use crate::tests::deeds::opened;
use c960_board::Move;
use c960_game::{Ending, Limits, Outcome, Refusal};
use live_board::{Board, Follower};
use relay_core::{Account, Taken};
use std::alloc::Global;
use std::process::Abort;

/// What is asked of a board, or of one of its followers.
#[derive(Clone, Copy)]
pub enum Ask {
    Submit(Move),
    End(Ending),
    /// Follows from a place, or from the log's present length.
    Follow(usize, Option<u16>),
    Take(usize),
    Leave(usize),
    /// Goes without leaving.
    Drop(usize),
    /// The word of this number in the board's table.
    Word(u64),
}

/// The answer to it.
#[derive(Clone, Copy, PartialEq)]
pub enum Answer {
    Played(u16, Option<Outcome>),
    Ended(Outcome),
    /// Joined at this place, and has taken this many moves.
    Following(u16, u16),
    Took(Taken),
    Left(Account),
    Dropped,
    Word(Option<u64>),
    Refused(Refusal),
    /// That follower does not exist, or exists already.
    Amiss,
}

/// Room for this many followers.
fn vacant(rt: &impl Abort, alloc: Global, room: usize) -> Vec<Option<Follower>> {
    let mut followers = Vec::new(alloc);
    for _ in 0..room {
        followers.push(None).expect(rt, "memory");
    }
    followers
}

/// A board and its followers.
#[derive(Drop)]
pub struct Stage {
    pub board: Board,
    followers: Vec<Option<Follower>>,
}

impl Stage {
    /// A new board of start 518, with room for this many followers on the stage.
    pub fn open(rt: &impl Abort, alloc: Global, limits: Limits, room: usize) -> Stage {
        Stage {
            board: opened(rt, alloc, 518, limits),
            followers: vacant(rt, alloc, room),
        }
    }

    /// Asks, and returns the answer.
    pub fn ask(&mut self, asked: Ask) -> Answer {
        match asked {
            Ask::Submit(m) => match self.board.submit(m) {
                Ok((place, outcome)) => Answer::Played(place, outcome),
                Err(refusal) => Answer::Refused(refusal),
            },
            Ask::End(ending) => match self.board.end(ending) {
                Ok(outcome) => Answer::Ended(outcome),
                Err(refusal) => Answer::Refused(refusal),
            },
            Ask::Follow(who, from) => self.follow(who, from),
            Ask::Take(who) => self.take(who),
            Ask::Leave(who) => self.leave(who),
            Ask::Drop(who) => self.drop_follower(who),
            Ask::Word(place) => Answer::Word(self.board.word(place)),
        }
    }

    fn follow(&mut self, who: usize, from: Option<u16>) -> Answer {
        if who >= self.followers.len() || self.followers[who].is_some() {
            return Answer::Amiss;
        }
        match self.board.follow(from) {
            Ok(follower) => {
                let answer = Answer::Following(follower.joined(), follower.taken());
                drop(self.followers[who].replace(follower));
                answer
            }
            Err(refusal) => Answer::Refused(refusal),
        }
    }

    fn take(&mut self, who: usize) -> Answer {
        if who >= self.followers.len() {
            return Answer::Amiss;
        }
        match &mut self.followers[who] {
            Some(follower) => Answer::Took(follower.take()),
            None => Answer::Amiss,
        }
    }

    fn leave(&mut self, who: usize) -> Answer {
        if who >= self.followers.len() {
            return Answer::Amiss;
        }
        match self.followers[who].take() {
            Some(follower) => {
                let (account, _) = follower.leave();
                Answer::Left(account)
            }
            None => Answer::Amiss,
        }
    }

    fn drop_follower(&mut self, who: usize) -> Answer {
        if who >= self.followers.len() || self.followers[who].is_none() {
            return Answer::Amiss;
        }
        drop(self.followers[who].take());
        Answer::Dropped
    }
}
