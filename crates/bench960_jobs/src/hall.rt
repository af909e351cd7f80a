//! A live board behind the traits of connections and of pushing, without sockets and threads.

ghost use Rattle.std.specs.Prelude.{◌≡◌};

use c960_game::{Limits, Refusal};
use live_board::{Board, Follower};
use relay_core::{BoardName, Reply, Step, Taken};
use relay_frames::outgoing;
use relay_pushing::{Keeper, Outlet, SendFault, Source};
use std::alloc::Global;

/// A hall with at most one board.
#[derive(Drop)]
pub struct Hall {
    pub alloc: Global,
    pub limits: Limits,
    pub board: Option<Board>,
}

impl Hall {
    /// Makes a step on the board.
    fn make(&mut self, step: &Step) -> Reply {
        match *step {
            Step::Open(_, start) => match Board::open(self.alloc, start, self.limits) {
                Ok(board) => {
                    self.board = Some(board);
                    Reply::Opened
                }
                Err(refusal) => Reply::Refused(refusal),
            },
            Step::Submit(_, m) => match &mut self.board {
                Some(board) => match board.submit(m) {
                    Ok((place, outcome)) => Reply::Played { place, outcome },
                    Err(refusal) => Reply::Refused(refusal),
                },
                None => Reply::Refused(Refusal::NoSuchBoard),
            },
            Step::End(_, ending) => match &mut self.board {
                Some(board) => match board.end(ending) {
                    Ok(outcome) => Reply::Ended(outcome),
                    Err(refusal) => Reply::Refused(refusal),
                },
                None => Reply::Refused(Refusal::NoSuchBoard),
            },
            Step::Follow(_, _, _) | Step::Take(_) | Step::Leave(_) => {
                Reply::Refused(Refusal::WrongMode)
            }
        }
    }
}

impl Keeper for Hall {
    // A benchmark asks for no more than that it returns.
    ghost tells = { λ _ _ _. Unit {0} };

    ghost makes = { λ _ _ _ _. Unit {0} };

    fn knows(&self, _board: &BoardName) -> bool {
        self.board.is_some()
    }

    fn owns(&self, _board: &BoardName) -> bool {
        false
    }

    fn owns_any(&self) -> bool {
        false
    }

    fn step(&mut self, step: Step) -> Reply {
        self.make(&step)
    }
}

/// A follower as a source.
#[derive(Drop)]
pub struct Seat {
    pub follower: Follower,
}

impl Source for Seat {
    ghost gives = { λ _ _ _. Unit {0} };

    fn take(&mut self) -> Taken {
        self.follower.take()
    }
}

/// The bytes that a connection is sent.
#[derive(Drop)]
pub struct Wire {
    pub bytes: Vec<u8>,
}

impl Outlet for Wire {
    ghost failures = { λ _. 0 };

    fn send(&mut self, text: &str) -> Result<(), SendFault> {
        match outgoing::text(text, &mut self.bytes) {
            Ok(()) => Ok(()),
            Err(_) => Err(SendFault::OutOfMemory),
        }
    }

    fn close(&mut self, _code: u16) -> Result<(), SendFault> {
        Ok(())
    }
}
