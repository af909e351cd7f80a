//! The tape of a board: the bytes that all its spectators are sent after their greetings.

ghost use Rattle.std.specs.Prelude.{◌≡◌, ◌+◌, ◌<◌, ◌≤◌, [], ◌∷◌, ◌++◌, length, drop, take, None, is_some, OnOk, OnErr, IfOk, vec_len, vec_capacity};
ghost use Rattle.relay_watching.specs.Between.{is_closed, is_end};
ghost use Rattle.relay_watching.specs.Course.{HasSomeMore, opened, with_move, with_moves, with_outcome};
ghost use Rattle.relay_watching.specs.Progress.{GoesOn, WasSent, newcomer};
ghost use Rattle.relay_watching.specs.Taped.{offset, tape_bytes};

use crate::frames;
use crate::spectator_connection::SpectatorConnection;
use c960_board::{Move, Position};
use c960_game::Outcome;
use std::alloc::{AllocError, Global};
use std::marker::Model;

/// The frames of a board's moves, of its end and of the close, made once for all its spectators (RFC 6455, section 5.2). To a contract it
/// is what it was told of the board.
#[derive(Drop)]
pub struct Tape {
    alloc: Global,
    moves: Vec<Move>,
    outcome: Option<Outcome>,
    bytes: Vec<u8>,
    /// The number of bytes after which each frame ends.
    ends: Vec<usize>,
}

impl Model for Tape {
    ghost use Rattle.relay_watching.specs.Course.{Course};

    ghost Value = { Course };

    ghost use Rattle.relay_watching.specs.Inner.TapeFields.{IsKept, course_of};

    ghost view = { course_of };

    ghost invariant = { IsKept };
}

impl Tape {
    /// The tape of a board on which no move has been made yet.
    pub fn new(alloc: Global) -> Tape
        ensures { result ≡ opened }
    {
        Tape {
            alloc,
            moves: Vec::new(alloc),
            outcome: None,
            bytes: Vec::new(alloc),
            ends: Vec::new(alloc),
        }
    }

    /// How many moves were made.
    pub fn len(&self) -> usize
        ensures { result ≡ length self.now.moves }
    {
        self.moves.len()
    }

    /// Whether the game is over.
    pub fn is_over(&self) -> bool
        ensures { result ≡ is_some self.now.outcome }
    {
        self.outcome.is_some()
    }

    /// A move was made. Its place is the one that `len` returns.
    ///
    /// # Errors
    ///
    /// There was no memory. Then nothing has changed.
    pub fn push(&mut self, m: Move) -> Result<(), AllocError>
        requires going { self.old.outcome ≡ None }
        requires numbered { length self.old.moves < 65536 }
        ensures moved { OnOk result (self.new ≡ with_move self.old m) }
        ensures unchanged { OnErr result (self.new ≡ self.old) }
        ensures goes_on { GoesOn self.old self.new }
    {
        let frame = frames::moved(self.alloc, self.moves.len() as u16, m)?;
        self.moves.reserve(1)?;
        self.ends.reserve(1)?;
        self.bytes.reserve(frame.len())?;
        append(&mut self.bytes, &mut self.ends, frame.as_slice());
        self.moves.push_reserved(m);
        Ok(())
    }

    /// These moves were made, in order.
    ///
    /// # Errors
    ///
    /// There was no memory. Then some of them were added, from the first on, and `len` says how many.
    pub fn push_all(&mut self, moves: &[Move]) -> Result<(), AllocError>
        requires going { self.old.outcome ≡ None }
        requires numbered { length self.old.moves + length moves.now ≤ 65536 }
        ensures moved { OnOk result (self.new ≡ with_moves self.old moves.now) }
        ensures some { OnErr result (HasSomeMore self.old moves.now self.new) }
        ensures goes_on { GoesOn self.old self.new }
    {
        for m in moves {
            self.push(*m)?;
        }
        Ok(())
    }

    /// The game is over with this outcome. The close follows at once.
    ///
    /// # Errors
    ///
    /// There was no memory. Then nothing has changed.
    pub fn finish(&mut self, outcome: Outcome) -> Result<(), AllocError>
        requires { self.old.outcome ≡ None }
        ensures finished { OnOk result (self.new ≡ with_outcome self.old outcome) }
        ensures unchanged { OnErr result (self.new ≡ self.old) }
        ensures goes_on { GoesOn self.old self.new }
    {
        let over = frames::over(self.alloc, outcome)?;
        let close = frames::done(self.alloc)?;
        self.ends.reserve(2)?;
        self.bytes.reserve(over.len() + close.len())?;
        append(&mut self.bytes, &mut self.ends, over.as_slice());
        append(&mut self.bytes, &mut self.ends, close.as_slice());
        self.outcome = Some(outcome);
        Ok(())
    }

    /// Where the frame of a place begins.
    fn offset(&self, place: usize) -> usize
        requires { place ≤ length self.now.moves }
        ensures { result ≡ offset self.now place }
    {
        if place == 0 { 0 } else { self.ends[place - 1] }
    }

    /// How many bytes there are.
    pub(crate) fn end(&self) -> usize
        ensures { result ≡ length (tape_bytes self.now) }
    {
        self.bytes.len()
    }

    /// The bytes after the first `at`.
    pub(crate) fn behind(&self, at: usize) -> &[u8]
        ensures { result.now ≡ drop at (tape_bytes self.now) }
    {
        if at <= self.bytes.len() {
            &self.bytes[at..]
        } else {
            &[]
        }
    }

    /// Of the bytes after the first `at`, those up to the next end of a frame.
    pub(crate) fn frame_behind(&self, at: usize) -> &[u8]
        ensures part { result.now ≡ take (length result.now) (drop at (tape_bytes self.now)) }
        ensures all { result.now ≡ [] → drop at (tape_bytes self.now) ≡ [] }
    {
        let rest = self.behind(at);
        let next = self.ends.partition_point(|end| *end <= at);
        let length = match self.ends.get(next) {
            Some(end) => end.saturating_sub(at).min(rest.len()),
            None => 0,
        };
        if length == 0 { rest } else { &rest[..length] }
    }

    /// Whether a frame ends after `at` bytes, or the first one begins there. The last end is looked at before the others are searched,
    /// since most spectators were written all that there is.
    pub(crate) fn is_end(&self, at: usize) -> bool
        ensures { result ≡ is_end self.now at }
    {
        let end = self.end();
        if at == end {
            return true;
        }
        at == 0 || self.ends.binary_search(&at).is_ok()
    }

    /// Whether the close lies within the first `at` bytes.
    pub(crate) fn is_closed(&self, at: usize) -> bool
        ensures { result ≡ is_closed self.now at }
    {
        self.is_over() && self.end() <= at
    }

    /// A spectator joins at a place of the log, from 0 to its length, and is greeted with the position at that place.
    ///
    /// # Errors
    ///
    /// There was no memory.
    pub fn join(&self, place: u16, position: &Position) -> Result<SpectatorConnection, AllocError>
        requires { place ≤ length self.now.moves }
        ensures newcomer { IfOk result (λ w. w ≡ newcomer self.now (record { place = place; position = position.now })) }
        ensures sent { IfOk result (WasSent self.now (record { place = place; position = position.now }) []) }
    {
        let greeting = frames::following(self.alloc, place, position)?;
        Ok(SpectatorConnection::new(self.alloc, greeting, self.offset(usize::from(place))))
    }
}

/// Appends another frame to the others. There is room for it, so that nothing can fail.
fn append(bytes: &mut Vec<u8>, ends: &mut Vec<usize>, frame: &[u8])
    requires room { vec_len bytes.old + length frame.now ≤ vec_capacity bytes.old }
    requires end_room { vec_len ends.old < vec_capacity ends.old }
    ensures bytes { bytes.new.items ≡ bytes.old.items ++ frame.now }
    ensures ends { ends.new.items ≡ ends.old.items ++ length (bytes.old.items ++ frame.now) ∷ [] }
    ensures len { vec_len bytes.new ≡ vec_len bytes.old + length frame.now }
    ensures end_len { vec_len ends.new ≡ vec_len ends.old + 1 }
    ensures capacity { vec_capacity bytes.old ≤ vec_capacity bytes.new }
    ensures end_capacity { vec_capacity ends.new ≡ vec_capacity ends.old }
{
    let Ok(()) = bytes.extend_from_slice(frame) else {
        unreachable!();
    };
    ends.push_reserved(bytes.len());
}
