//! A spectator of a tape: what is due to it, and what was written to it.

ghost use Rattle.std.specs.Prelude.{◌≡◌, ◌≤◌, ℕ, List, [], ◌++◌, length, take, is_some, true};
ghost use Rattle.relay_watching.specs.Between.{IsWhole, is_between};
ghost use Rattle.relay_watching.specs.Progress.{WasSent, after_write, due, offered};
ghost use Rattle.relay_watching.specs.Promised.{Joining};

use crate::tape::Tape;
use std::alloc::Global;
use std::marker::Model;

/// How far a spectator was sent what it is promised. Each call is passed the tape that the spectator joined.
#[derive(Drop)]
pub struct SpectatorConnection {
    alloc: Global,
    /// The frame of the greeting, or nothing once it is written.
    greeting: Vec<u8>,
    /// How many bytes of the greeting are written.
    greeted: usize,
    /// How many bytes of the tape are written, or lie before the place where the spectator joined.
    at: usize,
}

impl Model for SpectatorConnection {
    ghost use Rattle.relay_watching.specs.Progress.{Progress};

    ghost Value = { Progress };

    ghost use Rattle.std.specs.Prelude.{drop};

    ghost view = { λ w. record { left = drop w.greeted w.greeting.items; at = w.at } };
}

impl SpectatorConnection {
    /// A spectator to which this greeting has yet to be written, and then the tape from there on.
    pub(crate) fn new(alloc: Global, greeting: Vec<u8>, at: usize) -> SpectatorConnection
        ensures { result ≡ record { left = greeting.items; at = at } }
    {
        SpectatorConnection {
            alloc,
            greeting,
            greeted: 0,
            at,
        }
    }

    /// What is left of the greeting.
    fn left(&self) -> &[u8]
        ensures { result.now ≡ self.now.left }
    {
        if self.greeted <= self.greeting.len() {
            &self.greeting[self.greeted..]
        } else {
            &[]
        }
    }

    /// What is left of the greeting, or else of the tape.
    fn offered<'a>(&'a self, tape: &'a Tape) -> &'a [u8]
        ensures { result.now ≡ offered tape.now self.now }
    {
        let left = self.left();
        if left.is_empty() {
            tape.behind(self.at)
        } else {
            left
        }
    }

    /// The bytes that are to be written next. They are all that is due, or the greeting's, which are stored apart from the tape's. There
    /// are none only if nothing is due.
    #[tactic(auto, using(crate::proofs::Progresses::due_none))]
    pub fn due<'a>(&'a self, tape: &'a Tape) -> &'a [u8]
        ensures offered { result.now ≡ offered tape.now self.now }
        ensures all { result.now ≡ [] → due tape.now self.now ≡ [] }
    {
        self.offered(tape)
    }

    /// Of the bytes that are to be written next, those of one frame: of the one that is partly written, or else of the next.
    #[tactic(auto, using(crate::proofs::Progresses::due_none))]
    pub fn due_of_frame<'a>(&'a self, tape: &'a Tape) -> &'a [u8]
        ensures part { result.now ≡ take (length result.now) (offered tape.now self.now) }
        ensures all { result.now ≡ [] → due tape.now self.now ≡ [] }
    {
        let left = self.left();
        if left.is_empty() {
            tape.frame_behind(self.at)
        } else {
            left
        }
    }

    /// Counts `n` of the bytes offered as written.
    fn advance(&mut self, tape: &Tape, n: usize)
        requires { n ≤ length (offered tape.now self.old) }
        ensures { self.new ≡ after_write self.old n }
    {
        if self.left().is_empty() {
            // Hence the sum is no more than the tape has.
            prove!(n == 0 || self.at <= tape.end());
            self.at += n;
        } else {
            self.greeted += n;
            if self.greeted == self.greeting.len() {
                self.greeting = Vec::new(self.alloc);
                self.greeted = 0;
            }
        }
    }

    /// The first `n` of the bytes that `due` returns were written.
    pub fn wrote(&mut self, tape: &Tape, n: usize)
        requires { n ≤ length (offered tape.now self.old) }
        ensures written { self.new ≡ after_write self.old n }
        ensures sent { (j : Joining) (written : List ℕ) → WasSent tape.now j written self.old
            → WasSent tape.now j (written ++ take n (offered tape.now self.old)) self.new }
    {
        self.advance(tape, n);
    }

    /// Whether everything that the spectator will ever be due is written, including the close.
    pub fn is_done(&self, tape: &Tape) -> bool
        ensures over { result ≡ true → is_some tape.now.outcome ≡ true }
        ensures written { result ≡ true → due tape.now self.now ≡ [] }
        ensures exact { is_some tape.now.outcome ≡ true → offered tape.now self.now ≡ [] → result ≡ true }
    {
        tape.is_over() && self.offered(tape).is_empty()
    }

    /// Whether another frame, such as a pong, may be written: the greeting is written, no frame of the tape is partly written, and the
    /// close is not written (RFC 6455, sections 5.4 and 5.5.1).
    #[tactic(auto, using(crate::proofs::Boundaries::whole_between), unfolding(crate::specs::Between::is_between))]
    pub fn is_between_frames(&self, tape: &Tape) -> bool
        ensures between { result ≡ is_between tape.now self.now }
        ensures whole { result ≡ true → (j : Joining) (written : List ℕ) → WasSent tape.now j written self.now → IsWhole tape.now j written }
    {
        self.left().is_empty() && tape.is_end(self.at) && !tape.is_closed(self.at)
    }
}
