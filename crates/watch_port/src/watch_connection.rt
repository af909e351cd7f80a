//! A spectator that came to the port, without reading and writing: what is to be written next, and what was.

ghost use Rattle.std.specs.Prelude.{◌≡◌, ◌≤◌, ℕ, List, [], ◌++◌, length, take, None, Some, IfSome, IfNone, true, false};
ghost use Rattle.relay_watching.specs.Progress.{WasSent, after_write, offered};
ghost use Rattle.relay_watching.specs.Promised.{Joining};
ghost use Rattle.watch_port.specs.Connections.{HasWrittenOutput, HasWrittenTape, has_no_output, is_next, is_tapes_turn, is_within, output_left, watched};

use relay_frames::{Code, Peer, outgoing};
use relay_watching::{SpectatorConnection, Tape};
use std::alloc::{AllocError, Global};

/// What a connection does.
#[derive(Drop)]
pub(crate) enum Doing {
    /// It sends its request. These bytes of it have come.
    Comes(Vec<u8>),
    /// It has shaken hands, and has asked for nothing yet.
    Asks,
    /// It watches a board.
    Watches(Watching),
    /// It watches all boards. It was sent the changes up to this number.
    WatchesAll(u64),
}

/// What a connection watches, and how far it was sent.
#[derive(Drop)]
pub(crate) struct Watching {
    /// The key of the audience that it is in.
    pub(crate) audience: usize,
    spectator: SpectatorConnection,
    /// Whether anything of it was written.
    has_begun: bool,
}

impl Watching {
    /// Whether a frame of it is written in part, or its end is written.
    fn is_within(&self, tape: &Tape) -> bool
        ensures { result ≡ is_within tape.now self.now }
    {
        self.has_begun && !self.spectator.is_between_frames(tape)
    }

    /// The first `n` of the bytes offered of it were written.
    fn wrote(&mut self, tape: &Tape, n: usize)
        requires { n ≤ length (offered tape.now self.old.spectator) }
        ensures written { self.new.spectator ≡ after_write self.old.spectator n }
        ensures sent { (j : Joining) (written : List ℕ) → WasSent tape.now j written self.old.spectator
            → WasSent tape.now j (written ++ take n (offered tape.now self.old.spectator)) self.new.spectator }
        ensures begun { self.new.has_begun ≡ true }
        ensures audience { self.new.audience ≡ self.old.audience }
    {
        self.spectator.wrote(tape, n);
        self.has_begun = true;
    }
}

/// A connection. Its output is whole frames, and is written before what it watches, between two frames of that.
#[derive(Drop)]
pub(crate) struct WatchConnection {
    alloc: Global,
    /// What it says, once it has shaken hands.
    pub(crate) peer: Peer,
    pub(crate) doing: Doing,
    /// Whole frames, to which others may be added.
    pub(crate) output: Vec<u8>,
    /// How many bytes of the output are written.
    written: usize,
    /// Whether nothing more is written after the output, whose last frame is a close, or which ends the handshake.
    pub(crate) is_leaving: bool,
}

impl WatchConnection {
    /// A connection from which nothing has come yet.
    pub(crate) fn new(alloc: Global) -> WatchConnection {
        WatchConnection {
            alloc,
            peer: Peer::new(alloc),
            doing: Doing::Comes(Vec::new(alloc)),
            output: Vec::new(alloc),
            written: 0,
            is_leaving: false,
        }
    }

    /// It watches a board from now on.
    pub(crate) fn watch(&mut self, audience: usize, spectator: SpectatorConnection) {
        self.doing = Doing::Watches(Watching {
            audience,
            spectator,
            has_begun: false,
        });
    }

    /// Whether nothing has been written yet of what it watches. That comes before the answers to what it said later.
    pub(crate) fn is_owed_first(&self) -> bool {
        match &self.doing {
            Doing::Watches(watching) => !watching.has_begun,
            Doing::WatchesAll(told) => *told == 0,
            Doing::Comes(_) | Doing::Asks => false,
        }
    }

    /// Puts a close with this code behind its output, after which it leaves.
    pub(crate) fn close(&mut self, code: Code) -> Result<(), AllocError> {
        outgoing::close(Some(code), &mut self.output)?;
        self.is_leaving = true;
        Ok(())
    }

    /// Whether there is no output, now or later.
    pub(crate) fn has_no_output(&self) -> bool
        ensures { result ≡ has_no_output self.now }
    {
        self.output.is_empty() && !self.is_leaving
    }

    /// Whether it watches the board of this tape, and that comes next, and not output.
    fn is_next(&self, tape: &Tape) -> bool
        ensures { result ≡ is_next tape.now self.now }
    {
        match &self.doing {
            Doing::Watches(watching) => {
                self.written == 0 && (watching.is_within(tape) || self.has_no_output())
            }
            _ => false,
        }
    }

    /// The bytes that are to be written next. There are none only if nothing is due. The tape is that of the board that it watches: if a
    /// frame of it is begun, they are of the tape, at most up to the end of that frame if there is output. Otherwise they are the output.
    pub(crate) fn offered<'a>(&'a self, tape: Option<&'a Tape>) -> &'a [u8]
        ensures tape { IfSome tape.entry (λ t. (w : Watching) → watched self.now.doing ≡ Some w → is_tapes_turn t.now self.now w ≡ true
            → result.now ≡ take (length result.now) (offered t.now w.spectator)) }
        ensures output { IfSome tape.entry (λ t. is_next t.now self.now ≡ false → result.now ≡ output_left self.now) }
        ensures alone { IfNone tape.entry (result.now ≡ output_left self.now) }
    {
        match (&self.doing, tape) {
            (Doing::Watches(watching), Some(tape)) if self.is_next(tape) => {
                if self.has_no_output() {
                    watching.spectator.due(tape)
                } else {
                    watching.spectator.due_of_frame(tape)
                }
            }
            _ => self.output.get(self.written..).unwrap_or(&[]),
        }
    }

    /// The bytes that are to be written after those offered, once all of these are written: what it watches, after its output, if it stays.
    pub(crate) fn offered_behind<'a>(&'a self, tape: Option<&'a Tape>) -> &'a [u8]
        ensures part { IfSome tape.entry (λ t. (w : Watching) → watched self.now.doing ≡ Some w
            → result.now ≡ take (length result.now) (offered t.now w.spectator)) }
        ensures alone { IfSome tape.entry (λ t. is_next t.now self.now ≡ true → result.now ≡ []) }
        ensures behind { IfSome tape.entry (λ t. (next : WatchConnection) → HasWrittenOutput (length (output_left self.now)) self.now next
            → is_next t.now next ≡ false → result.now ≡ []) }
        ensures none { IfNone tape.entry (result.now ≡ []) }
    {
        match (&self.doing, tape) {
            (Doing::Watches(watching), Some(tape)) if !self.is_leaving && !self.is_next(tape) => {
                watching.spectator.due(tape)
            }
            _ => &[],
        }
    }

    /// The first `n` of the bytes offered were written. Any beyond those offered are not counted.
    pub(crate) fn wrote(&mut self, tape: Option<&Tape>, n: usize)
        ensures tape { IfSome tape.entry (λ t. (w : Watching) → watched self.old.doing ≡ Some w → is_tapes_turn t.now self.old w ≡ true
            → n ≤ length (offered t.now w.spectator) → HasWrittenTape w n self.old self.new) }
        ensures output { IfSome tape.entry (λ t. is_next t.now self.old ≡ false → n ≤ length (output_left self.old) → HasWrittenOutput n self.old self.new) }
        ensures alone { IfNone tape.entry (n ≤ length (output_left self.old) → HasWrittenOutput n self.old self.new) }
    {
        match tape {
            Some(tape) if self.is_next(tape) => self.wrote_tape(tape, n),
            _ => self.wrote_output(n),
        }
    }

    /// The first `n` of the bytes offered of what it watches were written.
    fn wrote_tape(&mut self, tape: &Tape, n: usize)
        ensures { (w : Watching) → watched self.old.doing ≡ Some w → n ≤ length (offered tape.now w.spectator) → HasWrittenTape w n self.old self.new }
    {
        if let Doing::Watches(watching) = &mut self.doing {
            if n <= watching.spectator.due(tape).len() {
                watching.wrote(tape, n);
            }
        }
    }

    /// The first `n` bytes of what is left of the output were written.
    fn wrote_output(&mut self, n: usize)
        ensures { n ≤ length (output_left self.old) → HasWrittenOutput n self.old self.new }
    {
        self.written = self.written.saturating_add(n);
        if self.written >= self.output.len() {
            self.output = Vec::new(self.alloc);
            self.written = 0;
        }
    }

    /// Whether everything that it will ever be sent is written.
    pub(crate) fn is_done(&self, tape: Option<&Tape>) -> bool {
        match (&self.doing, tape) {
            (Doing::Watches(watching), Some(tape)) if watching.spectator.is_done(tape) => true,
            _ => self.is_leaving && self.output.is_empty(),
        }
    }
}
