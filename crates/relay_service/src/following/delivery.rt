//! What is delivered to a connection of the board that it follows.

ghost use Rattle.std.specs.Prelude.{◌≡◌, ◌++◌, [], cond, IfOk, None, OnErr, OnOk, Some};
ghost use Rattle.relay_frames.specs.Events.{number_of};
ghost use Rattle.live_board.specs.Views.{next_of};
ghost use Rattle.relay_service.specs.Following.Calls.{closes, is_full, left as left_as, puts, wrote};
ghost use Rattle.relay_service.specs.Following.Pieces.{a_close, a_ping, a_pong, an_end, frames_in};
ghost use Rattle.relay_service.specs.Following.Pushing.{PutAs};
ghost use Rattle.relay_service.specs.Following.Record.{follows};
ghost use Rattle.relay_service.specs.declared.following.stage.Stage.TheVariants.{Follows, Left};

mod pushing;

use crate::bytes::{Bytes, first_of};
use crate::following::new_piece::NewPiece;
use crate::following::pieces::Pieces;
use crate::following::stage::Stage;
use crate::following::standing::Standing;
use relay_core::{BoardName, Taken};
use relay_frames::{Code, Output};
use relay_hall::Handed;
use relay_pushing::LastText;
use std::alloc::AllocError;
use std::marker::Model;
use std::snapshot::Snapshot;

/// What is delivered to a connection of the board that it follows. Contracts see a `DeliveryRecord`.
#[derive(Drop)]
pub(crate) struct Delivery {
    /// The name of its board.
    board: BoardName,
    standing: Standing,
    /// What was still due when it began to follow.
    opening: Bytes,
    /// All that was sent.
    sent: Bytes,
    output: Output,
    /// All pieces that were put.
    pieces: Pieces,
}

impl Model for Delivery {
    ghost use Rattle.relay_service.specs.Following.Record.{DeliveryRecord};

    ghost Value = { DeliveryRecord };

    ghost use Rattle.relay_service.specs.Following.DeliveryInner.{delivery_of};

    ghost view = { delivery_of };
}

impl Delivery {
    /// Nothing of what was handed out is delivered yet; these bytes are due first.
    pub(crate) fn new(handed: Handed, opening: Vec<u8>) -> Delivery
        ensures { result ≡ record { board = handed.board; follower = handed.follower; stage = Follows; opening = opening.items; sent = []; due = opening.items; pieces = [] } }
    {
        Delivery {
            board: handed.board,
            standing: Standing::new(handed.follower),
            opening: Bytes::of(opening.as_slice()),
            sent: Bytes::new(),
            output: Output::of(opening),
            pieces: Pieces::new(),
        }
    }

    // ---- What it is.

    /// The name of its board.
    pub(crate) fn board(&self) -> BoardName
        ensures { result ≡ self.now.board }
    {
        self.board
    }

    /// How far it has come.
    pub(crate) fn stage(&self) -> Stage
        ensures { result ≡ self.now.stage }
    {
        self.standing.stage()
    }

    /// Whether it still follows.
    pub(crate) fn follows(&self) -> bool
        ensures { result ≡ follows self.now.stage }
    {
        self.standing.follows()
    }

    /// The place of the move that it takes next, while it follows.
    pub(crate) fn next(&self) -> Option<u64>
        ensures { result ≡ cond (follows self.now.stage) (Some (next_of self.now.follower.part)) None }
    {
        self.standing.next()
    }

    /// What is due.
    pub(crate) fn due(&self) -> &[u8]
        ensures { result.now ≡ self.now.due }
    {
        self.output.as_slice()
    }

    /// Whether so much is due that its peer is not heard.
    pub(crate) fn is_full(&self) -> bool
        ensures { result ≡ is_full self.now }
    {
        self.output.is_full()
    }

    // ---- What is put. Without memory nothing has changed.

    /// Puts what was taken, if it is a move. Returns whether it is one.
    fn put_taken(&mut self, last: &mut LastText, taken: Taken) -> Result<bool, AllocError>
        ensures ok { IfOk result (λ some. PutAs taken some self.old self.new) }
        ensures err { OnErr result (self.new ≡ self.old) }
    {
        match taken {
            Taken::Move(place, m) => {
                last.make(taken)?;
                self.output.text(last.as_str())?;
                self.pieces = self.pieces.and(&NewPiece::Move(place, m));
                Ok(true)
            }
            Taken::Nothing | Taken::Over(_) | Taken::Cut => Ok(false),
        }
    }

    /// Puts a pong with these bytes (RFC 6455, section 5.5.3).
    pub(crate) fn put_pong(&mut self, payload: &[u8]) -> Result<(), AllocError>
        ensures ok { OnOk result (self.new ≡ puts self.old (a_pong payload.now)) }
        ensures err { OnErr result (self.new ≡ self.old) }
    {
        self.output.pong(payload)?;
        self.pieces = self.pieces.and(&NewPiece::Pong(Bytes::of(payload)));
        Ok(())
    }

    /// Puts a ping (RFC 6455, section 5.5.2).
    pub(crate) fn put_ping(&mut self) -> Result<(), AllocError>
        ensures ok { OnOk result (self.new ≡ puts self.old a_ping) }
        ensures err { OnErr result (self.new ≡ self.old) }
    {
        self.output.ping()?;
        self.pieces = self.pieces.and(&NewPiece::Ping);
        Ok(())
    }

    /// Puts what tells of this end, and then a close with this code.
    fn put_end(&mut self, last: &mut LastText, end: Taken, code: Code) -> Result<(), AllocError>
        ensures ok { OnOk result (self.new ≡ puts self.old (an_end end code.number)) }
        ensures err { OnErr result (self.new ≡ self.old) }
    {
        let piece = NewPiece::End(Snapshot::of(&end), code);
        put_both(&mut self.output, last, end, code)?;
        self.pieces = self.pieces.and(&piece);
        Ok(())
    }

    /// Puts a close with this code or none (RFC 6455, section 5.5.1).
    fn put_close(&mut self, code: Option<Code>) -> Result<(), AllocError>
        ensures ok { OnOk result (self.new ≡ puts self.old (a_close (number_of code))) }
        ensures err { OnErr result (self.new ≡ self.old) }
    {
        self.output.close(code)?;
        self.pieces = self.pieces.and(&NewPiece::Close(code));
        Ok(())
    }

    /// Puts a close with this code or none, and follows no more.
    pub(crate) fn close(&mut self, code: Option<Code>) -> Result<(), AllocError>
        requires { self.old.stage ≡ Follows }
        ensures ok { OnOk result (self.new ≡ closes self.old (number_of code)) }
        ensures err { OnErr result (self.new ≡ self.old) }
    {
        self.put_close(code)?;
        self.leave();
        Ok(())
    }

    /// Its follower leaves, if it has one, and its slot is free.
    pub(crate) fn leave(&mut self)
        ensures { self.new ≡ cond (follows self.old.stage) (left_as self.old Left) self.old }
    {
        self.standing.leave(Stage::Left);
    }

    /// The first `n` of the bytes due were sent, or all if they are fewer.
    pub(crate) fn sent(&mut self, n: usize)
        ensures { self.new ≡ wrote self.old n }
    {
        let bytes = first_of(self.output.as_slice(), n);
        self.sent = self.sent.and(&bytes);
        self.output.wrote(n);
    }
}

/// Puts the frame of the text that tells of this end, and a close with this code.
fn put_both(
    output: &mut Output,
    last: &mut LastText,
    end: Taken,
    code: Code,
) -> Result<(), AllocError>
    ensures ok { OnOk result (output.new ≡ output.old ++ frames_in (an_end end code.number)) }
    ensures err { OnErr result (output.new ≡ output.old) }
{
    let before = output.len();
    last.make(end)?;
    output.text(last.as_str())?;
    if output.close(Some(code)).is_err() {
        output.truncate(before);
        return Err(AllocError);
    }
    Ok(())
}
