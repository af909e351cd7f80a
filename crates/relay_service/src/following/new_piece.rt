//! A piece of what a connection is sent that is about to be noted. Only clauses read what it tells.

use crate::bytes::Bytes;
use c960_board::Move;
use relay_core::Taken;
use relay_frames::Code;
use std::snapshot::Snapshot;

/// What was put behind what is due to a connection.
#[derive(Drop)]
pub(crate) enum NewPiece {
    /// The move at this place of the log.
    Move(u16, Move),
    /// A pong with these bytes.
    Pong(Bytes),
    Ping,
    /// What tells of the end, and a close with this code.
    End(Snapshot<Taken>, Code),
    /// A close with this code or none.
    Close(Option<Code>),
}
