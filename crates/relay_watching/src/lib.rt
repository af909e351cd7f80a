//! What any number of spectators of a board are sent: the texts that are pushed to a follower, from every place of the log, as bytes.
//! Nothing here knows of sockets, loops or threads.
//!
//! A board has one `Tape`, with the frames of its moves, each made once. A spectator has a `SpectatorConnection`: the frame that answers
//! its joining, and how far it was sent. So a slow spectator lags behind and costs nothing; nobody is cut.
//!
//! What is proved (`laws::in_any_order`) is about the bytes that a caller counts as written. For a connection the caller must ensure this:
//!
//! - The moves given to a tape are the board's log, from the tape's length on, and the outcome is the board's.
//! - The position given to `Tape::join` is the one at that place of the log.
//! - A spectator's connection is called only with the tape that it joined.
//! - The bytes counted by `SpectatorConnection::wrote` are the first of those that `due` gave, and were written to the spectator's own
//!   connection. Nothing else is written there except whole frames, and those only if `SpectatorConnection::is_between_frames` says so.
//! - If there was no memory for a move or an end, it is passed again later: `Tape::len` and `Tape::is_over` say what the tape has.
#![tactic(auto)]

mod frames;
pub mod laws;
mod spectator_connection;
mod tape;

pub use spectator_connection::SpectatorConnection;
pub use tape::Tape;
