//! Connections that follow a board of a hall, one at a time. Bytes come in, bytes go out. A connection takes no lock, opens no socket,
//! reads no clock and waits for nobody: its owner lends it the hall for a push.

mod connection;
mod delivery;
pub mod laws;
mod new_piece;
mod pieces;
mod stage;
mod standing;

pub use connection::FollowerConnection;
pub use stage::Stage;
