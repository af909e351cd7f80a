//! The server of the main port as one value: a hall and all connections, of operators and of those that follow a board. Bytes come in,
//! bytes go out. It takes no lock, opens no socket, reads no clock and waits for nobody, so that each of its facts is one of the whole run.
//! A driver moves the bytes and tells the time. Below it are two rooms for one connection at a time: `calling` for an operator's, which the
//! hall answers, and `following` for one that follows a board.
#![tactic(auto)]

mod bytes;
pub mod calling;
mod connection;
pub mod following;
mod service;
mod stage;
mod turn;
mod turns;

pub use connection::Connection;
pub use service::Service;
pub use stage::Stage;
