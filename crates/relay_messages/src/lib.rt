//! Commands and answers of a relay as JSON texts (RFC 8259).
#![tactic(auto)]

mod answer;
mod answers;
mod asking;
mod board_summary;
mod commands;
mod encoding;
mod fault;
mod fields;
pub mod laws;
mod member;
mod object;
mod passing;
mod pieces;
mod reading;
mod unread;
mod watch_command;

pub use answer::Answer;
pub use board_summary::{BoardSummary, encode_board};
pub use encoding::{encode, encode_within};
pub use fault::MessageFault;
pub use reading::{Command, Decoder, MOST_BYTES, decode};
pub use watch_command::WatchCommand;
