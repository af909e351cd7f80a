//! The watch port: a few threads, each an event loop, send any number of spectators what happens on boards. Its spectators may look at
//! everything and change nothing.
//!
//! Each loop has boards of its own, and is told by a ring what happens to them. What is sent is the tape of a board (`relay_watching`), and
//! what peers say is read by `relay_frames`. Neither knows of sockets. This crate decides who is written to when.
#![tactic(auto)]

mod audience;
mod board_event;
mod board_list;
mod board_table;
mod client;
mod clients;
mod common;
mod event_loop;
mod feed;
mod port;
mod publisher;
mod watch_connection;

pub use board_table::{BoardCopy, BoardTable};
pub use event_loop::EventLoop;
pub use feed::Feed;
pub use port::Port;
pub use publisher::Publisher;
