//! The main port: one loop on one thread, which drives one service.
//!
//! What a connection is sent is decided by `relay_service`, which knows of no socket. This crate moves bytes between sockets and the
//! service, tells it the time, and decides who is read and written when, and how long each is waited for. It waits for no peer. If boards
//! are kept in a journal it waits for the disk: nothing is written to anybody, and nobody who watches is told anything, before all that
//! boards have is there.
//!
//! `EventLoop` has the order of a turn. `Clients` has all connections, and looks up the one for which something is due; `Common` does it.
#![tactic(auto)]

mod acceptor;
mod board_log;
mod boards;
mod client;
mod clients;
mod common;
mod event_loop;
mod passing;
mod port;
mod serve_end;
mod settings;
mod watchers;

pub use port::MainPort;
pub use serve_end::ServeEnd;
pub use settings::Settings;
pub use watchers::Watchers;
