//! The relay over live boards: one thread makes the steps of every board and of all its followers. It can hand out a board as it is, so
//! that other threads can continue with it.
#![tactic(auto)]

mod boards;
mod holdings;
mod relay;
mod seated;
mod seats;

pub use live_board::{Board, Follower, Gone, meet};
pub use relay::LiveRelay;
