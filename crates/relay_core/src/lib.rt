//! The relay on one thread: boards, the spectators who follow them, and bounded queues of moves. It is the reference; no program runs it.
//! Here too are what all relays share (steps, replies and names), what a history of steps requires of a relay, and the rules that each
//! relay calls: when an open and a follow are refused, and what a take answers.
#![tactic(auto)]

mod board_key;
mod boards;
mod follower;
mod followers;
mod grounds;
mod holdings;
pub mod laws;
mod name;
mod order;
mod relay;
mod reply;
mod step;
mod stepper;
mod tagged;
mod tags;
mod take;

pub use board_key::BoardKey;
pub use grounds::{may_follow, may_join_at, may_open};
pub use name::BoardName;
pub use order::JoiningOrder;
pub use relay::Relay;
pub use reply::{Account, Reply, Taken};
pub use step::{Spectator, Step};
pub use stepper::{Stepper, run_steps};
pub use take::without_move;
