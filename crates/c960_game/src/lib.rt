//! The game of Chess960: its log, claims and ends, and the types that a relay of games shares.
#![tactic(auto)]

mod ending;
mod game;
mod kept_positions;
pub mod laws;
mod limits;
mod outcome;
mod refusal;
mod replay;
mod result;
mod same;

pub use ending::Ending;
pub use game::Game;
pub use limits::{Limits, MOST_BOARDS, MOST_CAPACITY, MOST_FOLLOWERS, MOST_PLIES};
pub use outcome::Outcome;
pub use refusal::Refusal;
pub use replay::Replaying;
pub use result::Result;
