//! Worked cases of sessions: what no session on the built server shows.

mod drips;
mod failing;
pub mod frames;
mod gates;
mod journal;
mod nested;
mod order;
pub mod peers;
mod refusals;
pub mod rows;
mod sharing;
mod texts;
