//! The tests of the chess layer: squares, positions and texts; the rules, with perft; games, with a small proved example of a caller.
//! They are in a crate of their own, since a crate with tests is proved twice. All of it is read only for the tests, and proved once.
#![tactic(auto)]

#[cfg(test)]
mod count;
#[cfg(test)]
pub mod series;
#[cfg(test)]
mod tests;

#[cfg(test)]
pub use count::perft;
