//! The tests, one module for each crate that is tested.

mod board;
mod claims;
mod game;
mod rules;
