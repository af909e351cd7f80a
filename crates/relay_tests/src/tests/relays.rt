//! Worked cases of both kinds of relay, and steps that both answer alike.

mod both;
mod callers;
mod cases;
mod crowds;
mod kinds;
mod live;
mod memory;
mod random;
pub mod table;
mod threads;
