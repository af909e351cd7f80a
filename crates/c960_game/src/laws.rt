//! Laws of games and their definitions.

pub mod games;
pub mod joins;
