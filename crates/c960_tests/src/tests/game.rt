//! Worked cases of games.

mod codes;
mod draws;
mod ends;
mod memory;
mod opening;
mod places;
mod playing;
mod plies;
mod results;
mod rows;
mod unclaimed;
