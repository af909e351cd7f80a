//! Worked examples, published numbers and round trips.

mod moves;
mod numbering;
mod reading;
mod round_trips;
mod start;
mod writing;
