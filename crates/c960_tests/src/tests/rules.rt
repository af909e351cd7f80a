//! Worked cases of the rules, counts of positions, and comparisons of calls that have to agree.

mod agreement;
mod castling;
mod checkmate;
mod counts;
mod en_passant;
mod first_moves;
mod lists;
mod memory;
mod plain;
mod promotion;
mod reading;
mod reference;
mod sets;
mod stalemate;
mod unlawful;
