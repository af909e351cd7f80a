//! The rules of Chess960: attacks, legal moves, castling, checkmate and stalemate.
#![tactic(auto)]

mod after;
mod any;
mod attack_sets;
mod attacks;
mod bitset;
mod castling;
mod check;
mod en_passant;
mod goals;
mod lawful;
pub mod laws;
mod legal;
mod listing;
mod lookups;
mod mate;
mod pins;
mod placement;
mod promotion;
mod rays;
mod reaches;
mod safety;
mod side_to_move;
mod sides;
mod squares;
mod tables;

pub use any::any_legal;
pub use attack_sets::attackers;
pub use attacks::attacked;
pub use check::in_check;
pub use en_passant::ep_legal;
pub use lawful::Lawful;
pub use legal::{is_legal, play, play_legal};
pub use listing::legal_moves;
pub use mate::state;
pub use side_to_move::State;
