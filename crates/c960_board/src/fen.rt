//! Shredder-FEN: the text of a position.

mod bytes;
mod counters;
mod fault;
mod fields;
mod files;
mod letters;
mod placement;
mod rank;
mod reader;
mod rights;
mod shape;
mod spread;
mod symbol;
mod target;
mod turn;
mod writer;

pub use bytes::FenBytes;
pub use fault::FenFault;
pub use reader::read_fen;
pub use writer::write_fen;
