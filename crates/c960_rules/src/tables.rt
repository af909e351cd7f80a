//! Sets of squares that are looked up by the number of a square. Each table stands in a file of its own, with its look-ups below it:
//!
//! - `knight`, `king`, `white_pawn`, `black_pawn`: the squares that these pieces attack; for goals, attacks and checks
//! - `rook_lines`, `bishop_lines`: the lines on which a rook or a bishop may attack, give check and pin
//! - `north`, `east`, `south`, `west`, `north_east`, `north_west`, `south_east`, `south_west`: the rays that end at their first blockers
//! - `onward`: a square and those with higher numbers; it cuts a ray on which the numbers fall
//! - `between`: the squares between two of a line; for free ways, pins and what stops a check
//!
//! Bit s of an entry is 1 if the square s is in its set. A line of a table has the eight squares of a rank. Each table is proved to be the
//! table of its definition, which the contracts of its look-ups name, by computing all its bits: in proofs/ LeapTables (the first six),
//! RayTables (the rays and `onward`) and BetweenTable.

/// The entries of a table, eight to a line.
macro_rules! table {
    ($($number:literal)*) => {
        [$($number),*]
    };
}

pub(crate) use table;

pub mod between;
pub mod bishop_lines;
pub mod black_pawn;
pub mod east;
pub mod king;
pub mod knight;
pub mod north;
pub mod north_east;
pub mod north_west;
pub mod onward;
pub mod rook_lines;
pub mod south;
pub mod south_east;
pub mod south_west;
pub mod west;
pub mod white_pawn;
