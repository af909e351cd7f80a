//! Laws of the definitions that contracts cite. Each is a function with an empty body, whose clauses hold for every value.

pub mod moves;
pub mod numbering;
pub mod reading;
pub mod texts;
