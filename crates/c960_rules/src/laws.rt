//! Laws of the definitions that contracts cite. Each is a function with an empty body, whose clauses hold for every value.

pub mod lists;
pub mod moves;
pub mod starts;
pub mod tests;
