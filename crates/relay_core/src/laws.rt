//! Laws of the definitions.

pub mod histories;
pub mod names;
