//! Laws of shared boards, of the words and of the kinds of step.

pub mod kinds;
pub mod shared;
pub mod words;
