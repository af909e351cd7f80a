//! Worked cases of commands and answers that the program cannot show: texts in memory that is refused, and the ways in which a text is
//! read. What each text means is seen on the program.

mod agreeing;
mod answers;
mod boards;
mod ways;
