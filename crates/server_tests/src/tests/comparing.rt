//! The same sessions through the plain server and through the connections of the program's server, which a hall answers from bytes. All
//! texts are the same, and the ends.

mod commands;
mod fast;
mod random;
mod seen;
mod table;
