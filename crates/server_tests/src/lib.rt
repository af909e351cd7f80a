//! The tests of the server and of what it rests on that the built program cannot show: halls, their services and feeds, journals and their
//! lines, and the plain server that it is compared with. They are in one crate of their own, since a crate with tests is proved twice, and
//! each crate of tests is a program of its own.
#![tactic(auto)]

#[cfg(test)]
mod tests;
