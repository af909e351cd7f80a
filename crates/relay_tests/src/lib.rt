//! The tests of what lies between the game and a socket's session: frames, commands and answers, connections, pushing and watching, live
//! boards, the relay on one thread, over games and over live boards, and the engines over lines of text. They are in a crate of their own,
//! since a crate with tests is proved twice. With them are small proved examples of a caller, and of what the traits of
//! `relay_pushing` require: they are read only for the tests, and proved once. What the built program shows is tried on it.
#![tactic(auto)]

#[cfg(test)]
pub mod handing;
#[cfg(test)]
pub mod list_outlet;
#[cfg(test)]
pub mod relay_keeper;
#[cfg(test)]
mod tests;
#[cfg(test)]
pub mod visits;
