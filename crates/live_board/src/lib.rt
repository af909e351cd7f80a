//! A game that one thread plays while its followers, in threads of their own, take its moves without a lock. A board and its
//! followers share one table of words. Each call makes a few atomic steps on it, waits for nobody, and takes no lock.
//!
//! Below the calls is the board that the threads share, as a machine of events: the log of a game, its outcome, and what each follower has.
//! It knows no words of memory, no atomic steps and no threads. What is true after any list of events is proved once. Then come the
//! words of the table, what each seat at it knows, and the kinds of atomic step. Each kind keeps the rule that the words and the views show
//! a shared board, and each step is one of the board's events or none.
#![tactic(auto)]

mod board;
mod carried;
mod cursor;
mod follower;
mod gone;
pub mod kinds;
pub mod laws;
mod limits;
mod note;
mod setup;
mod step;
mod table_writer;
mod view;
pub mod words;

pub use board::{Board, meet};
pub use follower::Follower;
pub use gone::Gone;
pub use limits::BoardLimits;
pub use note::Note;
pub use setup::BoardSetup;
pub use step::BoardStep;
pub use view::{LiveRule, Part, View};
