//! What outlives the process of a hall: the entries that stand for its boards, as lines of a text, and the hall that they lead to after a
//! restart.
//!
//! An entry is a command of a script, `open`, `submit` or `end`, so a journal without what stands before its commands is a script. It is
//! written of what a hall has made, and of nothing that a connection sent.
#![tactic(auto)]

mod bodies;
mod entry;
pub mod laws;
mod noted;
mod reading;
mod recovering;
mod replaying;
mod saying;
mod scribe;
mod texts;
mod unfit;
mod writing;

pub use bodies::{body_of, entry_in};
pub use entry::Entry;
pub use reading::{FIRST_BODY, Unread, read_entries};
pub use recovering::recover;
pub use replaying::replay;
pub use scribe::{Scribe, begin};
pub use texts::command_of;
pub use unfit::Unfit;
