//! A hall: all boards of a server, who opened each, and the keys of their owners, as one value that one caller owns. Its answers, and its
//! boards after each call, are a function of what it was told, but for lack of memory, the numbers of new boards' tables, and the slots
//! that other threads free. It takes no lock, opens no socket, reads no clock and waits for nobody.
#![tactic(auto)]

mod boards;
mod changed_boards;
mod floor;
mod full;
mod hall;
mod handed;
mod holders;
mod hosted;
mod key;
pub mod laws;
mod leaver;
mod owner;
mod presence;
mod shown;

pub use hall::Hall;
pub use handed::Handed;
pub use key::Key;
pub use owner::Owner;
pub use shown::Shown;
