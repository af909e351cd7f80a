//! What a connection is answered, and what a follower is sent, over traits: nothing here knows of sockets, threads or locks.
#![tactic(auto)]

mod bell;
mod conn;
mod gate;
mod keeper;
mod last_text;
pub mod laws;
mod outlet;
mod pushing;
mod source;

pub use bell::Bell;
pub use conn::Conn;
pub use gate::Gate;
pub use keeper::Keeper;
pub use last_text::LastText;
pub use outlet::{Outlet, SendFault};
pub use pushing::{PushEnd, Turn, push_all, push_some};
pub use source::Source;
