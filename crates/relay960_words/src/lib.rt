//! The command-line arguments of `relay960`: what they ask for, as `clap` reads them, and the messages about faulty ones.
#![tactic(auto)]

mod fault;
mod options;
mod order;
mod status;
mod version;
mod words;

pub use fault::{status_of_no_text, status_without_memory};
pub use order::{Connections, Job, Order, Service, WatchPort};
pub use status::Status;
pub use version::VERSION;
pub use words::order_of;
