//! What the event loops of the ports have in common: pieces, and no framework. A loop of its own decides who is read and written when.
//! Nothing here knows of a board but by its name, and nothing waits for a peer.
#![tactic(auto)]

mod backoff;
mod clock;
mod deadlines;
mod input;
mod listener;
mod log_line;
mod log_thread;
mod poller;
mod run_queue;
mod socket;
mod waker;

pub use backoff::{Backoff, Pause};
pub use clock::LoopClock;
pub use deadlines::{Deadlines, SlowReader, Stage, Times, Verdict};
pub use input::watch_input;
pub use listener::{Arrival, MOST_NEWCOMERS, Reserve};
pub use log_line::LogLine;
pub use log_thread::{Counts, Log};
pub use poller::{LISTENER, MOST_EVENTS, Poller, WAKER};
pub use run_queue::{Rank, RunQueue};
pub use socket::{Delivery, Intake, MOST_PIECES, PIECE_BYTES, Written, receive, send, write_once};
pub use waker::LoopWaker;
