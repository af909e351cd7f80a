//! The server's side of WebSocket (RFC 6455) without reading and writing: bytes come in, events and bytes go out. Nothing here
//! waits, looks at a clock or knows of a socket, so that a loop can serve all peers.
#![tactic(auto)]

mod acceptance;
mod begun;
mod breach;
mod buffer;
mod code;
mod event;
mod head;
pub mod laws;
pub mod outgoing;
mod output;
mod payload;
mod peer;
mod progress;
mod request;
mod request_refusal;

pub use acceptance::Acceptance;
pub use breach::Breach;
pub use code::Code;
pub use event::Event;
pub use head::{HeadSoFar, head_so_far};
pub use output::{MOST_OUTPUT, Output};
pub use peer::{MOST_BYTES, MOST_FRAGMENTS, Peer};
pub use progress::Progress;
pub use request::{MOST_FIELDS, MOST_HEAD_BYTES, acceptance_of, end_of_head, refusal_of};
pub use request_refusal::RequestRefusal;
