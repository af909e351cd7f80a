//! How serving and a session end.

/// What a server did.
#[derive(Clone, Copy, PartialEq, Eq, Debug)]
pub struct ServeEnd {
    /// How many connections were served.
    pub served: u32,
    /// How many could not be accepted, or got no thread.
    pub failed: u32,
}

/// How a session ended.
#[derive(Clone, Copy, PartialEq, Eq, Debug)]
pub enum SessionEnd {
    /// The peer closed, or the greatest number of messages was read.
    Closed,
    /// The device failed, the peer broke the protocol, or there was no memory.
    Failed,
    /// The game that it followed has ended.
    Over,
    /// It was closed as a follower whose queue was full.
    Cut,
    /// There was no handshake.
    NoHandshake,
}
