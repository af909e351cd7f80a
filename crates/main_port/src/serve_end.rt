//! How serving ended.

/// What a server did.
#[derive(Clone, Copy, PartialEq, Eq, Debug)]
pub struct ServeEnd {
    /// How many connections were served.
    pub served: u32,
    /// How many were turned away for lack of a descriptor, and how many tries to accept failed.
    pub failed: u32,
}
