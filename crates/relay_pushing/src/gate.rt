//! Gates, which can hold a connection back.

/// What hears of the first command of each connection. Connections are numbered from 1, in the order of accepting.
pub trait Gate {
    /// Called before the first command of the connection is answered.
    fn before(&self, connection: u32);

    /// Called after that answer was sent.
    fn after(&self, connection: u32);
}
