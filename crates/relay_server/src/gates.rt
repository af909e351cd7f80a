//! The gate of a server that holds nobody back.

use relay_pushing::Gate;

/// The gate that holds nobody back.
#[derive(Clone, Copy, Debug)]
pub struct OpenGate;

impl Gate for OpenGate {
    fn before(&self, _connection: u32) {}

    fn after(&self, _connection: u32) {}
}
