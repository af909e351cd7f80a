//! How a main port is served.

use c960_game::Limits;

/// How a main port is served.
#[derive(Clone, Copy)]
pub struct Settings {
    /// The limits of the service.
    pub limits: Limits,
    /// For how many milliseconds a connection is waited for that owns and follows nothing and sends no message, if that is bounded.
    pub idle: Option<u64>,
    /// How many connections are accepted, if that is bounded.
    pub most: Option<u32>,
    /// Whether serving ends with standard input.
    pub until_input_ends: bool,
}
