//! What the arguments ask for.

use c960_game::Limits;
use std::net::SocketAddr;

/// What the arguments ask for.
#[derive(Clone, Copy)]
pub enum Order<'a> {
    /// To do a job over the program's own streams.
    Run(Job<'a>),
    /// To serve.
    Serve(Service<'a>),
    /// To check the journal with this path.
    Journal(&'a str),
}

/// A job with a reader and a writer.
#[derive(Clone, Copy)]
pub enum Job<'a> {
    /// To print the starting position with that number.
    Start(u16),
    /// To print the legal moves and the state of the position with that text.
    Moves(&'a str),
    /// To play over lines the game of the start with that number.
    Play(u16),
    /// To run a script over a relay with these limits.
    Script(Limits),
    /// To print the program's name and version.
    Version,
}

/// What is served: a relay with these limits, on this port of 127.0.0.1.
#[derive(Clone, Copy)]
pub struct Service<'a> {
    /// The port.
    pub port: u16,
    /// How many connections are accepted.
    pub connections: Connections,
    /// Whether serving ends when standard input does, if it has not ended before.
    pub until_input_ends: bool,
    /// How many seconds a board waits for its operator to come back, if that has a key.
    pub grace: u16,
    /// How many seconds a peer that owns and follows nothing may send nothing, or 0 if it always may.
    pub idle: u32,
    /// Whether what happens to boards is written to standard error.
    pub log: bool,
    /// The limits of the relay.
    pub limits: Limits,
    /// The watch port, if there is one.
    pub watch: Option<WatchPort>,
    /// The path of the journal, if there is one.
    pub journal: Option<&'a str>,
}

/// The watch port: another port, on which spectators may only watch.
#[derive(Clone, Copy)]
pub struct WatchPort {
    /// The address and port on which it listens.
    pub address: SocketAddr,
    /// How many threads serve it.
    pub threads: u16,
    /// How many spectators it may have at once.
    pub most: u32,
}

/// How many connections are accepted before serving ends.
#[derive(Clone, Copy)]
pub enum Connections {
    /// This many.
    Count(u32),
    /// As many as come: serving does not end by itself.
    Forever,
}
