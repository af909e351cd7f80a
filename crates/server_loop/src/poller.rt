//! What a loop asks the system for: what it reports, and what wakes the loop.

use crate::waker::LoopWaker;
use mio::{Events, Poll, Token, Waker};
use std::alloc::Global;
use std::io;
use std::net::Net;
use std::sync::Arc;
use std::time::Duration;

/// The token of the listener.
pub const LISTENER: Token = Token(usize::MAX);

/// The token of the loop's waker.
pub const WAKER: Token = Token(usize::MAX - 1);

/// How many events the system reports at a time.
pub const MOST_EVENTS: usize = 1024;

/// What the system reports to a loop.
#[derive(Drop)]
pub struct Poller {
    /// Where connections are registered whose events are to be reported.
    pub poll: Poll,
    /// The events that were reported last.
    pub events: Events,
    /// What wakes the loop.
    pub waker: Arc<LoopWaker, Global>,
}

impl Poller {
    /// Nothing is reported yet but wakes.
    ///
    /// # Errors
    ///
    /// As the system's own calls, or there was no memory.
    pub fn new<N: Net>(net: &N, alloc: Global) -> io::Result<Poller> {
        let poll = Poll::new(net)?;
        let waker = Waker::new(poll.registry(), WAKER)?;
        Ok(Poller {
            poll,
            events: Events::with_capacity(alloc, MOST_EVENTS)?,
            waker: Arc::new(alloc, LoopWaker::new(waker))?,
        })
    }

    /// Waits for events, but no longer than this.
    ///
    /// # Errors
    ///
    /// As the system's own call.
    pub fn wait(&mut self, most: Duration) -> io::Result<()> {
        self.poll.poll(&mut self.events, Some(most))
    }
}
