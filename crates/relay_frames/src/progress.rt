//! What a driver asks of a connection as time passes.

use crate::event::Event;
use std::mem;

/// What has been answered of a connection since that was last asked, and whether a message in fragments has begun.
#[derive(Drop)]
pub struct Progress {
    /// Whether a whole text or binary message was.
    has_said: bool,
    /// Whether something was behind which no message in fragments has begun.
    has_come_whole: bool,
    is_in_fragments: bool,
}

impl Progress {
    /// Nothing has come.
    pub fn new() -> Progress {
        Progress {
            has_said: false,
            has_come_whole: false,
            is_in_fragments: false,
        }
    }

    /// This was answered.
    pub fn note(&mut self, event: &Event) {
        match event {
            Event::Fragment => self.is_in_fragments = true,
            Event::Text(_) | Event::Binary(_) => {
                self.is_in_fragments = false;
                self.has_said = true;
            }
            Event::Ping(_) | Event::Pong(_) | Event::Closed(_) | Event::Broken(_) => {}
        }
        self.has_come_whole = self.has_come_whole || !self.is_in_fragments;
    }

    /// Whether a whole text or binary message was answered since the last such call.
    pub fn take_said(&mut self) -> bool {
        mem::replace(&mut self.has_said, false)
    }

    /// Whether something was answered since the last such call behind which no message in fragments has begun.
    pub fn take_whole(&mut self) -> bool {
        mem::replace(&mut self.has_come_whole, false)
    }
}
