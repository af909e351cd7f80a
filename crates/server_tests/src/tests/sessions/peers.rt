//! Peers in memory.

use crate::tests::parts::front;
use crate::tests::sessions::frames::REQUEST;
use std::io;
use std::io::{ErrorKind, Read};

/// A peer that sends its request, and once that was read these bytes, and then is gone, or its reads fail.
#[derive(Drop)]
pub struct Peer<'a> {
    request: &'a [u8],
    left: &'a [u8],
    /// How many of the bytes a read gives at most.
    piece: usize,
    /// Whether each read of them comes after one that was interrupted.
    interrupts: bool,
    was_interrupted: bool,
    /// How reads fail behind the last byte.
    failure: Option<ErrorKind>,
}

impl<'a> Peer<'a> {
    pub fn new(bytes: &'a [u8]) -> Peer<'a> {
        Peer {
            request: REQUEST,
            left: bytes,
            piece: usize::MAX,
            interrupts: false,
            was_interrupted: false,
            failure: None,
        }
    }

    /// A peer whose bytes come one by one, each after a read that was interrupted.
    pub fn dripping(bytes: &'a [u8]) -> Peer<'a> {
        let mut peer = Peer::new(bytes);
        peer.piece = 1;
        peer.interrupts = true;
        peer
    }

    /// A peer of whose request and bytes so many are read, these one by one, and whose reads then fail in this way, or end.
    pub fn failing(bytes: &'a [u8], until: usize, failure: Option<ErrorKind>) -> Peer<'a> {
        let mut peer = Peer::new(front(bytes, until.saturating_sub(REQUEST.len())));
        peer.request = front(REQUEST, until);
        peer.piece = 1;
        peer.failure = failure;
        peer
    }
}

impl Read for Peer<'_> {
    fn read(&mut self, buf: &mut [u8]) -> io::Result<usize> {
        if !self.request.is_empty() {
            return self.request.read(buf);
        }
        self.was_interrupted = self.interrupts && !self.was_interrupted;
        if self.was_interrupted {
            return Err(io::Error::from(ErrorKind::Interrupted));
        }
        match self.failure {
            Some(kind) if self.left.is_empty() => Err(io::Error::from(kind)),
            _ => {
                let n = self.piece.min(buf.len());
                self.left.read(&mut buf[..n])
            }
        }
    }
}
