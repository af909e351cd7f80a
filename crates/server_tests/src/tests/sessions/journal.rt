//! A stream and a gate in memory that note in one journal what they are asked.

use relay_server::Gate;
use std::alloc::{AllocError, Global};
use std::cell::RefCell;
use std::io;
use std::io::{Read, Write};

/// What was asked, one line each.
#[derive(Drop)]
pub struct Journal {
    alloc: Global,
    lines: RefCell<Vec<u8>>,
}

impl Journal {
    pub fn new(alloc: Global) -> Journal {
        Journal {
            alloc,
            lines: RefCell::new(Vec::new(alloc)),
        }
    }

    /// Notes a line.
    fn note(&self, line: &str) {
        if let Ok(mut lines) = self.lines.try_borrow_mut() {
            let _ = lines.extend_from_slice(line.as_bytes());
            let _ = lines.extend_from_slice(b"\n");
        }
    }

    /// Notes a line that ends with a number.
    fn note_number(&self, word: &str, number: usize) {
        match format!(in self.alloc; "{word} {number}") {
            Ok(line) => self.note(line.as_str()),
            Err(AllocError) => self.note(word),
        }
    }

    /// Whether these lines were noted, and no others.
    pub fn has(&self, lines: &str) -> bool {
        match self.lines.try_borrow() {
            Ok(noted) => noted.as_slice() == lines.as_bytes(),
            Err(_) => false,
        }
    }
}

/// A stream whose peer sends these pieces, none longer than a read asks for. Each read gives one, and after the last the peer has gone.
#[derive(Drop)]
pub struct NotedStream<'a> {
    pub pieces: &'a [&'a [u8]],
    /// How many of them were read.
    pub count: usize,
    pub journal: &'a Journal,
}

impl Read for NotedStream<'_> {
    fn read(&mut self, buf: &mut [u8]) -> io::Result<usize> {
        self.journal.note("read");
        let Some(piece) = self.pieces.get(self.count) else {
            return Ok(0);
        };
        self.count = self.count.wrapping_add(1);
        let mut piece = *piece;
        piece.read(buf)
    }
}

impl Write for NotedStream<'_> {
    fn write(&mut self, buf: &[u8]) -> io::Result<usize> {
        self.journal.note_number("written", buf.len());
        Ok(buf.len())
    }

    fn flush(&mut self) -> io::Result<()> {
        Ok(())
    }
}

/// A gate that holds nobody back, and notes its calls.
#[derive(Drop)]
pub struct NotedGate<'a> {
    pub journal: &'a Journal,
}

impl Gate for NotedGate<'_> {
    fn before(&self, connection: u32) {
        self.journal.note_number("before", connection as usize);
    }

    fn after(&self, connection: u32) {
        self.journal.note_number("after", connection as usize);
    }
}
