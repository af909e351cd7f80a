//! A client, which writes and reads WebSocket frames byte by byte.

use crate::tests::claims::claim;
use crate::tests::sessions::frames::{CLOSE, NORMAL, REQUEST, TEXT, add_frame};
use std::alloc::Global;
use std::io;
use std::io::{Read, Write};
use std::net::{Net, SocketAddr, TcpStream};
use std::process::Abort;
use std::time::Duration;

/// How many seconds a server may take over anything.
const PATIENCE: u64 = 20;

/// A connection that has shaken hands.
#[derive(Drop)]
pub struct Client {
    alloc: Global,
    stream: TcpStream,
}

/// Reads a head, byte by byte, up to the empty line.
fn read_head(stream: &mut TcpStream) -> io::Result<()> {
    let mut last = [0; 4];
    for _ in 0..1000 {
        let mut byte = [0; 1];
        stream.read_exact(&mut byte)?;
        last = [last[1], last[2], last[3], byte[0]];
        if last == *b"\r\n\r\n" {
            break;
        }
    }
    Ok(())
}

/// Asks for a WebSocket.
fn asks_for_one(stream: &mut TcpStream) -> io::Result<()> {
    stream.set_nodelay(true)?;
    stream.set_read_timeout(Some(Duration::from_secs(PATIENCE)))?;
    stream.write_all(REQUEST)?;
    read_head(stream)
}

impl Client {
    /// A connection to this address.
    pub fn new<R: Net<Stream = TcpStream> + Abort>(
        rt: &R,
        alloc: Global,
        address: SocketAddr,
    ) -> Client {
        let mut stream = TcpStream::connect(rt, address).expect(rt, "a connection");
        asks_for_one(&mut stream).expect(rt, "a WebSocket");
        Client { alloc, stream }
    }

    /// Sends a frame.
    fn sends(&mut self, rt: &impl Abort, first: u8, payload: &[u8]) {
        let mut bytes = Vec::new(self.alloc);
        add_frame(&mut bytes, first, payload).expect(rt, "memory");
        self.stream.write_all(bytes.as_slice()).expect(rt, "sent");
    }

    /// Sends a text.
    pub fn says(&mut self, rt: &impl Abort, text: &[u8]) {
        self.sends(rt, TEXT, text);
    }

    /// Whether the next frame begins with this byte and has this payload, which has fewer than 126 bytes.
    fn is_sent(&mut self, first: u8, payload: &[u8]) -> io::Result<bool> {
        let mut head = [0; 2];
        self.stream.read_exact(&mut head)?;
        let mut bytes = [0; 256];
        let heard = &mut bytes[..usize::from(head[1])];
        self.stream.read_exact(heard)?;
        Ok(head[0] == first && *heard == *payload)
    }

    /// The next frame begins with this byte and has this payload.
    fn hears_frame(&mut self, rt: &impl Abort, first: u8, payload: &[u8]) {
        let is_sent = self.is_sent(first, payload).expect(rt, "a frame");
        claim(rt, is_sent, "the next frame");
    }

    /// The next frame is this text.
    pub fn hears(&mut self, rt: &impl Abort, text: &[u8]) {
        self.hears_frame(rt, TEXT, text);
    }

    /// The next frame is a close with this code.
    pub fn is_closed(&mut self, rt: &impl Abort, code: u16) {
        self.hears_frame(rt, CLOSE, &[(code / 256) as u8, (code % 256) as u8]);
    }

    /// Sends a text, and hears this one next.
    pub fn asks(&mut self, rt: &impl Abort, text: &[u8], answer: &[u8]) {
        self.says(rt, text);
        self.hears(rt, answer);
    }

    /// Closes, and is answered.
    pub fn closes(mut self, rt: &impl Abort) {
        self.sends(rt, CLOSE, NORMAL);
        self.is_closed(rt, 1000);
    }
}
