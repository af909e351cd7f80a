//! WebSocket frames (RFC 6455, section 5), as a client writes and reads them, byte by byte and without the server's own code.

use std::alloc::{AllocError, Global};

/// A request for a WebSocket.
pub const REQUEST: &[u8] =
    b"GET / HTTP/1.1\r\nHost: a\r\nConnection: upgrade\r\nUpgrade: websocket\r\nSec-WebSocket-Version: 13\r\nSec-WebSocket-Key: dGhlIHNhbXBsZSBub25jZQ==\r\n\r\n";

/// The end of the head of a request or of a response.
const HEAD_END: &[u8] = b"\r\n\r\n";

/// The first byte of a whole text, a whole binary message, a close, a ping; of a text's first part, and of its last.
pub const TEXT: u8 = 0x81;

pub const BINARY: u8 = 0x82;

pub const CLOSE: u8 = 0x88;

pub const PING: u8 = 0x89;

pub const PONG: u8 = 0x8a;

pub const FIRST_PART: u8 = 0x01;

pub const LAST_PART: u8 = 0x80;

/// What a close says that has the code 1000.
pub const NORMAL: &[u8] = &[0x03, 0xe8];

/// Appends a frame with a mask of zeros.
pub fn add_frame(bytes: &mut Vec<u8>, first: u8, payload: &[u8]) -> Result<(), AllocError> {
    let len = payload.len();
    if len < 126 {
        bytes.extend_from_slice(&[first, 0x80 | len as u8])?;
    } else {
        let long = [first, 0xfe, (len / 256 % 256) as u8, (len % 256) as u8];
        bytes.extend_from_slice(&long)?;
    }
    bytes.extend_from_slice(&[0; 4])?;
    bytes.extend_from_slice(payload)
}

/// What a server sent behind the head of its response.
pub fn behind_head(sent: &[u8]) -> &[u8] {
    for at in 0..sent.len() {
        let left = &sent[at..];
        if left.starts_with(HEAD_END) {
            return left.get(HEAD_END.len()..).unwrap_or(&[]);
        }
    }
    &[]
}

/// Appends a word and a number.
fn add_number(alloc: Global, out: &mut Vec<u8>, word: &str, number: u16) -> Result<(), AllocError> {
    let text = format!(in alloc; "{word} {number}")?;
    out.extend_from_slice(text.as_bytes())
}

/// Appends the line of a frame.
fn add_line(alloc: Global, out: &mut Vec<u8>, first: u8, payload: &[u8]) -> Result<(), AllocError> {
    match first {
        TEXT => out.extend_from_slice(payload)?,
        CLOSE if payload.len() >= 2 => {
            let code = u16::from(payload[0]) * 256 + u16::from(payload[1]);
            add_number(alloc, out, "close", code)?;
        }
        other => add_number(alloc, out, "opcode", u16::from(other))?,
    }
    out.extend_from_slice(b"\n")
}

/// Appends the lines of what a server sent.
fn add_lines(alloc: Global, lines: &mut Vec<u8>, sent: &[u8]) -> Result<(), AllocError> {
    let mut at = 0;
    for _ in 0..sent.len() {
        if at >= sent.len() || sent.len() - at < 2 {
            break;
        }
        let len = usize::from(sent[at + 1]);
        let start = at + 2;
        if len > 125 || sent.len() - start < len {
            return lines.extend_from_slice(b"long\n");
        }
        add_line(alloc, lines, sent[at], &sent[start..start + len])?;
        at = start + len;
    }
    Ok(())
}

/// What a server sent, frame by frame, as lines: a text as it is, a close as `close` and its code, anything else as its opcode.
pub fn lines(alloc: Global, sent: &[u8]) -> Result<Vec<u8>, AllocError> {
    let mut lines = Vec::new(alloc);
    add_lines(alloc, &mut lines, sent)?;
    Ok(lines)
}
