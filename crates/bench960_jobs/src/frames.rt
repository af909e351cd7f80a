//! The frames that a client sends: masked, some in fragments (RFC 6455, section 5).

use crate::chance::Chance;
use std::alloc::AllocError;

/// The final bit and the number of a text, of a frame that continues one, and of a ping.
const TEXT: u8 = 0x81;

const BEGUN_TEXT: u8 = 0x01;

const LAST_FRAGMENT: u8 = 0x80;

const PING: u8 = 0x89;

/// Appends a frame, whose payload has fewer than 126 bytes, or else fewer than 65,536.
fn push_frame(
    chance: &mut Chance,
    bytes: &mut Vec<u8>,
    first: u8,
    payload: &[u8],
) -> Result<(), AllocError> {
    bytes.push(first)?;
    if payload.len() < 126 {
        bytes.push(0x80 | payload.len() as u8)?;
    } else {
        bytes.push(0x80 | 126)?;
        bytes.extend_from_slice(&(payload.len() as u64 % 65536).to_be_bytes()[6..8])?;
    }
    let mask = (chance.below(0x1_0000_0000) as u64).to_le_bytes();
    bytes.extend_from_slice(&mask[..4])?;
    for (number, byte) in payload.iter().enumerate() {
        bytes.push(*byte ^ mask[number % 4])?;
    }
    Ok(())
}

/// Appends a text: in one frame, or once in twenty times in two with a ping between them.
pub fn push_text(chance: &mut Chance, bytes: &mut Vec<u8>, text: &[u8]) -> Result<(), AllocError> {
    if !chance.once_in(20) {
        return push_frame(chance, bytes, TEXT, text);
    }
    let (front, back) = text.split_at(text.len() / 2);
    push_frame(chance, bytes, BEGUN_TEXT, front)?;
    push_frame(chance, bytes, PING, b"still here")?;
    push_frame(chance, bytes, LAST_FRAGMENT, back)
}
