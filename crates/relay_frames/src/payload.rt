//! The meaning of the payloads of frames.

ghost use Rattle.std.specs.Prelude.{◌≡◌, ◌+◌, ◌≤◌, ◌++◌, length, take, drop, vec_len, IfOk};
ghost use Rattle.std.specs.Str.{is_utf8};
ghost use Rattle.websocket.specs.Mask.{apply_mask_if};
ghost use Rattle.relay_frames.specs.Events.{told};
ghost use Rattle.relay_frames.specs.Reading.{told_of_close, told_of_control};

use crate::breach::Breach;
use crate::code::Code;
use crate::event::Event;
use std::alloc::{AllocError, Global};
use std::str;
use websocket::protocol::frame::apply_mask;
use websocket::protocol::frame::coding::Control;

/// A payload without its mask.
pub(crate) fn unmasked(
    alloc: Global,
    masked: &[u8],
    mask: Option<[u8; 4]>,
) -> Result<Vec<u8>, AllocError>
    ensures { IfOk result (λ payload. payload.items ≡ apply_mask_if mask masked.now) }
{
    let mut payload = Vec::from_slice(alloc, masked)?;
    if let Some(key) = mask {
        apply_mask(payload.as_mut_slice(), key);
    }
    Ok(payload)
}

/// Removes the mask of a payload in place.
fn unmask(bytes: &mut [u8], start: usize, size: usize, mask: Option<[u8; 4]>)
    requires { start + size ≤ length bytes.old }
    ensures len { length bytes.new ≡ length bytes.old }
    ensures before { take start bytes.new ≡ take start bytes.old }
    ensures payload { take size (drop start bytes.new) ≡ apply_mask_if mask (take size (drop start bytes.old)) }
    ensures after { drop (start + size) bytes.new ≡ drop (start + size) bytes.old }
{
    if let Some(key) = mask {
        apply_mask(&mut bytes[start..start + size], key);
    }
}

/// Removes the mask of a payload, and moves it down to another place.
pub(crate) fn move_down(
    bytes: &mut Vec<u8>,
    start: usize,
    size: usize,
    mask: Option<[u8; 4]>,
    to: usize,
)
    requires inside { start + size ≤ vec_len bytes.old }
    requires down { to ≤ start }
    ensures len { vec_len bytes.new ≡ vec_len bytes.old }
    ensures moved { take (to + size) bytes.new.items ≡ take to bytes.old.items ++ apply_mask_if mask (take size (drop start bytes.old.items)) }
    ensures after { drop (start + size) bytes.new.items ≡ drop (start + size) bytes.old.items }
{
    unmask(bytes.as_mut_slice(), start, size, mask);
    bytes.copy_within(start..start + size, to);
}

/// What a control frame with this payload means (RFC 6455, section 5.5).
pub(crate) fn control_event(control: Control, payload: Vec<u8>) -> Event
    ensures { told result ≡ told_of_control control payload.items }
{
    match control {
        Control::Ping => Event::Ping(payload),
        Control::Pong => Event::Pong(payload),
        Control::Close => close_event(payload.as_slice()),
    }
}

/// What a close with this payload means (RFC 6455, section 5.5.1).
#[tactic(auto, unfolding(crate::specs::Reading::told_of_close))]
fn close_event(payload: &[u8]) -> Event
    ensures { told result ≡ told_of_close payload.now }
{
    match payload {
        [] => Event::Closed(None),
        [_] => Event::Broken(Breach::BadClose),
        [high, low, reason @ ..] => match Code::new(u16::from_be_bytes([*high, *low])) {
            None => Event::Broken(Breach::BadClose),
            Some(_) if !is_utf8(reason) => Event::Broken(Breach::NotUtf8),
            code => Event::Closed(code),
        },
    }
}

fn is_utf8(bytes: &[u8]) -> bool
    ensures { result ≡ is_utf8 bytes.now }
{
    match str::from_utf8(bytes) {
        Ok(_) => true,
        Err(_) => false,
    }
}
