//! The frames that a server sends: each is a whole message, without a mask (RFC 6455, sections 5.1 and 5.2). Each call appends one
//! frame to the output, and after an error the output is as it was.

ghost use Rattle.std.specs.Prelude.{◌≡◌, ◌<◌, ◌≤◌, ◌++◌, length, OnOk, OnErr};
ghost use Rattle.relay_frames.specs.Events.{number_of};
ghost use Rattle.relay_frames.specs.Frames.{close_frame, ping_frame, pong_frame, text_frame};

use crate::code::Code;
use std::alloc::AllocError;
use websocket::protocol::frame::coding::{Control, Data, OpCode};
use websocket::protocol::frame::{FrameHeader, write_frame};

/// The frame of a text.
///
/// # Errors
///
/// There was no memory.
#[tactic(auto, unfolding(crate::specs::Frames::text_frame))]
pub fn text(text: &str, output: &mut Vec<u8>) -> Result<(), AllocError>
    ensures ok { OnOk result (output.new.items ≡ output.old.items ++ text_frame text.now) }
    ensures err { OnErr result (output.new.items ≡ output.old.items) }
{
    if text.len() < 126 {
        return short_text(text, output);
    }
    let header = FrameHeader::new(OpCode::Data(Data::Text), None);
    write_frame(&header, text.as_bytes(), output)
}

/// The frame of a text of fewer than 126 bytes, as nearly all are. Its header is two bytes (RFC 6455, section 5.2): the first says that
/// it is a text and a whole message, the second is the length. So there is no header to be worked out. Room is asked for once, for the
/// whole frame: after a refusal nothing was appended, and what follows is never refused.
#[inline(always)]
#[tactic(auto, using(crate::proofs::Sent::short_text_sent))]
fn short_text(text: &str, output: &mut Vec<u8>) -> Result<(), AllocError>
    requires { length text.now < 126 }
    ensures ok { OnOk result (output.new.items ≡ output.old.items ++ text_frame text.now) }
    ensures err { OnErr result (output.new.items ≡ output.old.items) }
{
    output.reserve(text.len() + 2)?;
    output.push_reserved(0x81);
    output.push_reserved(text.len() as u8);
    output.extend_from_slice(text.as_bytes())
}

/// A ping with at most 125 bytes.
///
/// # Errors
///
/// There was no memory.
#[tactic(auto, unfolding(crate::specs::Frames::ping_frame))]
pub fn ping(payload: &[u8], output: &mut Vec<u8>) -> Result<(), AllocError>
    requires { length payload.now ≤ 125 }
    ensures ok { OnOk result (output.new.items ≡ output.old.items ++ ping_frame payload.now) }
    ensures err { OnErr result (output.new.items ≡ output.old.items) }
{
    let header = FrameHeader::new(OpCode::Control(Control::Ping), None);
    write_frame(&header, payload, output)
}

/// A pong with these bytes, those of a ping.
///
/// # Errors
///
/// There was no memory.
#[tactic(auto, unfolding(crate::specs::Frames::pong_frame))]
pub fn pong(payload: &[u8], output: &mut Vec<u8>) -> Result<(), AllocError>
    ensures ok { OnOk result (output.new.items ≡ output.old.items ++ pong_frame payload.now) }
    ensures err { OnErr result (output.new.items ≡ output.old.items) }
{
    let header = FrameHeader::new(OpCode::Control(Control::Pong), None);
    write_frame(&header, payload, output)
}

/// A close with this code or none, and no reason. Nothing may be sent after it.
///
/// # Errors
///
/// There was no memory.
#[tactic(auto, unfolding(crate::specs::Frames::close_frame))]
pub fn close(code: Option<Code>, output: &mut Vec<u8>) -> Result<(), AllocError>
    ensures ok { OnOk result (output.new.items ≡ output.old.items ++ close_frame (number_of code)) }
    ensures err { OnErr result (output.new.items ≡ output.old.items) }
{
    let header = FrameHeader::new(OpCode::Control(Control::Close), None);
    match code {
        Some(code) => write_frame(&header, &code.number.to_be_bytes(), output),
        None => write_frame(&header, &[], output),
    }
}
