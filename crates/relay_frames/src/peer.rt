//! A peer, from the end of its request on.

ghost use Rattle.std.specs.Prelude.{◌≡◌, ◌+◌, ◌≤◌, false, length, drop, option_map, IfOk, OnOk, OnErr};
ghost use Rattle.websocket.specs.FrameHeader.{header_len};
ghost use Rattle.websocket.specs.declared.protocol.frame.coding.OpCode.TheVariants as OpCode;
ghost use Rattle.relay_frames.specs.Events.{broken, told};
ghost use Rattle.relay_frames.specs.Holding.{continued};
ghost use Rattle.relay_frames.specs.Reading.{HasRoom, IsEffect, IsStep, control_breach, data_breach, fed, frame_effect, goes_on, head_breach, is_midway, message_effect, next_step, opened, over, payload_at, read_checked, read_frame, with_payload};

use crate::begun::{Begun, size_breach};
use crate::breach::Breach;
use crate::buffer::Buffer;
use crate::event::Event;
use crate::payload::control_event;
use std::alloc::{AllocError, Global};
use std::marker::Model;
use websocket::protocol::frame::FrameHeader;
use websocket::protocol::frame::coding::{Data, OpCode};

/// How many bytes a message may have.
pub const MOST_BYTES: usize = 65536;

/// How many fragments a message may have.
pub const MOST_FRAGMENTS: u32 = 1024;

/// How many bytes a control frame may have (RFC 6455, section 5.5).
const MOST_CONTROL_BYTES: u64 = 125;

/// A peer that has shaken hands. It is fed the bytes that came from it, in pieces of any size, and returns what they mean.
///
/// Feed it, and then call `next` until that returns nothing. Then less than one frame is kept, and of a message in fragments what came
/// so far. The events depend only on the bytes, not on how they were cut into pieces.
#[derive(Drop)]
pub struct Peer {
    buffer: Buffer,
    begun: Option<Begun>,
    is_over: bool,
}

impl Model for Peer {
    ghost use Rattle.relay_frames.specs.Holding.{HasNoStray, begun_of};
    ghost use Rattle.relay_frames.specs.Reading.{Reading};

    ghost Value = { Reading };

    ghost view = { λ p. record { unread = p.buffer.unread; begun = begun_of p.buffer.message p.begun; is_over = p.is_over } };

    ghost invariant = { λ p. HasNoStray p.buffer.message p.begun };
}

impl Peer {
    /// A peer that has sent nothing after its request.
    pub fn new(alloc: Global) -> Peer
        ensures { result ≡ opened }
    {
        Peer {
            buffer: Buffer::new(alloc),
            begun: None,
            is_over: false,
        }
    }

    /// Whether a close or a breach was reported. There are no more events then.
    pub fn is_over(&self) -> bool
        ensures { result ≡ self.now.is_over }
    {
        self.is_over
    }

    /// Whether the peer is in the middle of a frame or of a message, so that more has to come soon.
    pub fn is_midway(&self) -> bool
        ensures { result ≡ is_midway self.now }
    {
        !self.buffer.unread().is_empty() || self.begun.is_some()
    }

    /// These bytes came. Once a close or a breach was reported, they are dropped.
    ///
    /// # Errors
    ///
    /// There was no memory. Then nothing has changed.
    pub fn feed(&mut self, bytes: &[u8]) -> Result<(), AllocError>
        ensures fed { OnOk result (self.new ≡ fed self.old bytes.now) }
        ensures unchanged { OnErr result (self.new ≡ self.old) }
    {
        if self.is_over {
            return Ok(());
        }
        self.buffer.push(bytes)
    }

    /// What the bytes mean next: `None` if more have to come, and always once a close or a breach was reported. A breach is reported as
    /// soon as the head of its frame has come.
    ///
    /// # Errors
    ///
    /// There was no memory. Then nothing has changed.
    #[tactic(auto, unfolding(crate::specs::Reading::next_step))]
    pub fn next(&mut self) -> Result<Option<Event>, AllocError>
        ensures told { IfOk result (λ event. option_map told event ≡ (next_step self.old).told) }
        ensures then { OnOk result (self.new ≡ (next_step self.old).then) }
        ensures unchanged { OnErr result (self.new ≡ self.old) }
    {
        if self.is_over {
            return Ok(None);
        }
        match FrameHeader::parse(self.buffer.unread()) {
            Ok(None) => Ok(None),
            Ok(Some((header, length))) => self.next_checked(&header, length),
            Err(_) => Ok(Some(self.break_off(Breach::NoHead))),
        }
    }

    /// What the frame with this head means.
    #[tactic(auto, using(crate::proofs::Rules::head_kept))]
    fn next_checked(
        &mut self,
        header: &FrameHeader,
        length: u64,
    ) -> Result<Option<Event>, AllocError>
        requires { self.old.is_over ≡ false }
        ensures told { IfOk result (λ event. option_map told event ≡ (read_checked self.old header.now length (head_breach self.old.begun header.now length)).told) }
        ensures then { OnOk result (self.new ≡ (read_checked self.old header.now length (head_breach self.old.begun header.now length)).then) }
        ensures unchanged { OnErr result (self.new ≡ self.old) }
    {
        match self.head_breach(header, length) {
            Some(breach) => Ok(Some(self.break_off(breach))),
            None => self.next_whole(header, length as usize),
        }
    }

    /// What the frame with this head means, which keeps the rules. If more of it has to come, there is room for it from then on.
    fn next_whole(&mut self, header: &FrameHeader, size: usize) -> Result<Option<Event>, AllocError>
        requires open { self.old.is_over ≡ false }
        requires small { size ≤ MOST_BYTES }
        requires room { HasRoom self.old.begun header.now.opcode }
        ensures told { IfOk result (λ event. option_map told event ≡ (read_frame self.old header.now size).told) }
        ensures then { OnOk result (self.new ≡ (read_frame self.old header.now size).then) }
        ensures unchanged { OnErr result (self.new ≡ self.old) }
    {
        let total = header.len(size as u64) + size;
        if self.buffer.unread().len() < total {
            self.buffer.expect(total)?;
            return Ok(None);
        }
        Ok(Some(self.next_frame(header, size)?))
    }

    /// The rule that a frame's head breaks, if the payload has this many bytes.
    fn head_breach(&self, header: &FrameHeader, length: u64) -> Option<Breach>
        ensures { result ≡ head_breach self.now.begun header.now length }
    {
        if header.rsv1 || header.rsv2 || header.rsv3 {
            return Some(Breach::ReservedBit);
        }
        if header.mask.is_none() {
            return Some(Breach::Unmasked);
        }
        match header.opcode {
            OpCode::Control(_) => control_breach(header.is_final, length),
            OpCode::Data(kind) => self.data_breach(kind, length),
        }
    }

    /// The rule that a data frame breaks at its place in a message.
    fn data_breach(&self, kind: Data, length: u64) -> Option<Breach>
        ensures { result ≡ data_breach self.now.begun kind length }
    {
        match (&self.begun, kind) {
            (None, Data::Continue) => Some(Breach::NothingToContinue),
            (None, _) => size_breach(0, length),
            (Some(begun), Data::Continue) => begun.breach(self.buffer.message(), length),
            (Some(_), _) => Some(Breach::MessageWithinMessage),
        }
    }

    /// What a whole frame means, whose head keeps the rules and whose payload has this many bytes.
    fn next_frame(&mut self, header: &FrameHeader, size: usize) -> Result<Event, AllocError>
        requires open { self.old.is_over ≡ false }
        requires whole { header_len header.now size + size ≤ length self.old.unread }
        requires small { size ≤ MOST_BYTES }
        requires room { HasRoom self.old.begun header.now.opcode }
        ensures frame { IfOk result (λ event. IsStep (told event) self.new (goes_on (drop (header_len header.now size + size) self.old.unread) (frame_effect self.old.begun header.now.opcode header.now.is_final (payload_at self.old.unread header.now size)))) }
        ensures unchanged { OnErr result (self.new ≡ self.old) }
    {
        let event = match header.opcode {
            OpCode::Control(control) => {
                control_event(control, self.buffer.read_apart(header, size)?)
            }
            OpCode::Data(kind) => self.next_data(kind, header, size)?,
        };
        if event.is_last() {
            self.end();
        }
        Ok(event)
    }

    /// What a whole data frame means, with the message that it begins or continues.
    fn next_data(
        &mut self,
        kind: Data,
        header: &FrameHeader,
        size: usize,
    ) -> Result<Event, AllocError>
        requires whole { header_len header.now size + size ≤ length self.old.unread }
        requires small { size ≤ MOST_BYTES }
        requires room { HasRoom self.old.begun (OpCode.Data kind) }
        ensures effect { IfOk result (λ event. IsEffect (told event) self.new.begun (message_effect (with_payload self.old.begun kind (payload_at self.old.unread header.now size)) header.now.is_final)) }
        ensures rest { OnOk result (self.new.unread ≡ drop (header_len header.now size + size) self.old.unread) }
        ensures goes_on { OnOk result (self.new.is_over ≡ self.old.is_over) }
        ensures unchanged { OnErr result (self.new ≡ self.old) }
    {
        let begun = self.continued(kind);
        if !header.is_final {
            self.buffer.read_on(header, size);
            self.begun = Some(begun);
            return Ok(Event::Fragment);
        }
        let bytes = self.buffer.read_last(header, size)?;
        self.begun = None;
        Ok(begun.into_event(bytes))
    }

    /// The message with one more fragment, which begins it if none has begun.
    fn continued(&self, kind: Data) -> Begun
        requires { HasRoom self.now.begun (OpCode.Data kind) }
        ensures { result ≡ continued self.now.begun kind }
    {
        match &self.begun {
            Some(begun) => begun.and_one_more(),
            None => Begun::new(kind),
        }
    }

    /// The peer broke the protocol.
    fn break_off(&mut self, breach: Breach) -> Event
        ensures told { told result ≡ broken breach }
        ensures over { self.new ≡ over }
    {
        self.end();
        Event::Broken(breach)
    }

    /// No events follow.
    fn end(&mut self)
        ensures { self.new ≡ over }
    {
        self.buffer.clear();
        self.begun = None;
        self.is_over = true;
    }
}

/// The rule that a control frame breaks.
fn control_breach(is_final: bool, length: u64) -> Option<Breach>
    ensures { result ≡ control_breach is_final length }
{
    if !is_final {
        return Some(Breach::ControlInFragments);
    }
    if length > MOST_CONTROL_BYTES {
        return Some(Breach::LongControl);
    }
    None
}
