//! The bytes held for a peer.

ghost use Rattle.std.specs.Prelude.{◌≡◌, ◌+◌, ◌≤◌, [], ◌++◌, length, take, drop, vec_capacity, vec_len, IfOk, OnOk, OnErr};
ghost use Rattle.websocket.specs.FrameHeader.{header_len};
ghost use Rattle.relay_frames.specs.Reading.{payload_at};

use crate::payload::{move_down, unmasked};
use crate::peer::MOST_BYTES;
use std::alloc::{AllocError, Global};
use std::marker::Model;
use std::mem;
use websocket::protocol::frame::FrameHeader;

/// The bytes so far of a message in fragments, without their mask, and after them those that have not been read.
///
/// They share one vector, so that a payload needs no second one: it is unmasked in place and moved down over its frame's
/// head. Room is added for what has come or was announced, and for no more; a vector that grows by itself doubles. No room is held
/// if there are no bytes.
#[derive(Drop)]
pub(crate) struct Buffer {
    alloc: Global,
    bytes: Vec<u8>,
    /// Where the message so far ends.
    message: usize,
    /// Where the bytes begin that have not been read. What lies between is dropped when more are added, so that reading many
    /// small frames moves no bytes.
    read: usize,
}

impl Model for Buffer {
    ghost use Rattle.std.specs.Prelude.{◌≤◌, take, drop, vec_capacity, vec_len};
    ghost use Rattle.relay_frames.specs.Holding.{HasNoIdleRoom, Held};

    ghost Value = { Held };

    ghost view = { λ b. record { message = take b.message b.bytes.items; unread = drop b.read b.bytes.items } };

    ghost invariant = { λ b. (b.message ≤ b.read) × ((b.read ≤ vec_len b.bytes) × HasNoIdleRoom b.message b.read (vec_len b.bytes) (vec_capacity b.bytes)) };
}

impl Buffer {
    /// No bytes.
    pub(crate) fn new(alloc: Global) -> Buffer
        ensures { result ≡ record { message = []; unread = [] } }
    {
        Buffer {
            alloc,
            bytes: Vec::new(alloc),
            message: 0,
            read: 0,
        }
    }

    /// The bytes of the message so far.
    pub(crate) fn message(&self) -> &[u8]
        ensures { result.now ≡ self.now.message }
    {
        &self.bytes[..self.message]
    }

    /// The bytes that have not been read.
    pub(crate) fn unread(&self) -> &[u8]
        ensures { result.now ≡ self.now.unread }
    {
        &self.bytes[self.read..]
    }

    /// Adds bytes.
    ///
    /// # Errors
    ///
    /// There was no memory. Then nothing has changed.
    pub(crate) fn push(&mut self, bytes: &[u8]) -> Result<(), AllocError>
        ensures ok { OnOk result (self.new ≡ record self.old { unread = self.old.unread ++ bytes.now }) }
        ensures err { OnErr result (self.new ≡ self.old) }
    {
        if bytes.is_empty() {
            return Ok(());
        }
        self.close_up();
        self.bytes.reserve_exact(bytes.len())?;
        self.bytes.extend_from_slice(bytes)
    }

    /// If there are unread bytes, ensures room for `total` unread bytes in all, and for no more.
    ///
    /// # Errors
    ///
    /// There was no memory. Then nothing has changed.
    pub(crate) fn expect(&mut self, total: usize) -> Result<(), AllocError>
        ensures { self.new ≡ self.old }
    {
        let came = self.unread().len();
        if came == 0 {
            return Ok(());
        }
        self.close_up();
        self.bytes.reserve_exact(total.saturating_sub(came))
    }

    /// Reads a frame that belongs to no message in fragments, and returns its payload.
    ///
    /// # Errors
    ///
    /// There was no memory. Then nothing has changed.
    pub(crate) fn read_apart(
        &mut self,
        header: &FrameHeader,
        size: usize,
    ) -> Result<Vec<u8>, AllocError>
        requires whole { header_len header.now size + size ≤ length self.old.unread }
        requires small { size ≤ MOST_BYTES }
        ensures payload { IfOk result (λ payload. payload.items ≡ payload_at self.old.unread header.now size) }
        ensures read { OnOk result (self.new ≡ record self.old { unread = drop (header_len header.now size + size) self.old.unread }) }
        ensures unchanged { OnErr result (self.new ≡ self.old) }
    {
        let start = header.len(size as u64);
        let payload = unmasked(self.alloc, &self.unread()[start..][..size], header.mask)?;
        self.skip(start + size);
        Ok(payload)
    }

    /// Reads a frame of the message that has begun, and appends its payload to the message so far.
    pub(crate) fn read_on(&mut self, header: &FrameHeader, size: usize)
        requires whole { header_len header.now size + size ≤ length self.old.unread }
        requires small { size ≤ MOST_BYTES }
        ensures { self.new ≡ record { message = self.old.message ++ payload_at self.old.unread header.now size; unread = drop (header_len header.now size + size) self.old.unread } }
    {
        let start = self.read + header.len(size as u64);
        move_down(&mut self.bytes, start, size, header.mask, self.message);
        self.message += size;
        self.read = start + size;
        if self.message == 0 && self.read == self.bytes.len() {
            self.bytes = Vec::new(self.alloc);
            self.read = 0;
        }
    }

    /// Reads the last frame of a message, and returns the message.
    ///
    /// The vector itself becomes the message, and what follows the frame gets a new one. Only if that is the longer part, as
    /// with many small messages in one piece, the message gets the new one.
    ///
    /// # Errors
    ///
    /// There was no memory. Then nothing has changed.
    pub(crate) fn read_last(
        &mut self,
        header: &FrameHeader,
        size: usize,
    ) -> Result<Vec<u8>, AllocError>
        requires whole { header_len header.now size + size ≤ length self.old.unread }
        requires small { size ≤ MOST_BYTES }
        ensures message { IfOk result (λ bytes. bytes.items ≡ self.old.message ++ payload_at self.old.unread header.now size) }
        ensures read { OnOk result (self.new ≡ record { message = []; unread = drop (header_len header.now size + size) self.old.unread }) }
        ensures unchanged { OnErr result (self.new ≡ self.old) }
    {
        let start = self.read + header.len(size as u64);
        let end = start + size;
        if self.message == 0 && size < self.bytes.len() - end {
            return self.read_apart(header, size);
        }
        let rest = cut(self.alloc, &mut self.bytes, end)?;
        move_down(&mut self.bytes, start, size, header.mask, self.message);
        self.bytes.truncate(self.message + size);
        self.message = 0;
        self.read = 0;
        Ok(mem::replace(&mut self.bytes, rest))
    }

    /// Drops all bytes.
    pub(crate) fn clear(&mut self)
        ensures { self.new ≡ record { message = []; unread = [] } }
    {
        self.bytes = Vec::new(self.alloc);
        self.message = 0;
        self.read = 0;
    }

    /// Moves what has not been read right after the message.
    fn close_up(&mut self)
        ensures { self.new ≡ self.old }
    {
        self.bytes.drain(self.message..self.read);
        self.read = self.message;
    }

    /// Marks `count` bytes as read.
    fn skip(&mut self, count: usize)
        requires { count ≤ length self.old.unread }
        ensures { self.new ≡ record self.old { unread = drop count self.old.unread } }
    {
        self.read += count;
        if self.message == 0 && self.read == self.bytes.len() {
            self.bytes = Vec::new(self.alloc);
            self.read = 0;
        }
    }
}

/// Cuts off the bytes from here on. If there are none, no room is taken for them.
fn cut(alloc: Global, bytes: &mut Vec<u8>, at: usize) -> Result<Vec<u8>, AllocError>
    requires { at ≤ vec_len bytes.old }
    ensures kept { OnOk result (bytes.new.items ≡ take at bytes.old.items) }
    ensures rest { IfOk result (λ rest. rest.items ≡ drop at bytes.old.items) }
    ensures no_room { IfOk result (λ rest. vec_len rest ≡ 0 → vec_capacity rest ≡ 0) }
    ensures unchanged { OnErr result (bytes.new ≡ bytes.old) }
{
    if at == bytes.len() {
        return Ok(Vec::new(alloc));
    }
    bytes.split_off(at)
}
