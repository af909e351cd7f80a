//! Reading a text as its command. Each way reads what `serde_json` reads, or gives up and says which is tried next (`next`). The numbers
//! are instructions of a whole `decode`, with the ways that failed.
//!
//! 1. `usual`: the keys of `take`, `leave`, `submit` or `follow` in their usual order, or else as compact: 410 a take, 730 a move.
//! 2. `compact`: at most 128 bytes, no escape, one space at most before a key, a value or the last brace, or else as plain: 1,150 to 1,900.
//! 3. `plain`: four members at most, texts and unsigned whole numbers, no key twice: 1,500 to 2,100, and up to 2,700 with an escape.
//! 4. `any`: any other text. Of an object, texts and unsigned whole numbers are kept, and the rest is skipped: 2,400 to 5,900.

mod any;
mod compact;
mod next;
mod plain;
mod usual;

ghost use Rattle.std.specs.Prelude.{◌≡◌};
ghost use Rattle.serde_json.specs.Read.{read};
ghost use Rattle.relay_messages.specs.Decoding.{IsDecoding, IsReading, IsSaid, IsWatchDecoding, text_says};

use crate::asking::Asked;
use crate::fault::MessageFault;
use crate::object::plain::PlainObject;
use crate::unread::Unread;
use crate::watch_command::WatchCommand;
use any::read_object;
use compact::read_compact;
use json::Scratch;
use next::Next;
use plain::read_plain;
use relay_core::Step;
use std::alloc::Global;
use std::str;
use usual::read_usual;

/// What a text asks of a relay.
pub type Command = Step;

/// How many bytes a text may have.
pub const MOST_BYTES: usize = 1024;

/// What a text asks for that is not a plain object, or any other.
fn read_any<A: Asked>(alloc: Global, scratch: &mut Scratch, text: &str) -> Result<A, MessageFault>
    ensures { IsReading A.says text.now result }
{
    match read_object(alloc, text, scratch) {
        Ok(Some(object)) => A::of(&object),
        Ok(None) => Err(MessageFault::NotObject),
        Err(Unread::NotJson) => Err(MessageFault::NotJson),
        Err(Unread::OutOfMemory) => Err(MessageFault::OutOfMemory),
    }
}

/// What a text in UTF-8 asks for that is neither a usual nor a compact object, or any other, and that is tried next in this way.
fn read_long<A: Asked>(
    alloc: Global,
    scratch: &mut Scratch,
    text: &str,
    next: Next,
) -> Result<A, MessageFault>
    ensures { IsReading A.says text.now result }
{
    if let Next::Any = next {
        return read_any(alloc, scratch, text);
    }
    let mut object = PlainObject::new();
    match read_plain(text, scratch, &mut object) {
        Ok(true) => A::of(&object),
        Ok(false) => read_any(alloc, scratch, text),
        Err(_) => Err(MessageFault::OutOfMemory),
    }
}

/// The same, with places of a text that are kept for this one alone. It is never inlined, so that only such a text has them on the stack.
#[inline(never)]
fn read_alone<A: Asked>(alloc: Global, text: &str, next: Next) -> Result<A, MessageFault>
    ensures { IsReading A.says text.now result }
{
    read_long(alloc, &mut Scratch::new(alloc), text, next)
}

/// What a text in UTF-8 asks for that is not a usual object, or any other, and that is tried next in this way. It is never inlined, so that
/// the room for members is not cleared for a usual object.
#[inline(never)]
fn read_unusual<A: Asked>(
    alloc: Global,
    scratch: Option<&mut Scratch>,
    text: &str,
    next: Next,
) -> Result<A, MessageFault>
    ensures { IsReading A.says text.now result }
{
    let mut object = PlainObject::new();
    let next = match next {
        Next::Compact => match read_compact(text, &mut object) {
            Ok(()) => return A::of(&object),
            Err(next) => next,
        },
        Next::Plain | Next::Any => next,
    };
    match scratch {
        Some(scratch) => read_long(alloc, scratch, text, next),
        None => read_alone(alloc, text, next),
    }
}

/// What a text in UTF-8 asks for.
fn read_text<A: Asked>(
    alloc: Global,
    scratch: Option<&mut Scratch>,
    text: &str,
) -> Result<A, MessageFault>
    ensures { IsReading A.says text.now result }
{
    match read_usual(text) {
        Ok(usual) => A::of(&usual),
        Err(next) => read_unusual(alloc, scratch, text, next),
    }
}

/// What a text asks for.
fn read<A: Asked>(
    alloc: Global,
    scratch: Option<&mut Scratch>,
    text: &[u8],
) -> Result<A, MessageFault>
    ensures { IsSaid text.now (text_says A.says text.now) result }
{
    if text.len() > MOST_BYTES {
        return Err(MessageFault::BadField);
    }
    match str::from_utf8(text) {
        Ok(text) => read_text(alloc, scratch, text),
        Err(_) => Err(MessageFault::NotJson),
    }
}

/// Decodes texts one after another. It keeps the memory that reading needs from one text to the next: some 16 KiB, most of them places of
/// the text that only `plain` and `any` look at.
#[derive(Drop)]
pub struct Decoder {
    alloc: Global,
    scratch: Scratch,
}

impl Decoder {
    /// A decoder that takes no memory yet.
    pub fn new(alloc: Global) -> Decoder {
        Decoder {
            alloc,
            scratch: Scratch::new(alloc),
        }
    }

    /// The command that a text gives, as `decode` returns it.
    ///
    /// # Errors
    ///
    /// Those of `decode`.
    #[tactic(auto, unfolding(crate::specs::Decoding::decoded))]
    pub fn decode(&mut self, text: &[u8]) -> Result<Command, MessageFault>
        ensures { IsDecoding text.now result }
    {
        read(self.alloc, Some(&mut self.scratch), text)
    }

    /// The command that a text gives on the watch port: `boards`, which has no other key, or what it gives on the main port.
    ///
    /// # Errors
    ///
    /// Those of `decode`; `boards` is a command here.
    #[tactic(auto, unfolding(crate::specs::Decoding::watch_decoded))]
    pub fn decode_watch(&mut self, text: &[u8]) -> Result<WatchCommand, MessageFault>
        ensures { IsWatchDecoding text.now result }
    {
        read(self.alloc, Some(&mut self.scratch), text)
    }
}

/// The command that a text gives: a JSON object (RFC 8259) with the keys of one of the six commands. White space, escapes
/// and the order of keys are free, as `serde_json` reads them; if a key is repeated, the last one counts.
///
/// # Errors
///
/// The first of these: `BadField` for a text of more than 1,024 bytes, for which no memory is taken; `NotJson` for a text
/// that `serde_json` does not read; `NotObject`; `UnknownCommand` if `cmd` is missing, is not a text or names no command;
/// `BadField` if a key is missing, there is a key too many, or a value has another form. `OutOfMemory` if a text within
/// the 1,024 bytes could not be read for lack of memory.
#[tactic(auto, unfolding(crate::specs::Decoding::decoded))]
pub fn decode(alloc: Global, text: &[u8]) -> Result<Command, MessageFault>
    ensures { IsDecoding text.now result }
{
    read(alloc, None, text)
}
