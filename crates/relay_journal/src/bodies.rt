//! What a line of a journal says.

ghost use Rattle.std.specs.Prelude.{◌≡◌, ◌≢◌, ◌++◌, ◌∷◌, false, None, Some, IfOk, IfSome, is_some};
ghost use Rattle.relay_messages.specs.declared.fault.MessageFault.TheVariants.{OutOfMemory};
ghost use Rattle.relay_journal.specs.declared.entry.Entry.{Entry as Kept};
ghost use Rattle.relay_journal.specs.Bodies.{IsBody, is_whole, is_written, key_in};
ghost use Rattle.relay_journal.specs.Kept.{key_of};

use crate::entry::Entry;
use crate::texts::command_of;
use memchr::memchr;
use relay_hall::Key;
use relay_messages::{MessageFault, decode};
use std::alloc::{AllocError, Global};

/// A key, or none for `-`; or neither.
fn owner_in(text: &[u8]) -> Option<Option<Key>>
    ensures { result ≡ key_in text.now }
{
    if text == b"-".as_slice() {
        return Some(None);
    }
    match Key::parse(text) {
        Some(key) => Some(Some(key)),
        None => None,
    }
}

/// Whether the text is a key of 64 bytes, behind which no zeros are.
fn is_whole(text: &[u8]) -> bool
    ensures { result ≡ is_whole text.now }
{
    text.len() == 64 && Key::parse(text).is_some()
}

/// What a line has of an owner with this key, or `-` for none; or None if the key has fewer than 64 bytes, of which no line is made.
pub(crate) fn owner_text(key: &Option<Key>) -> Option<&[u8]>
    ensures text { IfSome result (λ text. key_in text.now ≡ Some key.now) }
    ensures some { is_some result ≡ is_written key.now }
{
    let Some(key) = key else {
        return Some(b"-");
    };
    let text = key.bytes().as_slice();
    if is_whole(text) { Some(text) } else { None }
}

/// Whether this is no fault of the text.
fn is_want_of_memory(fault: &MessageFault) -> bool
    ensures { result ≡ false → fault.now ≢ OutOfMemory }
{
    matches!(fault, MessageFault::OutOfMemory)
}

/// The entry that a line says, if it says one.
///
/// # Errors
///
/// There was no memory.
pub fn entry_in(alloc: Global, body: &[u8]) -> Result<Option<Entry>, AllocError>
    ensures some { IfOk result (λ o. IfSome o (λ e. IsBody body.now e)) }
    ensures none { IfOk result (λ o. o ≡ None → (e : Kept) → IsBody body.now e → ⊥) }
{
    let Some(at) = memchr(b' ', body) else {
        return Ok(None);
    };
    let Some(key) = owner_in(&body[..at]) else {
        return Ok(None);
    };
    match decode(alloc, &body[at + 1..]) {
        Ok(step) => Ok(Entry::with(key, &step)),
        Err(fault) => {
            if is_want_of_memory(&fault) {
                Err(AllocError)
            } else {
                Ok(None)
            }
        }
    }
}

/// An owner and a command, with a space between them.
///
/// # Errors
///
/// There was no memory.
fn joined(alloc: Global, owner: &[u8], command: &str) -> Result<Vec<u8>, AllocError>
    ensures { IfOk result (λ body. body.items ≡ owner.now ++ 32 ∷ command.now) }
{
    let mut body = owner.to_vec(alloc)?;
    body.push(b' ')?;
    body.extend_from_slice(command.as_bytes())?;
    Ok(body)
}

/// What a line says of an entry and of its owner, whose key is given as a text, or `-` for none.
///
/// # Errors
///
/// There was no memory.
pub fn body_of(alloc: Global, owner: &[u8], entry: &Entry) -> Result<Vec<u8>, AllocError>
    ensures { key_in owner.now ≡ Some (key_of entry.now) → IfOk result (λ body. IsBody body.items entry.now) }
{
    let command = command_of(alloc, entry)?;
    joined(alloc, owner, command.as_str())
}
