//! Compact objects: plain objects without escapes, whose numbers have no leading zero, and without white space but for one space at most
//! before a key, a value or the last brace. Nearly all objects of commands are compact. Such an object is read in one pass over its bytes,
//! without an index of them and without memory.

ghost use Rattle.std.specs.Prelude.{◌≡◌, ◌≤◌, ◌<◌, ◌∷◌, ◌++◌, [], ℕ, ◌+◌, IfOk, IfSome, OnOk, Some, decimal, false, get_or, length, true};
ghost use Rattle.json.specs.Print.{quoted};
ghost use Rattle.serde_json.specs.Data.{no_members, object as an_object, put};
ghost use Rattle.serde_json.specs.Read.{read as read_text};
ghost use Rattle.relay_messages.specs.Compact.{IsBehindGap, IsBehindKey, IsClosed, IsField, IsMember, IsMemberOf, IsPlainByte};
ghost use Rattle.relay_messages.specs.Members.{field_data, members_in};
ghost use Rattle.relay_messages.specs.declared.member.Field.TheVariants.{Number as ANumber, Text as AText};
ghost use Rattle.relay_messages.specs.declared.member.Member.{Member as AMember};

use crate::member::{Field, Member};
use crate::object::plain::PlainObject;
use crate::reading::next::Next;

/// How many bytes a compact object may have. No command needs as many, and the index of a longer text is made faster than its bytes are
/// looked at one by one.
const LONGEST: usize = 128;

/// A number below this one fits 64 bits with one more digit.
const TOO_LONG: u64 = 1_000_000_000_000_000_000;

/// Whether a byte stands for itself in a text: it is no control character, quotation mark or backslash.
fn is_plain(byte: u8) -> bool
    ensures plain { result ≡ true → IsPlainByte byte }
    ensures other { result ≡ false → byte < 128 }
{
    byte >= b' ' && byte != b'"' && byte != b'\\'
}

/// How many bytes stand for themselves before the first that does not.
fn plain_len(bytes: &[u8]) -> usize
    ensures within { result ≤ length bytes.now }
    ensures plain { (k : ℕ) → k < result → IsPlainByte (get_or bytes.now k 0) }
    ensures other { result < length bytes.now → get_or bytes.now result 0 < 128 }
{
    let mut len = 0;
    'bytes: while len < bytes.len() && is_plain(bytes[len]) {
        len += 1;
    }
    len
}

/// What follows an ASCII character, if the text begins with it.
pub fn after(text: &str, first: u8) -> Option<&str>
    requires { first < 128 }
    ensures { IfSome result (λ rest. text.now ≡ first ∷ rest.now) }
{
    let bytes = text.as_bytes();
    if bytes.is_empty() || bytes[0] != first {
        return None;
    }
    Some(&text[1..])
}

/// What follows a space, if the text begins with one, or else the text.
fn skip_space(text: &str) -> &str
    ensures { IsBehindGap text.now result.now }
{
    match after(text, b' ') {
        Some(rest) => rest,
        None => text,
    }
}

/// The text in quotation marks that comes first, and what follows it.
fn take_text(text: &str) -> Option<(&str, &str)>
    ensures { IfSome result (λ taken. text.now ≡ quoted taken.0.now ++ taken.1.now) }
{
    let inside = after(text, b'"')?;
    let len = plain_len(inside.as_bytes());
    let rest = after(&inside[len..], b'"')?;
    Some((&inside[..len], rest))
}

/// The value of the digit that comes first, and what follows it.
fn take_digit(text: &str) -> Option<(u8, &str)>
    ensures digit { IfSome result (λ taken. taken.0 < 10) }
    ensures written { IfSome result (λ taken. text.now ≡ (48 + taken.0) ∷ taken.1.now) }
{
    let bytes = text.as_bytes();
    if bytes.is_empty() || bytes[0] < b'0' || bytes[0] > b'9' {
        return None;
    }
    Some((bytes[0] - b'0', &text[1..]))
}

/// The number with the digit that comes next, and what follows it. A number has no leading zero.
fn take_next_digit(number: u64, text: &str) -> Option<(u64, &str)>
    ensures shorter { IfSome result (λ taken. length taken.1.now < length text.now) }
    ensures written { IfSome result (λ taken. decimal number ++ text.now ≡ decimal taken.0 ++ taken.1.now) }
{
    if number == 0 || number >= TOO_LONG {
        return None;
    }
    let (digit, rest) = take_digit(text)?;
    Some((number * 10 + u64::from(digit), rest))
}

/// The number that comes first, and what follows it.
fn take_number(text: &str) -> Option<(u64, &str)>
    ensures { IfSome result (λ taken. text.now ≡ decimal taken.0 ++ taken.1.now) }
{
    let (first, mut rest) = take_digit(text)?;
    let mut number = u64::from(first);
    'digits: while let Some((more, left)) = take_next_digit(number, rest) {
        number = more;
        rest = left;
    }
    Some((number, rest))
}

/// What follows a key and the space behind it, if the key comes first, or behind a space. The key is written as in a text, with its colon.
fn after_key<'a>(text: &'a str, key: &str) -> Option<&'a str>
    ensures { IfSome result (λ rest. IsBehindKey key.now text.now rest.now) }
{
    let value = skip_space(text).strip_prefix(key)?;
    Some(skip_space(value))
}

/// How a text is tried next in which another value comes first than was asked for. A compact object may have one of the other kind there.
fn next_at(is_of_other_kind: bool) -> Next {
    if is_of_other_kind {
        Next::Compact
    } else {
        Next::Plain
    }
}

/// The text of the member with this key, if that comes first, and what follows it.
///
/// # Errors
///
/// Another key comes first, or another value.
pub fn take_text_of<'a>(text: &'a str, key: &str) -> Result<(&'a str, &'a str), Next>
    ensures { IfOk result (λ taken. IsMemberOf key.now (AText taken.0) text.now taken.1.now) }
{
    let value = after_key(text, key).ok_or(Next::Compact)?;
    match take_text(value) {
        Some(taken) => Ok(taken),
        None => Err(next_at(take_digit(value).is_some())),
    }
}

/// The number of the member with this key, if that comes first, and what follows it.
///
/// # Errors
///
/// Another key comes first, or another value.
pub fn take_number_of<'a>(text: &'a str, key: &str) -> Result<(u64, &'a str), Next>
    ensures { IfOk result (λ taken. IsMemberOf key.now (ANumber taken.0) text.now taken.1.now) }
{
    let value = after_key(text, key).ok_or(Next::Compact)?;
    match take_number(value) {
        Some(taken) => Ok(taken),
        None => Err(next_at(after(value, b'"').is_some())),
    }
}

/// The text or the number that comes first, and what follows it.
fn take_field(text: &str) -> Option<(Field<'_>, &str)>
    ensures { IfSome result (λ taken. IsField taken.0 text.now taken.1.now) }
{
    match take_text(text) {
        Some((value, rest)) => Some((Field::Text(value), rest)),
        None => {
            let (number, rest) = take_number(text)?;
            Some((Field::Number(number), rest))
        }
    }
}

/// The member that comes first, and what follows it.
fn take_member(text: &str) -> Option<(Member<'_>, &str)>
    ensures { IfSome result (λ taken. IsMember taken.0 text.now taken.1.now) }
{
    let (key, named) = take_text(skip_space(text))?;
    let value = after(named, b':')?;
    let (field, rest) = take_field(skip_space(value))?;
    Some((Member { key, field }, rest))
}

/// Adds the member that comes first. Returns what follows it.
///
/// # Errors
///
/// The text begins with no such member, or the object would not be plain.
fn add_member<'a>(object: &mut PlainObject<'a>, text: &'a str) -> Result<&'a str, Next>
    ensures { IfOk result (λ rest. (m : AMember) × IsMember m text.now rest.now
        × (members_in object.new.members.items ≡ put m.key.now (field_data m.field) (members_in object.old.members.items))) }
{
    let (member, rest) = take_member(text).ok_or(Next::Plain)?;
    match object.add(member.key, member.field) {
        Ok(()) => Ok(rest),
        Err(_) => Err(Next::Any),
    }
}

/// What follows the first brace of a text that may be a compact object: it is no longer than one may be, and ends with a brace. That one is
/// looked at first: many texts that are not compact have white space behind their object, as the lines of a file from Windows do.
///
/// # Errors
///
/// The text is no compact object.
pub fn open_compact(text: &str) -> Result<&str, Next>
    ensures { IfOk result (λ first. text.now ≡ 123 ∷ first.now) }
{
    if text.len() > LONGEST || text.as_bytes().last() != Some(&b'}') {
        return Err(Next::Plain);
    }
    after(text, b'{').ok_or(Next::Plain)
}

/// Whether a text is the brace that closes a compact object, and nothing else but a space before it.
pub fn is_closed(text: &str) -> bool
    ensures { result ≡ true → IsClosed text.now }
{
    skip_space(text) == "}"
}

/// Reads the compact object that a text is into an object without members, where it stays.
///
/// # Errors
///
/// The text is not a compact object with members, or longer than one may be. The object is of no use then.
pub fn read_compact<'a>(text: &'a str, object: &mut PlainObject<'a>) -> Result<(), Next>
    requires { members_in object.old.members.items ≡ no_members }
    ensures { OnOk result (read_text text.now ≡ Some (an_object (members_in object.new.members.items))) }
{
    let first = open_compact(text)?;
    let mut rest = add_member(object, first)?;
    'members: while let Some(next) = after(rest, b',') {
        rest = add_member(object, next)?;
    }
    if is_closed(rest) {
        Ok(())
    } else {
        Err(Next::Plain)
    }
}
