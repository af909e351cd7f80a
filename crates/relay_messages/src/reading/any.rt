//! Objects of any form, and other values, are read from the tokens of their text. Members that no command asks for are skipped.

ghost use Rattle.std.specs.Prelude.{◌≡◌, ◌<◌, ◌∷◌, Err, IfOk, None, OnErr, OnOk, Some, length};
ghost use Rattle.json.specs.Json.{members, value};
ghost use Rattle.serde_json.specs.Data.{Data, Members, no_members};
ghost use Rattle.serde_json.specs.Read.{converted, of_json, of_members, read};
ghost use Rattle.relay_messages.specs.Any.{IsFound, IsNext};
ghost use Rattle.relay_messages.specs.Beginnings.{opening};
ghost use Rattle.relay_messages.specs.KeptValues.{kept, kept_members};
ghost use Rattle.relay_messages.specs.Members.{field_data, members_in};

use crate::member::Field;
use crate::object::any::{AnyObject, KeptMembers};
use crate::passing::{Beginning, Nest, pass_rest, take_beginning};
use crate::unread::Unread;
use json::{Invalid, Reader, Scratch};
use std::alloc::Global;

/// The value of a member, which comes next in the text.
fn read_field<'a>(reader: &mut Reader<'a>) -> Result<Field<'a>, Invalid>
    ensures ok { IfOk result (λ field. (d : Data) × (converted of_json (value 126 reader.old) ≡ Some (d, reader.new)) × (field_data field ≡ kept d)) }
    ensures shorter { OnOk result (length reader.new < length reader.old) }
    ensures err { OnErr result (converted of_json (value 126 reader.old) ≡ None) }
{
    let beginning = take_beginning(reader)?;
    match beginning {
        Beginning::Text(text) => Ok(Field::Text(text)),
        Beginning::Whole(number) => Ok(Field::Number(number)),
        Beginning::Other => Ok(Field::Other),
        Beginning::Opens(nest) => {
            pass_rest(reader, nest, 125)?;
            Ok(Field::Other)
        }
    }
}

/// The members after an opening brace, up to and including the brace that closes them.
fn read_members<'a>(alloc: Global, reader: &mut Reader<'a>) -> Result<KeptMembers<'a>, Unread>
    ensures ok { IfOk result (λ found. (ms : Members) × (converted (λ ms. of_members ms no_members)
        (members (value 126) (length reader.old) reader.old) ≡ Some (ms, reader.new)) × (members_in found.members.items ≡ kept_members ms)) }
    ensures err { result ≡ Err Unread.NotJson → converted (λ ms. of_members ms no_members)
        (members (value 126) (length reader.old) reader.old) ≡ None }
{
    let mut found = KeptMembers::new(alloc);
    'members: while let Some(key) = reader.next_key()? {
        let field = read_field(reader)?;
        found.add(key, field)?;
    }
    Ok(found)
}

/// What is kept of an object that was opened, or none if an array was.
fn read_opened<'a>(
    alloc: Global,
    reader: &mut Reader<'a>,
    nest: Nest,
) -> Result<Option<KeptMembers<'a>>, Unread>
    ensures ok { IfOk result (λ found. IsNext found (opening nest ∷ reader.old) reader.new) }
    ensures err { result ≡ Err Unread.NotJson → converted of_json (value 127 (opening nest ∷ reader.old)) ≡ None }
{
    match nest {
        Nest::Object => {
            let members = read_members(alloc, reader)?;
            Ok(Some(members))
        }
        Nest::Array => {
            pass_rest(reader, Nest::Array, 126)?;
            Ok(None)
        }
    }
}

/// What is kept of the object that comes next, or none if another value does.
fn read_next<'a>(alloc: Global, reader: &mut Reader<'a>) -> Result<Option<KeptMembers<'a>>, Unread>
    ensures ok { IfOk result (λ found. IsNext found reader.old reader.new) }
    ensures err { result ≡ Err Unread.NotJson → converted of_json (value 127 reader.old) ≡ None }
{
    let beginning = take_beginning(reader)?;
    match beginning {
        Beginning::Opens(nest) => read_opened(alloc, reader, nest),
        Beginning::Text(_) => Ok(None),
        Beginning::Whole(_) => Ok(None),
        Beginning::Other => Ok(None),
    }
}

/// The object that a text is, or none if it is another value.
pub fn read_object<'a>(
    alloc: Global,
    text: &'a str,
    scratch: &'a mut Scratch,
) -> Result<Option<AnyObject<'a>>, Unread>
    ensures ok { IfOk result (λ found. IsFound found (read text.now)) }
    ensures err { result ≡ Err Unread.NotJson → read text.now ≡ None }
{
    let mut reader = Reader::new(text, scratch)?;
    let found = read_next(alloc, &mut reader)?;
    match reader.next() {
        None => {}
        Some(_) => return Err(Unread::NotJson),
    }
    match found {
        Some(members) => Ok(Some(AnyObject::new(text, members))),
        None => Ok(None),
    }
}
