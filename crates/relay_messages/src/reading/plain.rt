//! Plain objects are read directly from the tokens of their text, whose bytes they borrow: no tree is built, and nothing is copied except
//! texts with escapes.

ghost use Rattle.std.specs.Prelude.{◌≡◌, ◌<◌, IfOk, IfSome, OnOk, Some, length, true};
ghost use Rattle.json.specs.Json.{members, value};
ghost use Rattle.serde_json.specs.Data.{no_members, object as an_object, unsigned};
ghost use Rattle.serde_json.specs.Read.{converted, number_of, of_json, of_members, read as read_text};
ghost use Rattle.relay_messages.specs.Members.{field_data, members_in};
ghost use Rattle.relay_messages.specs.Tokens.{read_tokens};

use crate::member::Field;
use crate::object::plain::PlainObject;
use crate::passing::has_minus;
use fast_float::Numeral;
use json::{Invalid, Reader, Scratch, Token};
use std::alloc::AllocError;

/// The unsigned whole number of a number's text: `1.0` and `1e0` do not count.
fn whole_number(text: &str) -> Option<u64>
    ensures { IfSome result (λ number. number_of text.now ≡ Some (unsigned number)) }
{
    let digits = text.as_bytes();
    if has_minus(digits) {
        return None;
    }
    Numeral::scan(digits).to_u64()
}

/// The text or the unsigned whole number that comes next.
fn read_field<'a>(reader: &mut Reader<'a>) -> Result<Field<'a>, Invalid>
    ensures ok { IfOk result (λ field. converted of_json (value 126 reader.old) ≡ Some (field_data field, reader.new)) }
    ensures shorter { OnOk result (length reader.new < length reader.old) }
{
    let token = reader.next().ok_or(Invalid)?;
    match token {
        Token::String(text) => Ok(Field::Text(text)),
        Token::Number(text) => match whole_number(text) {
            Some(number) => Ok(Field::Number(number)),
            None => Err(Invalid),
        },
        _ => Err(Invalid),
    }
}

/// Adds the members after an opening brace, up to and including the brace that closes them.
fn read_members<'a>(reader: &mut Reader<'a>, object: &mut PlainObject<'a>) -> Result<(), Invalid>
    ensures { OnOk result (converted (λ ms. of_members ms (members_in object.old.members.items))
        (members (value 126) (length reader.old) reader.old) ≡ Some (members_in object.new.members.items, reader.new)) }
{
    'members: while let Some(key) = reader.next_key()? {
        let field = read_field(reader)?;
        object.add(key, field)?;
    }
    Ok(())
}

/// Reads the plain object that the tokens are into an object without members.
fn read_object<'a>(reader: &mut Reader<'a>, object: &mut PlainObject<'a>) -> Result<(), Invalid>
    requires { members_in object.old.members.items ≡ no_members }
    ensures { OnOk result (read_tokens reader.old ≡ Some (an_object (members_in object.new.members.items))) }
{
    let Some(Token::BeginObject) = reader.next() else {
        return Err(Invalid);
    };
    read_members(reader, object)?;
    match reader.next() {
        None => Ok(()),
        Some(_) => Err(Invalid),
    }
}

/// Reads the plain object that a text is into an object without members, where it stays, since each move would copy room for four members.
/// Returns whether the text is a plain object. If it is not, the object is of no use. The scratch grows to the length of the text, and is
/// lent to the object.
///
/// # Errors
///
/// There was no memory for the scratch to grow.
pub fn read_plain<'a>(
    text: &'a str,
    scratch: &'a mut Scratch,
    object: &mut PlainObject<'a>,
) -> Result<bool, AllocError>
    requires { members_in object.old.members.items ≡ no_members }
    ensures { IfOk result (λ plain. plain ≡ true →
        read_text text.now ≡ Some (an_object (members_in object.new.members.items))) }
{
    let mut reader = Reader::new(text, scratch)?;
    Ok(read_object(&mut reader, object).is_ok())
}
