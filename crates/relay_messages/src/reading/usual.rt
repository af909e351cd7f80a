//! Usual objects: compact objects whose keys are those of a usual command, each once, in the order of docs/PROTOCOL.md. What each member is
//! follows from its place, so no key is kept or looked up.

ghost use Rattle.std.specs.Prelude.{◌≡◌, ◌∷◌, IfOk, IfSome, Some};
ghost use Rattle.serde_json.specs.Read.{read as read_text};
ghost use Rattle.relay_messages.specs.Compact.{IsLastOf};
ghost use Rattle.relay_messages.specs.Usual.{usual_data};
ghost use Rattle.relay_messages.specs.declared.member.Field.TheVariants.{Number as ANumber, Text as AText};

use crate::object::usual::Usual;
use crate::reading::compact::{after, is_closed, open_compact, take_number_of, take_text_of};
use crate::reading::next::Next;

/// How a text is tried next that goes on like this behind a member. A compact object has a comma there, or ends.
fn next_behind(rest: &str) -> Next {
    if after(rest, b',').is_some() || is_closed(rest) {
        Next::Compact
    } else {
        Next::Plain
    }
}

/// The text of the member with this key, if that comes first.
///
/// # Errors
///
/// The value is no text, or the object does not end behind it.
fn last_text<'a>(text: &'a str, key: &str) -> Result<Option<&'a str>, Next>
    ensures { IfOk result (λ found. IfSome found (λ value. IsLastOf key.now (AText value) text.now)) }
{
    match take_text_of(text, key) {
        Ok((value, end)) if is_closed(end) => Ok(Some(value)),
        Err(Next::Compact) => Ok(None),
        Ok((_, end)) => Err(next_behind(end)),
        Err(next) => Err(next),
    }
}

/// The number of the member with this key, if that comes first.
///
/// # Errors
///
/// The value is no number, or the object does not end behind it.
fn last_number(text: &str, key: &str) -> Result<Option<u64>, Next>
    ensures { IfOk result (λ found. IfSome found (λ number. IsLastOf key.now (ANumber number) text.now)) }
{
    match take_number_of(text, key) {
        Ok((number, end)) if is_closed(end) => Ok(Some(number)),
        Err(Next::Compact) => Ok(None),
        Ok((_, end)) => Err(next_behind(end)),
        Err(next) => Err(next),
    }
}

/// What follows the comma behind a member.
///
/// # Errors
///
/// No comma follows.
fn after_comma(text: &str) -> Result<&str, Next>
    ensures { IfOk result (λ rest. text.now ≡ 44 ∷ rest.now) }
{
    match after(text, b',') {
        Some(rest) => Ok(rest),
        None => Err(next_behind(text)),
    }
}

/// Whether an object of the command with this name has one of the forms, if its keys stand in the usual order. Other commands come once a
/// board, and are not read twice up to their last key.
fn has_usual_form(cmd: &str) -> bool {
    matches!(cmd, "take" | "leave" | "submit" | "follow")
}

/// Reads the usual object that a text is.
///
/// # Errors
///
/// The text is another one, which may mean the same.
pub fn read_usual(text: &str) -> Result<Usual<'_>, Next>
    ensures { IfOk result (λ usual. read_text text.now ≡ Some (usual_data usual)) }
{
    let (cmd, rest) = take_text_of(open_compact(text)?, r#""cmd":"#)?;
    if !has_usual_form(cmd) {
        return Err(Next::Compact);
    }
    let second = after_comma(rest)?;
    if let Some(spectator) = last_number(second, r#""spectator":"#)? {
        return Ok(Usual::Spectator { cmd, spectator });
    }
    let (board, rest) = take_text_of(second, r#""board":"#)?;
    let third = after_comma(rest)?;
    if let Some(m) = last_text(third, r#""move":"#)? {
        return Ok(Usual::Move { cmd, board, m });
    }
    let (spectator, rest) = take_number_of(third, r#""spectator":"#)?;
    if is_closed(rest) {
        return Ok(Usual::Follow {
            cmd,
            board,
            spectator,
        });
    }
    let fourth = after_comma(rest)?;
    match last_number(fourth, r#""from":"#)? {
        Some(from) => Ok(Usual::FollowFrom {
            cmd,
            board,
            spectator,
            from,
        }),
        None => Err(Next::Compact),
    }
}
