//! Plain objects: at most four members, each a text or an unsigned whole number, and no key twice. All objects of commands are plain.

ghost use Rattle.std.specs.Prelude.{◌≡◌, OnOk, length, option_map};
ghost use Rattle.serde_json.specs.Data.{no_members, put};
ghost use Rattle.serde_json.specs.Events.{members_len};
ghost use Rattle.serde_json.specs.Find.{get_member};
ghost use Rattle.relay_messages.specs.Members.{field_data, members_in};

use crate::member::{Field, Member};
use arrayvec::ArrayVec;
use json::Invalid;

/// How many members a plain object has at most: as many as the command with the most keys.
const MOST: usize = 4;

/// A plain object.
#[derive(Drop)]
pub struct PlainObject<'a> {
    members: ArrayVec<Member<'a>, MOST>,
    ghost counted: { members_len (members_in members.items) ≡ length members.items },
}

impl<'a> PlainObject<'a> {
    /// An object without members.
    pub fn new() -> PlainObject<'a>
        ensures { members_in result.members.items ≡ no_members }
    {
        PlainObject {
            members: ArrayVec::new(),
        }
    }

    /// Takes all members out.
    pub fn clear(&mut self)
        ensures { members_in self.new.members.items ≡ no_members }
    {
        self.members.clear();
    }

    /// How many members it has.
    pub fn len(&self) -> usize
        ensures { result ≡ members_len (members_in self.now.members.items) }
    {
        self.members.len()
    }

    /// The value of the member with that key.
    pub fn get(&self, key: &str) -> Option<Field<'a>>
        ensures { option_map field_data result ≡ get_member key.now (members_in self.now.members.items) }
    {
        find(self.members.as_slice(), key)
    }

    /// Adds a member.
    ///
    /// # Errors
    ///
    /// There is already a member with that key, or there is no room.
    pub fn add(&mut self, key: &'a str, field: Field<'a>) -> Result<(), Invalid>
        ensures { OnOk result (members_in self.new.members.items
            ≡ put key.now (field_data field.entry) (members_in self.old.members.items)) }
    {
        if self.get(key).is_some() || self.members.is_full() {
            return Err(Invalid);
        }
        self.members.push(Member { key, field });
        Ok(())
    }
}

/// The value of the last of the members with that key.
pub fn find<'a>(members: &[Member<'a>], key: &str) -> Option<Field<'a>>
    ensures { option_map field_data result ≡ get_member key.now (members_in members.now) }
{
    let mut found = None;
    'members: for member in members {
        if member.key == key {
            found = Some(member.field);
        }
    }
    found
}
