//! Objects of any form. Of their members, the texts and the unsigned whole numbers are kept, since no command asks for another value.

ghost use Rattle.std.specs.Prelude.{◌≡◌, ◌≤◌, OnOk, Some, length, option_and_then, option_map};
ghost use Rattle.serde_json.specs.Data.{no_members, put};
ghost use Rattle.serde_json.specs.Events.{members_len};
ghost use Rattle.serde_json.specs.Find.{as_number, as_str, as_u64, get_member};
ghost use Rattle.serde_json.specs.Read.{read as read_text};
ghost use Rattle.relay_messages.specs.KeptValues.{kept_object};
ghost use Rattle.relay_messages.specs.Members.{field_data, members_in};

use crate::member::{Field, Member};
use crate::object::plain::find;
use std::alloc::{AllocError, Global};

/// What is kept of the members of an object.
#[derive(Drop)]
pub struct KeptMembers<'a> {
    members: Vec<Member<'a>>,
    /// How many different keys there are: a key may be repeated.
    count: usize,
    ghost counted: { members_len (members_in members.items) ≡ count },
    ghost within: { count ≤ length members.items },
}

impl<'a> KeptMembers<'a> {
    /// No members.
    pub fn new(alloc: Global) -> KeptMembers<'a>
        ensures { members_in result.members.items ≡ no_members }
    {
        KeptMembers {
            members: Vec::new(alloc),
            count: 0,
        }
    }

    /// How many members there are.
    pub fn len(&self) -> usize
        ensures { result ≡ members_len (members_in self.now.members.items) }
    {
        self.count
    }

    /// The value of the member with that key.
    pub fn get(&self, key: &str) -> Option<Field<'a>>
        ensures { option_map field_data result ≡ get_member key.now (members_in self.now.members.items) }
    {
        find(self.members.as_slice(), key)
    }

    /// The text of a member.
    pub fn text(&self, key: &str) -> Option<&'a str>
        ensures { option_map (λ text. text.now) result ≡ option_and_then as_str (get_member key.now (members_in self.now.members.items)) }
    {
        match self.get(key) {
            Some(Field::Text(text)) => Some(text),
            _ => None,
        }
    }

    /// The unsigned whole number of a member.
    pub fn number(&self, key: &str) -> Option<u64>
        ensures { result ≡ option_and_then as_u64 (option_and_then as_number (get_member key.now (members_in self.now.members.items))) }
    {
        match self.get(key) {
            Some(Field::Number(number)) => Some(number),
            _ => None,
        }
    }

    /// Adds a member, replacing the one with that key if there is one.
    ///
    /// # Errors
    ///
    /// There was no memory.
    pub fn add(&mut self, key: &'a str, field: Field<'a>) -> Result<(), AllocError>
        ensures { OnOk result (members_in self.new.members.items
            ≡ put key.now (field_data field.entry) (members_in self.old.members.items)) }
    {
        let is_known = self.get(key).is_some();
        self.members.push(Member { key, field })?;
        if is_known {
            return Ok(());
        }
        self.count += 1;
        Ok(())
    }
}

/// An object of any form, with its text.
#[derive(Drop)]
pub struct AnyObject<'a> {
    text: &'a str,
    members: KeptMembers<'a>,
    ghost read: { ∥ kept_object (read_text text.now) ≡ Some (members_in members.members.items) ∥₁ },
}

impl<'a> AnyObject<'a> {
    /// The object with this text and these members.
    pub fn new(text: &'a str, members: KeptMembers<'a>) -> AnyObject<'a>
        requires { kept_object (read_text text.now) ≡ Some (members_in members.members.items) }
        ensures { result.text.now ≡ text.now }
    {
        AnyObject { text, members }
    }

    /// What is kept of its members.
    pub fn members(&self) -> &KeptMembers<'a>
        ensures { result.now ≡ self.now.members }
    {
        &self.members
    }
}
