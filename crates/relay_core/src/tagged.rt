//! The names of boards with a number each, which tells most of them apart by one compare.

ghost use Rattle.std.specs.Prelude.{◌≡◌};
ghost use Rattle.relay_core.specs.Inner.Tag.{tag_after, tag_of};
ghost use Rattle.relay_core.specs.Name.{same_name};

use crate::name::BoardName;
use std::marker::Model;

/// The name of a board, and its tag. Contracts see the bytes of the name.
#[derive(Drop)]
pub(crate) struct TaggedName {
    name: BoardName,
    tag: u32,
}

impl Model for TaggedName {
    ghost use Rattle.std.specs.Prelude.{ℕ, List, ◌≡◌};
    ghost use Rattle.relay_core.specs.Inner.Tag.{tag_of};

    ghost Value = { List ℕ };

    ghost view = { λ t. t.name };

    ghost invariant = { λ t. t.tag ≡ tag_of t.name };
}

impl TaggedName {
    /// The name with its tag.
    pub(crate) fn new(name: BoardName) -> TaggedName
        ensures { result ≡ name }
    {
        TaggedName {
            name,
            tag: tag_of(&name),
        }
    }

    /// The name.
    pub(crate) fn name(&self) -> BoardName
        ensures { result ≡ self.now }
    {
        self.name
    }

    /// Its tag.
    #[inline(always)]
    pub(crate) fn tag(&self) -> u32
        ensures { result ≡ tag_of self.now }
    {
        self.tag
    }

    /// Whether the names are the same. Names of different tags differ, so that the bytes are compared only where the tags are equal.
    #[inline(always)]
    pub(crate) fn is_same(&self, other: &TaggedName) -> bool
        ensures { result ≡ same_name self.now other.now }
    {
        self.tag == other.tag && self.name == other.name
    }
}

/// The tag of a name: its bytes as the digits of a number to the base 257, of which 32 bits are kept. Names of one length that differ in
/// their last three bytes alone have different tags.
fn tag_of(name: &BoardName) -> u32
    ensures { result ≡ tag_of name.now }
{
    name.as_bytes()
        .iter()
        .fold(0, |tag, &byte| tag_after(tag, byte))
}

/// The tag with one more byte.
fn tag_after(tag: u32, byte: u8) -> u32
    ensures { result ≡ tag_after tag byte }
{
    ((u64::from(tag) * 257 + u64::from(byte)) % 4294967296) as u32
}
