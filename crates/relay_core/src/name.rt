//! The names of boards.

ghost use Rattle.std.specs.Prelude.{◌≡◌, ◌↔◌, ◌≤◌, IsSome, IfSome, length};
ghost use Rattle.std.specs.List.{list_all};
ghost use Rattle.relay_core.specs.Name.{IsName, filled, is_name, is_name_byte as is_in_names};

use std::marker::Model;
use std::{fmt, str};

/// The name of a board: 1 to 32 bytes of `A` to `Z`, `a` to `z`, `0` to `9`, `_` and `-`. Contracts see these bytes.
#[derive(Clone, Copy, PartialEq, Eq, Hash, Debug)]
pub struct BoardName {
    length: u8,
    bytes: [u8; 32],
}

impl Model for BoardName {
    ghost use Rattle.std.specs.Prelude.{ℕ, List, ◌≡◌, ◌≤◌, length as length_of, take};
    ghost use Rattle.std.proofs.Common.{sym};
    ghost use Rattle.relay_core.specs.Name.{IsName, filled};
    ghost use Rattle.relay_core.specs.Inner.NameFields.{length-front, is_short};

    ghost Value = { List ℕ };

    ghost view = { λ n. take n.length n.bytes };

    // The bytes after the name are zeros, so that equal names have equal fields.
    ghost invariant = { λ n. (n.length ≤ 32) × IsName (take n.length n.bytes) × (n.bytes ≡ filled (take n.length n.bytes)) };

    ghost inverse = { λ text. record { length = length_of text; bytes = filled text } };

    ghost inverse_ok = { λ n h i. record {
      length = length-front n.length n.bytes h.0 (is_short (take n.length n.bytes) h.1) h.2 i;
      bytes = sym h.2 i;
    } };
}

impl BoardName {
    /// The name with these bytes, or None if they are not a name.
    #[tactic(auto, using(crate::proofs::NameFacts::fields_of_name))]
    pub fn new(text: &[u8]) -> Option<BoardName>
        ensures some { IsSome result ↔ IsName text.now }
        ensures value { IfSome result (λ name. name ≡ text.now) }
    {
        if !is_name(text) {
            return None;
        }
        Some(BoardName {
            length: text.len() as u8,
            bytes: with_zeros(text),
        })
    }

    /// The bytes of the name.
    pub fn as_bytes(&self) -> &[u8]
        ensures value { result.now ≡ self.now }
        ensures valid { IsName self.now }
    {
        &self.bytes[..usize::from(self.length)]
    }

    /// The name as text.
    #[tactic(auto, using(crate::proofs::NameText::name_is_utf8))]
    pub fn as_str(&self) -> &str
        ensures value { result.now ≡ self.now }
        ensures valid { IsName self.now }
    {
        str::from_utf8(self.as_bytes()).unwrap()
    }
}

impl fmt::Display for BoardName {
    ghost use Rattle.std.specs.Prelude.{Some};

    ghost output = { λ name. Some name };

    fn fmt<W: fmt::Write>(&self, f: &mut fmt::Formatter<W>) -> fmt::Result {
        f.write_str(self.as_str())
    }
}

/// The text, padded with zeros.
#[tactic(auto, using(crate::proofs::NameFacts::zeros_behind))]
fn with_zeros(text: &[u8]) -> [u8; 32]
    requires { length text.now ≤ 32 }
    ensures { result ≡ filled text.now }
{
    let mut bytes = [0; 32];
    bytes[..text.len()].copy_from_slice(text);
    bytes
}

/// Whether the text is a name.
fn is_name(text: &[u8]) -> bool
    ensures value { result ≡ is_name text.now }
{
    (1..=32).contains(&text.len()) && are_name_bytes(text)
}

/// Whether each byte may occur in a name.
fn are_name_bytes(text: &[u8]) -> bool
    ensures value { result ≡ list_all is_in_names text.now }
{
    text.iter().all(|&byte| is_name_byte(byte))
}

/// Whether the byte may occur in a name.
fn is_name_byte(byte: u8) -> bool
    ensures value { result ≡ is_in_names byte }
{
    matches!(byte, b'A'..=b'Z' | b'a'..=b'z' | b'0'..=b'9' | b'_' | b'-')
}
