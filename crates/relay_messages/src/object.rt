//! Objects in which members are looked up, no matter how they were read.

ghost use Rattle.std.specs.Prelude.{◌≡◌, is_some, option_map};
ghost use Rattle.serde_json.specs.Data.{Data};
ghost use Rattle.serde_json.specs.Find.{as_object, get};
ghost use Rattle.relay_messages.specs.Fields.{member_count, number_at, text_at};

pub mod any;
pub mod plain;
pub mod usual;

use crate::member::Field;
use any::AnyObject;
use plain::PlainObject;
use usual::Usual;

/// A JSON value in which members are looked up. One that is not an object has none.
pub trait Object {
    /// The JSON value that it represents.
    ghost said: { Self → Data };

    /// Whether it is an object.
    fn is_object(&self) -> bool
        ensures { result ≡ is_some (as_object (said self.now)) };

    /// How many members it has.
    fn count(&self) -> usize
        ensures { result ≡ member_count (said self.now) };

    /// The text of a member.
    fn text<'a>(&'a self, key: &str) -> Option<&'a str>
        ensures { option_map (λ text. text.now) result ≡ text_at key.now (said self.entry.now) };

    /// The unsigned whole number of a member.
    fn number(&self, key: &str) -> Option<u64>
        ensures { result ≡ number_at key.now (said self.now) };

    /// Whether there is a member with that key, of any form.
    fn has(&self, key: &str) -> bool
        ensures { result ≡ is_some (get key.now (said self.now)) };
}

impl<'t> Object for PlainObject<'t> {
    ghost use Rattle.relay_messages.specs.Plain.{plain_data};

    ghost said = { λ object. plain_data object };

    fn is_object(&self) -> bool {
        true
    }

    fn count(&self) -> usize {
        self.len()
    }

    fn text<'a>(&'a self, key: &str) -> Option<&'a str> {
        match self.get(key) {
            Some(Field::Text(text)) => Some(text),
            _ => None,
        }
    }

    fn number(&self, key: &str) -> Option<u64> {
        match self.get(key) {
            Some(Field::Number(number)) => Some(number),
            _ => None,
        }
    }

    fn has(&self, key: &str) -> bool {
        self.get(key).is_some()
    }
}

impl<'t> Object for AnyObject<'t> {
    ghost use Rattle.relay_messages.specs.Any.{any_data};

    ghost said = { λ object. any_data object };

    fn is_object(&self) -> bool {
        true
    }

    fn count(&self) -> usize {
        self.members().len()
    }

    fn text<'a>(&'a self, key: &str) -> Option<&'a str> {
        self.members().text(key)
    }

    fn number(&self, key: &str) -> Option<u64> {
        self.members().number(key)
    }

    fn has(&self, key: &str) -> bool {
        self.members().get(key).is_some()
    }
}

impl<'t> Object for Usual<'t> {
    ghost use Rattle.relay_messages.specs.Usual.{usual_data};

    ghost said = { λ usual. usual_data usual };

    #[inline(always)]
    fn is_object(&self) -> bool {
        true
    }

    #[inline(always)]
    fn count(&self) -> usize {
        match self {
            Usual::Spectator { .. } => 2,
            Usual::Move { .. } => 3,
            Usual::Follow { .. } => 3,
            Usual::FollowFrom { .. } => 4,
        }
    }

    #[inline(always)]
    fn text<'a>(&'a self, key: &str) -> Option<&'a str> {
        match *self {
            Usual::Spectator { cmd, .. } => match key {
                "cmd" => Some(cmd),
                _ => None,
            },
            Usual::Move { cmd, board, m } => match key {
                "cmd" => Some(cmd),
                "board" => Some(board),
                "move" => Some(m),
                _ => None,
            },
            Usual::Follow { cmd, board, .. } => match key {
                "cmd" => Some(cmd),
                "board" => Some(board),
                _ => None,
            },
            Usual::FollowFrom { cmd, board, .. } => match key {
                "cmd" => Some(cmd),
                "board" => Some(board),
                _ => None,
            },
        }
    }

    #[inline(always)]
    fn number(&self, key: &str) -> Option<u64> {
        match *self {
            Usual::Spectator { spectator, .. } => match key {
                "spectator" => Some(spectator),
                _ => None,
            },
            Usual::Move { .. } => None,
            Usual::Follow { spectator, .. } => match key {
                "spectator" => Some(spectator),
                _ => None,
            },
            Usual::FollowFrom {
                spectator,
                from,
                ..
            } => match key {
                "spectator" => Some(spectator),
                "from" => Some(from),
                _ => None,
            },
        }
    }

    #[inline(always)]
    fn has(&self, key: &str) -> bool {
        match self {
            Usual::Spectator { .. } => matches!(key, "cmd" | "spectator"),
            Usual::Move { .. } => matches!(key, "cmd" | "board" | "move"),
            Usual::Follow { .. } => matches!(key, "cmd" | "board" | "spectator"),
            Usual::FollowFrom { .. } => matches!(key, "cmd" | "board" | "spectator" | "from"),
        }
    }
}
