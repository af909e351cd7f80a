//! A member of an object.

/// The value of a member.
#[derive(Clone, Copy, Drop)]
pub enum Field<'a> {
    /// A text, without its escapes.
    Text(&'a str),
    /// An unsigned whole number.
    Number(u64),
    /// Another value, of which nothing is kept. A plain object has none.
    Other,
}

impl<'a> Default for Field<'a> {
    fn default() -> Field<'a> {
        Field::Number(0)
    }
}

/// A member of an object.
#[derive(Clone, Copy, Default, Drop)]
pub struct Member<'a> {
    /// Its key.
    pub key: &'a str,
    /// Its value.
    pub field: Field<'a>,
}
