//! How a text is tried next.

/// The way in which a text is tried next. It says no more than which way is worth it: all of them read what `serde_json` reads.
#[derive(Clone, Copy, Drop)]
pub enum Next {
    /// As a compact object.
    Compact,
    /// As a plain object: it is longer than a compact object may be, does not end with a brace, or has white space, an escape or a value
    /// that none has.
    Plain,
    /// As any value: there are too many members for a plain object, or a key comes twice.
    Any,
}
